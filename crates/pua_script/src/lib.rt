//! Scripts of calls, and a world of processes over one tree.
#![tactic(auto)]

mod act;
mod answer;
mod any_of;
mod canonical;
mod comment;
mod descriptor;
mod fault;
mod fork;
mod front;
mod futures;
mod granted;
mod held;
mod judged;
mod laws;
mod limits;
mod line;
mod link;
mod opening;
mod origin;
mod pair;
mod process;
mod rename;
mod request;
mod root;
mod script;
mod take;
mod world;

pub use answer::Answer;
pub use any_of::{AnyOf, asks_promises, further_set};
pub use comment::{is_blank, text_in};
pub use descriptor::{letters_opened, read_descriptor, read_open};
pub use fault::{ScriptFault, WorldFault};
pub use front::before_long;
pub use futures::{
    bytes_law, confined_law, devices_law, error_table_examples, families_law, holding_law,
    openings_law, others_law, steps_law, table_law,
};
pub use laws::{
    decide_law, limits_law, pasts_law, replay_examples, replay_law, room_law, script_examples,
    script_law,
};
pub use limits::{MOST_DESCRIPTOR, MOST_NUMBER, MOST_PROCESSES, MOST_SCRIPT_LINES};
pub use line::{has_empty_word, is_dash, is_equals, read_request, read_request_by};
pub use opening::{Opening, opening_of, openings};
pub use rename::asks_directory;
pub use request::{Action, Given, PathBytes, Request};
pub use script::{Script, read_script, read_script_by};
pub use take::sent_by;
pub use world::World;
