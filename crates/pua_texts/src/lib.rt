//! The lines of texts, added to blocks of bytes on their way to a sink, and the lists that they
//! make: of answers, of pairs, of objects, of now and for ever, of the state of a process, and of
//! reasons. Lists are made first, and then written by one call, which takes all its memory before
//! it writes.
#![tactic(auto)]

mod answers;
mod audit_list;
mod beside_list;
mod block;
mod calls_text;
mod copies;
mod endings;
mod ever_list;
mod fault;
mod file_lines;
mod kept_path;
mod laws;
mod line;
mod list_line;
mod lists;
mod member_states;
mod members;
mod named_lines;
mod object_lines;
mod object_lists;
mod openings;
mod places;
mod process_head;
mod process_list;
mod root_line;
mod state;
mod together_list;
mod veil_columns;
mod veil_line;
mod why_lists;

pub use answers::{answer_text, front_text};
pub use audit_list::{AuditList, write_audit};
pub use beside_list::begin_beside;
pub use ever_list::{begin_ever, begin_ever_with};
pub use fault::TextFault;
pub use laws::state_law;
pub use lists::write_lists;
pub use members::{Helped, Joined, Member};
pub use object_lists::{begin_image, begin_objects};
pub use process_list::ProcessList;
pub use together_list::begin_together;
pub use why_lists::begin_reasons;
