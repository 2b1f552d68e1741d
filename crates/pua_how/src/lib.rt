//! Ways to what a process can ever touch: requests that are served one after another, up to a call.
#![tactic(auto)]

mod about;
mod laws;
mod line;
mod outlook;
mod path_question;
mod plan;
mod serve;
mod spelled;
mod step;
mod target;
mod trials;
mod way;

pub use about::target_of;
pub use laws::{how_examples, how_law, listed_examples, meaning_law};
pub use line::WayLine;
pub use outlook::{Outlook, find_outlook};
pub use path_question::{Meant, PathQuestion, find_meant, last_number};
pub use plan::Planner;
pub use serve::serve_way;
pub use step::{At, Dir, Step};
pub use target::Target;
pub use trials::Trials;
pub use way::{BestPlans, NoWay};
