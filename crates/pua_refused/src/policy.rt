//! Wrong bodies of `pua_policy`.

mod allowed;
mod descriptors;
mod execs;
mod pledges;
mod processes;
mod promised;
mod veils;
mod verdicts;
