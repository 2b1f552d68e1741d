//! What wrong bodies of `pua_steps`, `pua_audit`, `pua_objects`, `pua_ever`, `pua_io`, `pua_words`,
//! `pua_texts` and `pua_tool` would answer: each function meets such an answer and is proved never
//! to, by the contracts of what it calls alone. So no body that gives the answer can be proved. A
//! function is named for the wrong body, and its doc says what holds. (`pua_refused` has those of
//! the libraries from `pua_tree` to `pua_script`, but for those of what closes all descriptors,
//! which are here.)
#![tactic(auto)]

mod audit;
mod ever;
mod io;
mod objects;
mod roots;
mod steps;
mod texts;
mod tool;
mod words;
