//! What wrong bodies of the libraries up to `pua_script` would answer: each function meets such an
//! answer and is proved never to, by the contracts of what it calls alone. So no body that gives
//! the answer can be proved. A function is named for the wrong body, and its doc says what holds.
#![tactic(auto)]

mod calls;
mod path;
mod policy;
mod script;
mod tree;
