//! Wrong bodies of `pua_calls`.

mod effects;
mod keywords;
mod names;
mod needs;
mod pairs;
mod perms;
mod promises;
mod rules;
mod sets;
mod tables;
