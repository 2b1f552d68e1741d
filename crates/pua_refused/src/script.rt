//! Wrong bodies of `pua_script`.

mod lines;
mod requests;
mod worlds;
