//! Wrong bodies of `pua_path`.

mod named;
mod probes;
mod texts;
