//! How promises are read.

use pua_calls::Promises;
use pua_path::Errno;

/// A text without bytes names the empty set of promises.
fn no_text_refused() {
    if Promises::read(b"") != Ok(Promises::NONE) {
        unreachable!()
    }
}

/// A word without bytes is no keyword.
fn empty_word_accepted() {
    if Promises::read(b",") != Err(Errno::EINVAL) {
        unreachable!()
    }
}

/// A permission of unveil(2) is no keyword, and `xpath` isn't one.
fn keyword_37_accepted() {
    if Promises::read(b"xpath") != Err(Errno::EINVAL) {
        unreachable!()
    }
}

/// A keyword may be repeated.
fn repeated_keyword_refused() {
    if Promises::read(b"rpath,rpath") != Ok(Promises::RPATH) {
        unreachable!()
    }
}

/// The keyword `unveil` names the promise of unveil(2).
fn unveil_is_proc() {
    if Promises::read(b"unveil") != Ok(Promises::UNVEIL) {
        unreachable!()
    }
}
