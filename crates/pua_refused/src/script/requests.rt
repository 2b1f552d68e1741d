//! Of scripts and of the requests that they have.

use pua_calls::{Perms, Promises, Rules};
use pua_script::{Action, Given, read_request, read_script, read_script_by};
use std::alloc::Global;

/// A line that has no request is a fault of the script.
fn bad_line_skipped(alloc: Global) {
    let Ok(_script) = read_script(alloc, b"stat /\n") else {
        return;
    };
    unreachable!()
}

/// A script of a line has a request.
fn no_requests(alloc: Global) {
    let Ok(script) = read_script(alloc, b"1 exit\n") else {
        return;
    };
    if script.requests().is_empty() {
        unreachable!()
    }
}

/// So have the requests that it gives away.
fn no_requests_given_away(alloc: Global) {
    let Ok(script) = read_script(alloc, b"1 exit\n") else {
        return;
    };
    if script.into_requests().is_empty() {
        unreachable!()
    }
}

/// A pledge that is given other promises has them.
fn lists_stay(alloc: Global) {
    let Ok(mut request) = read_request(alloc, 1, b"1 pledge rpath -") else {
        return;
    };
    request.set_lists(Given::Good(Promises::NONE), Given::Null);
    let Action::Pledge(Given::Good(promises), _) = request.action() else {
        unreachable!()
    };
    if *promises != Promises::NONE {
        unreachable!()
    }
}

/// An unveil that is given other permissions has them.
fn perms_stay(alloc: Global) {
    let Ok(mut request) = read_request(alloc, 1, b"1 unveil / r") else {
        return;
    };
    request.set_perms(Some(Perms::NONE));
    let Action::Unveil(_, Some(perms)) = request.action() else {
        unreachable!()
    };
    if *perms != Perms::NONE {
        unreachable!()
    }
}

/// The process that asks is the one that the line names.
fn process_is_the_first(alloc: Global) {
    let Ok(script) = read_script(alloc, b"2 exit\n") else {
        return;
    };
    let Some(request) = script.requests().first() else {
        unreachable!()
    };
    if request.process() != 2 {
        unreachable!()
    }
}

/// A path has the bytes that its line spells.
fn without_path_bytes(alloc: Global) {
    let Ok(script) = read_script(alloc, b"1 stat /\n") else {
        return;
    };
    let Some(request) = script.requests().first() else {
        unreachable!()
    };
    let Action::OnPath(_, path) = request.action() else {
        unreachable!()
    };
    if path.bytes().is_empty() {
        unreachable!()
    }
}

/// A call without a path asks for the promises that its line names.
fn without_sets(alloc: Global) {
    let Ok(script) = read_script_by(alloc, Rules::Openbsd, b"1 uses inet\n") else {
        return;
    };
    let Some(request) = script.requests().first() else {
        unreachable!()
    };
    let Action::Uses(any) = request.action() else {
        unreachable!()
    };
    if any.sets().is_empty() {
        unreachable!()
    }
}
