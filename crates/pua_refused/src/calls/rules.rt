//! OpenBSD's rules.

use pua_calls::{Call, CallTable, ExecPromises, Perms, Promises, Rules};
use pua_path::Last;
use pua_tree::{FileType, Kind};
use std::alloc::Global;

/// The rules of OpenBSD are those of its table, by which link follows a link at its old path's end.
fn rules_of_openbsd_are_standard() {
    let table = CallTable::of(Rules::Openbsd);
    if table.link().old_name().last() != Last::Followed {
        unreachable!()
    }
}

/// By OpenBSD's rules execpromises stay after an exec.
fn execpromises_always_unset() {
    if let ExecPromises::Unset = CallTable::openbsd().execpromises() {
        unreachable!()
    }
}

/// And by the standard ones they are unset.
fn execpromises_always_stay() {
    if let ExecPromises::Stay = Rules::Standard.execpromises() {
        unreachable!()
    }
}

/// By the standard rules nothing is known of a file that is made.
fn made_file_always_plain() {
    if Rules::Standard.file() != Kind::File {
        unreachable!()
    }
}

/// By OpenBSD's rules a file that is made is a plain one.
fn made_file_may_be_a_socket() {
    if Rules::Openbsd.file() != Kind::Known(FileType::Plain) {
        unreachable!()
    }
}

/// The table of OpenBSD's rules says whose it is.
fn table_always_standard() {
    if let Rules::Standard = CallTable::openbsd().rules() {
        unreachable!()
    }
}

/// By OpenBSD's rules chmod needs rpath beside fattr.
fn openbsd_chmod_reads_nothing() {
    let table = CallTable::openbsd();
    let Some(set) = table.alternatives(Call::Chmod).first() else {
        unreachable!()
    };
    if *set != Promises::RPATH.union(Promises::FATTR) {
        unreachable!()
    }
}

/// A text over OpenBSD's rules leaves what link needs.
fn text_takes_openbsd_link_back(alloc: Global, text: &[u8]) {
    let Ok(table) = CallTable::openbsd().read_over(alloc, text) else {
        return;
    };
    if table.link().old_name().perms() != Perms::READ {
        unreachable!()
    }
}

/// Lists say that the rules are OpenBSD's.
fn openbsd_is_not_told() {
    if !Rules::Openbsd.is_told() {
        unreachable!()
    }
}

/// By OpenBSD's rules promises open paths, and by the standard ones none does.
fn openings_of_other_rules() {
    if !Rules::Openbsd.has_openings() || Rules::Standard.has_openings() {
        unreachable!()
    }
}

/// The word of the standard rules is `profile`.
fn rules_have_another_word() {
    if Rules::Standard.word() != "profile" {
        unreachable!()
    }
}

/// The word `openbsd` names OpenBSD's rules.
fn openbsd_names_the_standard_rules() {
    if Rules::named(Some("openbsd")) != Rules::Openbsd {
        unreachable!()
    }
}

/// What is wrong with a file for chdir is that it is no directory.
fn files_suit_as_directories() {
    if Call::Chdir.fits().on(Kind::File).is_none() {
        unreachable!()
    }
}
