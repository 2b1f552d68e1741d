//! How the program is used, and what it prints for one who asks for help.

/// How runs and audits are asked for, in one line.
pub(crate) const PROGRAM_USAGE: &str =
    "pua: usage: pua run [--table FILE] TREE SCRIPT; pua audit --limit N [--process P] [--base root|cwd] [--after CALL:PATH] [--table FILE] TREE SCRIPT [NAME...]";

/// How a list of objects is asked for, of now or for ever, in one line.
pub(crate) const OBJECTS_USAGE: &str =
    "pua: usage: pua objects [--ever] [--how|--why] [--images] [--process P,...|all] [--beside Q,...|all] [--below PATH] [--at N] [--rules profile|openbsd] [--table FILE] TREE SCRIPT";

/// How it is asked why a request is answered as it is, in one line.
pub(crate) const WHY_USAGE: &str =
    "pua: usage: pua why [--process P] [--at N] [--rules profile|openbsd] [--table FILE] TREE SCRIPT CALL [ARG...]";

/// How the listing of the tree after a script is asked for, in one line.
pub(crate) const TREE_USAGE: &str =
    "pua: usage: pua tree [--at N] [--rules profile|openbsd] [--table FILE] TREE SCRIPT";

/// How a script is asked for without what none of its answers needs, in one line.
pub(crate) const TIGHT_USAGE: &str =
    "pua: usage: pua tight [--why] [--rules profile|openbsd] [--table FILE] TREE SCRIPT";

/// How a way is asked for to what can ever be touched, in one line.
pub(crate) const HOW_USAGE: &str =
    "pua: usage: pua how [--process P] [--at N] [--rules profile|openbsd] [--table FILE] TREE SCRIPT CALL PATH [KIND]";

pub(crate) const PUA: &str =
    "Lists what a pledged and unveiled process may still do to a file tree";

pub(crate) const RUN: &str = "Serves the calls of a script over a tree, and prints each answer";

pub(crate) const TREE_AFTER: &str = "Serves a script, then lists the tree that it leaves";

pub(crate) const OBJECTS: &str =
    "Serves a script, then lists each object and the calls still allowed";

pub(crate) const WHY: &str = "Serves a script, then says what decides one more call";

pub(crate) const TIGHT: &str = "Writes a script without the rights that its answers do not need";

pub(crate) const HOW: &str = "Serves a script, then says how a call can come to be granted";

pub(crate) const AUDIT: &str = "Serves a script, then lists each path and call still allowed";

pub(crate) const RULES: &str = "Whose rules: profile or openbsd";

pub(crate) const TABLE: &str = "File with what the calls need, in TOML";

pub(crate) const TREE: &str = "File with the listing of the tree";

pub(crate) const SCRIPT: &str = "File with the calls to serve first; it may be empty";

pub(crate) const NAMES: &str = "Further components to try, spelled as in TREE: at most 1024";

pub(crate) const LIMIT: &str = "Most components of a path, from 0 to 16";

pub(crate) const PROCESS: &str = "Number of the process, from 1 to 999999";

pub(crate) const EVER: &str = "List all that it and what it forks can ever touch";

pub(crate) const RUN_WHY: &str = "Say why, behind each answer that is not ok";

pub(crate) const EVER_HOW: &str = "Say in how many steps a call comes, with --ever";

pub(crate) const OBJECTS_WHY: &str = "Say by which promises, and by which veil";

pub(crate) const IMAGES: &str = "List it also as it was before each of its execs";

pub(crate) const TIGHT_WHY: &str = "Say by which line each promise and letter is needed";

pub(crate) const CALL: &str = "The call, spelled as in SCRIPT";

pub(crate) const ARGUMENTS: &str = "Its arguments, spelled as in SCRIPT";

pub(crate) const HOW_CALL: &str = "The call, one with one path";

pub(crate) const HOW_PATH: &str = "What it is about, as a list for ever prints it, or `new`";

pub(crate) const HOW_KIND: &str =
    "Which line: dir, file, prog, link, sock, fifo, dev, missing, other";

pub(crate) const AT: &str = "Serve no line of SCRIPT behind line N";

pub(crate) const PROCESSES: &str = "Process number, 1 to 999999, or `all`";

pub(crate) const BESIDE: &str = "With the help of these, with --ever";

pub(crate) const BELOW: &str = "Only lines at or below it, with --ever --how";

pub(crate) const BASE: &str = "Where paths begin";

pub(crate) const AFTER: &str = "Print only what comes after this pair";

/// The formats of the inputs.
pub(crate) const INPUTS: &str = "\
TREE has a line for each directory, file, program and link; numbers rise:
  tree 2
  0 dir
  1 dir 0 etc
  2 file 1 passwd
  3 prog 0 sh
  4 link 0 conf etc
  5 hard 0 users 2
A line is NUMBER KIND PARENT NAME, and for a link its target after the name.
A `hard` line is a further name, here /users, of the node of an earlier line.
After `tree 3` a `file` is a plain file, and there are `sock`, `fifo` and `dev`
lines, `any` for what may be any of these, as `file` may after the others, and
`mount` for a directory where another file system is mounted.

SCRIPT has a line for each call: a process, the call, and its arguments.
  1 unveil /etc r
  1 unveil - -
  1 pledge stdio,rpath -
  1 stat /etc/passwd
Process 1 is there from the start; `1 fork 2` makes process 2. For pledge and
unveil `-` is NULL; `=` is an empty text.

FILE, of `--table`, has a row for each call that needs something else than by
the rules: all promises of one of some lists, and letters of a veil.
  [mkdir]
  promises = [\"cpath\", \"dpath\"]
  veil = \"c\"

With `--rules openbsd` chmod, rename and link need what OpenBSD is known to ask
of them, connect and bind of a socket at a path, mknod, chown, create-rw, fchmod
and fchown are calls, and execpromises stay after an exec. This was tried on no
kernel.

In names and paths a backslash, and each byte that is not visible ASCII, is
written as a backslash and three octal digits: `a\\040b`.

Example: pua objects TREE SCRIPT
`pua run --help` lists the calls of a SCRIPT, and what is behind each fault.";

/// What a command prints, and after it what all commands share: the calls of a script, and what is
/// after each fault; and then the faults of this command alone.
macro_rules! with_calls_and_faults {
    ($output:literal, $faults:literal) => {
        concat!(
            $output,
            "\n\n\
A line of SCRIPT is a process P, a call and its arguments, one blank between:
  P stat|lstat|readlink|open-r|open-w|open-rw|create PATH
  P mkdir|rmdir|unlink|chmod|chdir|exec PATH
  P connect|bind|mknod|chown|create-rw|fchmod|fchown PATH
  P access|statfs|truncate|chflags|utimes|mkfifo PATH
                                  (both with `--rules openbsd` alone)
  P symlink TARGET PATH
  P rename|link OLD NEW
  P pledge PROMISES EXECPROMISES  (with commas between; - is NULL, = is none)
  P unveil PATH LETTERS           (of r, w, x and c, = is none; `- -` locks)
  P fork Q                        (Q is the number of the new process)
  P exit
  P hold N open-r|open-w|open-rw PATH
  P close|fchdir N
  P take N Q M                    (what process Q has as descriptor M)
  P chroot PATH                   (these five with `--rules openbsd` alone)

A fault is a line on standard error. It says, or most often comes from:
  table: bad toml      FILE is no TOML document
  table: bad key       a key is not the name of a call from stat to exec, nor of
                       connect to fchown with `--rules openbsd`
  table: .. bad row    not the two keys `promises`, an array, and `veil`, a text
  table: .. bad promises, bad veil
                       an unknown keyword or letter; no row may have `error`
  listing: bad header  TREE and SCRIPT are exchanged
  bad line             a tab, two blanks, a blank at the end, a comment or an
                       empty line (both fine in SCRIPT with `--rules openbsd`);
                       in SCRIPT the process was left out
  bad number           a line was put in, and its number does not rise
  bad parent           a file has this number, or the directory comes later
  bad name, bad target, bad path
                       a slash in a name; a byte is not written as it has to be
  bad node             a `hard` line for a directory, or for a `hard` line
  name taken           the directory has this name: a line stands there twice
  too many nodes       TREE has more than 4096: begin it with `tree 3`
  bad call             `open` for `open-r`, blanks between promises, or the
                       second argument of pledge or unveil was left out
  bad list             a comma too many, or `-` for no letters, which is `=`
  too many lines       SCRIPT has more than 60000
  cannot read FILE     it is missing, is no file, or has over 67108864 bytes
  cannot write         the disk is full, or the reader is gone, as of `| head`
  out of memory        memory was refused",
            $faults
        )
    };
}

pub(crate) const RUN_OUTPUT: &str = with_calls_and_faults!(
    "\
Prints `N ANSWER` for each line N: ok, the name of an error, killed or gone.

With `--why` a line whose answer is not ok goes on with the reason, and then, if
it was not so from the start, with `since line M`: before that line of SCRIPT
the same call would have had another reason.
  killed no wpath since line 10    a promise that the process does not hold
  ENOENT no veil on /d/f or above  no veil covers what the path names
  EACCES no w in veil r on /d      the veil that does lacks a letter
  ENOENT old: /d is missing        of two paths it says which one it is about
pua(1) lists all reasons.",
    "
  no such line         SCRIPT ends before the line that `--at` names"
);

pub(crate) const TREE_OUTPUT: &str = with_calls_and_faults!(
    "\
Serves SCRIPT, and prints the listing of the tree that it leaves: a TREE, which
is read as this tree under new numbers. Its lines count from 1, a name comes in
front of what is beneath it, and the names of a directory by their bytes. It
begins with `tree 1`; with `tree 2` where something has two names; and with
`tree 3` where TREE began so, there are over 4096 lines, or something is known
to be a plain file, a socket, a fifo or a device.

Example: pua tree TREE SCRIPT > LATER",
    "
  no such line         SCRIPT ends before the line that `--at` names
  tree: too many names the tree behind SCRIPT has more than 1000000"
);

pub(crate) const WHY_OUTPUT: &str = with_calls_and_faults!(
    "\
Serves `P CALL ARG...` behind the last line of SCRIPT, and prints a line for
each of these that it passes, and then its answer as `pua run --why` has it:
  needs PROMISES       those by which it is let through, all of them held
  link PATH to TARGET  a link that its path follows
  names KIND PATH      what its path names: dir, file, prog, link, sock, fifo,
                       dev or missing
  veil LETTERS on PATH since line M
                       the veil that covers this; or `no veils`
  ANSWER REASON since line M
Where a call has two paths, `old: ` or `new: ` stands before what is said of
one. An ARG that is `-` is NULL, as in SCRIPT; one that begins with `-` has to
stand behind `--`.

Example: pua why --process 2 TREE SCRIPT rename /tmp/new /etc/passwd",
    "
  no such line         SCRIPT ends before the line that `--at` names
  request: line 1: ..  CALL and what is behind it are no line of SCRIPT: one of
                       the faults above"
);

pub(crate) const TIGHT_OUTPUT: &str = with_calls_and_faults!(
    "\
Prints SCRIPT without each promise, execpromise and letter of a veil that none
of its answers needs: what is printed is answered as SCRIPT is, line by line,
and without any one more of them some line is not. All else stays as it stands:
`error`, promises that no call asks for (as stdio), lines that are not answered
ok, places of veils and the order; = stands where nothing is left of a list.

With `--why` it prints a line for each of them instead, by the lines of SCRIPT:
  N promises WORD needed by M  of what is left: without it line M would be
                               answered otherwise, and no line before it
  N promises WORD spare        it is left out; with `--rules openbsd` the calls
                               without a path that ask for it stand behind this
The same with `execpromises` for the second argument of pledge, and with `veil`
and a letter for unveil.

It knows the calls of SCRIPT and no others: what only a call needs that SCRIPT
lacks, as an open that comes now and then, or connect(2), is left out too.

Example: pua tight TREE SCRIPT | diff SCRIPT -",
    ""
);

pub(crate) const HOW_OUTPUT: &str = with_calls_and_faults!(
    "\
Serves SCRIPT, and says how process P can come to be granted CALL, by its own
doing, on what stands at PATH then, wherever it is moved. It prints one of:
  lines of a script     each was answered ok behind SCRIPT, and the last is CALL
                        on this thing: `>> SCRIPT` appends them
  never                 no line of the list for ever has CALL on it: whatever P
                        and what it forks do, none of them has the rights for
                        it; what a promise opens by itself is not among these
  never before an exec  the same, until they start a program; behind `exec open`
  no way found          a line has CALL on it, and there may be a way or none
This is so as long as nobody else changes the tree. To exec a file that they can
write or make, no way is found: in a script no file becomes a program.
PATH is as `pua objects --ever` prints it, and no link on it is followed; or it
is `new`, for what can be made. A file is meant by all of its names; a name with
nothing there is one of the `other` names of its directory, or `missing` with a
veil of its own. Where CALL is in more than one line of PATH it is the shortest
way of all, and with KIND that of this line. New names are `new`, `new2` and so
on, and a new link leads to `target`.

Example: pua how TREE SCRIPT open-r /in/secret",
    "
  no such line         SCRIPT ends before the line that `--at` names
  no such process      no fork of SCRIPT made it: its answer says why
  process P can still unveil
                       it has to be locked, or without the promise `unveil`
  table: CALL: no c    by the table rmdir, unlink, create, mkdir, symlink,
                       bind, mknod, create-rw, rename and link all have to need
                       the letter c
  how: bad call        CALL is none of those from stat to exec, nor connect to
                       fchown with `--rules openbsd`
  how: bad path        PATH is neither `new` nor `/` with names, as in a list
  how: no such thing   what stands before the last name of PATH is no directory,
                       or nothing there is of this KIND
  how: a link, which CALL follows
                       CALL is on what the link at PATH leads to: ask about the
                       path of that"
);

pub(crate) const OBJECTS_OUTPUT: &str = with_calls_and_faults!(
    "\
Prints what `pua run` prints, then `objects P`, then the state of process P:
  process alive       or `process ended`, which has no further line
  rules openbsd       with `--rules openbsd`
  promises LIST       - where none were ever pledged, = for none
  execpromises LIST   the same of those of the program that it starts
  unveil locked       or given-up, where it lacks the promise `unveil`; or open:
                      it may put further veils, and the list holds for now alone
  root PATH closed    with `--rules openbsd`: where its root is, unless that is
                      TREE's; - where it was removed. The list has what is at or
                      below PATH; or `root PATH open`: paths lead out of it
  opening PATH CALLS  with `--rules openbsd`: what a promise opens by itself. No
                      line of an object tells of it, but that those for ever
                      have the calls of tmppath. No veil hides it, unless
                      `veils` stands behind it. With a slash at the end of PATH
                      it is each path below
  veil PATH LETTERS   a line for each veil, = for no letters; PATH is where its
                      place stands now, - where the directory was removed
  no veils            where it has none: it touches what is not listed too
  held N KIND PATH USES
                      with `--rules openbsd`: a line for each path of what it
                      has open as descriptor N, or one with - where that has no
                      name; USES are read, write, chdir, chmod and chown, as the
                      promises let them, whatever the veils are; = for none
Then `KIND PATH CALLS` for each object on which a call is allowed. KIND is dir,
file, prog, link, sock, fifo or dev; missing, a name that is not there but has a
veil of its own; or other, all further names of the directory PATH. The calls
stand in one order, with commas between them. With `--process 1,2,..` the lists
of these processes come one after another, and with `--process all` those of all
that were made.

With `--images` lists of what these processes were stand before those of now: of
each line N with an exec of one of them that is ok `objects P before N`, and
what the list of P has where the lines before N are all of SCRIPT.

With `--ever` the heading is `ever P`, and a line has all calls that can ever be
allowed on a thing, whatever process P and what it forks do: on what stands at
PATH now, wherever it is moved, and in the end on what they can make: `dir new`,
`other new` (the names in such a directory), `file new`, `link new`, and with
`--rules openbsd` `sock new` and `fifo new`. Of execs the state has `exec
bounded`, and what they start is in the list, whatever it does; or `exec open`,
and the list holds until an exec succeeds; or nothing, and then no exec of
theirs can succeed. With `--rules openbsd` the state can have `receive open`:
what is open may come from others too.
It is a list of one process, which can put no veil any more. With `--process
1,2,..` or `--process all` it is one list of what several can ever touch
together; those of them that live need the same veils. Then the heading is
`ever 1,2`, and a state has the number in its first line: `process 2 ended`.

With `--ever --beside 2,..` or `--beside all` it is a list of each process of
`--process`, one after another: of what that process can ever touch where these
others help it, all of them together, whatever veils and promises each of them
has. The heading is `ever 1 beside 2,..`, and `exec` is said of all of them.

With `--ever --how` a line with calls that the list of now lacks on what it is
about has one column more: each of these calls with the number of steps of a way
to it, as `open-w 2,chmod 2`; ? where none is found. `pua how` with this CALL,
PATH and KIND prints a way. A list of now has no such column, since each of its
calls comes in one step, and one of several has none, since a way is of one.
With `--below PATH`, a path as the list has it, the list has only the lines of
PATH and of what is below it, none of `new`; ways are looked for to these alone.

With `--why` an answer that is not ok has its reason, as of `pua run --why`, and
behind CALLS a line has `PROMISES PLACE LETTERS LINE`: the promises by which
these calls are let through, = for none, and of the veil that covers PATH its
place, its letters, and the line of SCRIPT since which it has them. Where no
veil was put, these are three times -. With `--ever` they are there of each veil
under which the thing can come to stand and that lets one of its calls through.

Example: pua objects --process all TREE SCRIPT",
    "
  no such line         SCRIPT ends before the line that `--at` names
  no such process      no fork of SCRIPT made it: its answer says why
  process P can still unveil
                       `--ever` is for a process that is locked, or without the
                       promise `unveil`
  table: CALL: no c    `--ever` is for a table by which rmdir, unlink, create,
                       mkdir, symlink, bind, mknod, create-rw, rename and link
                       all need `c`
  processes P and Q have other veils: ask with --beside
                       `--ever` of several is for processes of the same veils
  objects: no list ..  `--how` is for `--ever` of one process, and so is `--why`
                       with `--ever`; `--images` goes with none of the three,
                       `--beside` with `--ever` alone, `--below` with both
                       `--ever` and `--how`
  objects: bad path    PATH of `--below` is not as lists have it
  objects: no such path
                       nothing stands at PATH of `--below`, nor has its name a
                       veil"
);

pub(crate) const AUDIT_OUTPUT: &str = with_calls_and_faults!(
    "\
Prints what `pua run` prints, then `reach P`, then `PATH CALL` for each pair.

Example: pua audit --limit 3 --base cwd --after stat:etc TREE SCRIPT core",
    "
  no such line         SCRIPT ends before the line that `--at` names
  no such process      no fork of SCRIPT made it: its answer says why
  limit too large      `--limit` is above 16
  paths too long       the limit times one more than the longest name is above
                       1023: a lower limit helps, or a TREE without that name
  too many names       more than 1024 were given
  bad candidate N      a candidate is a NAME; the one at this place is a path,
                       or not spelled
  bad resume           the resume is what `--after` has: not in the form
                       `stat:/etc`, or not of this limit, base and these names"
);
