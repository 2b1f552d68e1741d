//! What the program is asked for.

use pua_audit::Base;
use pua_calls::Rules;
use pua_objects::ObjectKind;

/// A command: a text that is asked for, and the names of the inputs that it is made of.
#[derive(Drop)]
pub struct Command<'a> {
    /// The name of the input with the listing of the tree.
    pub tree: &'a str,
    /// The name of the input with the script.
    pub script: &'a str,
    /// The line after which the script is looked at: its first lines up to this one are taken for
    /// the whole script; 0 for none of them. None for all lines.
    pub at: Option<u32>,
    /// Whose rules are gone by.
    pub rules: Rules,
    /// The name of the input with rows in the place of those of the rules; None for the rules
    /// alone.
    pub table: Option<&'a str>,
    /// Which text is asked for.
    pub text: Text<'a>,
}

/// Which text a command asks for.
#[derive(Drop)]
pub enum Text<'a> {
    /// What each line of the script is answered.
    Run,
    /// The same, and after each answer that is not `ok` why it is so.
    RunWhy,
    /// What decides one request after the script, check by check, and its answer.
    Why(WhyWords<'a>),
    /// The same, and then what a process may still do, path by path.
    Audit(AuditWords<'a>),
    /// The same as a run's, or with reasons, and then what processes may still do, object by
    /// object, now or for ever.
    List(ListWords<'a>),
    /// The listing of the tree that the script leaves.
    Tree,
    /// The script, without the promises and letters that none of its answers needs.
    Tight,
    /// What each promise and letter of the script is needed by.
    TightWhy,
    /// By which requests a process can come to be granted a call, or that it never can.
    How(HowWords<'a>),
}

/// What an audit is asked for, besides its inputs.
#[derive(Drop)]
pub struct AuditWords<'a> {
    /// The most components in a path. Audits take 0 to 16.
    pub limit: u8,
    /// The number of the process, 1 to 999,999 where the words of the command line named it.
    pub process: u32,
    /// Where paths begin.
    pub base: Base,
    /// The pair after which the audit goes on, as the text `CALL:PATH`, if it goes on.
    pub after: Option<&'a [u8]>,
    /// Spellings of further names to try in paths. Audits take at most 1,024.
    pub names: Vec<&'a [u8]>,
}

/// Which request is asked about, besides the inputs.
#[derive(Drop)]
pub struct WhyWords<'a> {
    /// The number of the process that asks, 1 to 999,999 where the words of the command line named
    /// it.
    pub process: u32,
    /// What it asks, as the fields of a script's line after the number: the call first.
    pub fields: Vec<&'a [u8]>,
}

/// Of which processes a list is asked.
#[derive(Drop)]
pub enum Processes {
    /// The process of this number, 1 to 999,999 where the words of the command line named it.
    One(u32),
    /// Those of these numbers, in their order, each 1 to 999,999 where the words of the command
    /// line named them. A list for ever is of what they can touch together.
    Named(Vec<u32>),
    /// All that were ever made, in the order of their numbers. A list for ever is of what they can
    /// touch together.
    All,
}

/// Of which time a list is.
#[derive(Clone, Copy, PartialEq, Eq)]
pub enum Time {
    /// What each process may do now.
    Now,
    /// All that a process and what it forks can ever touch.
    Ever,
}

/// What stands after the calls of a line of a list.
#[derive(Clone, Copy, PartialEq, Eq)]
pub enum Columns {
    /// Nothing.
    Plain,
    /// The promises on which the calls rest, and the veil that covers what the line is about. The
    /// answers of the script have reasons, too.
    Why,
    /// The number of steps of a way to each call that the list of now lacks.
    How,
}

/// What a list is asked for, besides its inputs.
#[derive(Drop)]
pub struct ListWords<'a> {
    /// The processes.
    pub whose: Processes,
    /// Of which time it is.
    pub span: Time,
    /// What stands after the calls of its lines.
    pub columns: Columns,
    /// Whether each process is listed also as it was before each program that it started.
    pub images: bool,
    /// With whose help each process is listed, if it is asked with that of others.
    pub beside: Option<Processes>,
    /// At or below which path lines are asked for, as it was given, if not all are: it need be no
    /// path.
    pub below: Option<&'a [u8]>,
}

/// To which call a way is asked for, and on what, besides the inputs.
#[derive(Clone, Copy)]
pub struct HowWords<'a> {
    /// The number of the process, 1 to 999,999 where the words of the command line named it.
    pub process: u32,
    /// The call's name, as it was given: no call need have it.
    pub call: &'a [u8],
    /// Where what is asked about stands, or `new`, as it was given: it need be no path.
    pub path: &'a [u8],
    /// What is asked about, where not each line of the path is meant.
    pub kind: Option<ObjectKind>,
}
