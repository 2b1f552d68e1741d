//! The words of the command line, read by `clap`.

ghost use Rattle.std.specs.Prelude.{◌≡◌, ◌↔◌, IfErr, IfOk, IfSome, Some, codes, map, option_map};
ghost use Rattle.std.specs.Prelude.{◌++◌, ℕ, [], Bool, None, OnOk, Option, is_some, true, unwrap_or};
ghost use Rattle.std.specs.List.{All};
ghost use Rattle.clap.specs.Matches.{first_value, found_of, one_text};
ghost use Rattle.pua_calls.specs.Calls.{rules_named};
ghost use Rattle.pua_objects.specs.Lines.{kind_word};
ghost use Rattle.pua_words.specs.Commands.{AreFieldsOf, AreIn, AsksSoundly, HasNoNumbers};
ghost use Rattle.pua_words.specs.Commands.{IsLimitText, IsNumberText, IsProcessNumber, IsTextOf};
ghost use Rattle.pua_words.specs.Commands.{MayBeAsked, MayHelp, columns_meant, run_asked, span_meant};
ghost use Rattle.pua_words.specs.Commands.{at_read, tight_asked, values_found};
ghost use Rattle.clap.specs.Walk.{Rule};
ghost use Rattle.clap.specs.Simple.{App, new_app, with_rule, with_subcommand};
ghost use Rattle.clap.specs.declared.builder.value_parser.ValueParser.{ValueParser};
ghost use Rattle.pua_words.specs.Grammar.{IsArg, IsBuilt, Parsers, at_rule, audit_app, beside_rule};
ghost use Rattle.pua_words.specs.Grammar.{by_default, flag_rule, how_app, input_rules};
ghost use Rattle.pua_words.specs.Grammar.{judged, objects_app, operand_rule};
ghost use Rattle.pua_words.specs.Grammar.{operands_rule, option_rule, process_rule, program_app};
ghost use Rattle.pua_words.specs.Grammar.{pua_app, required, run_app, tight_app, tree_app};
ghost use Rattle.pua_words.specs.Grammar.{limit_rule, walk_rules, why_app, with_rules};
ghost use Rattle.pua_words.specs.Reading.{IsAuditOf, IsCommandOf, IsFlag, IsListOf, IsListText};
ghost use Rattle.pua_words.specs.Reading.{HasInputsOf, IsBesideOf, IsReadAs, IsWhyOf, below_of};
ghost use Rattle.pua_words.specs.Reading.{list_meant};
ghost use Rattle.pua_words.specs.declared.command.AuditWords.{AuditWords};
ghost use Rattle.pua_words.specs.declared.command.Text.TheVariants.{Audit, Why};
ghost use Rattle.pua_words.specs.declared.command.WhyWords.{WhyWords};
ghost use Rattle.pua_words.specs.Plain.{IsMeantBy};
ghost use Rattle.pua_words.specs.Usages.{AsksAbout, IsStop, is_about};

use crate::command::{
    AuditWords, Columns, Command, HowWords, ListWords, Processes, Text, Time, WhyWords,
};
use crate::help;
use crate::usage::UsageLine;
use crate::version::VERSION;
use clap::error::ErrorKind;
use clap::{Arg, ArgAction, ArgMatches, Error, value_parser};
use pua_audit::Base;
use pua_calls::Rules;
use pua_objects::ObjectKind;
use pua_tree::{FileType, Kind, number_within};
use std::alloc::{AllocError, Global};

/// The greatest number that a process has.
pub(crate) const MOST_NUMBER: u32 = 999_999;

/// Why there is nothing to do.
#[derive(Drop)]
pub enum Stop {
    /// The words are not those of any command. This line says how they could be.
    Usage(UsageLine),
    /// Help or the version was asked for, and is this text, which is never empty.
    Display(String),
    /// A growth of memory was refused.
    OutOfMemory,
}

impl From<AllocError> for Stop {
    ghost use Rattle.std.specs.Prelude.{◌≡◌};
    ghost use Rattle.pua_words.specs.declared.words.Stop.TheVariants.{OutOfMemory};

    ghost from_gives = { λ _ stop. stop ≡ OutOfMemory };

    fn from(_refused: AllocError) -> Stop {
        Stop::OutOfMemory
    }
}

/// What the words after the program's name ask for. `Usage` where they are not in the form of the
/// lines of [`UsageLine`], as `clap` reads them: which words those are is in no contract.
///
/// Where words in a plain form are a command, it is the one that they name, of the inputs that they
/// name, by the standard rules: `run` and `tight`, with `--why` or without; `tree`; `objects`, with
/// `--ever`, `--how` and `--why` or without, of process 1, or after these `--process` with a
/// number, several, or `all`; `objects --images --process` with the same, `objects --ever
/// --process` with it and then `--beside` with it, and `objects --ever --how --process` with it and
/// then `--below` with a path; `why` and `how`, of process 1, with the call and what stands after
/// it; and `audit --limit N`, of process 1, from the root, with the names after it. In each but
/// `tight` the last option may be `--at` with a line's number, 0 to 999,999 in decimal. There each
/// word beside the options begins with no hyphen.
pub fn read_words<'a>(alloc: Global, words: &'a [&'a str]) -> Result<Command<'a>, Stop>
    ensures process { IfOk result (λ command. AsksSoundly command.text) }
    ensures stop { IfErr result (IsStop (map (λ word. word.now) words.now)) }
    ensures meant { IfOk result (IsMeantBy (map (λ word. word.now) words.now)) }
{
    let found = match pua_command(alloc)?.try_get_matches_from(words) {
        Ok(found) => found,
        Err(error) => return Err(stop_of(alloc, &error, words)),
    };
    read_command(alloc, &found)?.ok_or(Stop::Usage(UsageLine::of(words)))
}

/// What the words mean that `clap` takes. None doesn't come: it is what is left where `clap` takes
/// words without a command, or without an operand.
fn read_command<'a>(
    alloc: Global,
    found: &ArgMatches<'a>,
) -> Result<Option<Command<'a>>, AllocError>
    ensures process { IfOk result
        (λ command. IfSome command (λ command. AsksSoundly command.text)) }
    ensures read { IfOk result (λ command. IfSome command (IsCommandOf found.now)) }
{
    let Some((name, inner)) = found.subcommand() else {
        return Ok(None);
    };
    let Some(text) = read_text(alloc, name, inner)? else {
        return Ok(None);
    };
    Ok(read_inputs(inner, text))
}

/// The text that the command of this name is asked for.
fn read_text<'a>(
    alloc: Global,
    name: &str,
    found: &ArgMatches<'a>,
) -> Result<Option<Text<'a>>, AllocError>
    ensures process { IfOk result (λ text. IfSome text AsksSoundly) }
    ensures read { IfOk result (λ text. IfSome text (IsReadAs name.now (found_of found.now))) }
{
    match name {
        "run" => Ok(Some(run_of(flag_of(found, "why")))),
        "tree" => Ok(Some(Text::Tree)),
        "objects" => read_objects(alloc, found),
        "why" => why_of(alloc, found),
        "tight" => Ok(Some(tight_of(flag_of(found, "why")))),
        "how" => Ok(read_how(found).map(Text::How)),
        _ => audit_of(alloc, found),
    }
}

/// What decides the request that is asked about.
fn why_of<'a>(alloc: Global, found: &ArgMatches<'a>) -> Result<Option<Text<'a>>, AllocError>
    ensures process { IfOk result (λ text. IfSome text AsksSoundly) }
    ensures read { IfOk result (λ text. IfSome text (λ text.
        (words : WhyWords) × (text ≡ Why words) × IsWhyOf (found_of found.now) words)) }
{
    match read_why(alloc, found)? {
        Some(words) => Ok(Some(Text::Why(words))),
        None => Ok(None),
    }
}

/// The audit that is asked for.
fn audit_of<'a>(alloc: Global, found: &ArgMatches<'a>) -> Result<Option<Text<'a>>, AllocError>
    ensures process { IfOk result (λ text. IfSome text AsksSoundly) }
    ensures read { IfOk result (λ text. IfSome text (λ text.
        (words : AuditWords) × (text ≡ Audit words) × IsAuditOf (found_of found.now) words)) }
{
    match read_audit(alloc, found)? {
        Some(words) => Ok(Some(Text::Audit(words))),
        None => Ok(None),
    }
}

/// A command with what was added to it, unless a growth was refused.
type Built<'a> = Result<clap::Command<'a>, AllocError>;

fn pua_command<'a>(alloc: Global) -> Built<'a>
    ensures { (parsers : Parsers) × IsBuilt (pua_app parsers) result }
{
    let pua = with_command(program(alloc), run_command(alloc));
    let pua = with_command(pua, tree_command(alloc));
    let pua = with_command(pua, objects_command(alloc));
    let pua = with_command(pua, why_command(alloc));
    let pua = with_command(pua, tight_command(alloc));
    let pua = with_command(pua, how_command(alloc));
    with_command(pua, audit_command(alloc))
}

/// The program, without its commands.
fn program<'a>(alloc: Global) -> Built<'a>
    ensures { IsBuilt program_app result }
{
    clap::Command::new(alloc, "pua")
        .no_binary_name(true)
        .version(VERSION)
        .about(help::PUA)
        .after_help(help::INPUTS)
        .subcommand_required(true)
        .bin_name("pua")
}

fn run_command<'a>(alloc: Global) -> Built<'a>
    ensures { (rules : Option ValueParser) × IsBuilt (run_app rules) result }
{
    let run = command(alloc, "run", help::RUN, help::RUN_OUTPUT);
    let run = with(run, flag(alloc, "why", help::RUN_WHY));
    with_inputs(alloc, with(run, at(alloc)))
}

fn tree_command<'a>(alloc: Global) -> Built<'a>
    ensures { (rules : Option ValueParser) × IsBuilt (tree_app rules) result }
{
    let tree = command(alloc, "tree", help::TREE_AFTER, help::TREE_OUTPUT);
    with_inputs(alloc, with(tree, at(alloc)))
}

fn objects_command<'a>(alloc: Global) -> Built<'a>
    ensures { (rules : Option ValueParser) × IsBuilt (objects_app rules) result }
{
    let objects = command(alloc, "objects", help::OBJECTS, help::OBJECTS_OUTPUT);
    let objects = with(objects, flag(alloc, "ever", help::EVER));
    let objects = with(objects, flag(alloc, "how", help::EVER_HOW));
    let objects = with(objects, flag(alloc, "why", help::OBJECTS_WHY));
    let objects = with(objects, flag(alloc, "images", help::IMAGES));
    let objects = with(objects, processes(alloc));
    let objects = with(objects, beside(alloc));
    let objects = with(objects, option(alloc, "below", "PATH", help::BELOW));
    with_inputs(alloc, with(objects, at(alloc)))
}

fn why_command<'a>(alloc: Global) -> Built<'a>
    ensures { (process rules : Option ValueParser) × IsBuilt (why_app process rules) result }
{
    let why = command(alloc, "why", help::WHY, help::WHY_OUTPUT);
    let why = with(why, process(alloc));
    let why = with_inputs(alloc, with(why, at(alloc)));
    let why = with(
        why,
        operand(alloc, "call", "CALL", help::CALL).required(true),
    );
    with(why, operands(alloc, "arguments", "ARG", help::ARGUMENTS))
}

fn tight_command<'a>(alloc: Global) -> Built<'a>
    ensures { (rules : Option ValueParser) × IsBuilt (tight_app rules) result }
{
    let tight = command(alloc, "tight", help::TIGHT, help::TIGHT_OUTPUT);
    let tight = with(tight, flag(alloc, "why", help::TIGHT_WHY));
    with_inputs(alloc, tight)
}

fn how_command<'a>(alloc: Global) -> Built<'a>
    ensures { (process rules kind : Option ValueParser)
        × IsBuilt (how_app process rules kind) result }
{
    let how = command(alloc, "how", help::HOW, help::HOW_OUTPUT);
    let how = with(how, process(alloc));
    let how = with_inputs(alloc, with(how, at(alloc)));
    let how = with(
        how,
        operand(alloc, "call", "CALL", help::HOW_CALL).required(true),
    );
    let how = with(
        how,
        operand(alloc, "path", "PATH", help::HOW_PATH).required(true),
    );
    with(how, kind(alloc))
}

fn audit_command<'a>(alloc: Global) -> Built<'a>
    ensures { (process base rules : Option ValueParser)
        × IsBuilt (audit_app process base rules) result }
{
    let audit = command(alloc, "audit", help::AUDIT, help::AUDIT_OUTPUT);
    let audit = with_walk(alloc, audit);
    let audit = with_inputs(alloc, with(audit, at(alloc)));
    with(audit, operands(alloc, "names", "NAME", help::NAMES))
}

/// Adds what an audit asks for beside its inputs.
fn with_walk<'a>(alloc: Global, audit: Built<'a>) -> Built<'a>
    ensures { (app : App) → IsBuilt app audit.entry
        → (process base : Option ValueParser)
        × IsBuilt (with_rules app (walk_rules process base)) result }
{
    let audit = with(audit, limit(alloc));
    let audit = with(audit, process(alloc));
    let audit = with(audit, base(alloc));
    with(audit, option(alloc, "after", "CALL:PATH", help::AFTER))
}

/// Adds the words for the inputs that all commands have, in the order of help.
fn with_inputs<'a>(alloc: Global, command: Built<'a>) -> Built<'a>
    ensures { (app : App) → IsBuilt app command.entry
        → (rules : Option ValueParser) × IsBuilt (with_rules app (input_rules rules)) result }
{
    let command = with(command, rules(alloc));
    let command = with(command, option(alloc, "table", "FILE", help::TABLE));
    let command = with(
        command,
        operand(alloc, "tree", "TREE", help::TREE).required(true),
    );
    with(
        command,
        operand(alloc, "script", "SCRIPT", help::SCRIPT).required(true),
    )
}

/// A command of this name, with a line about it and what stands after its help.
fn command<'a>(alloc: Global, name: &'a str, about: &'a str, output: &'a str) -> Built<'a>
    ensures { IsBuilt (new_app name.entry.now) result }
{
    Ok(
        clap::Command::new(alloc, name)
            .about(about)
            .after_help(output),
    )
}

/// Adds a command to the program, unless a growth was refused before.
fn with_command<'a>(pua: Built<'a>, command: Built<'a>) -> Built<'a>
    ensures { (app added : App) → IsBuilt app pua.entry → IsBuilt added command.entry
        → IsBuilt (with_subcommand app added.top) result }
{
    pua?.subcommand(command?)
}

/// Adds words to a command, unless a growth was refused before.
fn with<'a>(command: Built<'a>, arg: Arg<'a>) -> Built<'a>
    ensures { (app : App) (rule : Rule) → IsBuilt app command.entry → IsArg rule arg.entry
        → IsBuilt (with_rule app rule) result }
{
    command?.arg(arg)
}

/// An option without a value.
fn flag<'a>(alloc: Global, name: &'a str, help: &'a str) -> Arg<'a>
    ensures { IsArg (flag_rule name.entry.now) result }
{
    Arg::new(alloc, name)
        .long(name)
        .action(ArgAction::SetTrue)
        .help(help)
}

/// An option with one value.
fn option<'a>(alloc: Global, name: &'a str, value: &'a str, help: &'a str) -> Arg<'a>
    ensures { IsArg (option_rule name.entry.now) result }
{
    operand(alloc, name, value, help)
        .long(name)
        .action(ArgAction::Set)
}

/// A word that has its meaning by its place.
fn operand<'a>(alloc: Global, name: &'a str, value: &'a str, help: &'a str) -> Arg<'a>
    ensures { IsArg (operand_rule name.entry.now) result }
{
    Arg::new(alloc, name).value_name(value).help(help)
}

/// All words that are left.
fn operands<'a>(alloc: Global, name: &'a str, value: &'a str, help: &'a str) -> Arg<'a>
    ensures { IsArg (operands_rule name.entry.now) result }
{
    operand(alloc, name, value, help)
        .action(ArgAction::Append)
        .num_args(0..)
}

fn limit<'a>(alloc: Global) -> Arg<'a>
    ensures { IsArg limit_rule result }
{
    option(alloc, "limit", "N", help::LIMIT)
        .required(true)
        .value_parser(value_parser!(u8))
}

fn process<'a>(alloc: Global) -> Arg<'a>
    ensures { IsArg (process_rule result.value_parser) result }
{
    option(alloc, "process", "P", help::PROCESS)
        .default_value("1")
        .value_parser(value_parser!(u32).range(1..=i64::from(MOST_NUMBER)))
}

fn processes<'a>(alloc: Global) -> Arg<'a>
    ensures { IsArg (by_default (codes "1") (option_rule (codes "process"))) result }
{
    option(alloc, "process", "P,...|all", help::PROCESSES).default_value("1")
}

fn beside<'a>(alloc: Global) -> Arg<'a>
    ensures { IsArg beside_rule result }
{
    option(alloc, "beside", "Q,...|all", help::BESIDE)
}

fn at<'a>(alloc: Global) -> Arg<'a>
    ensures { IsArg at_rule result }
{
    option(alloc, "at", "N", help::AT)
}

fn base<'a>(alloc: Global) -> Arg<'a>
    ensures { IsArg (judged result.value_parser
        (by_default (codes "root") (option_rule (codes "base")))) result }
{
    option(alloc, "base", "root|cwd", help::BASE)
        .hide_possible_values(true)
        .default_value("root")
        .value_parser(["root", "cwd"].as_slice())
}

fn rules<'a>(alloc: Global) -> Arg<'a>
    ensures { IsArg (judged result.value_parser
        (by_default (codes "profile") (option_rule (codes "rules")))) result }
{
    option(alloc, "rules", "RULES", help::RULES)
        .hide_possible_values(true)
        .default_value("profile")
        .value_parser(["profile", "openbsd"].as_slice())
}

fn kind<'a>(alloc: Global) -> Arg<'a>
    ensures { IsArg (judged result.value_parser (operand_rule (codes "kind"))) result }
{
    operand(alloc, "kind", "KIND", help::HOW_KIND)
        .hide_possible_values(true)
        .value_parser([
            "dir", "file", "prog", "link", "sock", "fifo", "dev", "missing", "other",
        ]
        .as_slice())
}

/// What an error of `clap` over these words asks for: a text about the program, or nothing.
fn stop_of(alloc: Global, error: &Error, words: &[&str]) -> Stop
    ensures { IsStop (map (λ word. word.now) words.now) result }
{
    match error.kind() {
        ErrorKind::OutOfMemory => Stop::OutOfMemory,
        ErrorKind::DisplayHelp | ErrorKind::DisplayVersion => display(alloc, error, words),
        _ => Stop::Usage(UsageLine::of(words)),
    }
}

/// The text about the program, where one of the words asks for it.
fn display(alloc: Global, error: &Error, words: &[&str]) -> Stop
    ensures { IsStop (map (λ word. word.now) words.now) result }
{
    if !asks_about(words) {
        return Stop::Usage(UsageLine::of(words));
    }
    match error.to_string(alloc) {
        Ok(text) if !text.is_empty() => Stop::Display(text),
        Ok(_) => Stop::Usage(UsageLine::of(words)),
        Err(_) => Stop::OutOfMemory,
    }
}

/// Whether help or the version is asked for by one of the words.
fn asks_about(words: &[&str]) -> bool
    ensures { result ≡ true → AsksAbout (map (λ word. word.now) words.now) }
{
    for word in words {
        if is_about(word) {
            return true;
        }
    }
    false
}

/// Whether help or the version is asked for by this word.
fn is_about(word: &str) -> bool
    ensures { result ≡ is_about word.now }
{
    word == "help" || word == "--help" || word == "-h" || word == "--version" || word == "-V"
}

/// Whether an option without a value was given.
fn flag_of(found: &ArgMatches<'_>, id: &str) -> bool
    ensures { (given : Bool) → IsFlag (found_of found.now) id.now given → result ≡ given }
{
    found.get_flag(id)
}

/// The inputs that all commands have, and the text that is asked for. None where one is missing,
/// and where the text of `--at` is no line's number.
fn read_inputs<'a>(found: &ArgMatches<'a>, text: Text<'a>) -> Option<Command<'a>>
    ensures text { IfSome result (λ command. command.text ≡ text.entry) }
    ensures tree { IfSome result (λ command.
        Some command.tree.now ≡ first_value (found_of found.now) (codes "tree")) }
    ensures script { IfSome result (λ command.
        Some command.script.now ≡ first_value (found_of found.now) (codes "script")) }
    ensures rules { IfSome result (λ command. command.rules
        ≡ rules_named (first_value (found_of found.now) (codes "rules"))) }
    ensures table { IfSome result (λ command. option_map (λ name. name.now) command.table
        ≡ first_value (found_of found.now) (codes "table")) }
    ensures at { IfSome result (λ command.
        at_read (first_value (found_of found.now) (codes "at")) ≡ Some command.at) }
    ensures inputs { IfSome result (HasInputsOf (found_of found.now)) }
{
    let (Some(tree), Some(script)) = (found.get_str("tree"), found.get_str("script")) else {
        return None;
    };
    Some(Command {
        tree,
        script,
        at: read_at(found.get_str("at"))?,
        rules: Rules::named(found.get_str("rules")),
        table: found.get_str("table"),
        text,
    })
}

/// The line after which a script is looked at, where a text names one: a decimal as in a script, or
/// 0, for the moment before the first line. None for any other text.
fn read_at(text: Option<&str>) -> Option<Option<u32>>
    ensures { result ≡ at_read (option_map (λ s. s.now) text.entry) }
{
    match text {
        Some(text) => number_within(0, MOST_NUMBER, text.as_bytes()).map(Some),
        None => Some(None),
    }
}

/// The text of a run, with reasons or without.
fn run_of<'a>(why: bool) -> Text<'a>
    ensures asked { result ≡ run_asked why }
    ensures sound { AsksSoundly result }
{
    if why { Text::RunWhy } else { Text::Run }
}

/// The script without what none of its answers needs, or what each word of it is needed by.
fn tight_of<'a>(why: bool) -> Text<'a>
    ensures asked { result ≡ tight_asked why }
    ensures sound { AsksSoundly result }
{
    if why { Text::TightWhy } else { Text::Tight }
}

/// The list that the words ask for. None where they name no process, or none whose help is asked
/// for with `--beside`, and where a line is to end both with what its calls rest on and with ways.
fn read_objects<'a>(alloc: Global, found: &ArgMatches<'a>) -> Result<Option<Text<'a>>, AllocError>
    ensures process { IfOk result (λ text. IfSome text AsksSoundly) }
    ensures list { (ever how why images : Bool) → IsFlag (found_of found.now) (codes "ever") ever
        → IsFlag (found_of found.now) (codes "how") how
        → IsFlag (found_of found.now) (codes "why") why
        → IsFlag (found_of found.now) (codes "images") images
        → first_value (found_of found.now) (codes "beside") ≡ None → (processes : Processes)
        → IsListText (first_value (found_of found.now) (codes "process")) processes
        → IfOk result (λ text.
        text ≡ list_meant ever how why images (below_of text) None processes) }
    ensures helped { (ever how why images : Bool) → IsFlag (found_of found.now) (codes "ever") ever
        → IsFlag (found_of found.now) (codes "how") how
        → IsFlag (found_of found.now) (codes "why") why
        → IsFlag (found_of found.now) (codes "images") images
        → (beside : Processes)
        → IsListText (first_value (found_of found.now) (codes "beside")) beside
        → (processes : Processes)
        → IsListText (first_value (found_of found.now) (codes "process")) processes
        → IfOk result (λ text.
        text ≡ list_meant ever how why images (below_of text) (Some beside) processes) }
    ensures form { (ever how why images : Bool) → IsFlag (found_of found.now) (codes "ever") ever
        → IsFlag (found_of found.now) (codes "how") how
        → IsFlag (found_of found.now) (codes "why") why
        → IsFlag (found_of found.now) (codes "images") images
        → IfOk result (λ text. IfSome text
        (IsListOf ever how why images (first_value (found_of found.now) (codes "below"))
        (first_value (found_of found.now) (codes "beside"))
        (first_value (found_of found.now) (codes "process")))) }
{
    let columns = columns_of(flag_of(found, "how"), flag_of(found, "why"));
    let whose = read_whose(alloc, found.get_str("process"))?;
    let beside = read_beside(alloc, found.get_str("beside"))?;
    let (Some(columns), Some(whose), Some(beside)) = (columns, whose, beside) else {
        return Ok(None);
    };
    let span = span_of(flag_of(found, "ever"));
    Ok(Some(Text::List(ListWords {
        whose,
        span,
        columns,
        images: flag_of(found, "images"),
        beside,
        below: found.get_str("below").map(|path| path.as_bytes()),
    })))
}

/// Of which time a list is.
fn span_of(ever: bool) -> Time
    ensures { result ≡ span_meant ever }
{
    if ever { Time::Ever } else { Time::Now }
}

/// What stands after the calls of its lines: not both what they rest on and ways.
fn columns_of(how: bool, why: bool) -> Option<Columns>
    ensures { result ≡ columns_meant how why }
{
    match (how, why) {
        (false, false) => Some(Columns::Plain),
        (false, true) => Some(Columns::Why),
        (true, false) => Some(Columns::How),
        (true, true) => None,
    }
}

/// With whose help a list is asked for: with nobody's where there is no text, or else that of the
/// processes that it names; None for any other text.
fn read_beside(alloc: Global, text: Option<&str>) -> Result<Option<Option<Processes>>, AllocError>
    ensures sound { IfOk result (λ beside. IfSome beside MayHelp) }
    ensures text { IfOk result (λ beside.
        IfSome beside (IsBesideOf (option_map (λ s. s.now) text.entry))) }
    ensures none { option_map (λ s. s.now) text.entry ≡ None →
        IfOk result (λ read. read ≡ Some None) }
    ensures each { (processes : Processes)
        → IsListText (option_map (λ s. s.now) text.entry) processes
        → IfOk result (λ read. read ≡ Some (Some processes)) }
{
    match text {
        None => Ok(Some(None)),
        Some(_) => Ok(read_whose(alloc, text)?.map(Some)),
    }
}

/// The processes that a text names: one, all, or several with commas between their numbers; None
/// for any other text.
fn read_whose(alloc: Global, text: Option<&str>) -> Result<Option<Processes>, AllocError>
    ensures sound { IfOk result (λ whose. IfSome whose MayBeAsked) }
    ensures text { IfOk result (λ whose.
        IfSome whose (IsTextOf (option_map (λ s. s.now) text.entry))) }
    ensures each { (processes : Processes)
        → IsListText (option_map (λ s. s.now) text.entry) processes
        → IfOk result (λ whose. whose ≡ Some processes) }
{
    if let Some(processes) = read_processes(text) {
        return Ok(Some(processes));
    }
    Ok(read_numbers(alloc, text)?.map(Processes::Named))
}

/// The numbers of processes that a text has with commas between them; None for any other text.
fn read_numbers(alloc: Global, text: Option<&str>) -> Result<Option<Vec<u32>>, AllocError>
    ensures sound { IfOk result (λ numbers. IfSome numbers (λ numbers.
        All IsProcessNumber numbers.items)) }
    ensures text { IfOk result (λ numbers. IfSome numbers (λ numbers.
        AreIn (option_map (λ s. s.now) text.entry) numbers.items)) }
    ensures none { IfOk result (λ read. read ≡ None →
        HasNoNumbers (option_map (λ s. s.now) text.entry)) }
{
    let Some(text) = text else {
        return Ok(None);
    };
    let mut numbers = Vec::new(alloc);
    for field in text.as_bytes().split(|byte| *byte == b',') {
        let Some(number) = number_within(1, MOST_NUMBER, field) else {
            return Ok(None);
        };
        numbers.push(number)?;
    }
    Ok(Some(numbers))
}

/// The process of a number, or all; None for any other text.
fn read_processes(text: Option<&str>) -> Option<Processes>
    ensures sound { IfSome result MayBeAsked }
    ensures all { (result ≡ Some Processes.All) ↔ (option_map (λ s. s.now) text.entry
        ≡ Some (codes "all")) }
    ensures text { IfSome result (IsTextOf (option_map (λ s. s.now) text.entry)) }
    ensures each { (processes : Processes)
        → IsListText (option_map (λ s. s.now) text.entry) processes → result ≡ Some processes }
{
    match text {
        Some("all") => Some(Processes::All),
        other => Some(Processes::One(read_process(other)?)),
    }
}

/// The number of a process, in decimal digits; None for any other text. All commands read a
/// process by this, and a list of several alone by the decimals of scripts.
fn read_process(text: Option<&str>) -> Option<u32>
    ensures sound { IfSome result IsProcessNumber }
    ensures text { IfSome result (IsNumberText (option_map (λ s. s.now) text.entry)) }
    ensures each { (process : ℕ)
        → IsNumberText (option_map (λ s. s.now) text.entry) process → result ≡ Some process }
{
    match text?.parse::<u32>() {
        Ok(process @ 1..=MOST_NUMBER) => Some(process),
        _ => None,
    }
}

/// What an audit is asked for: names, limit and process as they were found, to the byte.
fn read_audit<'a>(
    alloc: Global,
    found: &ArgMatches<'a>,
) -> Result<Option<AuditWords<'a>>, AllocError>
    ensures process { IfOk result
        (λ words. IfSome words (λ words. IsProcessNumber words.process)) }
    ensures base { IfOk result (λ words. IfSome words (λ words. (words.base ≡ Base.Cwd)
        ↔ (first_value (found_of found.now) (codes "base") ≡ Some (codes "cwd")))) }
    ensures after { IfOk result (λ words. IfSome words (λ words.
        option_map (λ pair. pair.now) words.after
        ≡ first_value (found_of found.now) (codes "after"))) }
    ensures number { IfOk result (λ words. IfSome words (λ words.
        IsNumberText (first_value (found_of found.now) (codes "process")) words.process)) }
    ensures limit { IfOk result (λ words. IfSome words (λ words.
        IsLimitText (one_text (found_of found.now) (codes "limit")) words.limit)) }
    ensures names { IfOk result (λ words. IfSome words (λ words.
        map (λ name. name.now) words.names.items
        ≡ values_found (found_of found.now) (codes "names"))) }
{
    let process = read_process(found.get_str("process"));
    let (Some(limit), Some(process)) = (found.get_one::<u8>("limit"), process) else {
        return Ok(None);
    };
    let mut names = Vec::new(alloc);
    push_texts(&mut names, found.get_strs("names"))?;
    Ok(Some(AuditWords {
        limit,
        process,
        base: read_base(found.get_str("base")),
        after: found.get_str("after").map(|text| text.as_bytes()),
        names,
    }))
}

/// The request that is asked about: the call, and after it its arguments, each to the byte.
fn read_why<'a>(alloc: Global, found: &ArgMatches<'a>) -> Result<Option<WhyWords<'a>>, AllocError>
    ensures process { IfOk result
        (λ words. IfSome words (λ words. IsProcessNumber words.process)) }
    ensures number { IfOk result (λ words. IfSome words (λ words.
        IsNumberText (first_value (found_of found.now) (codes "process")) words.process)) }
    ensures fields { IfOk result (λ words. IfSome words (λ words.
        AreFieldsOf (first_value (found_of found.now) (codes "call"))
        (values_found (found_of found.now) (codes "arguments"))
        (map (λ field. field.now) words.fields.items))) }
{
    let process = read_process(found.get_str("process"));
    let (Some(call), Some(process)) = (found.get_str("call"), process) else {
        return Ok(None);
    };
    let mut fields = Vec::new(alloc);
    fields.push(call.as_bytes())?;
    push_texts(&mut fields, found.get_strs("arguments"))?;
    Ok(Some(WhyWords { process, fields }))
}

/// Adds the bytes of these texts, in their order; of None there are none.
fn push_texts<'a>(fields: &mut Vec<&'a [u8]>, texts: Option<&[&'a str]>) -> Result<(), AllocError>
    ensures { OnOk result (map (λ field. field.now) fields.new.items
        ≡ map (λ field. field.now) fields.old.items
        ++ unwrap_or (option_map (λ texts. map (λ text. text.now) texts.now) texts.entry) []) }
{
    let Some(more) = texts else {
        return Ok(());
    };
    for text in more {
        fields.push(text.as_bytes())?;
    }
    Ok(())
}

/// The call to which a way is asked for, and on what.
fn read_how<'a>(found: &ArgMatches<'a>) -> Option<HowWords<'a>>
    ensures process { IfSome result (λ words. IsProcessNumber words.process) }
    ensures call { IfSome result (λ words.
        Some words.call.now ≡ first_value (found_of found.now) (codes "call")) }
    ensures path { IfSome result (λ words.
        Some words.path.now ≡ first_value (found_of found.now) (codes "path")) }
    ensures kind { IfSome result (λ words. option_map kind_word words.kind
        ≡ first_value (found_of found.now) (codes "kind")) }
    ensures number { IfSome result (λ words.
        IsNumberText (first_value (found_of found.now) (codes "process")) words.process) }
{
    let kind = match found.get_str("kind") {
        Some(text) => Some(read_kind(text)?),
        None => None,
    };
    Some(HowWords {
        process: read_process(found.get_str("process"))?,
        call: found.get_str("call")?.as_bytes(),
        path: found.get_str("path")?.as_bytes(),
        kind,
    })
}

/// A kind of this name, as a list's line has it; None for any other text.
fn read_kind(text: &str) -> Option<ObjectKind>
    ensures named { IfSome result (λ kind. kind_word kind ≡ text.now) }
    ensures each { (kind : ObjectKind) → kind_word kind ≡ text.now → is_some result ≡ true }
{
    match text {
        "dir" => Some(ObjectKind::Node(Kind::Dir)),
        "file" => Some(ObjectKind::Node(Kind::File)),
        "prog" => Some(ObjectKind::Node(Kind::Prog)),
        "link" => Some(ObjectKind::Node(Kind::Link)),
        "sock" => Some(ObjectKind::Node(Kind::Known(FileType::Sock))),
        "fifo" => Some(ObjectKind::Node(Kind::Known(FileType::Fifo))),
        "dev" => Some(ObjectKind::Node(Kind::Known(FileType::Dev))),
        "missing" => Some(ObjectKind::Missing),
        "other" => Some(ObjectKind::Other),
        _ => None,
    }
}

/// The base of this name, which is the root where none is named.
fn read_base(text: Option<&str>) -> Base
    ensures { (result ≡ Base.Cwd) ↔ (option_map (λ s. s.now) text.entry ≡ Some (codes "cwd")) }
{
    match text {
        Some("cwd") => Base::Cwd,
        _ => Base::Root,
    }
}
