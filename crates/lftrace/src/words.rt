//! The command line.

use crate::help::{
    COVER_HELP, EXPLAIN_HELP, FOLLOW_HELP, HELP, JUDGE_HELP, PAIR_HELP, RECORD_HELP, SHOW_HELP,
};
use clap::error::ErrorKind;
use clap::{Arg, ArgAction, ArgMatches, Command, Error};
use lft_log::follow::{Following, read_until};
use lft_tag::Tag;
use std::alloc::Global;

const VERSION: &str = "0.1.0";

/// The path of a program, and whether it is lowered where it isn't core.
#[derive(Clone, Copy)]
pub struct ProgramWords<'a> {
    pub path: &'a str,
    pub lower: bool,
}

/// The words of `show`, and of `explain` with the program alone: whether all of it is shown.
#[derive(Clone, Copy)]
pub struct ShowWords<'a> {
    pub program: ProgramWords<'a>,
    pub all: bool,
}

/// The words of `judge`, `cover` and `explain`: three paths, and how many workers, 1 to 64.
#[derive(Clone, Copy)]
pub struct JudgeWords<'a> {
    pub program: ProgramWords<'a>,
    pub externals: &'a str,
    pub trace: &'a str,
    pub workers: u32,
}

/// The words of `pair`, and of `explain` with two traces: four paths, and how many workers, 1 to 64.
#[derive(Clone, Copy)]
pub struct PairWords<'a> {
    pub program: ProgramWords<'a>,
    pub externals: &'a str,
    pub first: &'a str,
    pub second: &'a str,
    pub workers: u32,
}

/// The words of `record`: three paths, how many workers, 1 to 64, and how many runs at most.
#[derive(Clone, Copy)]
pub struct RecordWords<'a> {
    pub program: ProgramWords<'a>,
    pub externals: &'a str,
    pub cards: &'a str,
    pub workers: u32,
    pub max_runs: u32,
}

/// The words of `follow`: up to three paths, and how the log is followed.
#[derive(Clone, Copy)]
pub struct FollowWords<'a> {
    pub program: ProgramWords<'a>,
    /// Where there is none, the log has all external inputs.
    pub externals: Option<&'a str>,
    /// None is standard input.
    pub log: Option<&'a str>,
    pub following: Following,
    /// Whether what stands behind what is told is read too, and dropped.
    pub drain: bool,
    /// Whether the facts behind a broken rule are told.
    pub explain: bool,
    /// Whether all of them are, and not the first of each part.
    pub all: bool,
}

/// What stands behind the line of an answer.
#[derive(Clone, Copy)]
pub enum Behind {
    Nothing,
    /// What an accepted trace exercised: for people, or one fact a line.
    Counts { list: bool },
    /// The facts behind a broken rule or a difference: all, or the first of them. Why a text is refused is told too.
    Facts { all: bool },
}

impl Behind {
    /// Whether why a text is refused is told.
    pub(crate) fn is_told(self) -> bool {
        matches!(self, Behind::Facts { .. })
    }
}

/// What is asked of tables: to judge one trace, or to compare two.
#[derive(Clone, Copy)]
pub enum Question<'a> {
    One {
        words: JudgeWords<'a>,
        behind: Behind,
    },
    Two {
        words: PairWords<'a>,
        behind: Behind,
    },
}

/// What the command line asks for.
#[derive(Clone, Copy)]
pub enum Job<'a> {
    /// To judge a bundle from standard input.
    Bundle,
    /// The same, and to tell the facts behind a broken rule.
    ExplainBundle { all: bool },
    /// To answer a question.
    Ask(Question<'a>),
    /// To show a program, or to tell why it is refused.
    ExplainProgram(ShowWords<'a>),
    Record(RecordWords<'a>),
    /// To judge a trace while it is written.
    Follow(FollowWords<'a>),
    /// To show the ports and the precedence of a program, or all of it.
    Show(ShowWords<'a>),
}

impl Job<'_> {
    /// Whether it tells people why on standard output.
    pub(crate) fn is_explained(self) -> bool {
        match self {
            Job::ExplainBundle { .. } | Job::ExplainProgram(_) => true,
            Job::Ask(Question::One { behind, .. } | Question::Two { behind, .. }) => {
                behind.is_told()
            }
            _ => false,
        }
    }

    /// Whether its program may be a whole one.
    pub(crate) fn is_lowered(self) -> bool {
        match self {
            Job::Bundle | Job::ExplainBundle { .. } => false,
            Job::Ask(Question::One { words, .. }) => words.program.lower,
            Job::Ask(Question::Two { words, .. }) => words.program.lower,
            Job::ExplainProgram(words) | Job::Show(words) => words.program.lower,
            Job::Record(words) => words.program.lower,
            Job::Follow(words) => words.program.lower,
        }
    }
}

fn path<'a>(alloc: Global, id: &'a str, help: &'a str) -> Arg<'a> {
    Arg::new(alloc, id)
        .required(true)
        .action(ArgAction::Set)
        .help(help)
}

/// The help of `--workers` of what judges.
const JUDGES: &str = "\
how many workers read and judge at most,
1 to 64; the answer is the same";

fn workers<'a>(alloc: Global, help: &'a str) -> Arg<'a> {
    Arg::new(alloc, "workers")
        .long("workers")
        .value_name("N")
        .help(help)
        .default_value("1")
        .value_parser(clap::value_parser!(u32).range(1..65))
}

/// The flag with which a whole program is taken.
fn lower_arg<'a>(alloc: Global) -> Arg<'a> {
    Arg::new(alloc, "lower")
        .long("lower")
        .action(ArgAction::SetTrue)
        .help("PROGRAM may be a whole Lingua Franca program;\nnames are those of its source")
}

const UNTIL: &str = "\
judges the rows up to the first tag at or past
this one that has rows, as `follow` does";

fn judge_command<'a>(alloc: Global) -> Result<Command<'a>, Error> {
    let command = Command::new(alloc, "judge")
        .about("Judges a recorded trace, and names the first rule that it breaks")
        .arg(path(alloc, "PROGRAM", "the program's text"))?
        .arg(path(alloc, "EXTERNALS", "the table of external inputs"))?
        .arg(path(alloc, "TRACE", "the trace table"))?
        .arg(workers(alloc, JUDGES))?
        .arg(lower_arg(alloc))?
        .arg(until_arg(alloc, UNTIL))?
        .after_help(JUDGE_HELP);
    Ok(command)
}

fn cover_command<'a>(alloc: Global) -> Result<Command<'a>, Error> {
    let list = Arg::new(alloc, "list")
        .long("list")
        .action(ArgAction::SetTrue)
        .help("one fact a line, for scripts");
    let command = Command::new(alloc, "cover")
        .about("Judges a recorded trace, and counts what it exercised of its program")
        .arg(path(alloc, "PROGRAM", "the program's text"))?
        .arg(path(alloc, "EXTERNALS", "the table of external inputs"))?
        .arg(path(alloc, "TRACE", "the trace table"))?
        .arg(workers(alloc, JUDGES))?
        .arg(lower_arg(alloc))?
        .arg(list)?
        .after_help(COVER_HELP);
    Ok(command)
}

fn all_arg<'a>(alloc: Global) -> Arg<'a> {
    Arg::new(alloc, "all")
        .long("all")
        .action(ArgAction::SetTrue)
        .help("print all lines of each part,\nnot the first 60 alone")
}

fn explain_command<'a>(alloc: Global) -> Result<Command<'a>, Error> {
    let externals = path(alloc, "EXTERNALS", "the table of external inputs")
        .required(false)
        .requires_arg("TRACE")?;
    let command = Command::new(alloc, "explain")
        .about(
            "Judges a recorded trace, and tells the facts behind the first rule\nthat it breaks; compares two, and tells where they differ;\ntells why a program is refused",
        )
        .arg(path(alloc, "PROGRAM", "the program's text").required(false))?
        .arg(externals)?
        .arg(path(alloc, "TRACE", "the trace table").required(false))?
        .arg(path(alloc, "SECOND", "another trace table").required(false))?
        .arg(workers(alloc, JUDGES))?
        .arg(lower_arg(alloc).requires_arg("PROGRAM")?)?
        .arg(until_arg(alloc, UNTIL).requires_arg("TRACE")?)?
        .arg(all_arg(alloc))?
        .after_help(EXPLAIN_HELP);
    Ok(command)
}

fn pair_command<'a>(alloc: Global) -> Result<Command<'a>, Error> {
    let command = Command::new(alloc, "pair")
        .about(
            "Judges two recorded traces of one program,\nand tells whether they have the same runs",
        )
        .arg(path(alloc, "PROGRAM", "the program's text"))?
        .arg(path(alloc, "EXTERNALS", "the table of external inputs of both"))?
        .arg(path(alloc, "FIRST", "a trace table"))?
        .arg(path(alloc, "SECOND", "another trace table"))?
        .arg(workers(alloc, JUDGES))?
        .arg(lower_arg(alloc))?
        .after_help(PAIR_HELP);
    Ok(command)
}

fn record_command<'a>(alloc: Global) -> Result<Command<'a>, Error> {
    let max_runs = Arg::new(alloc, "max-runs")
        .long("max-runs")
        .value_name("N")
        .help("how many runs at most, 0 to 1000000")
        .default_value("1000000")
        .value_parser(clap::value_parser!(u32).range(0..1_000_001));
    let command = Command::new(alloc, "record")
        .about("Records an execution whose bodies answer what a table of cards says")
        .arg(path(alloc, "PROGRAM", "the program's text"))?
        .arg(path(alloc, "EXTERNALS", "the table of external inputs"))?
        .arg(path(alloc, "CARDS", "the table of cards"))?
        .arg(workers(alloc, "how many workers, 1 to 64"))?
        .arg(max_runs)?
        .arg(lower_arg(alloc))?
        .after_help(RECORD_HELP);
    Ok(command)
}

fn until_arg<'a>(alloc: Global, help: &'a str) -> Arg<'a> {
    Arg::new(alloc, "until")
        .long("until")
        .value_name("TIME,MICROSTEP")
        .help(help)
}

/// The help of the table of external inputs of `follow`, which may be left out.
const EXTERNALS_HELP: &str = "the table of external inputs, where the log hasn't all of them";
/// The help of the log, which may be left out too.
const LOG_HELP: &str = "the trace table, among whose rows external inputs may stand";

fn follow_command<'a>(alloc: Global) -> Result<Command<'a>, Error> {
    let until = until_arg(
        alloc,
        "ends behind the first tag at or past this one\nthat has rows",
    );
    let every = Arg::new(alloc, "every")
        .long("every")
        .value_name("N")
        .help("after N rows tells on standard error how far\nthey are judged; 0 is never")
        .default_value("0")
        .value_parser(clap::value_parser!(u64).range(0..1_000_000_000_000));
    let whole = Arg::new(alloc, "whole")
        .long("whole")
        .action(ArgAction::SetTrue)
        .help(
            "no row is missing at the end: then the first\nrule that is broken is told, as by `judge`",
        );
    let drain = Arg::new(alloc, "drain")
        .long("drain")
        .action(ArgAction::SetTrue)
        .help("reads on behind what is told, so that the\nwriter isn't stopped, and drops it");
    let explain = Arg::new(alloc, "explain")
        .long("explain")
        .action(ArgAction::SetTrue)
        .help(
            "tells behind a broken rule the facts that\nshow it, as `explain` does, and at the end\nwhich runs are open",
        );
    let command = Command::new(alloc, "follow")
        .about("Judges a trace while it is written,\nand forgets the rows of finished tags")
        .arg(path(alloc, "PROGRAM", "the program's text"))?
        .arg(path(alloc, "EXTERNALS", EXTERNALS_HELP).required(false))?
        .arg(path(alloc, "LOG", LOG_HELP).required(false))?
        .arg(lower_arg(alloc))?
        .arg(until)?
        .arg(whole)?
        .arg(every)?
        .arg(drain)?
        .arg(explain)?
        .arg(all_arg(alloc).requires_arg("explain")?)?
        .after_help(FOLLOW_HELP);
    Ok(command)
}

fn show_command<'a>(alloc: Global) -> Result<Command<'a>, Error> {
    let command = Command::new(alloc, "show")
        .about("Shows the ports of a program and which of its reactions precede which")
        .arg(path(alloc, "PROGRAM", "the program's text"))?
        .arg(lower_arg(alloc))?
        .arg(
            Arg::new(alloc, "all")
                .long("all")
                .action(ArgAction::SetTrue)
                .help("instances, actions, timers, triggers, uses and effects too"),
        )?
        .after_help(SHOW_HELP);
    Ok(command)
}

fn root_command<'a>(alloc: Global) -> Result<Command<'a>, Error> {
    let command = Command::new(alloc, "lftrace")
        .version(VERSION)
        .about(
            "Checks recorded executions of reactor programs, and records them.\nWithout a command it judges a bundle from standard input.",
        )
        .subcommand(judge_command(alloc)?)?
        .subcommand(cover_command(alloc)?)?
        .subcommand(explain_command(alloc)?)?
        .subcommand(pair_command(alloc)?)?
        .subcommand(follow_command(alloc)?)?
        .subcommand(record_command(alloc)?)?
        .subcommand(show_command(alloc)?)?
        .after_help(HELP);
    Ok(command)
}

/// The text of a word that the command line must have.
fn text<'a>(matches: &ArgMatches<'a>, id: &str) -> &'a str {
    // A command line without the word is refused before, so the empty text doesn't come.
    matches.get_str(id).unwrap_or("")
}

fn number(matches: &ArgMatches<'_>, id: &str, otherwise: u32) -> u32 {
    matches.get_one::<u32>(id).unwrap_or(otherwise)
}

/// The path of a word that the command line may have.
fn given<'a>(matches: &ArgMatches<'a>, id: &str) -> Option<&'a str> {
    if matches.contains_id(id) {
        Some(text(matches, id))
    } else {
        None
    }
}

/// The words of a program.
fn program<'a>(matches: &ArgMatches<'a>) -> ProgramWords<'a> {
    ProgramWords {
        path: text(matches, "PROGRAM"),
        lower: matches.get_flag("lower"),
    }
}

/// The words of a command that shows a program.
fn show_words<'a>(matches: &ArgMatches<'a>, all: bool) -> ShowWords<'a> {
    ShowWords {
        program: program(matches),
        all,
    }
}

/// The words of a command that judges one trace.
fn judge_words<'a>(matches: &ArgMatches<'a>) -> JudgeWords<'a> {
    JudgeWords {
        program: program(matches),
        externals: text(matches, "EXTERNALS"),
        trace: text(matches, "TRACE"),
        workers: number(matches, "workers", 1),
    }
}

/// The words of a command that compares two traces, the first of which has the name.
fn pair_words<'a>(matches: &ArgMatches<'a>, first: &str) -> PairWords<'a> {
    PairWords {
        program: program(matches),
        externals: text(matches, "EXTERNALS"),
        first: text(matches, first),
        second: text(matches, "SECOND"),
        workers: number(matches, "workers", 1),
    }
}

/// The tag that `--until` names, if it is there. The command is for its error.
fn until<'a>(mut command: Command<'a>, matches: &ArgMatches<'a>) -> Result<Option<Tag>, Error> {
    if !matches.contains_id("until") {
        return Ok(None);
    }
    match read_until(text(matches, "until").as_bytes()) {
        Some(tag) => Ok(Some(tag)),
        None => {
            let words = "`--until` wants TIME,MICROSTEP, as 5000000,0; at most 10^18 and 10^9";
            Err(command.error(ErrorKind::ValueValidation, words)?)
        }
    }
}

/// A trace of three files is followed up to a tag: its rows behind that tag aren't judged.
fn follow_until(words: JudgeWords<'_>, until: Tag, explain: bool, all: bool) -> Job<'_> {
    Job::Follow(FollowWords {
        program: words.program,
        externals: Some(words.externals),
        log: Some(words.trace),
        following: Following {
            until: Some(until),
            whole: false,
            every: 0,
        },
        drain: false,
        explain,
        all,
    })
}

/// What the words of `judge` ask for.
fn judge_job<'a>(alloc: Global, matches: &ArgMatches<'a>) -> Result<Job<'a>, Error> {
    let words = judge_words(matches);
    // Made once more, for an error that names it: reading the words took the other one.
    let command = judge_command(alloc)?.bin_name("lftrace judge")?;
    match until(command, matches)? {
        Some(until) => Ok(follow_until(words, until, false, false)),
        None => Ok(Job::Ask(Question::One {
            words,
            behind: Behind::Nothing,
        })),
    }
}

/// What the words of `explain` ask for without `--until`: by how many paths there are.
fn explain_all<'a>(matches: &ArgMatches<'a>, all: bool) -> Job<'a> {
    let behind = Behind::Facts { all };
    if matches.contains_id("SECOND") {
        let words = pair_words(matches, "TRACE");
        Job::Ask(Question::Two { words, behind })
    } else if matches.contains_id("TRACE") {
        let words = judge_words(matches);
        Job::Ask(Question::One { words, behind })
    } else if matches.contains_id("PROGRAM") {
        Job::ExplainProgram(show_words(matches, false))
    } else {
        Job::ExplainBundle { all }
    }
}

/// What the words of `explain` ask for. Two traces aren't compared up to a tag.
fn explain_job<'a>(alloc: Global, matches: &ArgMatches<'a>) -> Result<Job<'a>, Error> {
    let all = matches.get_flag("all");
    let mut command = explain_command(alloc)?.bin_name("lftrace explain")?;
    if matches.contains_id("until") && matches.contains_id("SECOND") {
        let words = "`--until` is of one trace";
        return Err(command.error(ErrorKind::ArgumentConflict, words)?);
    }
    match until(command, matches)? {
        Some(until) => Ok(follow_until(judge_words(matches), until, true, all)),
        None => Ok(explain_all(matches, all)),
    }
}

/// The words of `follow`.
fn follow_words<'a>(alloc: Global, matches: &ArgMatches<'a>) -> Result<FollowWords<'a>, Error> {
    let mut command = follow_command(alloc)?.bin_name("lftrace follow")?;
    if matches.get_flag("explain") && matches.get_flag("whole") {
        let words =
            "`--explain` and `--whole` don't go together: `lftrace explain` tells of a whole trace";
        return Err(command.error(ErrorKind::ArgumentConflict, words)?);
    }
    let until = until(command, matches)?;
    let every = matches.get_one::<u64>("every").unwrap_or(0);
    Ok(FollowWords {
        program: program(matches),
        externals: given(matches, "EXTERNALS"),
        log: given(matches, "LOG"),
        following: Following {
            until,
            whole: matches.get_flag("whole"),
            every,
        },
        drain: matches.get_flag("drain"),
        explain: matches.get_flag("explain"),
        all: matches.get_flag("all"),
    })
}

/// What the words ask for, the first being the program's own name. The error is the command line's:
/// a refusal, or the help that was asked for.
pub(crate) fn read_words<'a>(alloc: Global, words: &'a [String]) -> Result<Job<'a>, Error> {
    let command = root_command(alloc)?;
    let matches = command.try_get_matches_from(words)?;
    match matches.subcommand() {
        Some(("judge", judge)) => judge_job(alloc, judge),
        Some(("cover", cover)) => {
            let words = judge_words(cover);
            let list = cover.get_flag("list");
            let behind = Behind::Counts { list };
            Ok(Job::Ask(Question::One { words, behind }))
        }
        Some(("explain", explain)) => explain_job(alloc, explain),
        Some(("pair", pair)) => Ok(Job::Ask(Question::Two {
            words: pair_words(pair, "FIRST"),
            behind: Behind::Nothing,
        })),
        Some(("follow", follow)) => Ok(Job::Follow(follow_words(alloc, follow)?)),
        Some(("record", record)) => Ok(Job::Record(RecordWords {
            program: program(record),
            externals: text(record, "EXTERNALS"),
            cards: text(record, "CARDS"),
            workers: number(record, "workers", 1),
            max_runs: number(record, "max-runs", 1_000_000),
        })),
        Some(("show", show)) => Ok(Job::Show(show_words(show, show.get_flag("all")))),
        _ => Ok(Job::Bundle),
    }
}
