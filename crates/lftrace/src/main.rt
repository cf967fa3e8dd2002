//! The command line: it judges recorded traces of Lingua Franca programs, compares them, and records
//! executions.
#![tactic(auto)]

mod follow;
mod help;
mod session;
mod words;

use crate::follow::end_followed;
use crate::session::{Session, is_known};
use crate::words::{
    Behind, Job, JudgeWords, PairWords, Question, RecordWords, ShowWords, read_words,
};
use lft_driver::{
    Fault, Part, bundle_answer, explain_bundle_answer, finish, read_input, refusal_of_bundle,
};
use lft_load::files::{Failure, open_file, ordinary_size, read_file, read_opened};
use lft_record::record_plan;
use lft_tag::NoMemory;
use lft_text_diagnostics::words::push_bytes;
use std::alloc::Global;
use std::io::{BufWriter, IsTerminal, Read, Write};
use std::process::ExitCode;
use std::rt::Files;
use std::sync::Wait;
use std::thread::Threads;
use std::{env, io};

/// Judges the trace of three files. That one can't be read is told before what is wrong with another.
fn judge_files<F: Files + Threads + Sync, W: Write>(
    rt: &F,
    alloc: Global,
    words: JudgeWords<'_>,
    behind: Behind,
    out: &mut W,
) -> Result<bool, Failure> {
    let mut session = Session::of(rt, alloc, out, behind.is_told());
    let planned = session.plan_shared(words.program, words.externals, words.workers)?;
    let mut file = open_file(rt, alloc, words.trace)?;
    if matches!(behind, Behind::Nothing)
        && let Some(size) = ordinary_size(&file)
    {
        return session.judge_file(words, planned, &mut file, size);
    }
    let trace = read_opened(rt, alloc, words.trace, &mut file)?;
    let plan = session.taken(planned)?;
    session.judge(&plan, &trace, words.workers, behind)
}

/// Compares the two traces of four files.
fn pair_files<F: Files + Threads + Sync, W: Write>(
    rt: &F,
    alloc: Global,
    words: PairWords<'_>,
    behind: Behind,
    out: &mut W,
) -> Result<bool, Failure> {
    let mut session = Session::of(rt, alloc, out, behind.is_told());
    let planned = session.plan_shared(words.program, words.externals, words.workers)?;
    let first = read_file(rt, alloc, words.first)?;
    let second = read_file(rt, alloc, words.second)?;
    let plan = session.taken(planned)?;
    session.compare(&plan, &first, &second, words.workers, behind)
}

/// Records the program of three files.
fn record_files<R: Files + Threads + Wait + Sync, W: Write>(
    rt: &R,
    alloc: Global,
    words: RecordWords<'_>,
    out: &mut W,
) -> Result<bool, Failure> {
    let session = Session::of(rt, alloc, out, false);
    let planned = session.plan_shared(words.program, words.externals, words.workers)?;
    let cards = read_file(rt, alloc, words.cards)?;
    let recorded = record_plan(
        rt,
        alloc,
        planned?,
        &cards,
        words.workers,
        words.max_runs,
        out,
    )?;
    Ok(recorded)
}

/// Writes what is said of a program, a line each. This is help alone: where it can't be written, the program is
/// shown all the same.
fn write_notes<E: Write>(notes: &[String], errors: &mut E) {
    for note in notes {
        let _ = errors.write_all(note.as_bytes());
        let _ = errors.write_all(b"\n");
    }
}

/// Shows the program of a file, with what is said of it. Where it is refused, why is told where that is asked for.
fn show_file<F: Files, W: Write, E: Write>(
    rt: &F,
    alloc: Global,
    words: ShowWords<'_>,
    tells: bool,
    out: &mut W,
    errors: &mut E,
) -> Result<bool, Failure> {
    let text = read_file(rt, alloc, words.program.path)?;
    let mut session = Session::of(rt, alloc, out, tells);
    let whole = session.program(words.program, &text);
    let whole = session.taken(whole)?;
    let shown = session.show(&whole.program, words.all)?;
    if !tells {
        write_notes(&whole.notes, errors);
    }
    Ok(shown)
}

/// Judges the bundle that a reader gives.
fn judge_bundle<R: Read, W: Write>(
    alloc: Global,
    reader: &mut R,
    out: &mut W,
) -> Result<bool, Failure> {
    let text = read_input(alloc, "-", reader)?;
    let answer = bundle_answer(alloc, text.as_slice(), out)?;
    Ok(answer)
}

/// Judges the bundle that a reader gives, and explains the verdict, or why a text is refused.
fn explain_bundle<T: Threads + Sync, R: Read, W: Write>(
    rt: &T,
    alloc: Global,
    reader: &mut R,
    all: bool,
    out: &mut W,
) -> Result<bool, Failure> {
    let text = read_input(alloc, "-", reader)?;
    let answer = explain_bundle_answer(rt, alloc, text.as_slice(), all, out);
    // A bundle has no path for imports, so its program is core, and nothing is said of `--lower`.
    if let Err(fault) = &answer
        && is_known(fault)
        && let Ok(Some(told)) = refusal_of_bundle(alloc, text.as_slice())
    {
        let _ = out.write_all(told.as_bytes());
    }
    let answer = answer?;
    Ok(answer)
}

/// Says at a terminal what is awaited.
pub(crate) fn await_text(rt: &HostRuntime, what: &str) {
    if rt.stdin().is_terminal() {
        let _ = eprintln!(rt;
            "lftrace: reading {what} from standard input; `lftrace --help` tells more"
        );
    }
}

/// Whether a fault is of the program's text.
fn is_of_program(fault: &Fault) -> bool {
    matches!(
        fault.part,
        Part::Lex | Part::Syntax | Part::Program | Part::Graph | Part::Lower
    )
}

/// Whether `explain` tells more than the line of the answer: of a broken rule, a difference, or a text that
/// is refused.
fn has_more(answer: &Result<bool, Failure>) -> bool {
    match answer {
        Ok(is_right) => !*is_right,
        Err(failure) => {
            is_of_program(&failure.fault)
                || matches!(
                    failure.fault.part,
                    Part::Externals | Part::Trace | Part::Bundle
                )
        }
    }
}

/// Whether `explain` with the program alone tells more than the line of the answer.
fn has_more_of_program(answer: &Result<bool, Failure>) -> bool {
    match answer {
        Ok(_) => false,
        Err(failure) => is_of_program(&failure.fault),
    }
}

/// What is said at a terminal below the line of the answer: why a file can't be read, or that `explain`
/// tells why. What `explain` tells stands on standard output.
fn words_for(job: Job<'_>, answer: &Result<bool, Failure>) -> Option<&'static str> {
    if job.is_explained() {
        return None;
    }
    if let Err(failure) = answer
        && failure.cause.is_some()
    {
        return failure.cause;
    }
    match (job, job.is_lowered()) {
        (Job::Bundle | Job::Ask(_), false) if has_more(answer) => {
            Some("`lftrace explain` with the same texts tells why")
        }
        (Job::Bundle | Job::Ask(_), true) if has_more(answer) => {
            Some("`lftrace explain --lower` with the same texts tells why")
        }
        (Job::Record(_) | Job::Show(_), false) if has_more_of_program(answer) => {
            Some("`lftrace explain PROGRAM` tells why")
        }
        (Job::Record(_) | Job::Show(_), true) if has_more_of_program(answer) => {
            Some("`lftrace explain --lower PROGRAM` tells why")
        }
        _ => None,
    }
}

/// Says something at a terminal.
pub(crate) fn say(rt: &HostRuntime, words: Option<&'static str>) {
    // At a terminal alone: scripts read the line of a fault on standard
    // error, and nothing else is to stand there.
    if let Some(words) = words
        && rt.stderr().is_terminal()
    {
        let _ = eprintln!(rt; "lftrace: {words}");
    }
}

/// Writes why a file can't be read, where that is known. This is help alone, as what is told of a text.
fn write_cause<W: Write>(answer: &Result<bool, Failure>, out: &mut W) {
    if let Err(failure) = answer
        && let Some(cause) = failure.cause
    {
        let _ = writeln!(out, "Path{}: {cause}.", failure.fault.detail);
    }
}

/// The status of the answer. The line of a fault goes out in one write, where there is memory to put
/// it together: other processes may write to the same standard error.
pub(crate) fn end(rt: &HostRuntime, alloc: Global, answer: Result<bool, Failure>) -> u8 {
    let answer = answer.map_err(|failure| failure.fault);
    match BufWriter::new(alloc, rt.stderr()) {
        Ok(mut errors) => {
            let status = finish(answer, &mut errors);
            // As in `finish`: a failure here has nowhere to be told.
            let _ = errors.flush();
            status
        }
        Err(_) => finish(answer, &mut rt.stderr()),
    }
}

/// The answer to what is asked of tables, which is written.
fn answer_of<R: Files + Threads + Sync, W: Write>(
    rt: &R,
    alloc: Global,
    question: Question<'_>,
    out: &mut W,
) -> Result<bool, Failure> {
    match question {
        Question::One { words, behind } => judge_files(rt, alloc, words, behind, out),
        Question::Two { words, behind } => pair_files(rt, alloc, words, behind, out),
    }
}

/// Why the command line is refused, in lines, as a text is quoted: its words may have control and format characters.
fn refusal_words(alloc: Global, error: &clap::Error) -> Result<String, NoMemory> {
    let text = format!(in alloc; "{error}")?;
    let mut words = String::new(alloc);
    // Line by line, as what quotes a text replaces the ends of lines too.
    for line in text.lines() {
        push_bytes(alloc, &mut words, line.as_bytes())?;
        words.push_str("\n")?;
    }
    Ok(words)
}

/// Says why the command line is refused.
fn say_refused(rt: &HostRuntime, alloc: Global, error: &clap::Error) {
    let _ = match refusal_words(alloc, error) {
        Ok(words) => eprint!(rt; "{words}"),
        Err(_) => error.print(rt),
    };
}

fn main(rt: HostRuntime) -> ExitCode {
    let alloc = rt.alloc();
    let words: Vec<String> = match env::args(&rt) {
        Ok(words) => match words.collect(alloc) {
            Ok(words) => words,
            Err(_) => {
                let _ = eprintln!(rt; "error: out of memory");
                return ExitCode::from(2);
            }
        },
        Err(error) => {
            let _ = eprintln!(rt; "error: {error}");
            return ExitCode::from(2);
        }
    };
    let job = match read_words(alloc, words.as_slice()) {
        Ok(job) => job,
        Err(error) if error.use_stderr() => {
            say_refused(&rt, alloc, &error);
            return ExitCode::from(2);
        }
        Err(error) => {
            // The help or the version, which were asked for.
            let printed = error.print(&rt);
            return ExitCode::from(if printed.is_err() { 2 } else { 0 });
        }
    };
    let mut out = io::writer(&rt);
    let answer = match job {
        Job::Bundle => {
            await_text(&rt, "a bundle");
            judge_bundle(alloc, &mut rt.stdin(), &mut out)
        }
        Job::ExplainBundle { all } => {
            await_text(&rt, "a bundle");
            explain_bundle(&rt, alloc, &mut rt.stdin(), all, &mut out)
        }
        Job::Ask(question) => answer_of(&rt, alloc, question, &mut out),
        Job::ExplainProgram(words) => {
            show_file(&rt, alloc, words, true, &mut out, &mut rt.stderr())
        }
        Job::Record(words) => record_files(&rt, alloc, words, &mut out),
        Job::Follow(words) => return end_followed(&rt, alloc, words, &mut out),
        Job::Show(words) => show_file(&rt, alloc, words, false, &mut out, &mut rt.stderr()),
    };
    if job.is_explained() {
        write_cause(&answer, &mut out);
    }
    let words = words_for(job, &answer);
    let status = end(&rt, alloc, answer);
    say(&rt, words);
    ExitCode::from(status)
}
