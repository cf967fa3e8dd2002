//! `follow`: a trace that is judged while it is written.

use crate::session::{Planned, Session};
use crate::words::FollowWords;
use crate::{await_text, end, say};
use lft_driver::{Fault, Part};
use lft_load::files::{Failure, open_file};
use lft_log::explain::{Unexplained, explain_log_plan};
use lft_log::follow::{Final, Kept, drain, follow_plan, status_of_log};
use lft_model::Plan;
use std::alloc::Global;
use std::io::{Read, Write};
use std::process::ExitCode;

/// What is said at a terminal below the line of the fault, where it helps. A log in the place of EXTERNALS has
/// another header.
fn words_for(failure: &Failure) -> Option<&'static str> {
    if failure.cause.is_some() {
        return failure.cause;
    }
    match failure.fault.part {
        Part::Externals if failure.fault.number == 1 => {
            Some("a log that has its external inputs: `lftrace follow PROGRAM < LOG`")
        }
        _ => None,
    }
}

/// Says why a trace can't be followed, and gives the status.
fn end_failed(rt: &HostRuntime, alloc: Global, failure: Failure) -> u8 {
    let words = words_for(&failure);
    let status = end(rt, alloc, Err(failure));
    say(rt, words);
    status
}

/// Why the facts behind a broken rule, or the open runs, are not told.
fn why_untold(why: Unexplained) -> &'static str {
    match why {
        Unexplained::TooLong => "more was read than a table may have",
        Unexplained::NoMemory => "memory is refused",
    }
}

/// What is told of the trace of a reader under a plan. Where it is asked for, the facts stand behind the line of a
/// broken rule, and the open runs behind that of an end where rows are missing.
fn tell_plan<R: Read, W: Write>(
    rt: &HostRuntime,
    alloc: Global,
    plan: Plan,
    words: FollowWords<'_>,
    reader: &mut R,
    out: &mut W,
) -> Result<Final, Fault> {
    let path = words.log.unwrap_or("-");
    let following = words.following;
    let mut errors = rt.stderr();
    if !words.explain {
        let ended = follow_plan(
            alloc,
            plan,
            path,
            reader,
            following,
            &mut Kept::Nothing,
            out,
            &mut errors,
        )?;
        return Ok(ended.told);
    }
    let explained = explain_log_plan(
        alloc,
        plan,
        path,
        reader,
        following,
        words.all,
        out,
        &mut errors,
    )?;
    if let Some(why) = explained.unexplained {
        let _ = eprintln!(rt; "lftrace: the facts are not told: {}", why_untold(why));
    }
    Ok(explained.told)
}

/// What is told of the trace of a reader. Why a text is refused is not told.
fn tell_reader<R: Read, W: Write>(
    rt: &HostRuntime,
    alloc: Global,
    planned: Planned,
    words: FollowWords<'_>,
    reader: &mut R,
    out: &mut W,
) -> Result<Final, Failure> {
    let told = tell_plan(rt, alloc, planned?, words, reader, out)?;
    Ok(told)
}

/// Follows the trace of a reader, and gives the status. What is told is written before the rest is dropped.
fn follow_reader<R: Read, W: Write>(
    rt: &HostRuntime,
    alloc: Global,
    planned: Planned,
    words: FollowWords<'_>,
    reader: &mut R,
    out: &mut W,
) -> u8 {
    let status = match tell_reader(rt, alloc, planned, words, reader, out) {
        Ok(told) => status_of_log(told),
        Err(failure) => end_failed(rt, alloc, failure),
    };
    if words.drain {
        // What is told is told: nothing changes where the reader fails behind it.
        let _ = drain(alloc, reader);
    }
    status
}

/// The status of what the trace of a file, or of standard input, shows.
fn follow_files<W: Write>(
    rt: &HostRuntime,
    alloc: Global,
    words: FollowWords<'_>,
    out: &mut W,
) -> Result<u8, Failure> {
    let planned = Session::of(rt, alloc, out, false).plan(words.program, words.externals)?;
    let status = match words.log {
        Some(path) => {
            let mut file = open_file(rt, alloc, path)?;
            follow_reader(rt, alloc, planned, words, &mut file, out)
        }
        None => {
            await_text(rt, "a log");
            follow_reader(rt, alloc, planned, words, &mut rt.stdin(), out)
        }
    };
    Ok(status)
}

/// Follows a trace, and gives the status. Those of 3 and 4 are of this command alone.
pub(crate) fn end_followed<W: Write>(
    rt: &HostRuntime,
    alloc: Global,
    words: FollowWords<'_>,
    out: &mut W,
) -> ExitCode {
    match follow_files(rt, alloc, words, out) {
        Ok(status) => ExitCode::from(status),
        Err(failure) => ExitCode::from(end_failed(rt, alloc, failure)),
    }
}
