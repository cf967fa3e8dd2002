//! Calls on texts: writers that are interrupted, that fail, and that take nothing; statuses; numbers of workers that no
//! command gives, and faults that no text makes while memory is at hand.

use crate::texts::{AT_ONCE, NO_ROWS, ONE, ONE_RUN, PIPE};
use lft_driver::{Fault, finish, judge_texts, judge_texts_alone, load, pair_texts, show_text};
use lft_program::ProgramFault;
use lft_record::record_plan;
use lft_syntax::{LexFault, SyntaxFault};
use lft_trace::TraceFault;
use std::alloc::Global;
use std::io;
use std::io::{ErrorKind, Write};
use std::process::Abort;
use std::sync::Wait;
use std::thread::Threads;

/// What was written, and after it the line of the fault, where there is one.
pub(crate) fn with_fault(mut out: Vec<u8>, fault: Option<Fault>) -> Vec<u8> {
    if let Some(fault) = fault {
        // The status is asked in `gives_the_status`.
        let _ = finish(Err(fault), &mut out);
    }
    out
}

/// Takes one byte a call. At so many calls, from the one of the number `at` on, counted from 0, it
/// gives an error of this kind instead, or takes nothing where there is no kind.
#[derive(Drop)]
struct Stumbling {
    taken: Vec<u8>,
    calls: usize,
    at: usize,
    times: usize,
    kind: Option<ErrorKind>,
    flushes: bool,
}

impl Stumbling {
    fn new(alloc: Global, at: usize, times: usize, kind: Option<ErrorKind>) -> Stumbling {
        Stumbling {
            taken: Vec::new(alloc),
            calls: 0,
            at,
            times,
            kind,
            flushes: true,
        }
    }
}

impl Write for Stumbling {
    fn write(&mut self, buf: &[u8]) -> io::Result<usize> {
        let call = self.calls;
        self.calls = call.wrapping_add(1);
        if self.at <= call && call - self.at < self.times {
            return match self.kind {
                Some(kind) => Err(io::Error::from(kind)),
                None => Ok(0),
            };
        }
        match buf.first() {
            Some(byte) => {
                self.taken.push(*byte)?;
                Ok(1)
            }
            None => Ok(0),
        }
    }

    fn flush(&mut self) -> io::Result<()> {
        if self.flushes {
            Ok(())
        } else {
            Err(io::Error::from(ErrorKind::TimedOut))
        }
    }
}

/// One body, for the first reaction.
const CARDS: &[u8] = b"kind,reaction,name,delay,value\nbodies,main#1,,,1\n";

const EMPTY: &[u8] = b"main reactor { }";

/// A call that writes.
#[derive(Clone, Copy, Debug)]
enum Call {
    JudgeAlone,
    Judge,
    Pair,
    Show,
    Record,
}

/// What a writer has taken of a call on the text of a program by so many workers, and after it the line of the fault,
/// where there is one. The tables have no rows.
fn written<R: Threads + Wait + Sync>(
    rt: &R,
    alloc: Global,
    call: Call,
    program: &[u8],
    workers: u32,
    mut out: Stumbling,
) -> Vec<u8> {
    let to = &mut out;
    let fault = match call {
        Call::JudgeAlone => judge_texts_alone(alloc, program, AT_ONCE, NO_ROWS, to).err(),
        Call::Judge => judge_texts(rt, alloc, program, AT_ONCE, NO_ROWS, workers, to).err(),
        Call::Pair => {
            pair_texts(rt, alloc, program, AT_ONCE, NO_ROWS, NO_ROWS, workers, to).err()
        }
        Call::Show => show_text(alloc, program, to).err(),
        Call::Record => match load(alloc, program, AT_ONCE) {
            Ok(plan) => record_plan(rt, alloc, plan, CARDS, workers, 10, to).err(),
            Err(fault) => Some(fault),
        },
    };
    with_fault(out.taken, fault)
}

/// Whether a text is these lines and the line of this fault.
fn is_text(text: &[u8], lines: &[u8], fault: &[u8]) -> bool {
    text.strip_suffix(fault) == Some(lines)
}

const FAILED: &[u8] = b"fault write 1 Failed\n";

/// The call, which writes these lines and ends with this fault, goes on after three interruptions, wherever they come,
/// and tells a write that fails, wherever it does, and a flush that fails. Then the writer isn't asked again: what it
/// took is what stands before the place.
fn meets_writers<R: Abort + Threads + Wait + Sync>(
    rt: &R,
    alloc: Global,
    call: Call,
    program: &[u8],
    lines: &[u8],
    fault: &[u8],
) {
    let kinds = [Some(ErrorKind::TimedOut), Some(ErrorKind::WouldBlock), None];
    for at in 0..lines.len() {
        let out = Stumbling::new(alloc, at, 3, Some(ErrorKind::Interrupted));
        let text = written(rt, alloc, call, program, 1, out);
        assert!(rt; is_text(&text, lines, fault), "{call:?} {at}");
        for kind in kinds {
            let out = Stumbling::new(alloc, at, 1, kind);
            let text = written(rt, alloc, call, program, 1, out);
            assert!(rt; is_text(&text, &lines[..at], FAILED), "{call:?} {at}");
        }
    }
    let mut out = Stumbling::new(alloc, 0, 0, None);
    out.flushes = false;
    let text = written(rt, alloc, call, program, 1, out);
    assert!(rt; is_text(&text, lines, FAILED), "{call:?}");
}

const PIPE_LINES: &[u8] = b"port main.a.out origin=main.a.out after=0+0
port main.b.x origin=main.a.out after=0+0
reaction main.a#1 level=0 before=-
reaction main.b#1 level=1 before=main.a#1
";

/// The second reaction has no body.
const TWICE: &[u8] = b"main reactor { reaction(startup) {= =} reaction(startup) {= =} }";

// a recording that stopped has rows to write: the fault of a failed write comes before the reason
#[test]
fn calls_meet_writers(rt: HostRuntime) {
    let (accepted, same) = (b"accepted runs=0 tags=0\n", b"same runs=0 tags=0\n");
    let no_body = b"fault pool 1 NoBody main#2\n".as_slice();
    for (call, program, lines, fault) in [
        (Call::JudgeAlone, EMPTY, accepted.as_slice(), b"".as_slice()),
        (Call::Judge, EMPTY, accepted.as_slice(), b"".as_slice()),
        (Call::Pair, EMPTY, same.as_slice(), b"".as_slice()),
        (Call::Show, PIPE, PIPE_LINES, b"".as_slice()),
        (Call::Record, ONE, ONE_RUN, b"".as_slice()),
        (Call::Record, TWICE, ONE_RUN, no_body),
    ] {
        meets_writers(&rt, rt.alloc(), call, program, lines, fault);
    }
}

// the command line gives only 1 to 64; that these are told is a clause, and their words aren't
#[test]
fn tells_of_other_numbers_of_workers(rt: HostRuntime) {
    for (call, lines, fault) in [
        (
            Call::Judge,
            b"".as_slice(),
            b"fault check 1 BadWorkers\n".as_slice(),
        ),
        (
            Call::Pair,
            b"".as_slice(),
            b"fault check 1 BadWorkers\n".as_slice(),
        ),
        (
            Call::Record,
            NO_ROWS,
            b"fault pool 10 BadWorkers\n".as_slice(),
        ),
    ] {
        for workers in [0, 65] {
            let out = Stumbling::new(rt.alloc(), 0, 0, None);
            let text = written(&rt, rt.alloc(), call, ONE, workers, out);
            assert!(rt; is_text(&text, lines, fault), "{call:?} {workers}");
        }
    }
}

// the status of a fault is 2 whatever becomes of its line
#[test]
fn gives_the_status(rt: HostRuntime) {
    let line = b"fault memory 1 NoMemory\n".as_slice();
    for (kind, is_whole) in [
        (Some(ErrorKind::Interrupted), true),
        (Some(ErrorKind::TimedOut), false),
        (None, false),
    ] {
        for at in 0..line.len() {
            let mut out = Stumbling::new(rt.alloc(), at, 1, kind);
            let status = finish(Err(Fault::no_memory()), &mut out);
            let end = if is_whole { line.len() } else { at };
            assert!(rt; status == 2 && out.taken.as_slice() == &line[..end], "{at}");
        }
    }
    let mut out = Stumbling::new(rt.alloc(), 0, usize::MAX, None);
    let statuses = [finish(Ok(true), &mut out), finish(Ok(false), &mut out)];
    assert!(rt; statuses == [0, 1] && out.calls == 0);
}

const LINES: &[u8] = b"fault lex 7 NoMemory
fault syntax 2 NoMemory
fault program 16 NoMemory
fault externals 11 NotCsv
fault externals 12 NoMemory
fault trace 11 NotCsv
fault trace 12 NoMemory
fault memory 1 NoMemory
";

#[test]
fn tells_want_of_memory_and_what_is_no_records(rt: HostRuntime) {
    let faults = [
        Fault::lex(LexFault::NoMemory),
        Fault::syntax(SyntaxFault::NoMemory),
        Fault::program(ProgramFault::NoMemory),
        Fault::externals(TraceFault::NotCsv),
        Fault::externals(TraceFault::NoMemory),
        Fault::trace(TraceFault::NotCsv),
        Fault::trace(TraceFault::NoMemory),
        Fault::no_memory(),
    ];
    let mut lines = Vec::new(rt.alloc());
    for fault in faults {
        lines = with_fault(lines, Some(fault));
    }
    assert!(rt; lines.as_slice() == LINES);
}
