//! Readers that end, that are interrupted, that fail, and that never end.

use crate::calls::with_fault;
use crate::texts::{AT_ONCE, ONE, ONE_RUN};
use lft_driver::{judge_reader, load, read_input};
use lft_load::SizedReader;
use std::alloc::Global;
use std::io;
use std::io::{ErrorKind, Read};
use std::thread::Threads;

/// Gives so many bytes, at most a number of them a call, the first of each call from the text. At so many
/// calls, from the one of the number `at` on, counted from 0, it gives an error of this kind instead, or no byte where
/// there is no kind.
#[derive(Drop)]
struct Stumbling {
    text: &'static [u8],
    left: usize,
    most: usize,
    calls: usize,
    at: usize,
    times: usize,
    kind: Option<ErrorKind>,
}

impl Stumbling {
    /// The text, a byte a call.
    fn new(text: &'static [u8], at: usize, times: usize, kind: Option<ErrorKind>) -> Stumbling {
        Stumbling {
            text,
            left: text.len(),
            most: 1,
            calls: 0,
            at,
            times,
            kind,
        }
    }

    /// So many bytes.
    fn plain(left: usize, most: usize) -> Stumbling {
        Stumbling {
            left,
            most,
            ..Stumbling::new(b"", 0, 0, None)
        }
    }
}

impl Read for Stumbling {
    fn read(&mut self, buf: &mut [u8]) -> io::Result<usize> {
        let call = self.calls;
        self.calls = call.wrapping_add(1);
        if self.at <= call && call - self.at < self.times {
            return match self.kind {
                Some(kind) => Err(io::Error::from(kind)),
                None => Ok(0),
            };
        }
        let given = buf.len().min(self.most).min(self.left);
        self.left -= given;
        if let (Some(place), Some((byte, rest))) = (buf.first_mut(), self.text.split_first()) {
            *place = *byte;
            self.text = rest;
        }
        Ok(given)
    }
}

/// The bytes of a reader, or the line of the fault.
fn told(alloc: Global, reader: &mut Stumbling) -> Vec<u8> {
    match read_input(alloc, "a b", reader) {
        Ok(bytes) => bytes,
        Err(fault) => with_fault(Vec::new(alloc), Some(fault)),
    }
}

const FAILED: &[u8] = b"fault read 1 Failed a b\n";

const TOO_LARGE: &[u8] = b"fault read 2 TooLarge a b\n";

// an interrupted read is tried again, and another error is told, at each place and at the end
#[test]
fn reads_on_after_interruptions_alone(rt: HostRuntime) {
    for (kind, want) in [
        (ErrorKind::Interrupted, b"abc".as_slice()),
        (ErrorKind::TimedOut, FAILED),
        (ErrorKind::WouldBlock, FAILED),
    ] {
        for at in 0..=3 {
            let mut reader = Stumbling::new(b"abc", at, 3, Some(kind));
            assert!(rt; told(rt.alloc(), &mut reader).as_slice() == want, "{at}");
        }
    }
}

// 2^24 calls are made and no more; interruptions are calls too
#[test]
fn gives_up_on_an_endless_reader(rt: HostRuntime) {
    let interrupted = Some(ErrorKind::Interrupted);
    for (left, times) in [(usize::MAX, 0), (0, usize::MAX)] {
        let mut endless = Stumbling {
            left,
            ..Stumbling::new(b"", 0, times, interrupted)
        };
        let line = told(rt.alloc(), &mut endless);
        assert!(rt;
            line.as_slice() == TOO_LARGE && endless.calls == 1 << 24,
            "{times}"
        );
    }
}

// the same of a file that is read in pieces
#[test]
fn takes_two_to_the_thirty_bytes_and_no_more(rt: HostRuntime) {
    for (left, length, is_past) in [(1 << 30, 1 << 30, false), ((1 << 30) + 1, 26, true)] {
        let mut reader = Stumbling::plain(left, usize::MAX);
        assert!(rt; told(rt.alloc(), &mut reader).len() == length, "{left}");
        let mut file = SizedReader::new(Stumbling::plain(left, usize::MAX), left);
        let mut piece = [0u8; 65536];
        for _ in 0..(1 << 14) + 2 {
            let _ = file.read(&mut piece);
        }
        assert!(rt; file.is_too_large() == is_past, "{left}");
    }
}

/// What so many workers write of the run of `ONE` in a file that stumbles at a call.
fn told_of_file<T: Threads + Sync>(
    rt: &T,
    alloc: Global,
    workers: u32,
    at: usize,
    kind: Option<ErrorKind>,
) -> Vec<u8> {
    let mut out = Vec::new(alloc);
    let Ok(plan) = load(alloc, ONE, AT_ONCE) else {
        return out;
    };
    let file = SizedReader::new(Stumbling::new(ONE_RUN, at, 1, kind), ONE_RUN.len());
    let answer = judge_reader(rt, alloc, &plan, "a b", file, workers, &mut out);
    with_fault(out, answer.err())
}

// a trace is judged while it is read: an interrupted read is tried again, and where a read fails, or the file
// ends before its size, that is told at once
#[test]
fn judges_what_a_file_gives(rt: HostRuntime) {
    let accepted = b"accepted runs=1 tags=1\n".as_slice();
    for workers in 1..=3 {
        for at in 0..=ONE_RUN.len() {
            let ended = if at < ONE_RUN.len() { FAILED } else { accepted };
            for (kind, wanted) in [
                (Some(ErrorKind::Interrupted), accepted),
                (Some(ErrorKind::TimedOut), FAILED),
                (None, ended),
            ] {
                let told = told_of_file(&rt, rt.alloc(), workers, at, kind);
                assert!(rt; told.as_slice() == wanted, "{at}");
            }
        }
    }
}
