//! From files to a program, to a plan, and to what is answered under it. Where it is asked for, why a text is refused
//! is told at the place where it is.

use crate::words::{Behind, JudgeWords, ProgramWords};
use lft_coverage::driver::cover_plan;
use lft_driver::{
    check_plan, explain_pair_plan, explain_plan, is_accepted, is_same, judge_plan, judge_reader,
    pair_plan, refusal_of_graph, refusal_of_plan, refusal_of_program, refusal_of_trace,
    refusal_of_traces, show_program,
};
use lft_ir::Program;
use lft_load::files::{
    Failure, open_file, ordinary_size, plan_shared, plan_sized, read_file, read_opened, read_sized,
    rewind, too_large,
};
use lft_load::{Fault, Part, SizedReader, Unplanned, plan_of, read_program};
use lft_model::Plan;
use lft_tag::NoMemory;
use lft_whole_driver::{Whole, whole_program};
use std::alloc::Global;
use std::io::{BufWriter, Read, Write};
use std::rt::Files;
use std::thread::Threads;

/// A table of fewer bytes is read by one worker: of it a thread costs more than it brings.
// Calls of the library have limits of their own: this one holds of all that a command does.
const SHORT: usize = 1 << 20;

/// How many of so many workers read tables of so many bytes, and judge them.
fn workers_for(workers: u32, bytes: usize) -> u32 {
    if bytes < SHORT { 1 } else { workers }
}

/// Whether a text can be told of: of one that was refused for want of memory nothing is known.
pub(crate) fn is_known(fault: &Fault) -> bool {
    // By its name: want of memory is a fault of several parts.
    fault.name != "NoMemory"
}

/// Whether a text of this fault isn't core.
fn is_no_core(fault: &Fault) -> bool {
    // A text that has a core tree is core, also where its program is refused.
    matches!(fault.part, Part::Lex | Part::Syntax) && is_known(fault)
}

/// Whether the trace that a reader of a file gives is accepted. None says nothing of it.
// Apart, so that no type that is handed on names two borrows.
fn judge_sized<T: Threads + Sync, R: Read + Drop, W: Write>(
    rt: &T,
    alloc: Global,
    plan: &Plan,
    path: &str,
    reader: &mut SizedReader<R>,
    workers: u32,
    out: &mut W,
) -> Result<Option<bool>, Fault> {
    match judge_reader(rt, alloc, plan, path, reader, workers, out) {
        Ok(Some(verdict)) => Ok(Some(is_accepted(verdict))),
        Ok(None) => Ok(None),
        Err(fault) => Err(fault),
    }
}

/// External inputs where no table of them is given: no event, and the greatest stop. A log may tell more.
const NO_EXTERNALS: &[u8] =
    b"kind,time,microstep,name,value\nstop,1000000000000000000,1000000000,,\n";

/// Why texts are refused, and what there is to tell of it once all files are read.
#[derive(Drop)]
pub(crate) struct RefusedTexts {
    failure: Failure,
    told: Option<String>,
}

impl From<RefusedTexts> for Failure {
    fn from(refused: RefusedTexts) -> Failure {
        refused.failure
    }
}

/// The plan of texts, or why they have none.
pub(crate) type Planned = Result<Plan, RefusedTexts>;

/// What a session writes to, and whether it tells there why a text is refused.
#[derive(Drop)]
pub(crate) struct Session<'w, F, W> {
    rt: &'w F,
    alloc: Global,
    out: &'w mut W,
    tells: bool,
}

impl<'w, F: Files, W: Write> Session<'w, F, W> {
    pub(crate) fn of(rt: &'w F, alloc: Global, out: &'w mut W, tells: bool) -> Session<'w, F, W> {
        Session {
            rt,
            alloc,
            out,
            tells,
        }
    }

    /// Whether it is told why a text is refused.
    fn tells_of(&self, fault: &Fault) -> bool {
        self.tells && is_known(fault)
    }

    /// Tells why a text is refused, where that is asked for and can be told. This is help alone: where it can't be
    /// written, the line of the fault comes all the same.
    fn tell(&mut self, told: Result<Option<String>, NoMemory>) {
        if !self.tells {
            return;
        }
        if let Ok(Some(told)) = told {
            // On standard output: the line of a fault is fixed and stands on standard error, where scripts read it.
            let _ = self.out.write_all(told.as_bytes());
        }
    }

    /// What there is, or else the failure of texts that are refused, of which is told.
    pub(crate) fn taken<X>(&mut self, found: Result<X, RefusedTexts>) -> Result<X, Failure> {
        match found {
            Ok(found) => Ok(found),
            Err(refused) => {
                self.tell(Ok(refused.told));
                Err(refused.failure)
            }
        }
    }

    /// What is told of a core text that has no program, and whether it is a whole one.
    fn told_of_program(&self, path: &str, text: &[u8], fault: &Fault) -> Option<String> {
        if !self.tells_of(fault) {
            return None;
        }
        let mut told = refusal_of_program(self.alloc, text).ok()??;
        if is_no_core(fault) && whole_program(self.rt, self.alloc, path, text).is_ok() {
            let _ = told.push_str("  With `--lower` this program is taken.\n");
        }
        Some(told)
    }

    /// The program that these words and this text tell, and what is said of it.
    pub(crate) fn program(
        &self,
        words: ProgramWords<'_>,
        text: &[u8],
    ) -> Result<Whole, RefusedTexts> {
        // A core text is taken as one with `--lower` too, so that scripts may always write the flag.
        match read_program(self.alloc, text) {
            Ok(program) => Ok(Whole {
                program,
                notes: Vec::new(self.alloc),
            }),
            Err(fault) if words.lower && is_no_core(&fault) => {
                match whole_program(self.rt, self.alloc, words.path, text) {
                    Ok(whole) => Ok(whole),
                    Err(unlowered) => Err(RefusedTexts {
                        failure: unlowered.failure,
                        told: unlowered.told,
                    }),
                }
            }
            Err(fault) => Err(RefusedTexts {
                told: self.told_of_program(words.path, text, &fault),
                failure: Failure::from(fault),
            }),
        }
    }

    /// Why a program has no plan under these external inputs.
    fn unplanned(&self, unplanned: Unplanned, externals: &[u8]) -> RefusedTexts {
        let told = if self.tells_of(&unplanned.fault) {
            refusal_of_plan(self.alloc, &unplanned.program, externals)
        } else {
            Ok(None)
        };
        RefusedTexts {
            failure: Failure::from(unplanned.fault),
            told: told.unwrap_or(None),
        }
    }

    /// The plan of a program under the external inputs of a text.
    fn plan_of_text(&self, program: Result<Program, RefusedTexts>, externals: &[u8]) -> Planned {
        match plan_of(self.alloc, program?, externals) {
            Ok(plan) => Ok(plan),
            Err(unplanned) => Err(self.unplanned(unplanned, externals)),
        }
    }

    /// The same of the ordinary file of this size that was opened at a path. Its text is read whole only where there
    /// is no plan: that the file can't be read is told before that.
    fn plan_of_file(
        &self,
        program: Result<Program, RefusedTexts>,
        path: &str,
        file: &mut F::File,
        size: usize,
    ) -> Result<Planned, Failure> {
        let (rt, alloc) = (self.rt, self.alloc);
        let program = match program {
            Ok(program) => program,
            Err(refused) => {
                read_sized(rt, alloc, path, file, size)?;
                return Ok(Err(refused));
            }
        };
        let mut reader = SizedReader::new(&mut *file, size);
        match plan_sized(alloc, path, program, &mut reader)? {
            Ok(plan) => Ok(Ok(plan)),
            Err(unplanned) => {
                let externals = read_sized(rt, alloc, path, file, size)?;
                Ok(Err(self.unplanned(unplanned, &externals)))
            }
        }
    }

    /// The same of the file of any kind that was opened at a path.
    fn plan_of_opened(
        &self,
        program: Result<Program, RefusedTexts>,
        path: &str,
        file: &mut F::File,
    ) -> Result<Planned, Failure> {
        match ordinary_size(file) {
            Some(size) => self.plan_of_file(program, path, file, size),
            // A pipe can't be read twice.
            None => {
                let table = read_opened(self.rt, self.alloc, path, file)?;
                Ok(self.plan_of_text(program, &table))
            }
        }
    }

    /// The program of a file, or why its text has none.
    fn program_of_file(
        &self,
        words: ProgramWords<'_>,
    ) -> Result<Result<Program, RefusedTexts>, Failure> {
        let text = read_file(self.rt, self.alloc, words.path)?;
        match self.program(words, &text) {
            Ok(whole) => Ok(Ok(whole.program)),
            Err(refused) => Ok(Err(refused)),
        }
    }

    /// The plan of a program under the table of external inputs at a path, or under none. An error is that a file
    /// can't be read: it comes before what is wrong with the texts, which is told once all files are read.
    pub(crate) fn plan(
        &self,
        words: ProgramWords<'_>,
        externals: Option<&str>,
    ) -> Result<Planned, Failure> {
        let program = self.program_of_file(words)?;
        let Some(path) = externals else {
            return Ok(self.plan_of_text(program, NO_EXTERNALS));
        };
        let mut file = open_file(self.rt, self.alloc, path)?;
        self.plan_of_opened(program, path, &mut file)
    }

    /// Shows a program, or all of it.
    pub(crate) fn show(&mut self, program: &Program, all: bool) -> Result<bool, Failure> {
        match show_program(self.alloc, program, all, self.out) {
            Ok(()) => Ok(true),
            Err(fault) => {
                if self.tells_of(&fault) {
                    self.tell(refusal_of_graph(self.alloc, program));
                }
                Err(Failure::from(fault))
            }
        }
    }
}

impl<'w, F: Files + Threads + Sync, W: Write> Session<'w, F, W> {
    /// What `plan` gives of a table at a path, which so many workers read. Where these say nothing of it, it is read
    /// once more.
    pub(crate) fn plan_shared(
        &self,
        words: ProgramWords<'_>,
        path: &str,
        workers: u32,
    ) -> Result<Planned, Failure> {
        let (rt, alloc) = (self.rt, self.alloc);
        let program = self.program_of_file(words)?;
        let mut file = open_file(rt, alloc, path)?;
        let size = ordinary_size(&file).unwrap_or(0);
        let workers = workers_for(workers, size);
        let mut program = match program {
            Ok(program) => program,
            Err(refused) => return self.plan_of_opened(Err(refused), path, &mut file),
        };
        if workers > 1 {
            let mut reader = SizedReader::new(&mut file, size);
            program = match plan_shared(rt, alloc, path, program, &mut reader, workers)? {
                Ok(plan) => return Ok(Ok(plan)),
                Err(back) => back,
            };
            rewind(alloc, path, &mut file)?;
        }
        self.plan_of_opened(Ok(program), path, &mut file)
    }

    /// The verdict on a trace, and the list of what it exercised. The list has many short lines, so it goes out by a
    /// buffer.
    fn listed(&mut self, plan: &Plan, trace: &[u8], workers: u32) -> Result<bool, Fault> {
        let mut out = BufWriter::new(self.alloc, &mut *self.out).map_err(|_| Fault::no_memory())?;
        let verdict = cover_plan(self.rt, self.alloc, plan, trace, workers, true, &mut out);
        // What a failed write left in the buffer isn't written.
        let _ = out.into_parts();
        Ok(is_accepted(verdict?))
    }

    /// The verdict on a trace, whose line is written with what stands behind it.
    fn verdict(
        &mut self,
        plan: &Plan,
        trace: &[u8],
        workers: u32,
        behind: Behind,
    ) -> Result<bool, Fault> {
        let (rt, alloc) = (self.rt, self.alloc);
        let verdict = match behind {
            Behind::Nothing => judge_plan(rt, alloc, plan, trace, workers, self.out)?,
            Behind::Counts { list: true } => return self.listed(plan, trace, workers),
            Behind::Counts { list } => cover_plan(rt, alloc, plan, trace, workers, list, self.out)?,
            Behind::Facts { all } => explain_plan(rt, alloc, plan, trace, workers, all, self.out)?,
        };
        Ok(is_accepted(verdict))
    }

    /// Judges the trace of an ordinary file of this size. Its text is read whole only where it isn't accepted while
    /// it is read.
    pub(crate) fn judge_file(
        &mut self,
        words: JudgeWords<'_>,
        planned: Planned,
        file: &mut F::File,
        size: usize,
    ) -> Result<bool, Failure> {
        let (rt, alloc, path) = (self.rt, self.alloc, words.trace);
        let workers = workers_for(words.workers, size);
        let plan = match planned {
            Ok(plan) => plan,
            Err(refused) => {
                // That a file can't be read is told before what is wrong with the others.
                read_sized(rt, alloc, path, file, size)?;
                return self.taken(Err(refused));
            }
        };
        let mut reader = SizedReader::new(&mut *file, size);
        // Two calls, so that none is inlined: csv's readers would stand on the stack here while other texts are read.
        let judged = if workers == 1 {
            judge_sized(rt, alloc, &plan, path, &mut reader, 1, self.out)
        } else {
            judge_sized(rt, alloc, &plan, path, &mut reader, workers, self.out)
        };
        match judged {
            Ok(Some(answer)) => return Ok(answer),
            Ok(None) => {}
            Err(_) if reader.is_too_large() => return Err(too_large(alloc, path)),
            Err(fault) => return Err(Failure::from(fault)),
        }
        let trace = read_sized(rt, alloc, path, file, size)?;
        let verdict = check_plan(rt, alloc, &plan, &trace, workers, self.out)?;
        Ok(is_accepted(verdict))
    }

    /// Judges a trace under a plan.
    pub(crate) fn judge(
        &mut self,
        plan: &Plan,
        trace: &[u8],
        workers: u32,
        behind: Behind,
    ) -> Result<bool, Failure> {
        let workers = workers_for(workers, trace.len());
        match self.verdict(plan, trace, workers, behind) {
            Ok(answer) => Ok(answer),
            Err(fault) => {
                if self.tells_of(&fault) {
                    self.tell(refusal_of_trace(self.alloc, plan.program(), trace, "Trace"));
                }
                Err(Failure::from(fault))
            }
        }
    }

    /// What two traces show, whose line is written with the facts, where these are asked for.
    fn comparison(
        &mut self,
        plan: &Plan,
        first: &[u8],
        second: &[u8],
        workers: u32,
        behind: Behind,
    ) -> Result<bool, Fault> {
        let (rt, alloc) = (self.rt, self.alloc);
        let paired = match behind {
            Behind::Facts { all } => {
                explain_pair_plan(rt, alloc, plan, first, second, workers, all, self.out)?
            }
            _ => pair_plan(rt, alloc, plan, first, second, workers, self.out)?,
        };
        Ok(is_same(paired))
    }

    /// Compares two traces under a plan.
    pub(crate) fn compare(
        &mut self,
        plan: &Plan,
        first: &[u8],
        second: &[u8],
        workers: u32,
        behind: Behind,
    ) -> Result<bool, Failure> {
        let workers = workers_for(workers, first.len().max(second.len()));
        match self.comparison(plan, first, second, workers, behind) {
            Ok(answer) => Ok(answer),
            Err(fault) => {
                if self.tells_of(&fault) {
                    self.tell(refusal_of_traces(self.alloc, plan.program(), first, second));
                }
                Err(Failure::from(fault))
            }
        }
    }
}
