//! Files by their paths: their bytes, the plan under what one has, or why they can't be read or written.

ghost use Rattle.std.specs.Prelude.{◌≡◌, ◌<◌, ◌≤◌, ◌^◌, ◌⊎◌, ◌↔◌, IfErr, IfOk, IfSome, IsTrue, length};
ghost use Rattle.lft_load.specs.{Faults.IsFaultOfPath, Meaning.{IsOnly, IsPlanUnder}, Refusals.PlanRefusal};
ghost use Rattle.lft_load.specs.declared.fault.Part.TheVariants as part;

use crate::{Fault, Part, SizedReader, Unplanned, graph_of, plan_from, read_input};
use lft_ir::Program;
use lft_model::Plan;
use lft_trace::read_externals_shared;
use std::alloc::Global;
use std::fs;
use std::fs::{File, OpenFile};
use std::io::{ErrorKind, Read, Seek};
use std::rt::Files;
use std::thread::Threads;

/// What is said of a folder in the place of a file.
const FOLDER: &str = "that is a folder";

/// Why a command has no answer: its fault, and where a file can't be read, the cause in words, if it is
/// known.
#[derive(Drop)]
pub struct Failure {
    pub fault: Fault,
    pub cause: Option<&'static str>,
}

impl From<Fault> for Failure {
    ghost use Rattle.std.specs.Prelude.{◌≡◌, None};

    ghost from_gives = { λ fault e. e ≡ record { fault = fault; cause = None } };

    fn from(fault: Fault) -> Failure {
        Failure { fault, cause: None }
    }
}

/// Why the file at a path can't be opened.
fn cause_of(path: &str, kind: ErrorKind) -> Option<&'static str> {
    match kind {
        ErrorKind::NotFound if path == "-" => Some("standard input is /dev/stdin"),
        ErrorKind::NotFound => Some("there is no such file"),
        ErrorKind::NotADirectory => Some("a part of the path is a file, and no folder"),
        ErrorKind::PermissionDenied => Some("there is no permission to read it"),
        _ => None,
    }
}

/// Whether a folder is at a path.
fn is_folder<F: Files>(rt: &F, path: &str) -> bool {
    match fs::metadata(rt, path) {
        Ok(found) => found.is_dir(),
        Err(_) => false,
    }
}

/// The failure of a file at a path that can't be read.
fn unread(alloc: Global, path: &str, cause: Option<&'static str>) -> Failure
    ensures { IsFaultOfPath result.fault part.Read 1 path.now }
{
    Failure {
        fault: Fault::of_path(alloc, Part::Read, 1, "Failed", path),
        cause,
    }
}

/// The failure of a file at a path that has more bytes than it may.
pub fn too_large(alloc: Global, path: &str) -> Failure
    ensures { IsFaultOfPath result.fault part.Read 2 path.now }
{
    Failure {
        fault: Fault::of_path(alloc, Part::Read, 2, "TooLarge", path),
        cause: None,
    }
}

/// How many bytes an open file has, if it is an ordinary one with some. Such a file can be read twice.
pub fn ordinary_size<T: OpenFile>(file: &T) -> Option<usize>
    ensures { IfSome result (λ size. 0 < size) }
{
    // A file that the kernel makes up, as those below /proc, has a size of 0, and other bytes each time.
    match file.metadata() {
        Ok(found) if found.is_file() && found.len() > 0 => usize::try_from(found.len()).ok(),
        _ => None,
    }
}

/// The file at a path, to be read.
pub fn open_file<F: Files>(rt: &F, alloc: Global, path: &str) -> Result<F::File, Failure>
    ensures { IfErr result (λ failure. IsFaultOfPath failure.fault part.Read 1 path.now) }
{
    match File::open(rt, path) {
        Ok(file) => Ok(file),
        Err(error) => Err(unread(alloc, path, cause_of(path, error.kind()))),
    }
}

/// The bytes of the file at a path.
pub fn read_file<F: Files>(rt: &F, alloc: Global, path: &str) -> Result<Vec<u8>, Failure>
    ensures limit { IfOk result (λ bytes. length bytes.items ≤ 2 ^ 30) }
    ensures refused { IfErr result (λ failure. IsFaultOfPath failure.fault part.Read 1 path.now ⊎ IsFaultOfPath failure.fault part.Read 2 path.now) }
{
    let mut file = open_file(rt, alloc, path)?;
    read_opened(rt, alloc, path, &mut file)
}

/// The bytes that what was opened at a path gives.
pub fn read_opened<F: Files, R: Read>(
    rt: &F,
    alloc: Global,
    path: &str,
    opened: &mut R,
) -> Result<Vec<u8>, Failure>
    ensures bytes { IfOk result (λ v. IfSome (R.remaining opened.old) (λ xs. v.items ≡ xs)) }
    ensures limit { IfOk result (λ bytes. length bytes.items ≤ 2 ^ 30) }
    ensures refused { IfErr result (λ failure. IsFaultOfPath failure.fault part.Read 1 path.now ⊎ IsFaultOfPath failure.fault part.Read 2 path.now) }
{
    match read_input(alloc, path, opened) {
        Ok(bytes) => Ok(bytes),
        Err(fault) => Err(Failure {
            fault,
            // Asked only then: a folder can be opened, and it is the reading that fails.
            cause: is_folder(rt, path).then_some(FOLDER),
        }),
    }
}

/// The bytes of the ordinary file of this size that was opened at a path, from its first one on. It fails where the
/// file ends before its size.
pub fn read_sized<F: Files>(
    rt: &F,
    alloc: Global,
    path: &str,
    file: &mut F::File,
    size: usize,
) -> Result<Vec<u8>, Failure>
    ensures limit { IfOk result (λ bytes. length bytes.items ≤ 2 ^ 30) }
    ensures refused { IfErr result (λ failure. IsFaultOfPath failure.fault part.Read 1 path.now ⊎ IsFaultOfPath failure.fault part.Read 2 path.now) }
{
    rewind(alloc, path, file)?;
    read_opened(rt, alloc, path, &mut SizedReader::new(file, size))
}

/// Goes back to the first byte of the file that was opened at a path.
pub fn rewind<T: Seek>(alloc: Global, path: &str, file: &mut T) -> Result<(), Failure>
    ensures { IfErr result (λ failure. IsFaultOfPath failure.fault part.Read 1 path.now) }
{
    match file.rewind() {
        Ok(()) => Ok(()),
        Err(_) => Err(unread(alloc, path, None)),
    }
}

/// The failure of the reader of an ordinary file at a path.
fn unread_sized<R: Read + Drop>(alloc: Global, path: &str, reader: &SizedReader<R>) -> Failure
    ensures { IsFaultOfPath result.fault part.Read 1 path.now ⊎ IsFaultOfPath result.fault part.Read 2 path.now }
{
    if reader.is_too_large() {
        too_large(alloc, path)
    } else {
        unread(alloc, path, None)
    }
}

/// Whether a fault is that the reader of a table of external inputs failed.
fn is_of_reader(fault: &Fault) -> bool
    ensures { IsTrue result ↔ (fault.now.part ≡ part.Externals) × (fault.now.number ≡ 11) }
{
    matches!(fault.part, Part::Externals) && fault.number == 11
}

/// The plan of a program under the table of external inputs in the ordinary file at a path, which a reader gives, or
/// why there is none. An error is that it can't be read.
pub fn plan_sized<R: Read + Drop>(
    alloc: Global,
    path: &str,
    program: Program,
    reader: &mut SizedReader<R>,
) -> Result<Result<Plan, Unplanned>, Failure>
    ensures plan { IfOk result (λ planned. IfOk planned (λ plan. IfSome (R.remaining reader.old.reader) (λ text. IsOnly (IsPlanUnder program text) plan))) }
    ensures program { IfOk result (λ planned. IfErr planned (λ u. u.program ≡ program)) }
    ensures refused { IfOk result (λ planned. IfErr planned (λ u. IfSome (R.remaining reader.old.reader) (λ text. PlanRefusal program text u.fault))) }
    ensures given { IfOk result (λ planned. IfErr planned (λ u. ¬ ((u.fault.part ≡ part.Externals) × (u.fault.number ≡ 11)))) }
    ensures unread { IfErr result (λ failure. IsFaultOfPath failure.fault part.Read 1 path.now ⊎ IsFaultOfPath failure.fault part.Read 2 path.now) }
{
    match plan_from(alloc, program, &mut *reader) {
        Ok(plan) => Ok(Ok(plan)),
        Err(unplanned) if !is_of_reader(&unplanned.fault) => Ok(Err(unplanned)),
        Err(_) => Err(unread_sized(alloc, path, reader)),
    }
}

/// The same plan, where so many workers read the table. Where nothing is said of the table, or there is no plan, the
/// program comes back: why, `plan_sized` says, which reads the file from its first byte on.
pub fn plan_shared<T: Threads + Sync, R: Read + Drop>(
    rt: &T,
    alloc: Global,
    path: &str,
    program: Program,
    reader: &mut SizedReader<R>,
    workers: u32,
) -> Result<Result<Plan, Program>, Failure>
    ensures plan { IfOk result (λ planned. IfOk planned (λ plan. IfSome (R.remaining reader.old.reader) (λ text. IsOnly (IsPlanUnder program text) plan))) }
    ensures program { IfOk result (λ planned. IfErr planned (λ back. back ≡ program)) }
    ensures unread { IfErr result (λ failure. IsFaultOfPath failure.fault part.Read 1 path.now ⊎ IsFaultOfPath failure.fault part.Read 2 path.now) }
{
    let given = match read_externals_shared(rt, alloc, &program, &mut *reader, workers) {
        Ok(Some(given)) => given,
        Ok(None) => return Ok(Err(program)),
        Err(_) => return Err(unread_sized(alloc, path, reader)),
    };
    match graph_of(alloc, &program) {
        Ok(graph) => Ok(Ok(Plan::with_graph(program, given, graph))),
        Err(_) => Ok(Err(program)),
    }
}

/// The bytes of an ordinary file at a path, of which there may be so many. What is no ordinary file isn't opened: a
/// pipe would be waited for, and a device may have no end.
pub fn read_ordinary<F: Files>(
    rt: &F,
    alloc: Global,
    path: &str,
    most: u64,
) -> Result<Vec<u8>, Failure>
    ensures limit { IfOk result (λ bytes. length bytes.items ≤ most) }
    ensures refused { IfErr result (λ failure. IsFaultOfPath failure.fault part.Read 1 path.now ⊎ IsFaultOfPath failure.fault part.Read 2 path.now) }
{
    let found = match fs::metadata(rt, path) {
        Ok(found) => found,
        Err(error) => return Err(unread(alloc, path, cause_of(path, error.kind()))),
    };
    if found.is_dir() {
        return Err(unread(alloc, path, Some(FOLDER)));
    }
    if !found.is_file() {
        return Err(unread(alloc, path, Some("that is no ordinary file")));
    }
    if found.len() > most {
        return Err(too_large(alloc, path));
    }
    let bytes = read_file(rt, alloc, path)?;
    // more may stand there by now
    if bytes.len() as u64 > most {
        return Err(too_large(alloc, path));
    }
    Ok(bytes)
}
