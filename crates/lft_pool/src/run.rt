//! Many workers over one book.

ghost use Rattle.std.specs.Prelude.{◌≡◌, ◌≢◌, ◌⊎◌, ◌≤◌, [], length, IfOk, IfErr, IfNone, IfSome, true, false, Some, None, is_ok};
ghost use Rattle.lft_model.specs.{Breaches.Legal, Workers.IsWorkers};
ghost use Rattle.lft_scheduler.specs.Starts.{SomethingLeft, started_count};
ghost use Rattle.lft_pool.specs.{Books.{IsRecording, LacksBody}, Begun.MatchBegin, inner.Endings.ReasonIs, Endings.WhyStopped};

use crate::bodies::{Bodies, BoxedCode, Code, Law};
use crate::book::{Begin, Book, Closed, Stopped};
use crate::states::States;
use crate::stop::Stop;
use lft_ir::steps::Rows;
use lft_model::{Plan, is_workers};
use lft_tag::MAX_RUNS;
use std::alloc::Global;
use std::sync::{Condvar, Mutex, Wait};
use std::thread;
use std::thread::Threads;

/// A recording that came to its stop: its plan, the rows, the words before and after each ended run,
/// and the bodies that weren't taken.
#[derive(Drop)]
pub struct Recorded<L: Law, C: Code + Drop = BoxedCode> {
    pub plan: Plan,
    pub rows: Rows,
    pub states: States,
    pub left: Bodies<L, C>,
}

// What one worker does until the book is finished or stopped. A body is called while no lock is
// held.
fn work<L: Law, C: Code + Drop, R: Wait>(
    rt: &R,
    alloc: Global,
    worker: u32,
    book: &Mutex<Book<L, C>>,
    moved: &Condvar,
) {
    for _ in rt.forever() {
        let mut guard = book.lock(rt);
        match guard.begin(worker) {
            Ok(Begin::Run(ticket, body)) => {
                drop(guard);
                let answered = body.call(alloc, ticket);
                let ended = book.lock(rt).commit(answered);
                // Also where the answer is refused: all others have to see that the book has stopped.
                moved.notify_all();
                if ended.is_err() {
                    return;
                }
            }
            Ok(Begin::Wait) => {
                let guard = moved.wait(rt, guard);
                drop(guard);
            }
            Ok(Begin::Finished) | Err(_) => {
                drop(guard);
                moved.notify_all();
                return;
            }
        }
    }
}

// Runs so many workers to their ends, one of them here. False where a thread could not be started.
fn work_all<L: Law + Send, C: Code + Drop + Send, R: Threads + Wait + Sync>(
    rt: &R,
    alloc: Global,
    workers: u32,
    book: &Mutex<Book<L, C>>,
) -> bool {
    // One for all: each commit, refusal and finish wakes everyone. No proof speaks of lost wake-ups, so reading
    // has to show that none is lost.
    let bell = Condvar::new();
    let moved = &bell;
    thread::scope(thread::scope_env(), rt, |scope| {
        let mut all = true;
        for worker in 1..workers {
            if scope
                .spawn(move || work(rt, alloc, worker, book, moved))
                .is_err()
            {
                all = false;
            }
        }
        // The caller works too, so a recording ends where no other thread can be started.
        work(rt, alloc, 0, book, moved);
        all
    })
}

// Why the recording isn't handed back as finished, if it isn't: another plan, too many runs, a thread
// that could not be started (also where the other workers ran all), the book's own reason.
fn reason_of<L: Law, C: Code + Drop>(
    same: bool,
    all: bool,
    started: u32,
    max_runs: u32,
    last: Result<Begin<L, C>, Stop>,
) -> Option<Stop>
    ensures none { IfNone result ((same ≡ true) × (all ≡ true) × IfOk last (λ b. MatchBegin b (λ _ _. ⊥) ⊥ (Unit {0})) × (is_ok last ≡ true)) }
    ensures few { IfNone result (started ≤ max_runs) }
    ensures few_stopped { IfSome result (λ s. s ≢ Stop.PlanChanged → s ≢ Stop.TooManyRuns → started ≤ max_runs) }
    ensures changed { same ≡ false → result ≡ Some Stop.PlanChanged }
    ensures some { IfSome result (λ s. ReasonIs same started max_runs last s) }
{
    if !same {
        return Some(Stop::PlanChanged);
    }
    if started > max_runs {
        return Some(Stop::TooManyRuns);
    }
    if !all {
        return Some(Stop::NoWorker);
    }
    match last {
        // Then the book went by another limit than the one that was given.
        Err(Stop::TooManyRuns) if started < max_runs && started < MAX_RUNS => {
            Some(Stop::PlanChanged)
        }
        Err(stop) => Some(stop),
        Ok(Begin::Finished) => None,
        Ok(_) => Some(Stop::PlanChanged),
    }
}

// A recording that stopped before any run.
fn unbegun<L: Law, C: Code + Drop>(
    alloc: Global,
    reason: Stop,
    plan: Plan,
    left: Bodies<L, C>,
) -> Stopped<L, C>
    ensures recording { IsRecording L.holds result.plan result.rows result.states }
    ensures same { (result.reason ≡ reason) × (result.plan ≡ plan) × (result.left ≡ left) × (result.rows ≡ []) × (result.states ≡ []) }
{
    // Asked for what every plan keeps: of a sound one no rows are a recording.
    plan.keeps();
    let rows = Rows::from_vec(Vec::new(alloc));
    let states = States::new(alloc);
    Stopped {
        reason,
        plan,
        rows,
        states,
        left,
    }
}

/// Records the plan with so many workers, 1 to 64, and at most so many runs. The caller is worker 0,
/// and each other worker has a thread of its own. It doesn't return while a body doesn't. Of several
/// reasons to stop the first is told of `BadWorkers`, `NoMemory` for the copy of the plan,
/// `PlanChanged`, more runs than are allowed, `NoWorker`, and what the book itself has kept.
pub fn record_run<L: Law + Send, C: Code + Drop + Send, R: Threads + Wait + Sync>(
    rt: &R,
    alloc: Global,
    plan: Plan,
    bodies: Bodies<L, C>,
    workers: u32,
    max_runs: u32,
) -> Result<Recorded<L, C>, Stopped<L, C>>
    requires { length bodies ≡ length plan.program.reactions }
    ensures plan { IfOk result (λ r. r.plan ≡ plan) }
    ensures legal { IfOk result (λ r. Legal r.plan r.rows) }
    ensures recording { IfOk result (λ r. IsRecording L.holds r.plan r.rows r.states) }
    ensures lists { IfOk result (λ r. length r.left ≡ length r.plan.program.reactions) }
    ensures so_far { IfErr result (λ s. IsRecording L.holds s.plan s.rows s.states) }
    ensures lists_left { IfErr result (λ s. length s.left ≡ length s.plan.program.reactions) }
    ensures changed { IfErr result (λ s. s.reason ≢ Stop.PlanChanged → s.plan ≡ plan) }
    ensures why_changed { IfErr result (λ s. s.reason ≡ Stop.PlanChanged → (s.plan ≢ plan) ⊎ SomethingLeft s.plan s.rows) }
    ensures no_body { IfErr result (λ s. (r : _) → s.reason ≡ Stop.NoBody r → LacksBody s.plan s.rows s.left r) }
    ensures workers { IfOk result (λ r. IsWorkers workers) }
    ensures bad { IfErr result (λ s. (IsWorkers workers → ⊥) → s.reason ≡ Stop.BadWorkers) }
    ensures few { IfOk result (λ r. (started_count r.rows ≤ max_runs) × (started_count r.rows ≤ 1000000)) }
    ensures few_stopped { IfErr result (λ s. s.reason ≢ Stop.PlanChanged → s.reason ≢ Stop.TooManyRuns → started_count s.rows ≤ max_runs) }
    ensures why { IfErr result (λ s. WhyStopped L.holds (record { plan = s.plan; rows = s.rows; states = s.states; left = s.left; max_runs = max_runs; reason = None }) s.reason) }
    ensures unbegun { IfErr result (λ s. s.reason ≡ Stop.BadWorkers → (IsWorkers workers → ⊥) × (s.rows ≡ []) × (s.states ≡ []) × (s.left ≡ bodies)) }
{
    if !is_workers(workers) {
        return Err(unbegun(alloc, Stop::BadWorkers, plan, bodies));
    }
    // The type of a book says that it has some plan and some limit, and can't say which. So both are compared
    // at the end.
    let Ok(kept) = plan.copy(alloc) else {
        return Err(unbegun(alloc, Stop::NoMemory, plan, bodies));
    };
    let book = match Book::new(alloc, plan, bodies, max_runs) {
        Ok(book) => book,
        Err(stopped) => {
            let Stopped {
                reason,
                plan,
                rows: _,
                states: _,
                left,
            } = stopped;
            return Err(unbegun(alloc, reason, plan, left));
        }
    };
    let shared = Mutex::new(book);
    let all = work_all(rt, alloc, workers, &shared);
    let mut book = shared.into_inner();
    // Asked once more: only this answer says of the book whether it is finished or why it stopped.
    let last = book.begin(0);
    let Closed {
        reason: _,
        plan,
        rows,
        states,
        left,
        started,
    } = book.close();
    let same = kept.same(&plan);
    match reason_of(same, all, started, max_runs, last) {
        None => Ok(Recorded {
            plan,
            rows,
            states,
            left,
        }),
        Some(reason) => Err(Stopped {
            reason,
            plan,
            rows,
            states,
            left,
        }),
    }
}
