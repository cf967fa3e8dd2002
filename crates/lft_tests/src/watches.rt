//! Who is told which tag is examined, by one worker and by two.

ghost use Rattle.lft_ir.specs.Steps.Fits.{RowsFit};

use crate::texts::{NO_ROWS, plan, rows};
use lft_check::{CheckFault, Verdict, Watch, judge, judge_alone};
use lft_ir::steps::Rows;
use lft_model::Plan;
use lft_tag::{NoMemory, Tag};
use std::alloc::Global;
use std::sync::atomic::{AtomicBool, AtomicU64, Ordering};
use std::test::Fail;
use std::thread;
use std::thread::Threads;

/// The times of the tags that were told, from 1 on, as the digits of a number.
#[derive(Drop)]
struct Digits {
    told: AtomicU64,
}

impl Watch for Digits {
    fn tag_begins(&self, tag: Tag) {
        let before = self.told.load(Ordering::SeqCst);
        let digit = tag.time.wrapping_add(1);
        let after = before.wrapping_mul(10).wrapping_add(digit);
        self.told.store(after, Ordering::SeqCst);
    }
}

/// Two reactions, of which the first precedes the second, at two tags.
const TWICE: &[u8] = b"main reactor { timer t(0, 1 ns) reaction(t) {= =} reaction(t) {= =} }";

const TWO_TAGS: &[u8] = b"kind,time,microstep,name,value\nstop,1,0,,\n";

/// Two runs one after another at each tag.
const RUNS: &[u8] = b"event,worker,time,microstep,reaction,name,value,delay
start,0,0,0,main#1,,,
end,0,0,0,main#1,,,
start,0,0,0,main#2,,,
end,0,0,0,main#2,,,
start,0,1,0,main#1,,,
end,0,1,0,main#1,,,
start,0,1,0,main#2,,,
end,0,1,0,main#2,,,
";

/// At the first tag the second run begins too early.
const EARLY: &[u8] = b"event,worker,time,microstep,reaction,name,value,delay
start,0,0,0,main#1,,,
start,1,0,0,main#2,,,
end,0,0,0,main#1,,,
end,1,0,0,main#2,,,
start,0,1,0,main#1,,,
end,0,1,0,main#1,,,
start,0,1,0,main#2,,,
end,0,1,0,main#2,,,
";

/// A run that doesn't end.
const OPEN: &[u8] = b"event,worker,time,microstep,reaction,name,value,delay
start,0,0,0,main#1,,,
";

/// Judges rows, and answers whether there was memory. Who is told is asked, and not the verdict.
fn is_judged(alloc: Global, plan: &Plan, rows: &Rows, watch: &impl Watch) -> bool
    requires { RowsFit plan.now.program rows.now }
{
    judge_alone(alloc, plan, rows, watch).is_ok()
}

/// The digits that are told as the rows of a table are judged.
fn told(alloc: Global, plan: &Plan, table: &[u8]) -> Result<u64, NoMemory> {
    let rows = rows(alloc, plan, table)?;
    let watch = Digits {
        told: AtomicU64::new(0),
    };
    if is_judged(alloc, plan, &rows, &watch) {
        Ok(watch.told.load(Ordering::SeqCst))
    } else {
        Err(NoMemory)
    }
}

// up to the first breach, and none where a row breaks a rule
#[test]
fn tells_the_tags_that_are_judged(rt: HostRuntime) -> Result<(), Fail> {
    let plan = plan(rt.alloc(), TWICE, TWO_TAGS)?;
    for (table, digits) in [(RUNS, 12), (EARLY, 1), (OPEN, 0), (NO_ROWS, 0)] {
        assert!(rt; told(rt.alloc(), &plan, table) == Ok(digits), "{digits}");
    }
    Ok(())
}

/// Holds the first tag until the second has begun. After so many turns it goes on, and keeps that it
/// was late.
#[derive(Drop)]
struct Hold {
    begun: AtomicBool,
    late: AtomicBool,
}

impl Watch for Hold {
    fn tag_begins(&self, tag: Tag) {
        if tag.micro != 0 {
            self.begun.store(true, Ordering::SeqCst);
            return;
        }
        for _ in 0..100_000_000u64 {
            if self.begun.load(Ordering::SeqCst) {
                return;
            }
            thread::yield_now();
        }
        self.late.store(true, Ordering::SeqCst);
    }
}

/// A reaction schedules an action, and another one reads it.
const AGAIN: &[u8] =
    b"main reactor { logical action n reaction(startup) -> n {= =} reaction(n) {= =} }";

const AGAIN_EXTERNALS: &[u8] = b"kind,time,microstep,name,value\nstop,0,1,,\n";

/// Runs at two tags.
const AGAIN_RUNS: &[u8] = b"event,worker,time,microstep,reaction,name,value,delay
start,0,0,0,main#1,,,
schedule,0,0,0,main#1,main.n,,
end,0,0,0,main#1,,,
start,0,0,1,main#2,,,
read,0,0,1,main#2,main.n,,
end,0,0,1,main#2,,,
";

/// The verdict by two workers, of which nothing is known.
fn judged_by_two<R: Threads + Sync>(
    rt: &R,
    alloc: Global,
    plan: &Plan,
    rows: &Rows,
    watch: &Hold,
) -> Result<Verdict, CheckFault>
    requires { RowsFit plan.now.program rows.now }
{
    judge(rt, alloc, plan, rows, 2, watch)
}

/// Whether two workers accept `AGAIN_RUNS`, and the first tag isn't held in vain.
fn is_held<R: Threads + Sync>(rt: &R, alloc: Global, plan: &Plan) -> Result<bool, NoMemory> {
    let rows = rows(alloc, plan, AGAIN_RUNS)?;
    let watch = Hold {
        begun: AtomicBool::new(false),
        late: AtomicBool::new(false),
    };
    let verdict = judged_by_two(rt, alloc, plan, &rows, &watch);
    let is_accepted = verdict == Ok(Verdict::Accepted { runs: 2, tags: 2 });
    Ok(is_accepted && !watch.late.load(Ordering::SeqCst))
}

// no clause says that two workers work at the same time, or that there are two
#[test]
fn examines_two_tags_at_once(rt: HostRuntime) -> Result<(), Fail> {
    let plan = plan(rt.alloc(), AGAIN, AGAIN_EXTERNALS)?;
    assert!(rt; is_held(&rt, rt.alloc(), &plan) == Ok(true));
    Ok(())
}
