//! With memory at hand a call succeeds that was refused before: no clause says so. What it leaves is a clause.

use crate::bodies::{PreparedBodies, bodies_of, idle_body};
use crate::refused::hoard::Hoard;
use crate::texts::{AT_ONCE, TWO, plan};
use lft_ir::{Name, Value};
use lft_queue::Queue;
use lft_tag::{NoMemory, Tag};
use std::alloc::Global;
use std::process::Abort;
use std::test::Fail;

/// How many budgets are tried at most, each 64 bytes more than the one before.
const BUDGETS: usize = 200;

/// What grows item by item.
trait Growing {
    /// Whether it takes the item of this number.
    fn takes(&mut self, alloc: Global, number: u64) -> bool;
}

/// Of events, each of a later tag.
impl Growing for Queue {
    fn takes(&mut self, _alloc: Global, number: u64) -> bool {
        let tag = Tag {
            time: number,
            micro: 0,
        };
        self.put(tag, Name::Action(0), Value::Int(7)).is_ok()
    }
}

/// Of bodies of the first reaction.
impl Growing for PreparedBodies {
    fn takes(&mut self, alloc: Global, _number: u64) -> bool {
        self.put(idle_body(alloc, 0)).is_ok()
    }
}

/// How many budgets are too small for the item of this number.
fn refusals(
    alloc: Global,
    hoard: &mut Hoard,
    grown: &mut impl Growing,
    number: u64,
) -> Result<usize, NoMemory> {
    for budgets in 0..BUDGETS {
        hoard.refuse(alloc, 64 * budgets)?;
        let is_taken = grown.takes(alloc, number);
        hoard.relent();
        if is_taken {
            return Ok(budgets);
        }
    }
    Ok(BUDGETS)
}

/// So many items are taken, each once its budget is great enough. Some budgets were too small.
fn grows(rt: &impl Abort, alloc: Global, grown: &mut impl Growing, items: u64) -> Result<(), Fail> {
    let mut hoard = Hoard::new(alloc)?;
    let mut refused = 0usize;
    for number in 0..items {
        let budgets = refusals(alloc, &mut hoard, grown, number)?;
        assert!(rt; budgets < BUDGETS, "{number}");
        refused = refused.saturating_add(budgets);
    }
    assert!(rt; refused > 0);
    Ok(())
}

#[test]
fn a_queue_takes_a_refused_event(rt: HostRuntime) -> Result<(), Fail> {
    grows(&rt, rt.alloc(), &mut Queue::new(rt.alloc()), 100)
}

#[test]
fn lists_take_a_refused_body(rt: HostRuntime) -> Result<(), Fail> {
    let plan = plan(rt.alloc(), TWO, AT_ONCE)?;
    let mut bodies = bodies_of(rt.alloc(), &plan, &[])?;
    grows(&rt, rt.alloc(), &mut bodies, 20)
}
