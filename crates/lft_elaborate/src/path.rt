//! The widths that are being found, and those that are wanted for them.

use std::alloc::{AllocError, Global};
use std::collections::BTreeSet;

/// A member of a setting whose width is wanted.
#[derive(Clone, Copy)]
pub(crate) struct WantedWidth {
    pub setting: usize,
    pub member: usize,
}

/// One whose width is wanted, and whether that is being found.
#[derive(Clone, Copy)]
struct WidthStep {
    wanted: WantedWidth,
    is_open: bool,
}

/// Those whose width is wanted, the last one first. The width of one that is open hangs on those behind it.
// A list, and no call in a call: a text chooses how long a chain of `widthof` is, and the stack is small.
#[derive(Drop)]
pub(crate) struct Path {
    steps: Vec<WidthStep>,
    // The open ones once more, as a set: to look for one among all steps
    // would cost a long chain its square.
    noted: BTreeSet<(usize, usize)>,
}

impl Path {
    /// None is wanted.
    pub(crate) fn of(alloc: Global) -> Path {
        Path {
            steps: Vec::new(alloc),
            noted: BTreeSet::new(alloc),
        }
    }

    /// Takes the last one, which isn't being found any more; the first one of all where none is left.
    pub(crate) fn pop(&mut self, first: WantedWidth) -> WantedWidth {
        let Some(step) = self.steps.pop() else {
            return first;
        };
        if step.is_open {
            self.noted
                .remove(&(step.wanted.setting, step.wanted.member));
            return step.wanted;
        }
        step.wanted
    }

    /// Puts some behind the others.
    fn want(&mut self, needs: &[WantedWidth]) -> Result<(), AllocError> {
        for need in needs {
            self.steps.push(WidthStep {
                wanted: *need,
                is_open: false,
            })?;
        }
        Ok(())
    }

    /// Puts one behind the others, and behind it what its width hangs on. False if it is being found already.
    pub(crate) fn open(
        &mut self,
        wanted: WantedWidth,
        needs: &[WantedWidth],
    ) -> Result<bool, AllocError> {
        let is_new = self.noted.insert((wanted.setting, wanted.member))?;
        if !is_new {
            return Ok(false);
        }
        // It stands below what it hangs on, so it is tried once more when that is known.
        self.steps.push(WidthStep {
            wanted,
            is_open: true,
        })?;
        self.want(needs)?;
        Ok(true)
    }
}
