//! Memory that is refused: all of it is taken, but for a budget.

use lft_tag::NoMemory;
use std::alloc::Global;

/// What is left to tests, so that they make what a call is given. With less, glibc's pieces of it
/// come to lie so that no spare block is left after a hundred budgets.
const ROOM: usize = 1 << 26;

/// The greatest budget, in bytes. It is more than glibc keeps in lists by size, so that a smaller
/// budget is one piece of memory from which blocks of any size are cut.
const SPARE: usize = 1 << 16;

/// Below this size freed blocks are kept in lists by size, so each size is asked for.
const SMALL: usize = 1 << 11;

/// Blocks that are held, and never looked at.
type Blocks = Vec<Vec<u8>>;

/// Takes blocks of this size until one is refused.
fn take(alloc: Global, blocks: &mut Blocks, size: usize) {
    for _ in 0..1_000_000u32 {
        match Vec::with_capacity(alloc, size) {
            Ok(block) => {
                if blocks.push(block).is_err() {
                    return;
                }
            }
            Err(_) => return,
        }
    }
}

/// Takes all memory: the process has 2^47 bytes of addresses.
fn take_all(alloc: Global, blocks: &mut Blocks) {
    let mut size = 1usize << 46;
    for _ in 0..64u32 {
        if size > SMALL {
            take(alloc, blocks, size);
            size /= 2;
        }
    }
    for sixteens in 0..SMALL / 16 {
        take(alloc, blocks, SMALL - 16 * sixteens);
    }
}

/// All memory but some megabytes; all but a budget while it refuses.
// Every call names the one allocator, so a test can't bring one of its own. Where `vm.overcommit_memory` is
// 2 this takes the machine's limit for that moment.
#[derive(Drop)]
pub(crate) struct Hoard {
    most: Blocks,
    rest: Blocks,
}

impl Hoard {
    /// Takes all memory but some megabytes.
    pub(crate) fn new(alloc: Global) -> Result<Hoard, NoMemory> {
        let mut most = Vec::with_capacity(alloc, 1_000_000)?;
        let rest = Vec::with_capacity(alloc, 10_000)?;
        let room = Vec::<u8>::with_capacity(alloc, ROOM)?;
        take_all(alloc, &mut most);
        drop(room);
        Ok(Hoard { most, rest })
    }

    /// Takes what is left but for so many bytes, at most 64 KB: growths past them are refused.
    pub(crate) fn refuse(&mut self, alloc: Global, budget: usize) -> Result<(), NoMemory> {
        // A budget counts bytes and not growths. `tools/refuse-each` refuses each N-th growth of the built program.
        let spare = Vec::<u8>::with_capacity(alloc, SPARE)?;
        take_all(alloc, &mut self.rest);
        drop(spare);
        let block = Vec::with_capacity(alloc, SPARE.saturating_sub(budget))?;
        self.rest.push(block)?;
        Ok(())
    }

    /// Gives back what `refuse` took.
    pub(crate) fn relent(&mut self) {
        self.rest.clear();
    }
}
