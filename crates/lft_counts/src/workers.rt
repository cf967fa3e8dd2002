//! How many runs each worker starts.

ghost use Rattle.std.specs.Prelude.{◌≡◌, ◌+◌, ◌<◌, ◌==◌, ℕ, cond, IfOk, OnOk, Some};
ghost use Rattle.lft_counts.specs.Workers.{AllRun, by_number, runs_by};

use lft_tag::NoMemory;
use std::alloc::Global;
use std::collections::BTreeMap;

/// How many runs each worker starts, by the worker's number in a map. The numbers come from the trace: in
/// a map by hashes whoever writes it could make them collide.
#[derive(Drop)]
pub struct Workers {
    counts: BTreeMap<u32, u64>,
}

impl Workers {
    /// No worker starts a run.
    pub fn new(alloc: Global) -> Workers
        ensures none { (w : ℕ) → runs_by result w ≡ 0 }
        ensures listed { AllRun result }
    {
        Workers {
            counts: BTreeMap::new(alloc),
        }
    }

    /// How many runs the worker starts.
    pub fn of(&self, worker: u32) -> u64
        ensures { result ≡ runs_by self.now worker }
    {
        match self.counts.get(&worker) {
            Some(count) => *count,
            None => 0,
        }
    }

    /// The worker starts a run more.
    pub fn begin(&mut self, worker: u32) -> Result<(), NoMemory>
        requires { runs_by self.old worker < 4000000 }
        ensures listed { OnOk result (AllRun self.old → AllRun self.new) }
        ensures more { OnOk result ((w : ℕ) → runs_by self.new w ≡ cond (worker == w) (runs_by self.old worker + 1) (runs_by self.old w)) }
    {
        let count = self.of(worker) + 1;
        match self.counts.insert(worker, count) {
            Ok(_) => Ok(()),
            Err(_) => Err(NoMemory),
        }
    }

    /// The workers that start runs, each with how many, in the order of their numbers.
    pub fn list(&self, alloc: Global) -> Result<Vec<(u32, u64)>, NoMemory>
        ensures { IfOk result (λ all. all.items ≡ by_number self.now) }
    {
        let mut all = Vec::new(alloc);
        for (worker, runs) in self.counts.iter() {
            all.push((*worker, *runs))?;
        }
        Ok(all)
    }
}
