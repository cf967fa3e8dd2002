//! At which tag each reaction started last.

ghost use Rattle.std.specs.Prelude.{◌≡◌, ℕ, List, [], ◌<◌, length, IfOk, IsTrue, Contains};
ghost use Rattle.lft_ir.specs.declared.steps.row.Row.{Row as TheRow};
ghost use Rattle.lft_model.specs.Runs.{Ran};
ghost use Rattle.lft_stream.specs.inner.StartTags.{AreStartTags};

use lft_ir::Program;
use lft_lists::item_at;
use lft_tag::{NoMemory, Tag};
use std::alloc::Global;
use std::marker::Model;

/// For each reaction the tag at which it started last, if it did.
#[derive(Drop)]
pub(crate) struct StartTags {
    last: Vec<Option<Tag>>,
}

impl Model for StartTags {
    ghost use Rattle.std.specs.Prelude.{List, Option};
    ghost use Rattle.lft_tag.specs.declared.Tag.{Tag};

    ghost Value = { List (Option Tag) };

    ghost view = { λ starts. starts.last.items };
}

impl StartTags {
    /// No reaction has started.
    pub(crate) fn new(alloc: Global, program: &Program) -> Result<StartTags, NoMemory>
        ensures { IfOk result (AreStartTags program.now []) }
    {
        let last = vec![in alloc; None; program.reactions()]?;
        Ok(StartTags { last })
    }

    /// The reaction has a run at the tag.
    fn begin(&mut self, program: &Program, reaction: u32, tag: Tag)
        requires reaction { reaction < length program.now.reactions }
        requires long { length self.old ≡ length program.now.reactions }
        ensures long { length self.new ≡ length program.now.reactions }
        ensures starts { (whole : List TheRow) → Ran whole tag reaction → AreStartTags program.now whole self.old → AreStartTags program.now whole self.new }
    {
        self.last[reaction as usize] = Some(tag);
    }

    /// Each of the reactions has a run at the tag.
    pub(crate) fn begin_all(&mut self, program: &Program, started: &[u32], tag: Tag)
        requires exist { (r : ℕ) → Contains started.now r → r < length program.now.reactions }
        requires long { length self.old ≡ length program.now.reactions }
        ensures long { length self.new ≡ length program.now.reactions }
        ensures starts { (whole : List TheRow) → ((r : ℕ) → Contains started.now r → Ran whole tag r) → AreStartTags program.now whole self.old → AreStartTags program.now whole self.new }
    {
        for place in 0..started.len() {
            self.begin(program, item_at(started, place), tag);
        }
    }

    /// Whether the reaction started last at the tag.
    pub(crate) fn is_at(&self, program: &Program, reaction: u32, tag: Tag) -> bool
        requires { length self.now ≡ length program.now.reactions }
        ensures { IsTrue result → (whole : List TheRow) → AreStartTags program.now whole self.now → Ran whole tag reaction }
    {
        let number = reaction as usize;
        if number >= program.reactions() {
            return false;
        }
        match item_at(self.last.as_slice(), number) {
            Some(last) => last.is_same(tag),
            None => false,
        }
    }
}
