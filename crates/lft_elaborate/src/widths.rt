//! Widths of ports and banks in a setting.

ghost use Rattle.std.specs.Prelude.{◌≡◌, ◌≤◌, ◌↔◌, Some, IfErr, IfOk, IfSome, IsSome, OnOk, is_some, option_and_then};
ghost use Rattle.lft_elaborate.specs.inner.Noted.{GoesOn, GoesOnIf, AreMade, table};
ghost use Rattle.lft_elaborate.specs.inner.Places.{AreMany, HasPlaces, HasWidth, IsCount, IsSum, IsMany, IsWidth, parameter_in, plus, capped_product};
ghost use Rattle.lft_elaborate.specs.inner.{Refused.{IfRefused, IsOfWord}, Settings.setting_at, Widths.{member_at, width_at, found_width}, Values.Valued};
ghost use Rattle.lft_elaborate.specs.Places.{natural};

use crate::meanings::Meaning;
use crate::path::{Path, WantedWidth};
use crate::settings::{Settings, note};
use crate::values::number_named;
use lft_classes::{Inherited, OwnThing};
use lft_whole::sources::{NoProgram, Why};
use lft_whole::{Count, Reference, Term};
use std::alloc::AllocError;

/// Two counts together, if both are known.
fn plus(one: Option<u64>, other: Option<u64>) -> Option<u64>
    ensures { result ≡ plus one other }
{
    // A sum that large passes each limit, so it needn't be told from the largest number.
    Some(one?.saturating_add(other?))
}

/// So many for each of so many, if both are known.
fn times(one: Option<u64>, other: Option<u64>) -> Option<u64>
    ensures { result ≡ capped_product one other }
{
    Some(one?.saturating_mul(other?))
}

impl<'a> Settings<'a> {
    /// The member of a setting, with its file.
    pub(crate) fn inherited(&self, wanted: WantedWidth) -> Option<Inherited<'a>>
        ensures { result ≡ member_at self.now wanted.setting wanted.member }
    {
        match self.shape_of(wanted.setting) {
            Some(shape) => shape.member(wanted.member),
            None => None,
        }
    }

    /// Whether a member has a width.
    fn is_wide(&self, wanted: WantedWidth) -> bool
        ensures { result ≡ is_some (width_at self.now wanted.setting wanted.member) }
    {
        match self.inherited(wanted) {
            Some(inherited) => inherited.width().is_some(),
            None => false,
        }
    }

    /// The width of the member of this number in a setting, if it has one and that was found before.
    pub fn known(&self, setting: usize, member: usize) -> Option<u64>
        ensures { result ≡ found_width self.now setting member }
    {
        match self.settings.get(setting) {
            Some(found) => match found.widths.get(member) {
                Some(width) => *width,
                None => None,
            },
            None => None,
        }
    }

    /// Notes a width.
    fn note_width(&mut self, wanted: WantedWidth, width: u64)
        ensures work { self.new.work ≡ self.old.work }
        ensures goes { GoesOnIf ((t : Valued) → setting_at self.old wanted.setting ≡ Some t → IsWidth self.old.shapes.items t wanted.member width) (table self.old) (table self.new) }
    {
        if wanted.setting < self.settings.len() {
            note(
                &mut self.settings[wanted.setting].widths,
                wanted.member,
                width,
            );
        }
    }

    /// The number of the parameter of this name in a setting.
    fn number_in(&self, setting: usize, word: &str) -> Option<i64>
        ensures { (t : Valued) → setting_at self.now setting ≡ Some t → result ≡ parameter_in self.now.shapes.items t word.now }
    {
        let found = self.settings.get(setting)?;
        let shape = self.shapes.get(found.shape)?;
        number_named(shape, found.values.as_slice(), word)
    }

    /// The number of the parameter of this name, which is no width where it is below 0.
    fn parameter_width(
        &self,
        setting: usize,
        file: usize,
        word: &str,
        at: usize,
    ) -> Result<u64, NoProgram>
        ensures number { IfOk result (λ n. (t : Valued) → setting_at self.now setting ≡ Some t → option_and_then natural (parameter_in self.now.shapes.items t word.now) ≡ Some n) }
        ensures cause { IfErr result (λ stop. (t : Valued) → setting_at self.now setting ≡ Some t → IfRefused (IsOfWord self.now.shapes.items t file at word.now) stop) }
    {
        let Some(value) = self.number_in(setting, word) else {
            return Err(NoProgram::at(Why::UnknownParameter, file, at));
        };
        if value < 0 {
            Err(NoProgram::at(Why::NegativeWidth, file, at))
        } else {
            Ok(value as u64)
        }
    }

    /// How many a member is, on which a width hangs: 1 if it has no width. One that isn't known is put behind a list.
    fn need(
        &self,
        needed: WantedWidth,
        needs: &mut Vec<WantedWidth>,
    ) -> Result<Option<u64>, AllocError>
        ensures many { IfOk result (λ found. IfSome found (λ n. (t : Valued) → AreMade (table self.now) → setting_at self.now needed.setting ≡ Some t → IsMany self.now.shapes.items t needed.member n)) }
    {
        if !self.is_wide(needed) {
            return Ok(Some(1));
        }
        if let Some(width) = self.known(needed.setting, needed.member) {
            return Ok(Some(width));
        }
        needs.push(needed)?;
        Ok(None)
    }

    /// The same of a thing of a setting.
    fn need_thing(
        &self,
        setting: usize,
        thing: OwnThing,
        needs: &mut Vec<WantedWidth>,
    ) -> Result<Option<u64>, AllocError>
        ensures many { IfOk result (λ found. IfSome found (λ n. (t : Valued) → AreMade (table self.now) → setting_at self.now setting ≡ Some t → AreMany self.now.shapes.items t thing n)) }
    {
        match thing {
            OwnThing::Member(member) => self.need(WantedWidth { setting, member }, needs),
            OwnThing::Parameter(_) => Ok(Some(1)),
        }
    }

    /// How many places a reference in a width has, if the widths that it takes are known.
    fn width_of(
        &mut self,
        setting: usize,
        file: usize,
        reference: &Reference,
        needs: &mut Vec<WantedWidth>,
    ) -> Result<Option<u64>, NoProgram>
        ensures work { OnOk result (self.new.work.left ≤ self.old.work.left) }
        ensures goes { OnOk result (GoesOn (table self.old) (table self.new)) }
        ensures places { IfOk result (λ found. IfSome found (λ n. (t : Valued) → AreMade (table self.old) → setting_at self.old setting ≡ Some t → HasPlaces self.old.shapes.items t reference.now n)) }
    {
        self.enter(setting, reference)?;
        let meaning = self.meaning(setting, file, reference)?;
        match meaning {
            Meaning::Own(thing) => {
                let count = self.need_thing(setting, thing, needs)?;
                Ok(count)
            }
            Meaning::Port { instance, port } => {
                let inner = self.entered(setting, instance, file, reference)?;
                let ports = self.need(
                    WantedWidth {
                        setting: inner,
                        member: port,
                    },
                    needs,
                )?;
                let members = self.need(
                    WantedWidth {
                        setting,
                        member: instance,
                    },
                    needs,
                )?;
                Ok(times(ports, members))
            }
        }
    }

    /// The number that a term of a width is, if the widths that it takes are known.
    fn term(
        &mut self,
        setting: usize,
        file: usize,
        term: &Term,
        needs: &mut Vec<WantedWidth>,
    ) -> Result<Option<u64>, NoProgram>
        ensures work { OnOk result (self.new.work.left ≤ self.old.work.left) }
        ensures goes { OnOk result (GoesOn (table self.old) (table self.new)) }
        ensures count { IfOk result (λ found. IfSome found (λ n. (t : Valued) → AreMade (table self.old) → setting_at self.old setting ≡ Some t → IsCount self.old.shapes.items t term.now.count n)) }
    {
        match &term.count {
            Count::Number(count) => Ok(Some(*count)),
            Count::Word(word) => {
                let count = self.parameter_width(setting, file, word.as_str(), term.at)?;
                Ok(Some(count))
            }
            Count::WidthOf(reference) => self.width_of(setting, file, reference, needs),
            Count::Code => Err(NoProgram::at(Why::WidthByCode, file, term.at)),
            Count::Open => Err(NoProgram::at(Why::OpenWidth, file, term.at)),
        }
    }

    /// The terms of a width together, if all of them are known. What else they hang on is put behind a list.
    fn sum(
        &mut self,
        setting: usize,
        file: usize,
        terms: &[Term],
        needs: &mut Vec<WantedWidth>,
    ) -> Result<Option<u64>, NoProgram>
        ensures work { OnOk result (self.new.work.left ≤ self.old.work.left) }
        ensures goes { OnOk result (GoesOn (table self.old) (table self.new)) }
        ensures sum { IfOk result (λ all. IfSome all (λ n. (t : Valued) → AreMade (table self.old) → setting_at self.old setting ≡ Some t → IsSum self.old.shapes.items t terms.now n)) }
    {
        let mut all = Some(0);
        // To the end, also behind one that isn't known: so all that the width hangs on is wanted at once.
        for term in terms {
            let count = self.term(setting, file, term, needs)?;
            all = plus(all, count);
        }
        Ok(all)
    }

    /// Finds a width, if it isn't known and all that it hangs on is. Else that is wanted before it.
    fn find_width(&mut self, wanted: WantedWidth, path: &mut Path) -> Result<(), NoProgram>
        ensures work { OnOk result (self.new.work.left ≤ self.old.work.left) }
        ensures goes { OnOk result (GoesOn (table self.old) (table self.new)) }
    {
        // Several widths may hang on this one, and then it is wanted several times.
        if self.known(wanted.setting, wanted.member).is_some() {
            return Ok(());
        }
        let Some(inherited) = self.inherited(wanted) else {
            return Ok(());
        };
        let Some(width) = inherited.width() else {
            return Ok(());
        };
        let mut needs = Vec::new(self.alloc);
        let all = self.sum(wanted.setting, inherited.file, &width.terms, &mut needs)?;
        if let Some(width) = all {
            self.note_width(wanted, width);
            return Ok(());
        }
        if path.open(wanted, &needs)? {
            Ok(())
        } else {
            Err(NoProgram::at(Why::WidthOfItself, inherited.file, inherited.at()))
        }
    }

    /// The width of the member of this number in a setting; None for a plain one.
    pub fn width(&mut self, setting: usize, member: usize) -> Result<Option<u64>, NoProgram>
        ensures plain { IfOk result (λ width. IsSome width ↔ IsSome (width_at self.old setting member)) }
        ensures found { IfOk result (λ width. IfSome width (λ count. found_width self.new setting member ≡ Some count)) }
        ensures goes { OnOk result (GoesOn (table self.old) (table self.new)) }
        ensures width { IfOk result (λ width. (t : Valued) → AreMade (table self.old) → setting_at self.old setting ≡ Some t → HasWidth self.old.shapes.items t member width) }
    {
        let first = WantedWidth { setting, member };
        if !self.is_wide(first) {
            return Ok(None);
        }
        let mut path = Path::of(self.alloc);
        'widths: loop {
            if let Some(width) = self.known(setting, member) {
                return Ok(Some(width));
            }
            self.work.spend(1)?;
            // The path may be empty and the width unknown: then this is the first turn.
            let wanted = path.pop(first);
            self.find_width(wanted, &mut path)?;
        }
    }
}
