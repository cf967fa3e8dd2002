//! The reactors with the values of those of their parameters that decide widths.

ghost use Rattle.std.specs.Prelude.{◌≡◌, ◌≤◌, ◌<◌, ℕ, [], Some, IfErr, IfOk, IfSome, OnOk, length, map, option_map, slice_get, slice_set};
ghost use Rattle.lft_classes.specs.inner.{Nestings.IsNesting, Refused.IsTooMuch};
ghost use Rattle.lft_elaborate.specs.inner.Noted.{Adds, GoesOn, GoesOnIf, AreMade, AreSettings, IsNumberOf, found_inside, noted_for, table};
ghost use Rattle.lft_elaborate.specs.inner.{Settings.{setting_at, shape_at}, Values.{IsUnsized, Valued, inside}};

use crate::values::{Giving, inner_values, main_values, nothing};
use lft_classes::{Nesting, Shape, Work};
use lft_whole::sources::{NoProgram, SourceFile, Why};
use std::alloc::Global;
use std::collections::BTreeMap;

/// A shape with values of its parameters. Of one that decides no width the value is 0.
// Not one for each instance: the members of a bank share one, and so do
// instances that give the same numbers.
#[derive(Drop)]
pub struct Setting {
    pub shape: usize,
    pub values: Vec<i64>,
    /// For each member its width, once it is known.
    pub(crate) widths: Vec<Option<u64>>,
    /// For each member the setting in it, once it is known.
    inner: Vec<Option<usize>>,
}

/// The settings of a program, which are made when they are asked for first.
#[derive(Drop)]
pub struct Settings<'a> {
    pub(crate) alloc: Global,
    pub work: Work,
    pub shapes: Vec<Shape<'a>>,
    /// The shapes, contained ones first.
    pub(crate) order: Vec<usize>,
    pub settings: Vec<Setting>,
    /// For each shape its settings, by their values.
    known: Vec<BTreeMap<Vec<i64>, usize>>,
    /// For each shape its setting, if no width in it hangs on a parameter.
    only: Vec<Option<usize>>,
}

/// Notes a number.
pub(crate) fn note<N: Copy>(list: &mut [Option<N>], place: usize, number: N)
    ensures { list.new ≡ slice_set list.old place (Some number) }
{
    if place < list.len() {
        list[place] = Some(number);
    }
}

impl<'a> Settings<'a> {
    /// The reactors of the files. The main one is the setting of number 0.
    pub fn of(alloc: Global, files: &'a [SourceFile]) -> Result<Settings<'a>, NoProgram>
        ensures shapes { IfOk result (λ s. (scopes : _) × (work : Work) × IsNesting files.now scopes (record { work = work; shapes = s.shapes; order = s.order })) }
        ensures settings { IfOk result (λ s. AreSettings (table s)) }
    {
        let Nesting {
            work,
            shapes,
            order,
        } = Nesting::of(alloc, files)?;
        let only = nothing(alloc, shapes.len())?;
        let mut known = Vec::new(alloc);
        for _ in 0..shapes.len() {
            known.push(BTreeMap::new(alloc))?;
        }
        let mut settings = Settings {
            alloc,
            work,
            shapes,
            order,
            settings: Vec::new(alloc),
            known,
            only,
        };
        settings.add_main()?;
        Ok(settings)
    }

    /// Makes the setting of the main reactor, whose shape was made first.
    fn add_main(&mut self) -> Result<(), NoProgram>
        ensures main { OnOk result ((main : Shape) → slice_get self.old.shapes.items 0 ≡ Some main → self.old.settings.items ≡ [] → AreMade (table self.old) → AreSettings (table self.new)) }
        ensures rest { OnOk result ((self.new.shapes ≡ self.old.shapes) × (self.new.order ≡ self.old.order)) }
    {
        if let Some(shape) = self.shapes.first() {
            let values = main_values(self.alloc, shape)?;
            self.setting(0, values)?;
        }
        Ok(())
    }

    /// The shape of a setting.
    pub fn shape_of(&self, setting: usize) -> Option<&Shape<'a>>
        ensures { option_map (λ shape. shape.now) result ≡ shape_at self.now setting }
    {
        let found = self.settings.get(setting)?;
        self.shapes.get(found.shape)
    }

    /// The number that is noted for a shape and values.
    fn noted(&self, shape: usize, values: &[i64]) -> Option<usize>
        ensures { result ≡ noted_for self.now.known.items shape values.now }
    {
        self.known.get(shape)?.get(values).copied()
    }

    /// The setting of this shape and these values.
    fn setting(&mut self, shape: usize, values: Vec<i64>) -> Result<usize, NoProgram>
        ensures work { OnOk result (self.new.work.left ≤ self.old.work.left) }
        ensures goes { OnOk result (shape < length self.old.shapes.items → GoesOn (table self.old) (table self.new)) }
        ensures number { IfOk result (λ k. shape < length self.old.shapes.items → AreMade (table self.old) → setting_at self.new k ≡ Some (record { shape = shape; values = map (λ v. Some v) values.items })) }
        ensures first { IfOk result (λ k. self.old.settings.items ≡ [] → AreMade (table self.old) → k ≡ 0) }
        ensures cause { IfErr result IsTooMuch }
        ensures rest { OnOk result ((self.new.shapes ≡ self.old.shapes) × (self.new.order ≡ self.old.order)) }
    {
        if let Some(known) = self.noted(shape, values.as_slice()) {
            return Ok(known);
        }
        let number = self.settings.len();
        // Twice, as a key and by number: who has a setting asks it for its numbers.
        let key = Vec::from_slice(self.alloc, values.as_slice())?;
        self.add_setting(shape, values)?;
        if shape < self.known.len() {
            self.known[shape].insert(key, number)?;
        }
        Ok(number)
    }

    /// Makes a setting.
    fn add_setting(&mut self, shape: usize, values: Vec<i64>) -> Result<(), NoProgram>
        ensures work { OnOk result (self.new.work.left ≤ self.old.work.left) }
        ensures adds { OnOk result (Adds (table self.old) (table self.new) shape values.items) }
        ensures cause { IfErr result IsTooMuch }
        ensures rest { OnOk result ((self.new.shapes ≡ self.old.shapes) × (self.new.order ≡ self.old.order)) }
    {
        let (count, weight) = match self.shapes.get(shape) {
            Some(found) => (found.members.len(), found.weight),
            None => (0, 0),
        };
        // Each setting has lists as long as its reactor, and a text chooses both how many and how long.
        self.work.spend(weight)?;
        let widths = nothing(self.alloc, count)?;
        let inner = nothing(self.alloc, count)?;
        self.settings.push(Setting {
            shape,
            values,
            widths,
            inner,
        })?;
        Ok(())
    }

    /// The setting in the instance of this number in a setting, if it was found before.
    pub fn known_inside(&self, setting: usize, member: usize) -> Option<usize>
        ensures found { result ≡ found_inside self.now setting member }
        ensures inside { IfSome result (λ k. (t : Valued) → AreMade (table self.now) → setting_at self.now setting ≡ Some t → IsNumberOf self.now.settings.items (inside self.now.shapes.items t member) (Some k)) }
    {
        self.noted_inside(setting, member)
    }

    /// The number of this setting that is noted: in the setting around, or else for its shape.
    fn noted_inside(&self, setting: usize, member: usize) -> Option<usize>
        ensures { result ≡ found_inside self.now setting member }
    {
        let found = self.settings.get(setting)?;
        if let Some(Some(inner)) = found.inner.get(member).copied() {
            return Some(inner);
        }
        let child = self.shapes.get(found.shape)?.child(member)?;
        match self.only.get(child.shape) {
            Some(only) => *only,
            None => None,
        }
    }

    /// The values of the parameters in an instance, and the number of its shape. Without a shape there is no
    /// such instance.
    fn values_inside(
        &mut self,
        setting: usize,
        member: usize,
    ) -> Result<Option<(usize, Vec<i64>)>, NoProgram>
        ensures work { OnOk result (self.new.work.left ≤ self.old.work.left) }
        ensures rest { self.new ≡ record self.old { work = self.new.work } }
        ensures inside { IfOk result (λ found. (t : Valued) → setting_at self.old setting ≡ Some t → option_map (λ p. record { shape = p.0; values = map (λ v. Some v) p.1.items }) found ≡ inside self.old.shapes.items t member) }
        ensures there { IfOk result (λ found. IfSome found (λ p. p.0 < length self.old.shapes.items)) }
        ensures around { IfOk result (λ found. IfSome found (λ _. setting < length self.old.settings.items)) }
    {
        let Some(found) = self.settings.get(setting) else {
            return Ok(None);
        };
        let Some(outer) = self.shapes.get(found.shape) else {
            return Ok(None);
        };
        let Some(child) = outer.child(member) else {
            return Ok(None);
        };
        let Some(inner) = self.shapes.get(child.shape) else {
            return Ok(None);
        };
        // Each instance asks for all parameters of its reactor, also for those that it doesn't give.
        self.work.spend(inner.parameters.len() as u64)?;
        let (file, at) = match outer.member(member) {
            Some(inherited) => (inherited.file, inherited.at()),
            None => (0, 0),
        };
        let missing = NoProgram::at(Why::MissingNumber, file, at);
        let given = Giving {
            outer,
            values: found.values.as_slice(),
            file,
            child,
        };
        let values = inner_values(self.alloc, inner, given, missing)?;
        Ok(Some((child.shape, values)))
    }

    /// Notes the setting in the instance of this number in a setting.
    fn note_inside(&mut self, setting: usize, member: usize, inner: usize)
        ensures work { self.new.work ≡ self.old.work }
        ensures goes { GoesOnIf ((t : Valued) → setting_at self.old setting ≡ Some t → IsNumberOf self.old.settings.items (inside self.old.shapes.items t member) (Some inner)) (table self.old) (table self.new) }
    {
        if setting < self.settings.len() {
            note(&mut self.settings[setting].inner, member, inner);
        }
    }

    /// Notes the setting of a shape, if it is the only one: no width in it hangs on a parameter.
    fn note_only(&mut self, shape: usize, inner: usize)
        ensures work { self.new.work ≡ self.old.work }
        ensures goes { GoesOnIf ((t u : Valued) (m : ℕ) → inside self.old.shapes.items t m ≡ Some u → u.shape ≡ shape → IsUnsized self.old.shapes.items shape → setting_at self.old inner ≡ Some u) (table self.old) (table self.new) }
    {
        // All instances of such a reactor are alike to the counts. They find it
        // without a look at what they give.
        let is_only = match self.shapes.get(shape) {
            Some(found) => !found.sized.contains(&true),
            None => false,
        };
        if is_only {
            note(&mut self.only, shape, inner);
        }
    }

    /// The setting in the instance of this number in a setting; None where it is no instance.
    pub fn inside(&mut self, setting: usize, member: usize) -> Result<Option<usize>, NoProgram>
        ensures work { OnOk result (self.new.work.left ≤ self.old.work.left) }
        ensures goes { OnOk result (GoesOn (table self.old) (table self.new)) }
        ensures inside { IfOk result (λ inner. (t : Valued) → AreMade (table self.old) → setting_at self.old setting ≡ Some t → IsNumberOf self.new.settings.items (inside self.old.shapes.items t member) inner) }
    {
        if let Some(known) = self.known_inside(setting, member) {
            return Ok(Some(known));
        }
        let Some((shape, values)) = self.values_inside(setting, member)? else {
            return Ok(None);
        };
        let inner = self.setting(shape, values)?;
        self.note_only(shape, inner);
        self.note_inside(setting, member, inner);
        Ok(Some(inner))
    }
}
