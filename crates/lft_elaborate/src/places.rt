//! How many things references mean in a setting.

ghost use Rattle.std.specs.Prelude.{◌≡◌, ◌≤◌, IfOk, OnOk, Some, option_map};
ghost use Rattle.lft_elaborate.specs.inner.{Noted.{GoesOn, AreMade, IsNumberOf, table}, Places.{AreMany, HasPlaces, HavePlaces, meaning_in_setting}};
ghost use Rattle.lft_elaborate.specs.inner.{Settings.setting_at, Widths.member_at, Values.{Valued, inside}};

use crate::meanings::{Meaning, meaning_of};
use crate::settings::Settings;
use lft_classes::OwnThing;
use lft_whole::sources::{NoProgram, Why};
use lft_whole::{Member, Reference};

impl<'a> Settings<'a> {
    /// The member of a setting with this number.
    pub fn member(&self, setting: usize, number: usize) -> Option<&'a Member>
        ensures { option_map (λ member. member.now) result ≡ option_map (λ found. found.member.now) (member_at self.now setting number) }
    {
        match self.shape_of(setting) {
            Some(shape) => match shape.member(number) {
                Some(inherited) => Some(inherited.member),
                None => None,
            },
            None => None,
        }
    }

    /// Enters the instance of which a reference names a port. What is wrong in it is told before a port that it lacks.
    pub(crate) fn enter(&mut self, setting: usize, reference: &Reference) -> Result<(), NoProgram>
        ensures work { OnOk result (self.new.work.left ≤ self.old.work.left) }
        ensures goes { OnOk result (GoesOn (table self.old) (table self.new)) }
    {
        let Some(shape) = self.shape_of(setting) else {
            return Ok(());
        };
        let head = shape.find(reference.head.text.as_str());
        match (&reference.port, head) {
            (Some(_), Some(OwnThing::Member(instance))) => {
                self.inside(setting, instance)?;
                Ok(())
            }
            _ => Ok(()),
        }
    }

    /// What a reference in the file means in a setting.
    pub(crate) fn meaning(
        &self,
        setting: usize,
        file: usize,
        reference: &Reference,
    ) -> Result<Meaning, NoProgram>
        ensures { IfOk result (λ meaning. (t : Valued) → setting_at self.now setting ≡ Some t → meaning_in_setting self.now.shapes.items t reference.now ≡ Some meaning) }
    {
        let Some(shape) = self.shape_of(setting) else {
            // This doesn't come: each setting has a shape.
            return Err(NoProgram::at(Why::UnknownName, file, reference.head.at));
        };
        let meaning = meaning_of(&self.shapes, shape, file, reference)?;
        Ok(meaning)
    }

    /// The setting in an instance that was entered, which a reference in the file names.
    pub(crate) fn entered(
        &self,
        setting: usize,
        instance: usize,
        file: usize,
        reference: &Reference,
    ) -> Result<usize, NoProgram>
        ensures { IfOk result (λ inner. (t : Valued) → AreMade (table self.now) → setting_at self.now setting ≡ Some t → IsNumberOf self.now.settings.items (inside self.now.shapes.items t instance) (Some inner)) }
    {
        match self.known_inside(setting, instance) {
            Some(inner) => Ok(inner),
            None => Err(NoProgram::at(Why::UnknownInstance, file, reference.head.at)),
        }
    }

    /// How many things a thing of a setting is.
    pub(crate) fn many(&mut self, setting: usize, thing: OwnThing) -> Result<u64, NoProgram>
        ensures goes { OnOk result (GoesOn (table self.old) (table self.new)) }
        ensures many { IfOk result (λ n. (t : Valued) → AreMade (table self.old) → setting_at self.old setting ≡ Some t → AreMany self.old.shapes.items t thing n) }
    {
        let OwnThing::Member(member) = thing else {
            return Ok(1);
        };
        let width = self.width(setting, member)?;
        Ok(width.unwrap_or(1))
    }

    /// How many places a reference has.
    pub fn channels(
        &mut self,
        setting: usize,
        file: usize,
        reference: &Reference,
    ) -> Result<u64, NoProgram>
        ensures goes { OnOk result (GoesOn (table self.old) (table self.new)) }
        ensures places { IfOk result (λ n. (t : Valued) → AreMade (table self.old) → setting_at self.old setting ≡ Some t → HasPlaces self.old.shapes.items t reference.now n) }
    {
        self.enter(setting, reference)?;
        let meaning = self.meaning(setting, file, reference)?;
        match meaning {
            Meaning::Own(thing) => {
                let count = self.many(setting, thing)?;
                Ok(count)
            }
            Meaning::Port { instance, port } => {
                let inner = self.entered(setting, instance, file, reference)?;
                let ports = self.many(inner, OwnThing::Member(port))?;
                let members = self.many(setting, OwnThing::Member(instance))?;
                Ok(ports.saturating_mul(members))
            }
        }
    }

    /// How many places references have together.
    pub fn all_channels(
        &mut self,
        setting: usize,
        file: usize,
        references: &[Reference],
    ) -> Result<u64, NoProgram>
        ensures goes { OnOk result (GoesOn (table self.old) (table self.new)) }
        ensures places { IfOk result (λ n. (t : Valued) → AreMade (table self.old) → setting_at self.old setting ≡ Some t → HavePlaces self.old.shapes.items t references.now n) }
    {
        let mut all: u64 = 0;
        for reference in references {
            let places = self.channels(setting, file, reference)?;
            all = all.saturating_add(places);
        }
        Ok(all)
    }
}
