//! How many things a program has, counted before any of them is made.

ghost use Rattle.std.specs.Prelude.{◌≡◌, ◌<◌, ◌≤◌, ◌⊎◌, ℕ, List, IfOk, IfNone, IfSome, OnOk, Some, length, slice_get, true};
ghost use Rattle.lft_classes.specs.inner.Walks.{Has};
ghost use Rattle.lft_elaborate.specs.inner.{Limits.{limits, first_passed}, Noted.{GoesOn, AreMade, AreSettings, table}, Places.HasPairs, Settings.setting_at};
ghost use Rattle.lft_elaborate.specs.inner.{Used.{AreMarked, HasInner, HasNumber, IsNumberIn, Stay, AreUsed, IsIn, is_instance, is_instance_in}, Values.Valued};

use crate::channels::joined;
use crate::path::WantedWidth;
use crate::settings::Settings;
use lft_classes::OwnThing;
use lft_tag::{MAX_INSTANCES, MAX_REACTIONS, MAX_THINGS};
use lft_whole::sources::{NoProgram, Why};
use lft_whole::{Connection, Member};
use std::alloc::AllocError;

/// How many things of each kind.
#[derive(Clone, Copy)]
struct Counts {
    instances: u64,
    ports: u64,
    connections: u64,
    actions: u64,
    timers: u64,
    reactions: u64,
}

impl Counts {
    /// Nothing at all.
    fn none() -> Counts {
        Counts {
            instances: 0,
            ports: 0,
            connections: 0,
            actions: 0,
            timers: 0,
            reactions: 0,
        }
    }

    /// With so many times what the other counts.
    fn with(self, other: Counts, times: u64) -> Counts {
        let Counts {
            instances,
            ports,
            connections,
            actions,
            timers,
            reactions,
        } = other;
        Counts {
            // Saturating: a width may be 2^64 - 1, and banks in banks multiply.
            // What would overflow passes its limit all the same.
            instances: self
                .instances
                .saturating_add(instances.saturating_mul(times)),
            ports: self.ports.saturating_add(ports.saturating_mul(times)),
            connections: self
                .connections
                .saturating_add(connections.saturating_mul(times)),
            actions: self.actions.saturating_add(actions.saturating_mul(times)),
            timers: self.timers.saturating_add(timers.saturating_mul(times)),
            reactions: self
                .reactions
                .saturating_add(reactions.saturating_mul(times)),
        }
    }

    /// What is said of the first limit that is passed.
    fn passed(self) -> Option<Why>
        ensures { result ≡ first_passed (limits self) }
    {
        if self.instances > MAX_INSTANCES as u64 {
            Some(Why::TooManyInstances)
        } else if self.ports > MAX_THINGS as u64 {
            Some(Why::TooManyPorts)
        } else if self.connections > MAX_THINGS as u64 {
            Some(Why::TooManyConnections)
        } else if self.actions > MAX_THINGS as u64 {
            Some(Why::TooManyActions)
        } else if self.timers > MAX_THINGS as u64 {
            Some(Why::TooManyTimers)
        } else if self.reactions > MAX_REACTIONS as u64 {
            Some(Why::TooManyReactions)
        } else {
            None
        }
    }
}

/// Whether a member is an instance.
fn is_instance(member: &Member) -> bool
    ensures { result ≡ is_instance member.now }
{
    matches!(member, Member::Instance(_))
}

/// The token of a member: that of its name, or its first one.
fn token_of(member: &Member) -> usize {
    match member {
        Member::Port(port) => port.name.at,
        Member::Timer(timer) => timer.name.at,
        Member::Action(action) => action.name.at,
        Member::Instance(instance) => instance.name.at,
        Member::Reaction(reaction) => reaction.at,
        Member::Connection(connection) => connection.at,
        Member::Foreign { at, .. } => *at,
    }
}

/// Makes room for marks of so many numbers.
fn lengthen(is_used: &mut Vec<bool>, count: usize) -> Result<(), AllocError>
    ensures marked { OnOk result ((used : List ℕ) → AreMarked used is_used.old.items → AreMarked used is_used.new.items) }
    ensures long { OnOk result (count ≤ length is_used.new.items) }
{
    // Settings are made while they are listed, so the marks grow with them.
    for _more in is_used.len()..count {
        is_used.push(false)?;
    }
    Ok(())
}

/// Puts a number behind a list and marks it, if it isn't marked yet.
fn mark(used: &mut Vec<usize>, is_used: &mut Vec<bool>, number: usize) -> Result<(), AllocError>
    ensures marked { OnOk result (AreMarked used.old.items is_used.old.items → AreMarked used.new.items is_used.new.items) }
    ensures stay { OnOk result (Stay used.old.items used.new.items) }
    ensures has { OnOk result (AreMarked used.old.items is_used.old.items → number < length is_used.old.items → Has used.new.items number) }
    ensures only { OnOk result ((k : ℕ) → Has used.new.items k → Has used.old.items k ⊎ (k ≡ number)) }
{
    // This doesn't come: `lengthen` has made room for each setting.
    if number >= is_used.len() {
        return Ok(());
    }
    if is_used[number] {
        return Ok(());
    }
    is_used[number] = true;
    used.push(number)?;
    Ok(())
}

/// Puts the number of a setting behind a list, if it isn't in it. There are so many settings.
fn push_new(
    used: &mut Vec<usize>,
    is_used: &mut Vec<bool>,
    count: usize,
    inner: usize,
) -> Result<(), AllocError>
    ensures marked { OnOk result (AreMarked used.old.items is_used.old.items → AreMarked used.new.items is_used.new.items) }
    ensures stay { OnOk result (Stay used.old.items used.new.items) }
    ensures has { OnOk result (AreMarked used.old.items is_used.old.items → inner < count → Has used.new.items inner) }
    ensures only { OnOk result ((k : ℕ) → Has used.new.items k → Has used.old.items k ⊎ (k ≡ inner)) }
{
    lengthen(is_used, count)?;
    mark(used, is_used, inner)?;
    Ok(())
}

impl<'a> Settings<'a> {
    /// How many pairs a connection joins.
    pub fn pairs(
        &mut self,
        setting: usize,
        file: usize,
        connection: &Connection,
    ) -> Result<u64, NoProgram>
        ensures goes { OnOk result (GoesOn (table self.old) (table self.new)) }
        ensures pairs { IfOk result (λ n. (t : Valued) → AreMade (table self.old) → setting_at self.old setting ≡ Some t → HasPairs self.old.shapes.items t connection.now n) }
    {
        let left = self.all_channels(setting, file, &connection.sources)?;
        let right = self.all_channels(setting, file, &connection.destinations)?;
        let pairs = joined(left as usize, right as usize, connection.is_broadcast);
        Ok(pairs as u64)
    }

    /// How many members a setting has.
    fn members(&self, setting: usize) -> usize
        ensures { (t : Valued) (m : ℕ) → setting_at self.now setting ≡ Some t → is_instance_in self.now.shapes.items t m ≡ true → m < result }
    {
        let Some(shape) = self.shape_of(setting) else {
            return 0;
        };
        shape.members.len()
    }

    /// Whether the member of this number is an instance.
    fn has_instance(&self, setting: usize, member: usize) -> bool
        ensures { (t : Valued) → setting_at self.now setting ≡ Some t → result ≡ is_instance_in self.now.shapes.items t member }
    {
        match self.member(setting, member) {
            Some(found) => is_instance(found),
            None => false,
        }
    }

    /// The setting in the member of this number, if it is an instance, and no bank without members.
    fn used_inside(&mut self, setting: usize, member: usize) -> Result<Option<usize>, NoProgram>
        ensures goes { OnOk result (GoesOn (table self.old) (table self.new)) }
        ensures some { IfOk result (λ inner. IfSome inner (λ k. (t : Valued) → AreMade (table self.old) → setting_at self.old setting ≡ Some t → IsNumberIn self.old.shapes.items self.new.settings.items t member k)) }
        ensures none { IfOk result (λ inner. IfNone inner ((t u : Valued) → AreMade (table self.old) → setting_at self.old setting ≡ Some t → IsIn self.old.shapes.items t member u → ⊥)) }
    {
        if !self.has_instance(setting, member) {
            return Ok(None);
        }
        let count = self.many(setting, OwnThing::Member(member))?;
        // What is in a bank without members is in no instance, so its reactor
        // is neither counted nor lowered.
        if count == 0 {
            return Ok(None);
        }
        let inner = self.inside(setting, member)?;
        Ok(inner)
    }

    /// Puts the setting in the member of this number behind a list, if there is one that isn't in it.
    fn push_inside(
        &mut self,
        setting: usize,
        member: usize,
        used: &mut Vec<usize>,
        is_used: &mut Vec<bool>,
    ) -> Result<(), NoProgram>
        ensures goes { OnOk result (GoesOn (table self.old) (table self.new)) }
        ensures marked { OnOk result (AreMarked used.old.items is_used.old.items → AreMarked used.new.items is_used.new.items) }
        ensures stay { OnOk result (Stay used.old.items used.new.items) }
        ensures has { OnOk result ((t u : Valued) → AreMade (table self.old) → setting_at self.old setting ≡ Some t → AreMarked used.old.items is_used.old.items → IsIn self.old.shapes.items t member u → HasNumber (table self.new) used.new.items u) }
        ensures only { OnOk result ((t : Valued) → AreMade (table self.old) → setting_at self.old setting ≡ Some t → (k : ℕ) → Has used.new.items k → Has used.old.items k ⊎ IsNumberIn self.old.shapes.items self.new.settings.items t member k) }
    {
        let Some(inner) = self.used_inside(setting, member)? else {
            return Ok(());
        };
        push_new(used, is_used, self.settings.len(), inner)?;
        Ok(())
    }

    /// Puts the settings of the instances in a setting behind a list, if they aren't in it.
    fn push_inner(
        &mut self,
        setting: usize,
        used: &mut Vec<usize>,
        is_used: &mut Vec<bool>,
    ) -> Result<(), NoProgram>
        ensures goes { OnOk result (GoesOn (table self.old) (table self.new)) }
        ensures marked { OnOk result (AreMarked used.old.items is_used.old.items → AreMarked used.new.items is_used.new.items) }
        ensures stay { OnOk result (Stay used.old.items used.new.items) }
        ensures all { OnOk result ((t : Valued) → AreMade (table self.old) → setting_at self.old setting ≡ Some t → AreMarked used.old.items is_used.old.items → HasInner (table self.new) used.new.items t) }
        ensures only { OnOk result ((t : Valued) → AreMade (table self.old) → setting_at self.old setting ≡ Some t → (k : ℕ) → Has used.new.items k → Has used.old.items k ⊎ ((member : ℕ) × IsNumberIn self.old.shapes.items self.new.settings.items t member k)) }
    {
        for member in 0..self.members(setting) {
            self.push_inside(setting, member, used, is_used)?;
        }
        Ok(())
    }

    /// The settings of all instances, each once: the main one, those in it in order, those in these, and so on.
    fn used(&mut self) -> Result<Vec<usize>, NoProgram>
        ensures goes { OnOk result (GoesOn (table self.old) (table self.new)) }
        ensures used { IfOk result (λ used. AreSettings (table self.old) → AreUsed (table self.new) used.items) }
    {
        let mut used = Vec::new(self.alloc);
        let mut is_used = Vec::new(self.alloc);
        // The main one is in no other, so it is put in by itself.
        used.push(0)?;
        is_used.push(true)?;
        let mut place = 0;
        'places: while place < used.len() {
            let setting = used[place];
            self.push_inner(setting, &mut used, &mut is_used)?;
            // Each of them has an instance. Two `new` with other values in each
            // reactor would double them at each depth.
            if used.len() > MAX_INSTANCES {
                return Err(self.work.refused(Why::TooManyInstances));
            }
            place += 1;
        }
        Ok(used)
    }

    /// What the instances that a member of a setting is count. What one instance of each setting counts is known.
    fn count_inner(
        &mut self,
        setting: usize,
        member: usize,
        totals: &[Counts],
    ) -> Result<Counts, NoProgram>
        ensures goes { OnOk result (GoesOn (table self.old) (table self.new)) }
    {
        let width = self.many(setting, OwnThing::Member(member))?;
        // Asked for first. In a bank without members the setting may never have
        // been made, and has no total.
        if width == 0 {
            return Ok(Counts::none());
        }
        let Some(inner) = self.inside(setting, member)? else {
            return Ok(Counts::none());
        };
        match totals.get(inner) {
            Some(counts) => Ok(Counts::none().with(*counts, width)),
            None => Ok(Counts::none()),
        }
    }

    /// What the member of this number counts, with all in it.
    fn count_member(
        &mut self,
        setting: usize,
        number: usize,
        totals: &[Counts],
    ) -> Result<Counts, NoProgram>
        ensures goes { OnOk result (GoesOn (table self.old) (table self.new)) }
    {
        let Some(inherited) = self.inherited(WantedWidth {
            setting,
            member: number,
        }) else {
            return Ok(Counts::none());
        };
        match inherited.member {
            Member::Port(_) => {
                let ports = self.many(setting, OwnThing::Member(number))?;
                Ok(Counts {
                    ports,
                    ..Counts::none()
                })
            }
            Member::Connection(connection) => {
                let connections = self.pairs(setting, inherited.file, connection)?;
                Ok(Counts {
                    connections,
                    ..Counts::none()
                })
            }
            Member::Timer(_) => Ok(Counts {
                timers: 1,
                ..Counts::none()
            }),
            Member::Action(_) => Ok(Counts {
                actions: 1,
                ..Counts::none()
            }),
            Member::Reaction(_) => Ok(Counts {
                reactions: 1,
                ..Counts::none()
            }),
            Member::Foreign { .. } => Ok(Counts::none()),
            Member::Instance(_) => self.count_inner(setting, number, totals),
        }
    }

    /// Refuses counts that pass a limit, at the member of a setting with which they do.
    fn refuse_passed(
        &self,
        setting: usize,
        number: usize,
        counts: Counts,
    ) -> Result<(), NoProgram> {
        let Some(why) = counts.passed() else {
            return Ok(());
        };
        match self.inherited(WantedWidth {
            setting,
            member: number,
        }) {
            Some(inherited) => Err(NoProgram::at(why, inherited.file, token_of(inherited.member))),
            None => Ok(()),
        }
    }

    /// What one instance of a setting counts, with all in it. That of the settings in it is known.
    fn count(&mut self, setting: usize, totals: &[Counts]) -> Result<Counts, NoProgram>
        ensures goes { OnOk result (GoesOn (table self.old) (table self.new)) }
    {
        let mut counts = Counts {
            instances: 1,
            ..Counts::none()
        };
        for number in 0..self.members(setting) {
            let other = self.count_member(setting, number, totals)?;
            counts = counts.with(other, 1);
            self.refuse_passed(setting, number, counts)?;
        }
        Ok(counts)
    }

    /// The place of each shape in their order.
    fn depths(&self) -> Result<Vec<usize>, AllocError> {
        let mut depths = vec![in self.alloc; 0; self.shapes.len()]?;
        for place in 0..self.order.len() {
            let shape = self.order[place];
            if shape < depths.len() {
                depths[shape] = place;
            }
        }
        Ok(depths)
    }

    /// The settings in an order in which each stands behind those in it, with the places of their shapes.
    fn inner_first(&self, used: &[usize]) -> Result<Vec<(usize, usize)>, AllocError>
        ensures { IfOk result (λ places. (k : ℕ) (p : ℕ × ℕ) → slice_get places.items k ≡ Some p → Has used.now p.1) }
    {
        let depths = self.depths()?;
        let mut places = Vec::new(self.alloc);
        for place in 0..used.len() {
            let setting = used[place];
            let depth = match self.settings.get(setting) {
                Some(found) => depths.get(found.shape).copied().unwrap_or(0),
                None => 0,
            };
            places.push((depth, setting))?;
        }
        // By the depth of their reactors: settings are made from outside
        // inwards, and one may be met again deeper.
        places.sort()?;
        Ok(places)
    }

    /// Counts what one instance of each setting has, with all in it.
    fn count_all(&mut self, used: &[usize]) -> Result<(), NoProgram>
        ensures goes { OnOk result (GoesOn (table self.old) (table self.new)) }
    {
        let places = self.inner_first(used)?;
        // No total leaves this function: whether a limit is passed is all that is asked.
        let mut totals = vec![in self.alloc; Counts::none(); self.settings.len()]?;
        for place in 0..places.len() {
            let setting = places[place].1;
            let counts = self.count(setting, &totals)?;
            if setting < totals.len() {
                totals[setting] = counts;
            }
        }
        Ok(())
    }

    /// The settings of all instances, as `used` has them. A program that passes a limit is refused.
    pub fn counted(&mut self) -> Result<Vec<usize>, NoProgram>
        ensures goes { OnOk result (GoesOn (table self.old) (table self.new)) }
        ensures used { IfOk result (λ used. AreSettings (table self.old) → AreUsed (table self.new) used.items) }
    {
        let used = self.used()?;
        self.count_all(&used)?;
        Ok(used)
    }
}
