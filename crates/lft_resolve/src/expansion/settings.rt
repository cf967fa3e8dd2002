//! The values that the parameters of each instance have.

ghost use Rattle.std.specs.Prelude.{◌≡◌, ℕ, ◌<◌, List, [], Some, map, slice_get, unwrap_or, IfOk};
ghost use Rattle.lft_resolve.specs.inner.Expansion.{Contents.AreWalked, Values.{HaveValues, LeadToValues, clock_in, defaults_of, given_by, values_in}};
ghost use Rattle.lft_resolve.specs.declared.expansion.walk.Contents.{Contents};

use crate::expansion::walk::Instance;
use lft_lists::item_at;
use lft_tag::NoMemory;
use std::alloc::Global;
use std::marker::Model;

/// A time: fixed, in nanoseconds, or the value of the parameter at this place.
#[derive(Clone, Copy, PartialEq, Eq, Drop)]
pub enum Clock {
    Fixed(u64),
    Parameter(usize),
}

/// What the parameter at a place is given. The clock is read where the new instance stands, with
/// the parameters of the instance that contains it.
#[derive(Clone, Copy, PartialEq, Eq, Drop)]
pub struct Given {
    pub place: usize,
    pub clock: Clock,
}

/// The defaults of a reactor's parameters in nanoseconds, in order of declaration, and what it gives
/// to each of its instances, by place.
#[derive(Drop)]
pub struct Parameters {
    pub defaults: Vec<u64>,
    pub given: Vec<Vec<Given>>,
}

/// The values of the parameters of each instance. A contract sees a row of values for each.
#[derive(Drop)]
pub struct Values {
    rows: Vec<Vec<u64>>,
}

impl Model for Values {
    ghost Value = { List (List ℕ) };

    ghost view = { λ v. map (λ row. row.items) v.rows.items };
}

// what a clock is where the parameters have these values
fn read(clock: Clock, values: &[u64]) -> u64
    ensures { result ≡ clock_in values.now clock }
{
    match clock {
        Clock::Fixed(time) => time,
        Clock::Parameter(place) => values.get(place).copied().unwrap_or(0),
    }
}

// writes what is given over the defaults; from the last on, so that the first given stays
fn give(own: &mut [u64], given: &[Given], outer: &[u64])
    ensures { own.new ≡ values_in outer.now given.now own.old }
{
    'given: for number in (0..given.len()).rev() {
        let one = item_at(given, number);
        if one.place < own.len() {
            own[one.place] = read(one.clock, outer);
        }
    }
}

// what a reactor gives to its instance at a place
fn given_to(table: &[Parameters], reactor: u32, place: usize) -> &[Given]
    ensures { result.now ≡ given_by table.now reactor place }
{
    match table.get(reactor as usize) {
        Some(parameters) => match parameters.given.get(place) {
            Some(given) => given,
            None => &[],
        },
        None => &[],
    }
}

// the defaults of a reactor's parameters
fn copy_defaults(alloc: Global, table: &[Parameters], reactor: u32) -> Result<Vec<u64>, NoMemory>
    ensures { IfOk result (λ v. v.items ≡ defaults_of table.now reactor) }
{
    let mut own = Vec::new(alloc);
    if (reactor as usize) < table.len() {
        own.extend_from_slice(&table[reactor as usize].defaults)?;
    }
    Ok(own)
}

impl Values {
    /// The values of the instances that a walk made. The table has the parameters of each reactor,
    /// by number; a number past its end stands for a reactor without parameters.
    pub fn of(
        alloc: Global,
        table: &[Parameters],
        instances: &[Instance],
    ) -> Result<Values, NoMemory>
        requires { AreWalked instances.now }
        ensures values { IfOk result (λ v. HaveValues table.now instances.now v) }
        ensures paths { IfOk result (λ v. (contents : List Contents) → (main : ℕ)
            → LeadToValues contents table.now main instances.now v) }
    {
        let mut rows: Vec<Vec<u64>> = Vec::new(alloc);
        'instances: for number in 0..instances.len() {
            let instance = item_at(instances, number);
            let mut own = copy_defaults(alloc, table, instance.reactor)?;
            if number > 0 {
                let parent = instance.parent as usize;
                let above = item_at(instances, parent).reactor;
                give(
                    &mut own,
                    given_to(table, above, instance.place),
                    &rows[parent],
                );
            }
            rows.push(own)?;
        }
        Ok(Values { rows })
    }

    /// What a clock is in an instance; 0 where it is a parameter that the instance doesn't have.
    pub fn read(&self, instance: u32, clock: Clock) -> u64
        ensures { result ≡ clock_in (unwrap_or (slice_get self.now instance) []) clock }
    {
        match self.rows.get(instance as usize) {
            Some(row) => read(clock, row),
            None => read(clock, &[]),
        }
    }
}
