//! What is said of a cause that the program shows as a whole: a loop of connections, a sum of delays, a limit
//! that is passed.

ghost use Rattle.std.specs.Prelude.{IfOk};
ghost use Rattle.lft_program_diagnostics.specs.inner.Sentences.{IsOf};
ghost use Rattle.lft_resolve.specs.declared.causes.ProgramFault.TheVariants as faults;

use crate::reason::WhyRefused;
use crate::refused::Refused;
use crate::sentence::Sentence;
use crate::spans::{Span, name_spot, time_spot};
use crate::ways::first_place;
use itoa::Buffer;
use lft_program::{Excess, LimitedKind, Way};
use lft_tag::NoMemory;
use lft_tree::Reference;

/// More ports of a loop aren't named.
const MOST_NAMES: usize = 12;

/// What there is too much of.
fn kind_words(kind: LimitedKind) -> &'static str {
    match kind {
        LimitedKind::Instances => " instances",
        LimitedKind::Reactions => " reactions",
        LimitedKind::Ports => " ports",
        LimitedKind::Connections => " single connections",
        LimitedKind::Actions => " actions",
        LimitedKind::Timers => " timers",
    }
}

/// The name with that place in a list.
fn item(names: &[Reference], place: usize) -> Option<&Reference> {
    if place < names.len() {
        Some(&names[place])
    } else {
        None
    }
}

impl<'a> Refused<'a> {
    /// The name at which the single connection with that place on the way ends.
    fn end(&self, way: &Way, place: usize) -> Option<(usize, &'a Reference)> {
        let single = self.single(way, place)?;
        let names = &single.connection.destinations;
        Some((single.number, item(names, single.place)?))
    }

    /// Puts the port at which the single connection with that place on the way ends behind the text.
    fn push_end(&self, out: &mut String, way: &Way, place: usize) -> Result<(), NoMemory> {
        match self.end(way, place) {
            Some((number, name)) => self.push_port(out, way, number, name),
            None => Ok(()),
        }
    }

    /// Puts the port at which the single connection with that place on the way begins behind the text.
    fn push_start(&self, out: &mut String, way: &Way, place: usize) -> Result<(), NoMemory> {
        let Some(single) = self.single(way, place) else {
            return Ok(());
        };
        match item(&single.connection.sources, single.place) {
            Some(name) => self.push_port(out, way, single.number, name),
            None => Ok(()),
        }
    }

    /// Where the name at which the single connection with that place on the way ends stands.
    fn end_spot(&self, way: &Way, place: usize) -> Option<Span> {
        let (_, name) = self.end(way, place)?;
        name_spot(self.tokens, name)
    }

    /// Where the delay of the single connection with that place on the way stands.
    fn delay_spot(&self, way: &Way, place: usize) -> Option<Span> {
        match &self.single(way, place)?.connection.delay {
            Some(time) => time_spot(self.tokens, time),
            None => None,
        }
    }

    /// The ports of a loop in the direction of the connections, from the end of that one on.
    fn ring_words(&self, way: &Way, first: usize) -> Result<String, NoMemory> {
        let count = way.joins.len();
        let mut out = String::new(self.alloc);
        self.push_end(&mut out, way, first)?;
        // With the last step the port at which it began comes once more: so the loop is seen to close.
        for step in 1..=count {
            out.push_str(" -> ")?;
            if step > MOST_NAMES {
                out.push_str("..")?;
                return Ok(out);
            }
            // A way leads from each port to its source, and is told in the direction of the connections.
            let place = if step <= first {
                first - step
            } else {
                count - (step - first)
            };
            self.push_end(&mut out, way, place)?;
        }
        Ok(out)
    }

    /// Connections alone form a loop. The place is the end of the one that stands first.
    pub(crate) fn cycle(&self, way: &Way) -> Result<WhyRefused, NoMemory>
        ensures { IfOk result (IsOf faults.ConnectionCycle) }
    {
        let Some(first) = first_place(&way.joins) else {
            return self.plain(Sentence::Cycle);
        };
        let words = self.ring_words(way, first)?;
        let reason = self.plain(Sentence::Cycle)?.at(self.end_spot(way, first));
        reason.way(words.as_str())
    }

    /// The delays of a chain of connections sum to more than the greatest time. The place is the delay with
    /// which they do.
    pub(crate) fn long_chain(&self, way: &Way) -> Result<WhyRefused, NoMemory>
        ensures { IfOk result (IsOf faults.DelayTooLong) }
    {
        let (mut start, mut end) = (String::new(self.alloc), String::new(self.alloc));
        // A way leads back from its end, so the chain begins at the last one.
        self.push_start(&mut start, way, way.joins.len().saturating_sub(1))?;
        self.push_end(&mut end, way, 0)?;
        let names = [start.as_str(), end.as_str()];
        let reason = WhyRefused::of(self.alloc, Sentence::LongChain, &names)?;
        Ok(reason.at(self.delay_spot(way, 0)))
    }

    /// Which limit the program passes, and how many there are.
    pub(crate) fn too_many(&self, excess: Excess) -> Result<WhyRefused, NoMemory>
        ensures { IfOk result (IsOf faults.TooMany) }
    {
        let (mut counted, mut most) = (Buffer::new(), Buffer::new());
        let mut things = String::new(self.alloc);
        if excess.is_more {
            things.push_str("more than ")?;
        }
        things.push_str(counted.format(excess.count))?;
        things.push_str(kind_words(excess.kind))?;
        let most = most.format(u64::from(excess.kind.limit()));
        WhyRefused::of(self.alloc, Sentence::TooMany, &[things.as_str(), most])
    }
}
