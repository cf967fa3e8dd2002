//! Whose turn it is at a time, of many.

use crate::due::Due;
use lft_lists::item_at;
use lft_tag::NoMemory;
use std::alloc::Global;

/// Stands for no place.
const NONE: usize = usize::MAX;

/// Places in lists: by the highest bit in which their times differ from the last one that was asked for. Nothing is
/// proved of them.
// A radix heap. A place moves from list to list as often as its time has bits, at most, however many there are.
#[derive(Drop)]
pub(crate) struct Turns {
    now: u64,
    /// The first place of each list.
    firsts: Vec<usize>,
    /// For each place the next one of its list.
    nexts: Vec<usize>,
}

/// The place that stands there, if any.
fn get(places: &[usize], at: usize) -> usize {
    match places.get(at) {
        Some(place) => *place,
        None => NONE,
    }
}

/// Puts the place there.
fn set(places: &mut [usize], at: usize, place: usize) {
    if at < places.len() {
        places[at] = place;
    }
}

impl Turns {
    /// So many places, none of which has a turn.
    pub(crate) fn new(alloc: Global, places: usize) -> Result<Turns, NoMemory> {
        Ok(Turns {
            now: 0,
            // One for each of the 64 bits, and the first for times that are the one at hand.
            firsts: vec![in alloc; NONE; 65]?,
            nexts: vec![in alloc; NONE; places]?,
        })
    }

    /// The list of a time.
    fn list(&self, time: u64) -> usize {
        64usize.saturating_sub((self.now ^ time).leading_zeros() as usize)
    }

    /// Gives a turn at the time to the place, which has none.
    pub(crate) fn put(&mut self, place: usize, time: u64) {
        let list = self.list(time);
        let next = get(self.firsts.as_slice(), list);
        set(self.nexts.as_mut_slice(), place, next);
        set(self.firsts.as_mut_slice(), list, place);
    }

    /// Goes on to a later time. Whose turn was before it has none any more.
    pub(crate) fn go_to(&mut self, dues: &[Due], time: u64) {
        let list = self.list(time);
        // Then it is the time at hand, and its places stand in the first list already.
        if list == 0 {
            return;
        }
        self.now = time;
        // The lists below have only what was due before that time. Where no run is missing, they are empty.
        let mut place = get(self.firsts.as_slice(), list);
        set(self.firsts.as_mut_slice(), list, NONE);
        for _ in 0..dues.len() {
            if place >= dues.len() {
                return;
            }
            let next = get(self.nexts.as_slice(), place);
            self.put(place, item_at(dues, place).time());
            place = next;
        }
    }

    /// A place whose turn it is. Then it has none any more.
    pub(crate) fn take(&mut self) -> Option<usize> {
        let place = get(self.firsts.as_slice(), 0);
        if place == NONE {
            return None;
        }
        let next = get(self.nexts.as_slice(), place);
        set(self.firsts.as_mut_slice(), 0, next);
        Some(place)
    }
}
