//! What a connection becomes.

ghost use Rattle.std.specs.Prelude.{◌≡◌, ◌⊎◌, ◌∷◌, IfErr, IfOk, IsTrue, OnOk, false, option_map, true};
ghost use Rattle.lft_tree.specs.ItemView.{connection_view, ref_view, ref_views, time_view};
ghost use Rattle.lft_elaborate.specs.inner.{Channels.Lowered.single, Refused.IfRefused};
ghost use Rattle.lft_lower.specs.inner.Meanings.{Meanings.{all_places, here, token_in}, Standing.{all_tokens, ref_tokens}, Refused.{IsOfOne, IsPassed}};
ghost use Rattle.lft_lower.specs.inner.{Lowered.{Adds, AreSides, AreConnected, AreEach, IsRead, MeanSides, time_at}, Refused.{IsOfConnection, IsOfSides}};
ghost use Rattle.lft_lower.specs.inner.Standing.{AddsAt, AreSidesAt, pairs_tokens, parts_at, time_tokens, written_tokens};
ghost use Rattle.lft_whole.specs.declared.sources.stop.NoProgram.TheVariants.{NoMemory};
ghost use Rattle.lft_tree.specs.declared.tree.Member.TheVariants as kinds;

use crate::copies::{copied_reference, copied_time};
use crate::meanings::notes::Notes;
use crate::meanings::places::{Within, count, some_places};
use crate::meanings::room::Room;
use crate::times::{bytes_of, maybe_time};
use lft_classes::Work;
use lft_elaborate::channels::{joined, source};
use lft_tree::{Connection, Member, Reference, TimeExpression};
use lft_whole::Connection as Written;
use lft_whole::sources::{NoProgram, Why};
use std::alloc::Global;

/// How many places a connection has on each side.
#[derive(Clone, Copy)]
struct Sides {
    left: usize,
    right: usize,
}

impl Sides {
    fn of(within: Within, connection: &Written) -> Result<Sides, NoProgram>
        ensures sides { IfOk result (AreSides (here within.entry) connection.now) }
        ensures mean { OnOk result (MeanSides (here within.entry) connection.now) }
        ensures cause { IfErr result (IfRefused (λ r. IsPassed within.entry.settings.now.work.main r ⊎ IsOfSides (here within.entry) within.entry.file connection.now r)) }
    {
        let left = count(within, &connection.sources)?;
        let right = count(within, &connection.destinations)?;
        Ok(Sides { left, right })
    }

    /// What is said of sides that differ.
    fn note(self, notes: &mut Notes, within: Within, connection: &Written) -> Result<(), NoProgram>
        ensures { IfErr result (λ stop. stop ≡ NoMemory) }
    {
        let (left, right) = (self.left as u64, self.right as u64);
        // A broadcast without sources joins nothing. Of it is said that the sides differ: nothing is divided by 0.
        if connection.is_broadcast && left != 0 {
            if right % left != 0 {
                notes.divide(within.file, connection.at, left, right)?;
            }
        } else if left != right {
            notes.differ(within.file, connection.at, left, right)?;
        }
        Ok(())
    }
}

/// Whether none of the references has a width in it.
fn are_plain(within: Within, references: &[lft_whole::Reference]) -> Result<bool, NoProgram>
    ensures { IfErr result (IfRefused (IsOfOne (here within.entry) within.entry.file references.now)) }
{
    for reference in references {
        if within.is_wide(within.meaning(reference)?) {
            return Ok(false);
        }
    }
    Ok(true)
}

/// Whether a connection stays as it is: no part of it has a width, and of its places none is left over.
fn stays(within: Within, connection: &Written, sides: Sides) -> Result<bool, NoProgram>
    ensures plain { IfOk result (λ yes. IsTrue yes → (connection.now.is_broadcast ≡ false) × (sides.left ≡ sides.right)) }
    ensures cause { IfErr result (IfRefused (IsOfSides (here within.entry) within.entry.file connection.now)) }
{
    // A core connection has a reference on each side, so one without places can't stay.
    if connection.is_broadcast || sides.left != sides.right || sides.left == 0 {
        return Ok(false);
    }
    if !are_plain(within, &connection.sources)? {
        return Ok(false);
    }
    are_plain(within, &connection.destinations)
}

/// How many bytes a reference takes at least, when it is written.
fn bytes_of_reference(reference: &Reference) -> usize {
    let port = match &reference.port {
        Some(port) => port.len(),
        None => 0,
    };
    reference.head.len().saturating_add(port)
}

/// How many bytes a delay takes at least, when it is written.
fn bytes_of_delay(delay: &Option<TimeExpression>) -> usize {
    match delay {
        // The 6 are the word `after` and a blank.
        Some(time) => bytes_of(time).saturating_add(6),
        None => 0,
    }
}

/// The connection of one place to another.
fn connected(
    alloc: Global,
    from: &Reference,
    to: &Reference,
    delay: &Option<TimeExpression>,
    arrow: usize,
) -> Result<Connection, NoProgram>
    ensures made { IfOk result (λ made. connection_view made ≡ single (option_map time_view delay.now) (ref_view from.now) (ref_view to.now)) }
    ensures arrow { IfOk result (λ made. made.arrow ≡ arrow) }
    ensures parts { IfOk result (λ made. parts_at (kinds.Connection made) ≡ from.now.at ∷ to.now.at ∷ time_tokens delay.now) }
    ensures cause { IfErr result (λ stop. stop ≡ NoMemory) }
{
    let mut sources = Vec::new(alloc);
    sources.push(copied_reference(from)?)?;
    let mut destinations = Vec::new(alloc);
    destinations.push(copied_reference(to)?)?;
    Ok(Connection {
        sources,
        destinations,
        delay: copied_time(delay)?,
        arrow,
    })
}

/// Puts a connection for each destination at the end of a list: of the sources over and over, if there are
/// fewer. What is counted already is each place once.
fn push_pairs(
    alloc: Global,
    room: &mut Room,
    work: &Work,
    sources: &[Reference],
    destinations: &[Reference],
    delay: &Option<TimeExpression>,
    arrow: usize,
    list: &mut Vec<Member>,
) -> Result<(), NoProgram>
    ensures made { OnOk result (Adds list.old.items list.new.items (AreEach (ref_views sources.now) (ref_views destinations.now) true (option_map time_view delay.now))) }
    ensures at { OnOk result (AddsAt list.old.items list.new.items arrow (λ parts. parts ≡ pairs_tokens (ref_tokens sources.now) (ref_tokens destinations.now) true (time_tokens delay.now))) }
    ensures cause { IfErr result (IfRefused (IsPassed work.now.main)) }
{
    let right = destinations.len();
    // A plain connection comes with as many sources as destinations, so it is joined like a broadcast.
    let pairs = joined(sources.len(), right, true);
    for pair in 0..pairs {
        let place = source(sources.len(), right, true, pair);
        let from = &sources[place];
        let to = &destinations[pair];
        if pair >= sources.len() {
            room.spend(bytes_of_reference(from), work)?;
        }
        // Each pair has a copy of the delay, and that may be a parameter with a long name.
        room.spend(bytes_of_delay(delay), work)?;
        let connection = connected(alloc, from, to, delay, arrow)?;
        list.push(Member::Connection(connection))?;
    }
    Ok(())
}

/// Puts the connections between two sides at the end of a list, of which so many pairs are joined.
fn push_sides(
    alloc: Global,
    room: &mut Room,
    within: Within,
    connection: &Written,
    sides: Sides,
    delay: Option<TimeExpression>,
    list: &mut Vec<Member>,
) -> Result<(), NoProgram>
    requires { AreSides (here within) connection.now sides }
    ensures made { OnOk result (Adds list.old.items list.new.items (AreConnected (all_places (here within.entry) connection.now.sources.items) (all_places (here within.entry) connection.now.destinations.items) connection.now.is_broadcast (option_map time_view delay))) }
    ensures at { OnOk result (AddsAt list.old.items list.new.items (token_in within.entry connection.now.arrow) (AreSidesAt (all_tokens (token_in within.entry) (here within.entry) connection.now.sources.items) (all_tokens (token_in within.entry) (here within.entry) connection.now.destinations.items) connection.now.is_broadcast (time_tokens delay))) }
    ensures cause { IfErr result (IfRefused (λ r. IsPassed within.entry.settings.now.work.main r ⊎ IsOfSides (here within.entry) within.entry.file connection.now r)) }
{
    let arrow = within.token(connection.arrow);
    let pairs = joined(sides.left, sides.right, connection.is_broadcast);
    // A place that is joined with nothing isn't made: one side may be far wider than the other.
    let most = pairs.min(sides.left);
    let sources = some_places(alloc, room, within, &connection.sources, most)?;
    let destinations = some_places(alloc, room, within, &connection.destinations, pairs)?;
    // Kept whole where it can be: so a program without widths has the connections of its text.
    let is_whole = stays(within, connection, sides)?;
    if is_whole {
        list.push(Member::Connection(Connection {
            sources,
            destinations,
            delay,
            arrow,
        }))?;
        return Ok(());
    }
    push_pairs(
        alloc,
        room,
        &within.settings.work,
        &sources,
        &destinations,
        &delay,
        arrow,
        list,
    )?;
    Ok(())
}

/// Puts what a connection becomes at the end of a list: itself if no width is in it, else one connection a pair.
pub(crate) fn push_connection(
    alloc: Global,
    room: &mut Room,
    notes: &mut Notes,
    within: Within,
    connection: &Written,
    list: &mut Vec<Member>,
) -> Result<(), NoProgram>
    ensures logical { OnOk result (connection.now.is_physical ≡ false) }
    ensures mean { OnOk result (MeanSides (here within.entry) connection.now) }
    ensures read { OnOk result (IsRead within.entry.shape.now connection.now.delay) }
    ensures joined { OnOk result (Adds list.old.items list.new.items (AreConnected (all_places (here within.entry) connection.now.sources.items) (all_places (here within.entry) connection.now.destinations.items) connection.now.is_broadcast (time_at connection.now.delay))) }
    ensures at { OnOk result (AddsAt list.old.items list.new.items (token_in within.entry connection.now.arrow) (AreSidesAt (all_tokens (token_in within.entry) (here within.entry) connection.now.sources.items) (all_tokens (token_in within.entry) (here within.entry) connection.now.destinations.items) connection.now.is_broadcast (written_tokens (token_in within.entry) connection.now.delay))) }
    ensures cause { IfErr result (IfRefused (λ r. IsPassed within.entry.settings.now.work.main r ⊎ IsOfConnection (here within.entry) within.entry.file connection.now r)) }
{
    if connection.is_physical {
        return Err(NoProgram::at(Why::PhysicalConnection, within.file, connection.arrow));
    }
    let delay = maybe_time(alloc, within, &connection.delay)?;
    let sides = Sides::of(within, connection)?;
    sides.note(notes, within, connection)?;
    push_sides(alloc, room, within, connection, sides, delay, list)?;
    Ok(())
}
