//! What a reaction becomes.

ghost use Rattle.std.specs.Prelude.{◌≡◌, ◌≢◌, ◌++◌, ◌⊎◌, [], ◌∷◌, None, Some, IfErr, IfOk, OnOk, flat_map, map, option_map, string_bytes};
ghost use Rattle.std.specs.List.{All};
ghost use Rattle.lft_tree.specs.{Identifiers.IsName, ItemView.{member_views, ref_views, trigger_view}, Tree.OnRef};
ghost use Rattle.lft_classes.specs.inner.Shapes.{thing_named};
ghost use Rattle.lft_elaborate.specs.inner.Refused.{IfRefused};
ghost use Rattle.lft_lower.specs.inner.Meanings.{Meanings.{here, token_in}, Refused.IsPassed, Standing.ref_tokens};
ghost use Rattle.lft_lower.specs.inner.Lowered.{Adds, AreTriggers, IsAsleep, IsLoweredReaction, MeansAll, MeansEffect, MeansTrigger, all_triggers, asleep, effect_places, trigger_places};
ghost use Rattle.lft_lower.specs.inner.Refused.{IsEffectRefused, IsOfTrigger};
ghost use Rattle.lft_lower.specs.inner.Standing.{AddsAt, all_trigger_tokens, reaction_tokens, tokens_of_effect, tokens_of_trigger, token_of_trigger};
ghost use Rattle.lft_whole.specs.declared.sources.stop.NoProgram.TheVariants.{NoMemory};

use crate::meanings::places::{Within, places, push_places};
use crate::meanings::room::Room;
use lft_classes::Shape;
use lft_tree::{Action, Member, Reaction, Reference, Trigger};
use lft_whole::sources::{NoProgram, Why};
use lft_whole::{Effect, Reaction as Written, Trigger as WrittenTrigger};
use std::alloc::Global;

/// The name of an action that has no events: no thing of the reactor has it.
fn never(alloc: Global, within: Within) -> Result<String, NoProgram>
    ensures free { IfOk result (λ name. thing_named within.entry.shape.now (string_bytes name) ≡ None) }
    ensures name { IfOk result (λ name. IsName (string_bytes name)) }
    ensures cause { IfErr result (IfRefused (IsPassed within.entry.settings.now.work.main)) }
{
    let shape = within.shape;
    let mut name = String::from_str(alloc, "never")?;
    let names = shape.members.len().saturating_add(shape.parameters.len());
    // One more try than the reactor has names, so one of them is free.
    for _ in 0..names.saturating_add(1) {
        if shape.find(name.as_str()).is_none() {
            return Ok(name);
        }
        name.push_str("_")?;
    }
    Err(within.settings.work.refused(Why::TooMuch))
}

/// Puts references at the end of a list of triggers.
fn push_references(list: &mut Vec<Trigger>, references: Vec<Reference>) -> Result<(), NoProgram>
    ensures places { OnOk result (map trigger_view list.new.items ≡ map trigger_view list.old.items ++ map OnRef (ref_views references.items)) }
    ensures at { OnOk result (flat_map token_of_trigger list.new.items ≡ flat_map token_of_trigger list.old.items ++ ref_tokens references.items) }
    ensures cause { IfErr result (λ stop. stop ≡ NoMemory) }
{
    for reference in references {
        list.push(Trigger::Reference(reference))?;
    }
    Ok(())
}

/// Puts the places of a trigger at the end of a list.
fn push_trigger(
    alloc: Global,
    room: &mut Room,
    within: Within,
    trigger: &WrittenTrigger,
    list: &mut Vec<Trigger>,
) -> Result<(), NoProgram>
    ensures places { OnOk result (map trigger_view list.new.items ≡ map trigger_view list.old.items ++ trigger_places (here within.entry) trigger.now) }
    ensures at { OnOk result (flat_map token_of_trigger list.new.items ≡ flat_map token_of_trigger list.old.items ++ tokens_of_trigger (token_in within.entry) (here within.entry) trigger.now) }
    ensures means { OnOk result (MeansTrigger (here within.entry) trigger.now) }
    ensures cause { IfErr result (IfRefused (λ r. IsPassed within.entry.settings.now.work.main r ⊎ IsOfTrigger (here within.entry) within.entry.file trigger.now r)) }
{
    match trigger {
        WrittenTrigger::Startup => list.push(Trigger::Startup)?,
        WrittenTrigger::Shutdown => list.push(Trigger::Shutdown)?,
        WrittenTrigger::Reset { at } => return Err(NoProgram::at(Why::Mode, within.file, *at)),
        WrittenTrigger::Reference(reference) => {
            let mut found = Vec::new(alloc);
            push_places(alloc, room, within, reference, &mut found)?;
            push_references(list, found)?;
        }
    }
    Ok(())
}

/// The triggers of a reaction.
fn triggers(
    alloc: Global,
    room: &mut Room,
    within: Within,
    reaction: &Written,
) -> Result<Vec<Trigger>, NoProgram>
    ensures places { IfOk result (λ list. map trigger_view list.items ≡ all_triggers (here within.entry) reaction.now) }
    ensures at { IfOk result (λ list. flat_map token_of_trigger list.items ≡ flat_map (tokens_of_trigger (token_in within.entry) (here within.entry)) reaction.now.triggers.items) }
    ensures some { OnOk result (reaction.now.triggers.items ≢ []) }
    ensures means { OnOk result (All (MeansTrigger (here within.entry)) reaction.now.triggers.items) }
{
    // Asked of what is written: triggers that have no place are no fault.
    if reaction.triggers.is_empty() {
        return Err(NoProgram::at(Why::NoTrigger, within.file, reaction.at));
    }
    let mut list = Vec::new(alloc);
    for place in 0..reaction.triggers.len() {
        push_trigger(alloc, room, within, &reaction.triggers[place], &mut list)?;
    }
    Ok(list)
}

/// Puts the places of an effect at the end of a list.
fn push_effect(
    alloc: Global,
    room: &mut Room,
    within: Within,
    effect: &Effect,
    list: &mut Vec<Reference>,
) -> Result<(), NoProgram>
    ensures places { OnOk result (ref_views list.new.items ≡ ref_views list.old.items ++ effect_places (here within.entry) effect.now) }
    ensures at { OnOk result (ref_tokens list.new.items ≡ ref_tokens list.old.items ++ tokens_of_effect (token_in within.entry) (here within.entry) effect.now) }
    ensures means { OnOk result (MeansEffect (here within.entry) effect.now) }
    ensures cause { IfErr result (IfRefused (λ r. IsPassed within.entry.settings.now.work.main r ⊎ IsEffectRefused (here within.entry) within.entry.file effect.now r)) }
{
    match effect {
        Effect::Mode { at } => Err(NoProgram::at(Why::Mode, within.file, *at)),
        Effect::Reference(reference) => { push_places(alloc, room, within, reference, list) }
    }
}

/// The effects of a reaction.
fn effects(
    alloc: Global,
    room: &mut Room,
    within: Within,
    reaction: &Written,
) -> Result<Vec<Reference>, NoProgram>
    ensures places { IfOk result (λ list. ref_views list.items ≡ flat_map (effect_places (here within.entry)) reaction.now.effects.items) }
    ensures at { IfOk result (λ list. ref_tokens list.items ≡ flat_map (tokens_of_effect (token_in within.entry) (here within.entry)) reaction.now.effects.items) }
    ensures means { OnOk result (All (MeansEffect (here within.entry)) reaction.now.effects.items) }
{
    let mut list = Vec::new(alloc);
    for place in 0..reaction.effects.len() {
        push_effect(alloc, room, within, &reaction.effects[place], &mut list)?;
    }
    Ok(list)
}

/// Puts a logical action, which nothing schedules, at the end of the members. Its name is that.
fn add_asleep(
    alloc: Global,
    room: &mut Room,
    within: Within,
    at: usize,
    list: &mut Vec<Member>,
) -> Result<String, NoProgram>
    ensures free { IfOk result (λ name. thing_named within.entry.shape.now (string_bytes name) ≡ None) }
    ensures name { IfOk result (λ name. IsName (string_bytes name)) }
    ensures added { IfOk result (λ name. member_views list.new.items ≡ member_views list.old.items ++ asleep (string_bytes name) ∷ []) }
    ensures at { OnOk result (AddsAt list.old.items list.new.items at (λ parts. flat_map (λ tokens. tokens) parts ≡ [])) }
    ensures cause { IfErr result (IfRefused (IsPassed within.entry.settings.now.work.main)) }
{
    let free = never(alloc, within)?;
    room.spend(free.len(), &within.settings.work)?;
    list.push(Member::Action(Action {
        name: free.clone()?,
        // A physical one could have events among the external inputs. A logical one has
        // those of its schedulings, and no reaction may schedule it.
        is_physical: false,
        min_delay: None,
        at,
    }))?;
    Ok(free)
}

/// The name of the action without events. If it isn't known yet, that is put at the end of the members.
fn asleep(
    alloc: Global,
    room: &mut Room,
    within: Within,
    at: usize,
    name: &mut Option<String>,
    list: &mut Vec<Member>,
) -> Result<String, NoProgram>
    ensures name { IfOk result (λ found. option_map string_bytes name.new ≡ Some (string_bytes found)) }
    ensures added { IfOk result (λ found. Adds list.old.items list.new.items (IsAsleep (here within.entry) (string_bytes found) (option_map string_bytes name.old))) }
    ensures at { OnOk result (AddsAt list.old.items list.new.items at (λ parts. flat_map (λ tokens. tokens) parts ≡ [])) }
    ensures cause { IfErr result (IfRefused (IsPassed within.entry.settings.now.work.main)) }
{
    if let Some(known) = name {
        let known = known.clone()?;
        return Ok(known);
    }
    let free = add_asleep(alloc, room, within, at, list)?;
    *name = Some(free.clone()?);
    Ok(free)
}

/// The triggers of a reaction. One whose triggers have no place never runs, and stands all the same between the
/// others.
fn some_triggers(
    alloc: Global,
    room: &mut Room,
    within: Within,
    reaction: &Written,
    never: &mut Option<String>,
    list: &mut Vec<Member>,
) -> Result<Vec<Trigger>, NoProgram>
    ensures means { OnOk result (All (MeansTrigger (here within.entry)) reaction.now.triggers.items) }
    ensures triggers { IfOk result (λ found. Adds list.old.items list.new.items (λ more. AreTriggers (here within.entry) reaction.now (option_map string_bytes never.old) more (option_map string_bytes never.new) (map trigger_view found.items))) }
    ensures tokens { IfOk result (λ found. flat_map token_of_trigger found.items ≡ all_trigger_tokens (token_in within.entry) (here within.entry) reaction.now) }
    ensures at { OnOk result (AddsAt list.old.items list.new.items (token_in within.entry reaction.now.at) (λ parts. flat_map (λ tokens. tokens) parts ≡ [])) }
{
    let mut triggers = triggers(alloc, room, within, reaction)?;
    let count = triggers.len();
    if count != 0 {
        return Ok(triggers);
    }
    let at = within.token(reaction.at);
    let head = asleep(alloc, room, within, at, never, list)?;
    room.spend(head.len(), &within.settings.work)?;
    triggers.push(Trigger::Reference(Reference {
        head,
        port: None,
        at,
    }))?;
    Ok(triggers)
}

/// Puts what a reaction becomes at the end of the members.
pub(crate) fn push_reaction(
    alloc: Global,
    room: &mut Room,
    within: Within,
    reaction: &Written,
    never: &mut Option<String>,
    list: &mut Vec<Member>,
) -> Result<(), NoProgram>
    ensures means { OnOk result (MeansAll (here within.entry) reaction.now) }
    ensures lowered { OnOk result (Adds list.old.items list.new.items (λ more. IsLoweredReaction (here within.entry) reaction.now (option_map string_bytes never.old) more (option_map string_bytes never.new))) }
    ensures at { OnOk result (AddsAt list.old.items list.new.items (token_in within.entry reaction.now.at) (λ parts. flat_map (λ tokens. tokens) parts ≡ reaction_tokens (token_in within.entry) (here within.entry) reaction.now)) }
{
    let triggers = some_triggers(alloc, room, within, reaction, never, list)?;
    let uses = places(alloc, room, within, &reaction.uses)?;
    let effects = effects(alloc, room, within, reaction)?;
    // It has no name to be counted, and each setting of its reactor has it anew. So it counts as 16 bytes.
    room.spend(16, &within.settings.work)?;
    let at = within.token(reaction.at);
    list.push(Member::Reaction(Reaction {
        triggers,
        uses,
        effects,
        at,
    }))?;
    Ok(())
}
