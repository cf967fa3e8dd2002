//! The full names of a program's things.

ghost use Rattle.std.specs.Prelude.{◌≡◌, ◌<◌, ◌∷◌, [], codes, map, length, string_bytes, IfOk, OnOk};
ghost use Rattle.lft_program.specs.inner.{Extended.{dotted, hashed, endings, name_after, extended, AreAfter}, FullNames.{AreFullNames, AreOfProgram, AreFew}};
ghost use Rattle.lft_ir.specs.{Names.{ThingNames, AreDistinct, AreWords}, inner.Names.HasNoTwice};

use lft_ir::{NameTable, Starts, Texts};
use lft_tag::NoMemory;
use std::alloc::Global;
use std::hash::{DefaultHasher, Hasher};

/// A thing that an instance declares under a name of its own: an instance, port, action or timer.
#[derive(Clone, Copy)]
pub struct OwnName<'a> {
    /// The number of the instance that declares it; of an instance, the one that contains it.
    pub instance: u32,
    /// Its name in that instance.
    pub name: &'a str,
}

/// A reaction of an instance.
#[derive(Clone, Copy)]
pub(crate) struct PlacedReaction {
    /// The number of the instance.
    pub(crate) instance: u32,
    /// Its place among the instance's reactions, in order of declaration, counted from 0.
    pub(crate) place: u32,
}

/// The name of a thing, after that of its instance.
fn dotted_name(alloc: Global, instances: &Texts, thing: &OwnName<'_>) -> Result<String, NoMemory>
    requires { thing.now.instance < length instances.now }
    ensures { IfOk result (λ r. string_bytes r ≡ name_after instances.now (dotted thing.now)) }
{
    let container = instances.get(thing.instance as usize);
    let name = thing.name;
    Ok(format!(in alloc; "{container}.{name}")?)
}

/// The name of a reaction, after that of its instance.
fn hashed_name(
    alloc: Global,
    instances: &Texts,
    reaction: &PlacedReaction,
) -> Result<String, NoMemory>
    requires { reaction.now.instance < length instances.now }
    ensures { IfOk result (λ r. string_bytes r ≡ name_after instances.now (hashed reaction.now)) }
{
    let container = instances.get(reaction.instance as usize);
    // Widened first, so that one more fits whatever the place is.
    let number = u64::from(reaction.place) + 1;
    Ok(format!(in alloc; "{container}#{number}")?)
}

/// Adds the names of these things, whose instances have their names there or come before them.
fn add_declared(alloc: Global, texts: &mut Texts, things: &[OwnName<'_>]) -> Result<(), NoMemory>
    requires after { AreAfter (length texts.old) (map dotted things.now) }
    requires distinct { HasNoTwice (extended texts.old (map dotted things.now)) }
    ensures { OnOk result (texts.new ≡ extended texts.old (map dotted things.now)) }
{
    for thing in things {
        texts.push_new(dotted_name(alloc, texts, thing)?)?;
    }
    Ok(())
}

/// Adds the names of these reactions, whose instances have their names there.
fn add_placed(
    alloc: Global,
    texts: &mut Texts,
    reactions: &[PlacedReaction],
) -> Result<(), NoMemory>
    requires after { AreAfter (length texts.old) (map hashed reactions.now) }
    requires distinct { HasNoTwice (extended texts.old (map hashed reactions.now)) }
    ensures { OnOk result (texts.new ≡ extended texts.old (map hashed reactions.now)) }
{
    for reaction in reactions {
        texts.push_new(hashed_name(alloc, texts, reaction)?)?;
    }
    Ok(())
}

/// The name of the main instance. The seed decides how the texts hash.
fn main_name(alloc: Global, seed: u64) -> Result<Texts, NoMemory>
    ensures { IfOk result (λ r. r ≡ codes "main" ∷ []) }
{
    let mut texts = Texts::new(alloc, seed);
    texts.push_new(String::from_str(alloc, "main")?)?;
    Ok(texts)
}

/// Goes on past the things' names and containers.
fn add_to_seed(hasher: &mut DefaultHasher, things: &[OwnName<'_>]) {
    for thing in things {
        hasher.write_u32(thing.instance);
        hasher.write(thing.name.as_bytes());
    }
}

/// A number that depends on all names: whoever looks for names whose hashes collide under it changes
/// it with each try.
fn seed_of(
    instances: &[OwnName<'_>],
    ports: &[OwnName<'_>],
    actions: &[OwnName<'_>],
    timers: &[OwnName<'_>],
) -> u64 {
    // Reactions are left out, as they have no names of their own.
    let mut hasher = DefaultHasher::new();
    add_to_seed(&mut hasher, instances);
    add_to_seed(&mut hasher, ports);
    add_to_seed(&mut hasher, actions);
    add_to_seed(&mut hasher, timers);
    hasher.finish()
}

/// The names of these things, one kind after another.
fn all_names(
    alloc: Global,
    instances: &[OwnName<'_>],
    ports: &[OwnName<'_>],
    actions: &[OwnName<'_>],
    timers: &[OwnName<'_>],
    reactions: &[PlacedReaction],
) -> Result<Texts, NoMemory>
    requires things { AreOfProgram instances.now ports.now actions.now timers.now reactions.now }
    requires few { AreFew instances.now ports.now actions.now timers.now reactions.now }
    ensures { IfOk result (λ r. r ≡ extended (codes "main" ∷ []) (endings instances.now ports.now actions.now timers.now reactions.now)) }
{
    let mut texts = main_name(alloc, seed_of(instances, ports, actions, timers))?;
    // The first is the main one, whose name stands there already.
    add_declared(alloc, &mut texts, &instances[1..])?;
    add_declared(alloc, &mut texts, ports)?;
    add_declared(alloc, &mut texts, actions)?;
    add_declared(alloc, &mut texts, timers)?;
    add_placed(alloc, &mut texts, reactions)?;
    Ok(texts)
}

/// The names of these things: `main` for the first instance, whatever its name and container say,
/// `main.a` for its instance a, `main.a.out` for that one's port, action or timer, `main.a#1` for
/// that one's first reaction. The things are numbered as they stand in the lists.
pub(crate) fn full_names(
    alloc: Global,
    instances: &[OwnName<'_>],
    ports: &[OwnName<'_>],
    actions: &[OwnName<'_>],
    timers: &[OwnName<'_>],
    reactions: &[PlacedReaction],
) -> Result<NameTable, NoMemory>
    requires things { AreOfProgram instances.now ports.now actions.now timers.now reactions.now }
    requires few { AreFew instances.now ports.now actions.now timers.now reactions.now }
    ensures names { IfOk result (AreFullNames instances.now ports.now actions.now timers.now reactions.now) }
    ensures one { IfOk result (λ r. (other : ThingNames) → AreFullNames instances.now ports.now actions.now timers.now reactions.now other → other ≡ r) }
    ensures distinct { IfOk result AreDistinct }
    ensures words { IfOk result AreWords }
{
    let texts = all_names(alloc, instances, ports, actions, timers, reactions)?;
    let first_action = instances.len() + ports.len();
    let first_timer = first_action + actions.len();
    // All kinds are within their limits, so the sums below fit 32 bits.
    let starts = Starts {
        ports: instances.len() as u32,
        actions: first_action as u32,
        timers: first_timer as u32,
        reactions: (first_timer + timers.len()) as u32,
    };
    Ok(NameTable::new(texts, starts))
}
