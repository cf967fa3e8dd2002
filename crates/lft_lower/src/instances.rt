//! What an instance becomes.

ghost use Rattle.std.specs.Prelude.{◌≡◌, ◌<◌, ◌≤◌, ◌++◌, [], ◌∷◌, Some, false, IfErr, IfOk, OnOk, flat_map, map, option_map, string_bytes, true, unwrap_or};
ghost use Rattle.std.specs.List.{All, cons_option};
ghost use Rattle.lft_tree.specs.ItemView.{assignment_view, member_views};
ghost use Rattle.lft_elaborate.specs.inner.Refused.{IfRefused};
ghost use Rattle.lft_lower.specs.inner.Meanings.{Meanings.{here, token_in}, Names.texts, Places.several, Refused.IsPassed};
ghost use Rattle.lft_lower.specs.inner.Lowered.{Adds, AreTimesGiven, AreInstances, IsGiven, given_times, instances, reactor_at, time_given};
ghost use Rattle.lft_lower.specs.inner.{Needed.{needed_given, needed_in, is_needed}, Refused.IsOfGiven};
ghost use Rattle.lft_lower.specs.inner.Standing.{AddsAt, given_token, given_tokens, instance_tokens, tokens_of_given};

use crate::copies::copied_given;
use crate::maker::Maker;
use crate::meanings::places::{Wide, Within, counted};
use crate::meanings::room::Room;
use crate::times::{bytes_of, read_time};
use lft_classes::{Child, GivenValue, Shape, Work};
use lft_tree::{Assignment, Instance, Member};
use lft_whole::Instance as Written;
use lft_whole::sources::{NoProgram, Why};
use std::alloc::{AllocError, Global};

/// Whether each instance of a shape has to give the parameter of this number: it is a time without a default.
fn is_needed(shape: &Shape, parameter: usize) -> bool
    ensures { result ≡ is_needed shape.now parameter }
{
    match shape.parameters.get(parameter) {
        Some(found) => found.parameter.default.is_none() && shape.is_timed(parameter),
        None => false,
    }
}

/// How many parameters each instance of a shape has to give.
fn count_needed(shape: &Shape) -> usize
    ensures { result ≡ needed_in shape.now }
{
    let mut count: usize = 0;
    for parameter in 0..shape.parameters.len() {
        if is_needed(shape, parameter) {
            count += 1;
        }
    }
    count
}

/// The same for each shape.
pub(crate) fn needed(alloc: Global, shapes: &[Shape]) -> Result<Vec<usize>, AllocError>
    ensures { IfOk result (λ counts. counts.items ≡ map needed_in shapes.now) }
{
    let mut counts = Vec::new(alloc);
    // Counted once for each reactor: an instance that gives little would
    // else go through all of its parameters.
    for place in 0..shapes.len() {
        let count = count_needed(&shapes[place]);
        counts.push(count)?;
    }
    Ok(counts)
}

/// Whether an instance gives so many parameters that it has to give.
fn gives_needed(inner: &Shape, child: &Child, needed: usize) -> bool
    ensures few { result ≡ false → needed_given inner.now child.now < needed }
    ensures enough { result ≡ true → needed ≤ needed_given inner.now child.now }
{
    let mut count: usize = 0;
    // None is given twice, so as many as are needed are all of them.
    for place in 0..child.given.len() {
        if is_needed(inner, child.given[place].parameter) {
            count += 1;
        }
    }
    count >= needed
}

/// The time that an instance gives to a parameter, if times are read from that one.
fn assigned(
    alloc: Global,
    within: Within,
    inner: &Shape,
    given: GivenValue,
) -> Result<Option<Assignment>, NoProgram>
    ensures made { IfOk result (λ made. option_map assignment_view made ≡ time_given inner.now given.entry) }
    ensures at { IfOk result (λ made. unwrap_or (option_map given_tokens made) [] ≡ given_token (token_in within.entry) inner.now given.entry) }
    ensures read { OnOk result (IsGiven within.entry.shape.now inner.now given.entry) }
    ensures cause { IfErr result (IfRefused (IsOfGiven within.entry.shape.now within.entry.file inner.now given.entry)) }
{
    // No time is read from it, so its value may be of any type, and isn't looked at.
    if !inner.is_timed(given.parameter) {
        return Ok(None);
    }
    let Some(found) = inner.parameters.get(given.parameter) else {
        return Err(NoProgram::at(Why::MissingTime, within.file, given.value.at));
    };
    let value = read_time(alloc, within, given.value)?;
    Ok(Some(Assignment {
        name: found.parameter.name.text.clone()?,
        value,
        at: within.token(given.value.at),
    }))
}

/// Puts what a parameter is given at the end of a list, if it is given something.
fn push_given(list: &mut Vec<Assignment>, made: Option<Assignment>) -> Result<(), AllocError>
    ensures given { OnOk result (map assignment_view list.new.items ≡ map assignment_view list.old.items ++ cons_option (option_map assignment_view made) []) }
    ensures at { OnOk result (flat_map given_tokens list.new.items ≡ flat_map given_tokens list.old.items ++ unwrap_or (option_map given_tokens made) []) }
{
    if let Some(assignment) = made {
        list.push(assignment)?;
    }
    Ok(())
}

/// The times that an instance gives to the parameters of its reactor that need them.
fn given_times(
    alloc: Global,
    within: Within,
    inner: &Shape,
    child: &Child,
) -> Result<Vec<Assignment>, NoProgram>
    ensures given { IfOk result (λ list. map assignment_view list.items ≡ given_times inner.now child.now) }
    ensures at { IfOk result (λ list. flat_map given_tokens list.items ≡ flat_map (given_token (token_in within.entry) inner.now) child.now.given.items) }
    ensures read { OnOk result (All (IsGiven within.entry.shape.now inner.now) child.now.given.items) }
{
    let mut list = Vec::new(alloc);
    for place in 0..child.given.len() {
        let given = child.given[place];
        let made = assigned(alloc, within, inner, given)?;
        push_given(&mut list, made)?;
    }
    Ok(list)
}

/// What an instance gives, where it gives all that it has to.
fn checked(
    maker: Maker,
    within: Within,
    member: usize,
    at: usize,
) -> Result<Vec<Assignment>, NoProgram>
    ensures given { maker.entry.settings.now ≡ within.entry.settings.now → IfOk result (λ given. AreTimesGiven (here within.entry) member (map assignment_view given.items)) }
    ensures at { IfOk result (λ given. flat_map given_tokens given.items ≡ tokens_of_given (token_in within.entry) (here within.entry) member) }
{
    // Neither of these refusals comes: an instance has a child, and that a shape.
    let Some(child) = within.shape.child(member) else {
        return Err(within.settings.work.refused(Why::TooMuch));
    };
    let Some(inner) = within.inner_shape(member) else {
        return Err(within.settings.work.refused(Why::TooMuch));
    };
    let needed = maker.needed_of(child.shape);
    if !gives_needed(inner, child, needed) {
        return Err(NoProgram::at(Why::MissingTime, within.file, at));
    }
    let given = given_times(maker.alloc, within, inner, child)?;
    Ok(given)
}

/// The name of the core reactor of the instance of this number.
fn reactor_of<'n>(maker: Maker<'n, '_>, within: Within, member: usize) -> Result<&'n str, NoProgram>
    ensures name { IfOk result (λ name. reactor_at (texts maker.entry.names.now) (here within.entry) member ≡ Some name.now) }
    ensures cause { IfErr result (IfRefused (IsPassed within.entry.settings.now.work.main)) }
{
    let name = match within.settings.known_inside(within.setting, member) {
        Some(inner) => maker.name(inner),
        None => None,
    };
    match name {
        Some(name) => Ok(name),
        // This doesn't come: what is in each instance was found when it was counted.
        None => Err(within.settings.work.refused(Why::TooMuch)),
    }
}

/// How many bytes what an instance gives takes at least, when it is written.
fn bytes_of_given(given: &[Assignment]) -> usize {
    let mut bytes: usize = 0;
    for assignment in given {
        bytes = bytes
            .saturating_add(assignment.name.len())
            .saturating_add(bytes_of(&assignment.value));
    }
    bytes
}

/// Puts an instance of a core reactor for each name at the end of the members.
fn push_each(
    alloc: Global,
    room: &mut Room,
    work: &Work,
    members: Wide,
    reactor: &str,
    given: &[Assignment],
    at: usize,
    reactor_at: usize,
    list: &mut Vec<Member>,
) -> Result<(), NoProgram>
    ensures cause { IfErr result (IfRefused (IsPassed work.now.main)) }
    ensures made { OnOk result (member_views list.new.items ≡ member_views list.old.items ++ instances (several members.entry) reactor.now (map assignment_view given.now)) }
    ensures at { OnOk result (AddsAt list.old.items list.new.items at (All (λ tokens. tokens ≡ reactor_at ∷ flat_map given_tokens given.now))) }
{
    let bytes = reactor.len().saturating_add(bytes_of_given(given));
    for number in 0..members.count() {
        // Each member of the bank has copies of all this, so a long name and a great width are a product.
        room.spend(bytes, work)?;
        list.push(Member::Instance(Instance {
            name: counted(alloc, room, work, members.at(number))?,
            reactor: String::from_str(alloc, reactor)?,
            given: copied_given(alloc, given)?,
            at,
            reactor_at,
        }))?;
    }
    Ok(())
}

/// Puts what an instance becomes at the end of the members: one instance, or those of its bank.
pub(crate) fn push_instances(
    maker: Maker,
    room: &mut Room,
    within: Within,
    member: usize,
    instance: &Written,
    list: &mut Vec<Member>,
) -> Result<(), NoProgram>
    ensures made { maker.entry.settings.now ≡ within.entry.settings.now → OnOk result (Adds list.old.items list.new.items (AreInstances (texts maker.entry.names.now) (here within.entry) member (string_bytes instance.now.name.text))) }
    ensures at { OnOk result (AddsAt list.old.items list.new.items (token_in within.entry instance.now.name.at) (All (λ tokens. tokens ≡ instance_tokens (token_in within.entry) (here within.entry) member instance.now))) }
{
    let members = within.named(&instance.name, member);
    // The reactor of such a bank may have no setting, and so no name.
    if members.count() == 0 {
        return Ok(());
    }
    let reactor = reactor_of(maker, within, member)?;
    let given = checked(maker, within, member, instance.name.at)?;
    let at = within.token(instance.name.at);
    let reactor_at = within.token(instance.reactor.at);
    push_each(
        maker.alloc,
        room,
        &within.settings.work,
        members,
        reactor,
        &given,
        at,
        reactor_at,
        list,
    )?;
    Ok(())
}
