//! What a reactor becomes in a setting.

ghost use Rattle.std.specs.Prelude.{◌≡◌, ◌++◌, ◌⊎◌, ℕ, [], ◌∷◌, Some, IfErr, IfOk, OnOk, false, filter_map, length, map, option_map, string_bytes, true};
ghost use Rattle.std.specs.List.{cons_option};
ghost use Rattle.lft_tree.specs.ItemView.{action_view, item_view, member_views, parameter_view, reactor_view, time_view, timer_view};
ghost use Rattle.lft_tree.specs.Tree.{ActionMember, TimerMember};
ghost use Rattle.lft_lower.specs.inner.Meanings.{Meanings.{here, token_in}, Names.texts, Places.several, Refused.IsPassed};
ghost use Rattle.lft_lower.specs.inner.Lowered.{Adds, IsLowered, IsMeasured, IsPeriod, IsRead, action_tree, is_spaced, period_at, ports, timer_tree};
ghost use Rattle.lft_lower.specs.inner.Refused.{IsOfAction, IsOfDefault, IsOfParameter, IsOfPeriod, IsOfTimer};
ghost use Rattle.lft_lower.specs.inner.Reactors.{AreMembers, AreReactors, HasDefault, IsDefault, IsReactor, default_time, timed_parameter, timed_parameters};
ghost use Rattle.lft_lower.specs.inner.Standing.{AddsAt, StandAtTokens, ArePartsAt, ArePlaced, IsPlaced, declared_at, head_at, parameter_token, period_tokens, time_tokens, written_tokens};
ghost use Rattle.lft_elaborate.specs.{Channels.Channels.below, inner.Refused.IfRefused};

use crate::connections::push_connection;
use crate::instances::push_instances;
use crate::maker::Maker;
use crate::meanings::notes::Notes;
use crate::meanings::places::{Wide, Within, counted};
use crate::meanings::room::Room;
use crate::reactions::push_reaction;
use crate::times::{is_forever, is_zero, maybe_time, read_time, written};
use lft_classes::{Inherited, InheritedParameter, Shape, Work, why_of};
use lft_lists::item_at;
use lft_tree::{Action, Item, Member, Parameter, Port, Reactor, Time, TimeExpression, Timer};
use lft_whole::sources::{NoProgram, Why};
use lft_whole::{
    Action as WrittenAction, Expression, Member as Written, Name, Reactor as WrittenReactor,
    Timer as WrittenTimer, WrittenValue,
};
use std::alloc::{AllocError, Global};

/// The default of a time that is needed. One that each instance has to give is 0, which is never read.
fn default(inherited: InheritedParameter, is_main: bool) -> Result<Time, NoProgram>
    ensures time { IfOk result (λ time. default_time inherited.entry.parameter.now.default ≡ Some time) }
    ensures known { OnOk result ((inherited.entry.parameter.now.is_time ≡ true) × IsDefault is_main inherited.entry.parameter.now.default) }
    ensures cause { IfErr result (IfRefused (IsOfDefault is_main inherited.entry)) }
{
    let InheritedParameter { file, parameter } = inherited;
    let at = parameter.name.at;
    if !parameter.is_time {
        return Err(NoProgram::at(Why::StandsForTime, file, at));
    }
    let Some(value) = &parameter.default else {
        return if is_main {
            Err(NoProgram::at(Why::MissingInMain, file, at))
        } else {
            Ok(Time {
                count: 0,
                unit: None,
            })
        };
    };
    match &value.value {
        // Told apart from what is no time at all, since what to write in its place is another thing.
        WrittenValue::Word(_) => Err(NoProgram::at(Why::DefaultByName, file, value.at)),
        _ => written(file, value),
    }
}

/// The parameter of this number, if a time is read from it.
fn timed(
    maker: Maker,
    room: &mut Room,
    shape: &Shape,
    is_main: bool,
    number: usize,
) -> Result<Option<Parameter>, NoProgram>
    ensures made { IfOk result (λ made. option_map parameter_view made ≡ timed_parameter shape.now number) }
    ensures at { IfOk result (λ made. option_map (λ p. p.at) made ≡ parameter_token maker.entry.files.now shape.now number) }
    ensures known { OnOk result (HasDefault is_main shape.now number) }
    ensures cause { IfErr result (IfRefused (λ r. IsPassed maker.entry.settings.now.work.main r ⊎ IsOfParameter is_main shape.now number r)) }
{
    if !shape.is_timed(number) {
        return Ok(None);
    }
    let Some(inherited) = shape.parameters.get(number) else {
        return Ok(None);
    };
    let default = default(*inherited, is_main)?;
    let Name { text, at, .. } = &inherited.parameter.name;
    room.spend(text.len(), &maker.settings.work)?;
    Ok(Some(Parameter {
        name: text.clone()?,
        default,
        at: maker.token(inherited.file, *at),
    }))
}

/// Puts a parameter at the end of a list, if there is one.
fn push_parameter(list: &mut Vec<Parameter>, made: Option<Parameter>) -> Result<(), AllocError>
    ensures made { OnOk result (map parameter_view list.new.items ≡ map parameter_view list.old.items ++ cons_option (option_map parameter_view made) []) }
    ensures at { OnOk result (map (λ p. p.at) list.new.items ≡ map (λ p. p.at) list.old.items ++ cons_option (option_map (λ p. p.at) made) []) }
{
    if let Some(parameter) = made {
        list.push(parameter)?;
    }
    Ok(())
}

/// The parameters that are needed as times.
fn parameters(
    maker: Maker,
    room: &mut Room,
    shape: &Shape,
    is_main: bool,
) -> Result<Vec<Parameter>, NoProgram>
    ensures made { IfOk result (λ list. map parameter_view list.items ≡ timed_parameters shape.now) }
    ensures at { IfOk result (λ list. map (λ p. p.at) list.items ≡ filter_map (parameter_token maker.entry.files.now shape.now) (below (length shape.now.parameters.items))) }
    ensures known { OnOk result ((number : ℕ) → HasDefault is_main shape.now number) }
    ensures cause { IfErr result (IfRefused (λ r. IsPassed maker.entry.settings.now.work.main r ⊎ ((number : ℕ) × IsOfParameter is_main shape.now number r))) }
{
    let mut list = Vec::new(maker.alloc);
    for number in 0..shape.parameters.len() {
        let made = timed(maker, room, shape, is_main, number)?;
        push_parameter(&mut list, made)?;
    }
    Ok(list)
}

/// The period of a timer, which has none where it is `forever`.
fn period(
    alloc: Global,
    within: Within,
    value: &Option<Expression>,
) -> Result<Option<TimeExpression>, NoProgram>
    ensures time { IfOk result (λ time. option_map time_view time ≡ period_at value.now) }
    ensures at { IfOk result (λ time. time_tokens time ≡ period_tokens (token_in within.entry) value.now) }
    ensures read { OnOk result (IsPeriod within.entry.shape.now value.now) }
    ensures cause { IfErr result (IfRefused (IsOfPeriod within.entry.shape.now within.entry.file value.now)) }
{
    match value {
        Some(period) => {
            // Asked first, as `read_time` would look for a parameter of this name.
            if is_forever(period) {
                return Ok(None);
            }
            Ok(Some(read_time(alloc, within, period)?))
        }
        None => Ok(None),
    }
}

/// What a timer becomes.
fn lowered_timer(alloc: Global, within: Within, timer: &WrittenTimer) -> Result<Timer, NoProgram>
    ensures made { IfOk result (λ made. timer_view made ≡ timer_tree timer.now) }
    ensures at { IfOk result (λ made. made.at ≡ token_in within.entry timer.now.name.at) }
    ensures times { IfOk result (λ made. time_tokens made.offset ++ time_tokens made.period ≡ written_tokens (token_in within.entry) timer.now.offset ++ period_tokens (token_in within.entry) timer.now.period) }
    ensures read { OnOk result (IsRead within.entry.shape.now timer.now.offset × IsPeriod within.entry.shape.now timer.now.period) }
    ensures cause { IfErr result (IfRefused (IsOfTimer within.entry.shape.now within.entry.file timer.now)) }
{
    Ok(Timer {
        name: timer.name.text.clone()?,
        offset: maybe_time(alloc, within, &timer.offset)?,
        period: period(alloc, within, &timer.period)?,
        at: within.token(timer.name.at),
    })
}

/// What an action becomes. A least spacing of a logical one is refused, unless it is 0.
fn lowered_action(
    alloc: Global,
    within: Within,
    action: &WrittenAction,
) -> Result<Action, NoProgram>
    ensures made { IfOk result (λ made. action_view made ≡ action_tree action.now) }
    ensures at { IfOk result (λ made. made.at ≡ token_in within.entry action.now.name.at) }
    ensures times { IfOk result (λ made. time_tokens made.min_delay ≡ written_tokens (token_in within.entry) action.now.min_delay) }
    ensures read { OnOk result (IsRead within.entry.shape.now action.now.min_delay) }
    ensures spacing { OnOk result (is_spaced action.now ≡ false) }
    ensures cause { IfErr result (IfRefused (IsOfAction within.entry.shape.now within.entry.file action.now)) }
{
    // A spacing moves or drops events. Those of a physical action come with
    // the tags that the runtime gave them.
    if let Some(spacing) = &action.spacing
        && !action.is_physical
        && !is_zero(spacing)
    {
        return Err(NoProgram::at(Why::Spacing, within.file, spacing.at));
    }
    Ok(Action {
        name: action.name.text.clone()?,
        is_physical: action.is_physical,
        min_delay: maybe_time(alloc, within, &action.min_delay)?,
        at: within.token(action.name.at),
    })
}

/// Puts the channels of a port at the end of the members.
fn push_ports(
    alloc: Global,
    room: &mut Room,
    work: &Work,
    channels: Wide,
    is_input: bool,
    at: usize,
    list: &mut Vec<Member>,
) -> Result<(), NoProgram>
    ensures made { OnOk result (member_views list.new.items ≡ member_views list.old.items ++ ports (several channels.entry) is_input) }
    ensures at { OnOk result (AddsAt list.old.items list.new.items at (λ parts. Unit {0})) }
    ensures cause { IfErr result (IfRefused (IsPassed work.now.main)) }
{
    for number in 0..channels.count() {
        list.push(Member::Port(Port {
            name: counted(alloc, room, work, channels.at(number))?,
            is_input,
            at,
        }))?;
    }
    Ok(())
}

/// Puts a timer at the end of the members.
fn push_timer(
    alloc: Global,
    room: &mut Room,
    within: Within,
    timer: &WrittenTimer,
    list: &mut Vec<Member>,
) -> Result<(), NoProgram>
    ensures made { OnOk result (member_views list.new.items ≡ member_views list.old.items ++ TimerMember (timer_tree timer.now) ∷ []) }
    ensures at { OnOk result (AddsAt list.old.items list.new.items (token_in within.entry timer.now.name.at) (λ parts. parts ≡ (written_tokens (token_in within.entry) timer.now.offset ++ period_tokens (token_in within.entry) timer.now.period) ∷ [])) }
    ensures read { OnOk result (IsRead within.entry.shape.now timer.now.offset × IsPeriod within.entry.shape.now timer.now.period) }
    ensures cause { IfErr result (IfRefused (λ r. IsPassed within.entry.settings.now.work.main r ⊎ IsOfTimer within.entry.shape.now within.entry.file timer.now r)) }
{
    room.spend(timer.name.text.len(), &within.settings.work)?;
    list.push(Member::Timer(lowered_timer(alloc, within, timer)?))?;
    Ok(())
}

/// Puts an action at the end of the members.
fn push_action(
    alloc: Global,
    room: &mut Room,
    within: Within,
    action: &WrittenAction,
    list: &mut Vec<Member>,
) -> Result<(), NoProgram>
    ensures made { OnOk result (member_views list.new.items ≡ member_views list.old.items ++ ActionMember (action_tree action.now) ∷ []) }
    ensures at { OnOk result (AddsAt list.old.items list.new.items (token_in within.entry action.now.name.at) (λ parts. parts ≡ written_tokens (token_in within.entry) action.now.min_delay ∷ [])) }
    ensures read { OnOk result (IsRead within.entry.shape.now action.now.min_delay) }
    ensures spacing { OnOk result (is_spaced action.now ≡ false) }
    ensures cause { IfErr result (IfRefused (λ r. IsPassed within.entry.settings.now.work.main r ⊎ IsOfAction within.entry.shape.now within.entry.file action.now r)) }
{
    room.spend(action.name.text.len(), &within.settings.work)?;
    list.push(Member::Action(lowered_action(alloc, within, action)?))?;
    Ok(())
}

/// Puts what the member of this number becomes at the end of the members.
fn push_member(
    maker: Maker,
    room: &mut Room,
    notes: &mut Notes,
    within: Within,
    number: usize,
    member: &Written,
    never: &mut Option<String>,
    list: &mut Vec<Member>,
) -> Result<(), NoProgram>
    ensures made { maker.entry.settings.now ≡ within.entry.settings.now → OnOk result (Adds list.old.items list.new.items (λ more. IsLowered (texts maker.entry.names.now) (here within.entry) number (option_map string_bytes never.old) more (option_map string_bytes never.new) member.now)) }
    ensures at { OnOk result (AddsAt list.old.items list.new.items (token_in within.entry (declared_at member.now)) (ArePartsAt (token_in within.entry) (here within.entry) number member.now)) }
{
    let alloc = maker.alloc;
    match member {
        Written::Port(port) => {
            let channels = within.named(&port.name, number);
            let at = within.token(port.name.at);
            push_ports(
                alloc,
                room,
                &within.settings.work,
                channels,
                port.is_input,
                at,
                list,
            )?;
            Ok(())
        }
        Written::Timer(timer) => {
            push_timer(alloc, room, within, timer, list)?;
            Ok(())
        }
        Written::Action(action) => {
            push_action(alloc, room, within, action, list)?;
            Ok(())
        }
        Written::Reaction(reaction) => {
            push_reaction(alloc, room, within, reaction, never, list)?;
            Ok(())
        }
        Written::Instance(instance) => {
            push_instances(maker, room, within, number, instance, list)?;
            Ok(())
        }
        Written::Connection(connection) => {
            push_connection(alloc, room, notes, within, connection, list)?;
            Ok(())
        }
        // Such a member is refused before a setting is made.
        Written::Foreign { what, at } => Err(NoProgram::at(why_of(*what), within.file, *at)),
    }
}

/// Refuses a member whose width is written and isn't known. There is none.
fn check_width(within: Within, number: usize, inherited: Inherited) -> Result<(), NoProgram>
    ensures known { OnOk result (IsMeasured (here within.entry) number inherited.entry.member.now) }
    ensures cause { IfErr result (IfRefused (IsPassed within.entry.settings.now.work.main)) }
{
    if inherited.width().is_some() && within.settings.known(within.setting, number).is_none() {
        return Err(within.settings.work.refused(Why::TooMuch));
    }
    Ok(())
}

/// The members of the reactor of a setting.
fn members<'s, 'a>(
    maker: Maker<'s, 'a>,
    room: &mut Room,
    notes: &mut Notes,
    setting: usize,
    shape: &'s Shape<'a>,
) -> Result<Vec<Member>, NoProgram>
    ensures made { IfOk result (λ list. AreMembers maker.entry.settings.now (texts maker.entry.names.now) setting shape.now (member_views list.items)) }
    ensures at { IfOk result (λ list. StandAtTokens maker.entry.files.now (record { settings = maker.entry.settings.now; setting = setting; shape = shape.now }) shape.now.members.items list.items) }
{
    let mut list = Vec::new(maker.alloc);
    let mut never = None;
    for number in 0..shape.members.len() {
        let inherited = shape.members[number];
        let within = Within {
            files: maker.files,
            settings: maker.settings,
            setting,
            shape,
            file: inherited.file,
        };
        check_width(within, number, inherited)?;
        push_member(
            maker,
            room,
            notes,
            within,
            number,
            inherited.member,
            &mut never,
            &mut list,
        )?;
    }
    Ok(list)
}

/// The token of a reactor's name, or of the word at which one without a name begins.
fn head_of(reactor: &WrittenReactor) -> usize
    ensures { result ≡ head_at reactor.now }
{
    match &reactor.name {
        Some(name) => name.at,
        None => reactor.at,
    }
}

/// The reactor of a setting. That of number 0 is the main one.
fn core_reactor<'s, 'a>(
    maker: Maker<'s, 'a>,
    room: &mut Room,
    notes: &mut Notes,
    setting: usize,
    shape: &'s Shape<'a>,
) -> Result<Reactor, NoProgram>
    ensures made { IfOk result (λ made. IsReactor maker.entry.settings.now (texts maker.entry.names.now) setting shape.now (reactor_view made)) }
    ensures at { IfOk result (λ made. IsPlaced maker.entry.files.now maker.entry.settings.now setting shape.now made) }
{
    let is_main = setting == 0;
    let name = match maker.name(setting) {
        Some(name) => Some(String::from_str(maker.alloc, name)?),
        None => None,
    };
    let parameters = parameters(maker, room, shape, is_main)?;
    let members = members(maker, room, notes, setting, shape)?;
    Ok(Reactor {
        is_main,
        name,
        parameters,
        members,
        at: maker.token(shape.class.file, head_of(shape.class.reactor)),
    })
}

/// The reactors of settings, in this order.
pub(crate) fn reactors(
    maker: Maker,
    room: &mut Room,
    notes: &mut Notes,
    settings: &[usize],
) -> Result<Vec<Item>, NoProgram>
    ensures made { IfOk result (λ items. AreReactors maker.entry.settings.now (texts maker.entry.names.now) settings.now (map item_view items.items)) }
    ensures at { IfOk result (λ items. ArePlaced maker.entry.files.now maker.entry.settings.now settings.now items.items) }
{
    let mut items = Vec::new(maker.alloc);
    for place in 0..settings.len() {
        let setting = item_at(settings, place);
        let Some(shape) = maker.settings.shape_of(setting) else {
            return Err(maker.settings.work.refused(Why::TooMuch));
        };
        items.push(Item::Reactor(core_reactor(maker, room, notes, setting, shape)?))?;
    }
    Ok(items)
}
