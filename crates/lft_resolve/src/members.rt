//! What a tree and a reactor declare, by kind, in order.

ghost use Rattle.std.specs.Prelude.{◌≡◌, filter_map, option_map, IfOk};
ghost use Rattle.lft_tree.specs.Tree.{reactor_in, connection_in, reaction_in, instance_in, timer_in, action_in, port_in};
ghost use Rattle.lft_tree.specs.View.{item_view, item_views, member_view, member_views, reactor_view, connection_view, reaction_view, instance_view, timer_view, action_view, port_view};
ghost use Rattle.lft_resolve.specs.inner.References.{reactor_trees, connection_trees, reaction_trees, instance_trees, timer_trees, action_trees, port_trees};

use lft_tag::NoMemory;
use lft_tree::{Action, Connection, Instance, Item, Member, Port, Reaction, Reactor, Timer};
use std::alloc::Global;

fn as_reactor(item: &Item) -> Option<&Reactor>
    ensures { option_map (λ r. reactor_view r.now) result ≡ reactor_in (item_view item.now) }
{
    match item {
        Item::Reactor(reactor) => Some(reactor),
        Item::Preamble(_) => None,
    }
}

/// The reactors among the items.
pub fn reactors(alloc: Global, items: &[Item]) -> Result<Vec<&Reactor>, NoMemory>
    ensures { IfOk result (λ v. reactor_trees v.items ≡ filter_map reactor_in (item_views items.now)) }
{
    let mut found = Vec::new(alloc);
    for item in items {
        match as_reactor(item) {
            Some(reactor) => found.push(reactor)?,
            None => {}
        }
    }
    Ok(found)
}

fn as_connection(member: &Member) -> Option<&Connection>
    ensures { option_map (λ x. connection_view x.now) result ≡ connection_in (member_view member.now) }
{
    match member {
        Member::Connection(connection) => Some(connection),
        Member::Port(_) | Member::Timer(_) | Member::Action(_) | Member::State(_) => None,
        Member::Preamble(_) | Member::Reaction(_) | Member::Instance(_) => None,
    }
}

/// The connections among the members.
pub fn connections(alloc: Global, members: &[Member]) -> Result<Vec<&Connection>, NoMemory>
    ensures { IfOk result (λ v. connection_trees v.items ≡ filter_map connection_in (member_views members.now)) }
{
    let mut found = Vec::new(alloc);
    for member in members {
        match as_connection(member) {
            Some(connection) => found.push(connection)?,
            None => {}
        }
    }
    Ok(found)
}

fn as_reaction(member: &Member) -> Option<&Reaction>
    ensures { option_map (λ x. reaction_view x.now) result ≡ reaction_in (member_view member.now) }
{
    match member {
        Member::Reaction(reaction) => Some(reaction),
        Member::Port(_) | Member::Timer(_) | Member::Action(_) | Member::State(_) => None,
        Member::Preamble(_) | Member::Instance(_) | Member::Connection(_) => None,
    }
}

/// The reactions among the members.
pub fn reactions(alloc: Global, members: &[Member]) -> Result<Vec<&Reaction>, NoMemory>
    ensures { IfOk result (λ v. reaction_trees v.items ≡ filter_map reaction_in (member_views members.now)) }
{
    let mut found = Vec::new(alloc);
    for member in members {
        match as_reaction(member) {
            Some(reaction) => found.push(reaction)?,
            None => {}
        }
    }
    Ok(found)
}

fn as_instance(member: &Member) -> Option<&Instance>
    ensures { option_map (λ x. instance_view x.now) result ≡ instance_in (member_view member.now) }
{
    match member {
        Member::Instance(instance) => Some(instance),
        Member::Port(_) | Member::Timer(_) | Member::Action(_) | Member::State(_) => None,
        Member::Preamble(_) | Member::Reaction(_) | Member::Connection(_) => None,
    }
}

/// The instances among the members.
pub fn instances(alloc: Global, members: &[Member]) -> Result<Vec<&Instance>, NoMemory>
    ensures { IfOk result (λ v. instance_trees v.items ≡ filter_map instance_in (member_views members.now)) }
{
    let mut found = Vec::new(alloc);
    for member in members {
        match as_instance(member) {
            Some(instance) => found.push(instance)?,
            None => {}
        }
    }
    Ok(found)
}

fn as_timer(member: &Member) -> Option<&Timer>
    ensures { option_map (λ x. timer_view x.now) result ≡ timer_in (member_view member.now) }
{
    match member {
        Member::Timer(timer) => Some(timer),
        Member::Port(_) | Member::Action(_) | Member::State(_) | Member::Preamble(_) => None,
        Member::Reaction(_) | Member::Instance(_) | Member::Connection(_) => None,
    }
}

/// The timers among the members.
pub fn timers(alloc: Global, members: &[Member]) -> Result<Vec<&Timer>, NoMemory>
    ensures { IfOk result (λ v. timer_trees v.items ≡ filter_map timer_in (member_views members.now)) }
{
    let mut found = Vec::new(alloc);
    for member in members {
        match as_timer(member) {
            Some(timer) => found.push(timer)?,
            None => {}
        }
    }
    Ok(found)
}

fn as_action(member: &Member) -> Option<&Action>
    ensures { option_map (λ x. action_view x.now) result ≡ action_in (member_view member.now) }
{
    match member {
        Member::Action(action) => Some(action),
        Member::Port(_) | Member::Timer(_) | Member::State(_) | Member::Preamble(_) => None,
        Member::Reaction(_) | Member::Instance(_) | Member::Connection(_) => None,
    }
}

/// The actions among the members.
pub fn actions(alloc: Global, members: &[Member]) -> Result<Vec<&Action>, NoMemory>
    ensures { IfOk result (λ v. action_trees v.items ≡ filter_map action_in (member_views members.now)) }
{
    let mut found = Vec::new(alloc);
    for member in members {
        match as_action(member) {
            Some(action) => found.push(action)?,
            None => {}
        }
    }
    Ok(found)
}

fn as_port(member: &Member) -> Option<&Port>
    ensures { option_map (λ x. port_view x.now) result ≡ port_in (member_view member.now) }
{
    match member {
        Member::Port(port) => Some(port),
        Member::Timer(_) | Member::Action(_) | Member::State(_) | Member::Preamble(_) => None,
        Member::Reaction(_) | Member::Instance(_) | Member::Connection(_) => None,
    }
}

/// The ports among the members.
pub fn ports(alloc: Global, members: &[Member]) -> Result<Vec<&Port>, NoMemory>
    ensures { IfOk result (λ v. port_trees v.items ≡ filter_map port_in (member_views members.now)) }
{
    let mut found = Vec::new(alloc);
    for member in members {
        match as_port(member) {
            Some(port) => found.push(port)?,
            None => {}
        }
    }
    Ok(found)
}
