//! How much there is to a member: its names in bytes, and its parts.

use lft_whole::{
    Assignment, Count, Effect, Expression, Member, Name, Parameter, Reference, Trigger, Width,
    WrittenValue,
};

/// A name, counted in bytes.
fn of_name(name: &Name) -> u64 {
    // One more than its bytes, as a name of one letter has a place in a list too.
    (name.text.len() as u64).saturating_add(1)
}

// All sums here saturate: a weight near that limit is refused by `spend` as any that is too large.
fn of_reference(reference: &Reference) -> u64 {
    let port = match &reference.port {
        Some(port) => of_name(port),
        None => 0,
    };
    of_name(&reference.head).saturating_add(port)
}

fn of_references(references: &[Reference]) -> u64 {
    let mut weight: u64 = 0;
    for reference in references {
        weight = weight.saturating_add(of_reference(reference));
    }
    weight
}

fn of_value(value: &Option<Expression>) -> u64 {
    match value {
        Some(expression) => of_expression(expression),
        None => 0,
    }
}

fn of_expression(expression: &Expression) -> u64 {
    match &expression.value {
        WrittenValue::Word(word) => (word.len() as u64).saturating_add(1),
        _ => 1,
    }
}

fn of_width(width: &Option<Width>) -> u64 {
    let mut weight: u64 = 0;
    if let Some(width) = width {
        for term in &width.terms {
            weight = weight.saturating_add(match &term.count {
                Count::Word(word) => (word.len() as u64).saturating_add(1),
                Count::WidthOf(reference) => of_reference(reference),
                _ => 1,
            });
        }
    }
    weight
}

fn of_triggers(triggers: &[Trigger]) -> u64 {
    let mut weight: u64 = 0;
    for trigger in triggers {
        weight = weight.saturating_add(match trigger {
            Trigger::Reference(reference) => of_reference(reference),
            _ => 1,
        });
    }
    weight
}

fn of_effects(effects: &[Effect]) -> u64 {
    let mut weight: u64 = 0;
    for effect in effects {
        weight = weight.saturating_add(match effect {
            Effect::Reference(reference) => of_reference(reference),
            _ => 1,
        });
    }
    weight
}

fn of_given(given: &[Assignment]) -> u64 {
    let mut weight: u64 = 0;
    for assignment in given {
        let value = of_expression(&assignment.value);
        weight = weight
            .saturating_add(of_name(&assignment.name))
            .saturating_add(value);
    }
    weight
}

/// How much there is to a parameter.
pub(crate) fn of_parameter(parameter: &Parameter) -> u64 {
    of_name(&parameter.name).saturating_add(of_value(&parameter.default))
}

/// How much there is to a member.
pub(crate) fn of_member(member: &Member) -> u64 {
    match member {
        Member::Port(port) => of_name(&port.name).saturating_add(of_width(&port.width)),
        Member::Timer(timer) => of_name(&timer.name)
            .saturating_add(of_value(&timer.offset))
            .saturating_add(of_value(&timer.period)),
        Member::Action(action) => of_name(&action.name).saturating_add(of_value(&action.min_delay)),
        Member::Reaction(reaction) => of_triggers(&reaction.triggers)
            .saturating_add(of_references(&reaction.uses))
            .saturating_add(of_effects(&reaction.effects))
            .saturating_add(1),
        Member::Instance(instance) => of_name(&instance.name)
            .saturating_add(of_name(&instance.reactor))
            .saturating_add(of_width(&instance.width))
            .saturating_add(of_given(&instance.given)),
        Member::Connection(connection) => of_references(&connection.sources)
            .saturating_add(of_references(&connection.destinations))
            .saturating_add(of_value(&connection.delay)),
        Member::Foreign { .. } => 1,
    }
}
