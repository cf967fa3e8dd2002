//! Words for what a name is, where it stands, and what may stand there.

use lft_resolve::kinds::{Kind, Role};
use lft_tag::NoMemory;
use lft_tree::{Reactor, Reference};
use std::alloc::Global;

/// How a reactor is called: by its name, if it has one.
pub(crate) fn reactor_words(alloc: Global, reactor: &Reactor) -> Result<String, NoMemory> {
    let mut out = String::new(alloc);
    match &reactor.name {
        Some(name) => {
            out.push_str("reactor ")?;
            out.push_str(name.as_str())?;
        }
        None => out.push_str("the main reactor")?,
    }
    Ok(out)
}

/// Puts a name behind the text as it is written, with its point and its port.
pub(crate) fn push_name(out: &mut String, name: &Reference) -> Result<(), NoMemory> {
    out.push_str(name.head.as_str())?;
    if let Some(port) = &name.port {
        out.push_str(".")?;
        out.push_str(port.as_str())?;
    }
    Ok(())
}

/// The name as it is written.
pub(crate) fn name_words(alloc: Global, name: &Reference) -> Result<String, NoMemory> {
    let mut out = String::new(alloc);
    push_name(&mut out, name)?;
    Ok(out)
}

/// What a name is.
pub(crate) fn kind_words(kind: Kind) -> &'static str {
    match kind {
        Kind::OwnParameter => "a parameter",
        Kind::OwnInput => "an input",
        Kind::OwnOutput => "an output",
        Kind::OwnTimer => "a timer",
        Kind::OwnAction => "an action",
        Kind::OwnInstance => "an instance",
        Kind::InnerInput => "an input of an instance",
        Kind::InnerOutput => "an output of an instance",
    }
}

/// What can't be done with a name that may not have the role.
pub(crate) fn role_words(role: Role) -> &'static str {
    match role {
        Role::Read => "a reaction can't read it",
        Role::Effect => "it can't be an effect",
        Role::Source => "no connection can begin there",
        Role::Destination => "no connection can end there",
    }
}

/// What may have the role.
pub(crate) fn role_way(role: Role) -> &'static str {
    match role {
        Role::Read => {
            "A reaction reads inputs of its reactor, outputs of instances, actions and timers."
        }
        Role::Effect => "Effects are outputs of the reactor, inputs of instances, and actions.",
        Role::Source => {
            "A connection begins at an input of the reactor, or at an output of an instance."
        }
        Role::Destination => {
            "A connection ends at an output of the reactor, or at an input of an instance."
        }
    }
}

/// In which list of a reaction a name stands.
pub(crate) fn list_words(role: Role) -> &'static str {
    match role {
        Role::Read => "what it reads",
        _ => "its effects",
    }
}
