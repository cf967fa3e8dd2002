//! What references of a reactor mean.

ghost use Rattle.std.specs.Prelude.{◌≡◌, Some, IfErr, IfOk, option_map, string_bytes};
ghost use Rattle.lft_elaborate.specs.inner.{Meanings.{meaning_of, port_number_in, port_of, shape_inside}, Refused.{IfRefused, IsAt, IsNoPort, IsUnmeant}};
ghost use Rattle.std.specs.Option.{option_and_then};

use lft_classes::{OwnThing, Shape};
use lft_whole::sources::{NoProgram, Why};
use lft_whole::{Member, Name, Reference};

/// What a reference of a reactor means: a thing of the reactor itself, or a port of an instance or a bank. These
/// are members, by their numbers.
#[derive(Clone, Copy)]
pub enum Meaning {
    Own(OwnThing),
    Port { instance: usize, port: usize },
}

/// The port of this name in a shape, by its number.
fn port(shape: &Shape, name: &str) -> Option<usize>
    ensures { result ≡ port_number_in shape.now name.now }
{
    match shape.find(name) {
        Some(OwnThing::Member(number)) => match shape.member(number) {
            Some(inherited) => match inherited.member {
                Member::Port(_) => Some(number),
                _ => None,
            },
            None => None,
        },
        _ => None,
    }
}

/// The shape of the reactor of the instance of this number in a shape.
pub fn inner_shape<'s, 'a>(
    shapes: &'s [Shape<'a>],
    shape: &Shape<'a>,
    instance: usize,
) -> Option<&'s Shape<'a>>
    ensures { option_map (λ inner. inner.now) result ≡ shape_inside shapes.now shape.now instance }
{
    match shape.child(instance) {
        Some(child) => shapes.get(child.shape),
        None => None,
    }
}

/// What a port of the instance of this number means.
fn inner(
    shapes: &[Shape],
    shape: &Shape,
    file: usize,
    instance: usize,
    reference: &Reference,
    name: &Name,
) -> Result<Meaning, NoProgram>
    ensures meaning { IfOk result (λ meaning. option_and_then (port_of instance (string_bytes name.now.text)) (shape_inside shapes.now shape.now instance) ≡ Some meaning) }
    ensures cause { IfErr result (IfRefused (λ r. IsAt file reference.now.head.at r × IsNoPort (shape_inside shapes.now shape.now instance) (string_bytes name.now.text) r.why)) }
{
    let at = reference.head.at;
    let Some(inner) = inner_shape(shapes, shape, instance) else {
        return Err(NoProgram::at(Why::UnknownInstance, file, at));
    };
    match port(inner, name.text.as_str()) {
        Some(port) => Ok(Meaning::Port { instance, port }),
        None => Err(NoProgram::at(Why::UnknownPort, file, at)),
    }
}

/// What a reference in the file means in a reactor.
pub fn meaning_of(
    shapes: &[Shape],
    shape: &Shape,
    file: usize,
    reference: &Reference,
) -> Result<Meaning, NoProgram>
    ensures meaning { IfOk result (λ meaning. meaning_of shapes.now shape.now reference.now ≡ Some meaning) }
    ensures cause { IfErr result (IfRefused (IsUnmeant shapes.now shape.now file reference.now)) }
{
    let at = reference.head.at;
    let head = shape.find(reference.head.text.as_str());
    match &reference.port {
        None => match head {
            Some(thing) => Ok(Meaning::Own(thing)),
            None => Err(NoProgram::at(Why::UnknownName, file, at)),
        },
        Some(name) => match head {
            Some(OwnThing::Member(instance)) => inner(
                shapes, shape, file, instance, reference, name,
            ),
            _ => Err(NoProgram::at(Why::UnknownInstance, file, at)),
        },
    }
}
