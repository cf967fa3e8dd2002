//! What the faults of cards and of recordings print.

ghost use Rattle.std.specs.Prelude.{◌≡◌, IfOk};
ghost use Rattle.lft_record.specs.Faults.{card_number, stop_number};
ghost use Rattle.lft_load.specs.declared.fault.Part.TheVariants as part;

use crate::cards::CardFault;
use lft_ir::Program;
use lft_load::{Detail, Fault, Part};
use lft_pool::Stop;
use std::alloc::{AllocError, Global};

/// The fault of a text that is no table of cards. It takes no memory.
pub fn cards_fault(fault: CardFault) -> Fault
    ensures part { result.part ≡ part.Cards }
    ensures number { result.number ≡ card_number fault }
{
    let part = Part::Cards;
    match fault {
        CardFault::BadHeader => Fault::plain(part, 1, "BadHeader"),
        CardFault::BadFieldCount(line) => Fault::of_line(part, 2, "BadFieldCount", line),
        CardFault::BadKind(line) => Fault::of_line(part, 3, "BadKind", line),
        CardFault::BadNumber(line) => Fault::of_line(part, 4, "BadNumber", line),
        CardFault::UnknownName(line) => Fault::of_line(part, 5, "UnknownName", line),
        CardFault::FieldInPlace(line) => Fault::of_line(part, 6, "FieldInPlace", line),
        CardFault::BadValue(line) => Fault::of_line(part, 7, "BadValue", line),
        CardFault::GivenTwice(line) => Fault::of_line(part, 8, "GivenTwice", line),
        CardFault::TooManyRows => Fault::plain(part, 9, "TooManyRows"),
        CardFault::NotCsv => Fault::plain(part, 10, "NotCsv"),
        CardFault::NoMemory => Fault::plain(part, 11, "NoMemory"),
    }
}

/// The fault of a recording that stopped, which tells the reaction or the tag that the reason does.
pub fn stop_fault(alloc: Global, program: &Program, stop: Stop) -> Result<Fault, AllocError>
    ensures part { IfOk result (λ f. f.part ≡ part.Pool) }
    ensures number { IfOk result (λ f. f.number ≡ stop_number stop) }
{
    let detail = match stop {
        Stop::NoBody(reaction) | Stop::UndeclaredEffect(reaction) => {
            reaction_name(alloc, program, reaction)?
        }
        Stop::Collision(tag) => Detail::Tag(tag),
        _ => Detail::Nothing,
    };
    let (number, name) = match stop {
        Stop::NoBody(_) => (1, "NoBody"),
        Stop::Collision(_) => (2, "Collision"),
        Stop::UndeclaredEffect(_) => (3, "UndeclaredEffect"),
        Stop::TooManyRuns => (4, "TooManyRuns"),
        Stop::Stranger => (5, "Stranger"),
        Stop::BodyNoMemory => (6, "BodyNoMemory"),
        Stop::NoMemory => (7, "NoMemory"),
        Stop::NoWorker => (8, "NoWorker"),
        Stop::PlanChanged => (9, "PlanChanged"),
        Stop::BadWorkers => (10, "BadWorkers"),
        Stop::TooManyRows => (11, "TooManyRows"),
        Stop::LimitTag => (12, "LimitTag"),
    };
    Ok(Fault {
        detail,
        ..Fault::plain(Part::Pool, number, name)
    })
}

// The name of a reaction, or nothing where the program doesn't have it.
fn reaction_name(alloc: Global, program: &Program, reaction: u32) -> Result<Detail, AllocError> {
    if reaction as usize >= program.reactions() {
        return Ok(Detail::Nothing);
    }
    let name = String::from_str(alloc, program.name_of_reaction(reaction))?;
    Ok(Detail::Words(name))
}
