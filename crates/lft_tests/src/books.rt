//! Books driven by hand: two open runs end in either order; what is told of an answer to a ticket that a book didn't
//! give, and of a body of no reaction.

use crate::bodies::{Answer, Prepared, bodies_of, idle_body};
use crate::texts::{AT_ONCE, PIPE, TWO, is_accepted, plan};
use lft_ir::steps::Step;
use lft_ir::{Name, Value};
use lft_model::Reads;
use lft_pool::{Answered, AnyAnswer, Begin, Book, PutFault, Stop, Ticket};
use lft_tag::{NoMemory, Tag};
use std::alloc::Global;
use std::test::Fail;

/// A book of prepared bodies.
type PreparedBook = Book<AnyAnswer, Prepared>;

/// Each of two reactions writes 1 to the port of its own number, if there is one.
const FIRST_WRITES: Answer = Answer {
    reaction: 0,
    steps: Some(&[Step::Write(Name::Port(0), Value::Int(1))]),
};

const SECOND_WRITES: Answer = Answer {
    reaction: 1,
    steps: Some(&[Step::Write(Name::Port(1), Value::Int(1))]),
};

const SECOND_IDLES: Answer = Answer {
    reaction: 1,
    steps: Some(&[]),
};

/// A book of at most ten runs of a program, up to its first tag.
fn book_of(alloc: Global, program: &[u8], answers: &[Answer]) -> Result<PreparedBook, NoMemory> {
    let plan = plan(alloc, program, AT_ONCE)?;
    let bodies = bodies_of(alloc, &plan, answers)?;
    match Book::new(alloc, plan, bodies, 10) {
        Ok(book) => Ok(book),
        Err(_) => Err(NoMemory),
    }
}

/// What the body answers to the run that the worker begins.
fn answered(alloc: Global, book: &mut PreparedBook, worker: u32) -> Option<Answered<AnyAnswer>> {
    match book.begin(worker) {
        Ok(Begin::Run(ticket, body)) => Some(body.call(alloc, ticket)),
        _ => None,
    }
}

/// Whether two runs are open at once, and the book takes the answers in the order in which they began, or turned.
fn ends_both(alloc: Global, book: &mut PreparedBook, is_turned: bool) -> bool {
    let Some(first) = answered(alloc, book, 0) else {
        return false;
    };
    let Some(second) = answered(alloc, book, 1) else {
        return false;
    };
    let (sooner, later) = if is_turned {
        (second, first)
    } else {
        (first, second)
    };
    book.commit(sooner).is_ok() && book.commit(later).is_ok()
}

// its rows are a clause, and no clause says that memory is at hand
#[test]
fn ends_two_runs_in_either_order(rt: HostRuntime) -> Result<(), Fail> {
    for is_turned in [false, true] {
        let mut book = book_of(rt.alloc(), TWO, &[FIRST_WRITES, SECOND_WRITES])?;
        let is_taken = ends_both(rt.alloc(), &mut book, is_turned);
        let closed = book.close();
        let is_accepted = is_accepted(rt.alloc(), &closed.plan, &closed.rows);
        assert!(rt; is_taken && is_accepted, "{is_turned}");
    }
    Ok(())
}

/// The ticket of the second run of `PIPE`, which the second worker begins. In the place of this number, from 0 to 4,
/// stands something else.
fn ticket(alloc: Global, place: usize) -> Result<Ticket, NoMemory> {
    let read = if place == 0 { 2 } else { 1 };
    Ok(Ticket {
        worker: if place == 1 { 0 } else { 1 },
        tag: Tag {
            time: 0,
            micro: if place == 2 { 1 } else { 0 },
        },
        reaction: if place == 3 { 0 } else { 1 },
        state: if place == 4 { 1 } else { 0 },
        reads: Reads::from_vec(Vec::from_slice(alloc, &[Some(Value::Int(read))])?),
    })
}

/// What a book at that run says of an answer to this ticket, if it comes there.
fn committed(alloc: Global, ticket: Ticket) -> Result<Option<Result<(), Stop>>, NoMemory> {
    let mut book = book_of(alloc, PIPE, &[FIRST_WRITES, SECOND_IDLES])?;
    let Some(first) = answered(alloc, &mut book, 0) else {
        return Ok(None);
    };
    if book.commit(first).is_err() || answered(alloc, &mut book, 1).is_none() {
        return Ok(None);
    }
    let answered = idle_body(alloc, ticket.reaction).call(alloc, ticket);
    Ok(Some(book.commit(answered)))
}

// no clause says that the reason isn't want of memory
#[test]
fn refuses_an_answer_to_another_ticket(rt: HostRuntime) -> Result<(), Fail> {
    for place in 0..=5 {
        let told = committed(rt.alloc(), ticket(rt.alloc(), place)?)?;
        let wanted = if place == 5 {
            Ok(())
        } else {
            Err(Stop::Stranger)
        };
        assert!(rt; told == Some(wanted), "{place}");
    }
    Ok(())
}

// the same
#[test]
fn hands_a_body_of_no_reaction_back(rt: HostRuntime) -> Result<(), Fail> {
    let plan = plan(rt.alloc(), TWO, AT_ONCE)?;
    let mut bodies = bodies_of(rt.alloc(), &plan, &[])?;
    let put = bodies.put(idle_body(rt.alloc(), 2));
    assert!(rt; matches!(put, Err((_, PutFault::NoReaction))));
    Ok(())
}
