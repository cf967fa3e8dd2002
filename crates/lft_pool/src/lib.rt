#![tactic(auto)]
//! Recording on a pool of workers: the code of runs, the book of a recording, and the workers round it.
//!
//! What is pending is said of plan and rows (`IsPendingEvent`). A refusal may leave the agenda of a book
//! altered inside. Nobody sees it: a stopped book answers its reason before it looks at the agenda, and `close`
//! drops it. No contract says that a body gave an answer that isn't taken.

mod bodies;
mod book;
mod run;
mod states;
mod stop;
mod words;

pub use bodies::{
    Answered, AnyAnswer, Bodies, Body, BoxedCode, Code, Done, Law, PutFault, Steps, Ticket,
};
pub use book::{Begin, Book, Closed, Stopped};
pub use run::{Recorded, record_run};
pub use states::States;
pub use stop::Stop;
