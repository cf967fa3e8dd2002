//! Why a table is refused, for people: its record with a mark below the field that is wrong, and what may
//! stand there.
//!
//! The clauses speak of the table, the line, and the field if the fault is of one. The words behind these are
//! free: cases try them.

mod fields;
mod foreign;
mod record;
mod siblings;
mod tables;

pub use tables::{tell_externals, tell_trace};
