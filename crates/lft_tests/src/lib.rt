#![tactic(auto)]
//! The tests of what no clause says and what needs code: readers and writers that are interrupted or fail, bodies and
//! books, who is told of a tag, and in `refused` growths of memory that are refused. What is text in and text out is
//! a case in the folder `cases`.

#[cfg(test)]
mod bodies;
#[cfg(test)]
mod books;
#[cfg(test)]
mod calls;
#[cfg(test)]
mod readers;
#[cfg(test)]
mod recordings;
pub mod refused;
#[cfg(test)]
mod texts;
#[cfg(test)]
mod watches;
