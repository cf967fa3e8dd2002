//! The files of a program as they are read, and why there is no program of them.

mod shown;
mod source;
mod stop;
mod why;

pub use shown::{push_place, shown_path};
pub use source::{SourceFile, Spot, number_of, place_of};
pub use stop::{FileRefusal, NoProgram, Place};
pub use why::Why;
