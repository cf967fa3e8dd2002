#![tactic(auto)]
//! The records of tables in CSV, read one after another, or in parts by several workers. What a record tells is for
//! the kind of table to say (`TableReader`).
//!
//! The records of a text (`records_of`) are by definition those of the crate `csv`. Reading in parts rests on
//! the lemma `records_cut`: a text is cut behind a line feed, has no quotation mark before the cut, and no byte
//! order mark begins behind it. Then its records are those before the cut, and then those behind it.

mod history;
mod lines;
mod records;
mod source;
mod table;
mod table_lines;
mod workers;

pub use history::Given;
pub use lines::{cut_behind, first_lines, may_begin_with_mark};
pub use records::{Records, Unread, field};
pub use source::Source;
pub use table::TableReader;
pub use table_lines::{ReadFailed, TableLines};
pub use workers::{is_one_part, read_parts, read_plain};
