#![tactic(auto)]
//! The tables of trace rows and of external inputs, read and written. `number` and `names` serve who reads another
//! table.

mod event_map;
mod external_table;
mod fault;
mod fields;
mod kind;
mod log_table;
pub mod names;
mod next_names;
pub mod number;
mod reaction_names;
mod reading;
mod short_name;
mod trace_table;
mod trace_writer;

pub use external_table::{Entry, read_externals, read_externals_from};
pub use fault::TraceFault;
pub use lft_ir::steps::{Event, Externals, Row, Rows, Step, is_end, is_start, is_stop, row_at};
pub use log_table::{Among, Line, LineFault, LogLines, read_log};
pub use reaction_names::{ReactionNames, ReactionNumbers};
pub use reading::{
    below_header, next_rows, read_batch, read_externals_shared, read_lines, read_trace_shared,
    trace_lines, trace_records,
};
pub use trace_table::{LAST_LINE, read_trace};
pub use trace_writer::write_trace;
