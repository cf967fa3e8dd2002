//! How times, tags, values, names and rows are written for people.

mod columns;
mod lines;
mod words;

pub use columns::{push_blanks, push_fill, push_padded};
pub use lines::{
    push_capital_line, push_line, push_name_at, push_reaction_at, push_tag_at, push_value_at,
    push_worker_at,
};
pub use words::{
    push_action, push_name, push_number, push_port, push_reaction, push_tag, push_time, push_timer,
    push_trigger, push_value,
};
