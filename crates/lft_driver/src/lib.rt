#![tactic(auto)]
//! The commands `judge`, `explain`, `pair` and `show`: from plans and texts to lines. It hands on what a
//! command begins and ends with: faults, `load`, `read_input` and `finish` of `lft_load`.

mod accepting;
mod alone;
mod answer;
mod bundle;
mod explain;
mod explain_pair;
mod judge;
mod line;
mod listing;
mod pair;
mod paired;
mod reader;
mod refused;
mod show;

pub use alone::{judge_plan_alone, judge_texts_alone};
pub use answer::{bundle_answer, explain_bundle_answer, is_accepted, is_same};
pub use bundle::{Bundle, split_bundle};
pub use explain::{explain_plan, explain_texts};
pub use explain_pair::explain_pair_plan;
pub use judge::{check_plan, judge_plan, judge_texts, verdict_of};
pub use lft_load::{Fault, Part, finish, load, read_input};
pub use line::{accepted_line, broken_line, verdict_line};
pub use pair::{pair_plan, pair_texts};
pub use paired::Paired;
pub use reader::judge_reader;
pub use refused::{
    refusal_of_bundle, refusal_of_externals, refusal_of_graph, refusal_of_plan, refusal_of_program,
    refusal_of_texts, refusal_of_trace, refusal_of_traces,
};
pub use show::{show_program, show_text};
