//! Which rows a fact names, and what they are to it.

ghost use Rattle.std.specs.Prelude.{◌≡◌, ◌++◌, ◌∷◌, [], OnOk};
ghost use Rattle.lft_report.specs.Quotes.Marks.{cause_names, row_fact_names, reason_names, named_rows, mark_words};

use lft_facts::{Cause, Fact, Reason, RowFact};
use std::alloc::AllocError;

/// What a row is to the facts.
#[derive(Clone, Copy, Drop)]
pub enum RowMark {
    /// It breaks the rule.
    Here,
    /// It is at a greater tag.
    Greater,
    /// It starts that run before.
    FirstStart,
    /// It starts the run that its worker has open.
    OpenStart,
    /// It reads that input of that run before.
    FirstRead,
    /// It makes something present.
    Cause,
    /// It ends a run that has to end first.
    LateEnd,
    /// It starts a run before one that precedes it ends.
    EarlyStart,
    /// No row stands behind it.
    TraceEnd,
    /// It asks for the stop.
    AsksStop,
    /// It ends that run before.
    EarlierEnd,
    /// It starts that run later.
    LaterStart,
    /// It ends another run of that reaction, or the run by another worker.
    OtherEnd,
    /// No later row is of its worker.
    LastRow,
}

/// A row, by its place, and what it is to the facts.
#[derive(Clone, Copy, Drop)]
pub struct Quote {
    pub row: u32,
    pub mark: RowMark,
}

impl RowMark {
    /// The words behind the row.
    pub(crate) fn words(self) -> &'static str
        ensures { result.now ≡ mark_words self }
    {
        match self {
            RowMark::Here => "<- here",
            RowMark::Greater => "already at a greater tag",
            RowMark::FirstStart => "its first start",
            RowMark::OpenStart => "the run that is open",
            RowMark::FirstRead => "its first read",
            RowMark::Cause => "a cause",
            RowMark::LateEnd => "has to end first",
            RowMark::EarlyStart => "starts too early",
            RowMark::TraceEnd => "the last row",
            RowMark::AsksStop => "asks for the stop",
            RowMark::EarlierEnd => "ends that run",
            RowMark::LaterStart => "starts that run",
            RowMark::OtherEnd => "another end",
            RowMark::LastRow => "the last row of its worker",
        }
    }
}

/// Puts the row behind the quotes.
fn push(quotes: &mut Vec<Quote>, row: u32, mark: RowMark) -> Result<(), AllocError>
    ensures { OnOk result (quotes.new.items ≡ quotes.old.items ++ (record { row = row; mark = mark }) ∷ []) }
{
    quotes.push(Quote { row, mark })?;
    Ok(())
}

/// Puts the row that makes something present behind the quotes.
fn push_cause(quotes: &mut Vec<Quote>, cause: Cause) -> Result<(), AllocError>
    ensures { OnOk result (quotes.new.items ≡ quotes.old.items ++ cause_names cause) }
{
    match cause {
        Cause::Written { row, .. } | Cause::Scheduled { row, .. } => {
            push(quotes, row, RowMark::Cause)
        }
        Cause::AtStartup { .. }
        | Cause::AtShutdown { .. }
        | Cause::Fires { .. }
        | Cause::Given { .. } => Ok(()),
    }
}

/// Puts the rows that are named where a row is wrong behind the quotes.
fn push_row_fact(quotes: &mut Vec<Quote>, fact: RowFact) -> Result<(), AllocError>
    ensures { OnOk result (quotes.new.items ≡ quotes.old.items ++ row_fact_names fact) }
{
    match fact {
        RowFact::Late { earlier, .. } => push(quotes, earlier, RowMark::Greater),
        RowFact::StartsAgain { first, .. } => push(quotes, first, RowMark::FirstStart),
        RowFact::Busy { start, .. } => push(quotes, start, RowMark::OpenStart),
        RowFact::ReadAgain { first, .. } => push(quotes, first, RowMark::FirstRead),
        // These name no other row. The row itself is quoted by `Fact::RowIs`.
        RowFact::AfterStop { .. }
        | RowFact::NotOpen { .. }
        | RowFact::NotInput { .. }
        | RowFact::NotEffect { .. }
        | RowFact::Unended { .. } => Ok(()),
    }
}

/// Puts the rows that the reason names behind the quotes.
fn push_reason(quotes: &mut Vec<Quote>, reason: Reason) -> Result<(), AllocError>
    ensures { OnOk result (quotes.new.items ≡ quotes.old.items ++ reason_names reason) }
{
    match reason {
        Reason::LastRow { row, .. } => push(quotes, row, RowMark::TraceEnd),
        Reason::StopAsked { row, .. } => push(quotes, row, RowMark::AsksStop),
        Reason::EndedIn { end, .. } => push(quotes, end, RowMark::EarlierEnd),
        Reason::HasOpen { start, .. } | Reason::OpenOn { start, .. } => {
            push(quotes, start, RowMark::OpenStart)
        }
        Reason::StartsIn { start, .. } => push(quotes, start, RowMark::LaterStart),
        Reason::EndsOther { end, .. } => push(quotes, end, RowMark::OtherEnd),
        Reason::LastOfWorker { last, .. } => push(quotes, last, RowMark::LastRow),
        Reason::OpenAcross { start, later, .. } => {
            push(quotes, start, RowMark::OpenStart)?;
            push(quotes, later, RowMark::Greater)
        }
        Reason::LaterTag { later, .. } => push(quotes, later, RowMark::Greater),
        Reason::Nearest { .. }
        | Reason::PassedBy { .. }
        | Reason::NeverRuns { .. }
        | Reason::RunBefore { .. }
        | Reason::RunAfter { .. }
        | Reason::StopGiven { .. }
        | Reason::Inputs { .. }
        | Reason::Effects { .. }
        | Reason::KindOf { .. }
        | Reason::FedBy { .. } => Ok(()),
    }
}

/// Puts the rows that the fact names behind the quotes.
pub(crate) fn push_named(quotes: &mut Vec<Quote>, fact: Fact) -> Result<(), AllocError>
    ensures { OnOk result (quotes.new.items ≡ quotes.old.items ++ named_rows fact) }
{
    match fact {
        Fact::RowIs { row, .. } => push(quotes, row, RowMark::Here),
        Fact::Row(fact) => push_row_fact(quotes, fact),
        Fact::Cause(cause) => push_cause(quotes, cause),
        Fact::Clash { first, second, .. } => {
            push_cause(quotes, first)?;
            push_cause(quotes, second)
        }
        Fact::Runs { start, .. } => push(quotes, start, RowMark::Here),
        Fact::StartsEarly { start, end, .. } => {
            push(quotes, start, RowMark::Here)?;
            push(quotes, end, RowMark::LateEnd)
        }
        Fact::Race { start, end, .. } => {
            push(quotes, start, RowMark::EarlyStart)?;
            push(quotes, end, RowMark::LateEnd)
        }
        Fact::Reason(reason) => push_reason(quotes, reason),
        // The others are of the program, or of what no row has.
        _ => Ok(()),
    }
}
