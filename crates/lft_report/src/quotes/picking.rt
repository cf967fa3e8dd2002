//! The rows that facts name, in order.

ghost use Rattle.std.specs.Prelude.{◌≡◌, ◌++◌, ◌<◌, ◌≤◌, length, take, drop, slice_get, Some, IfOk, OnOk, [], fold, flat_map};
ghost use Rattle.lft_report.specs.{declared.quotes.marks.Quote.Quote as TheQuote, Quotes.{Marks.named_rows, Picked.{inserted, quotes_of}}};

use crate::quotes::marks::{Quote, push_named};
use lft_facts::Fact;
use lft_lists::item_at;
use std::alloc::{AllocError, Global};

/// The place of the first quote whose row isn't before this one, or how many quotes there are.
fn place_for(quotes: &[Quote], quote: Quote) -> usize
    ensures within { result ≤ length quotes.now }
    ensures passed { inserted quotes.now quote ≡ take result quotes.now ++ inserted (drop result quotes.now) quote }
    ensures stops { (x : TheQuote) → slice_get quotes.now result ≡ Some x → quote.row ≤ x.row }
{
    for place in 0..quotes.len() {
        if quote.row <= item_at(quotes, place).row {
            return place;
        }
    }
    quotes.len()
}

/// Puts the quote in its place among others that ascend by row; of two of one row the earlier stays.
fn insert(quotes: &mut Vec<Quote>, quote: Quote) -> Result<(), AllocError>
    ensures { OnOk result (quotes.new.items ≡ inserted quotes.old.items quote) }
{
    let place = place_for(quotes.as_slice(), quote);
    if place == quotes.len() {
        quotes.push(quote)?;
        return Ok(());
    }
    // The facts begin with what is wrong, so the row that breaks the rule keeps its mark.
    if quote.row < item_at(quotes.as_slice(), place).row {
        quotes.insert(place, quote)?;
    }
    Ok(())
}

/// The rows that the facts name, as often as they name them.
fn named(alloc: Global, facts: &[Fact]) -> Result<Vec<Quote>, AllocError>
    ensures { IfOk result (λ quotes. quotes.items ≡ flat_map named_rows facts.now) }
{
    let mut quotes = Vec::new(alloc);
    for place in 0..facts.len() {
        push_named(&mut quotes, item_at(facts, place))?;
    }
    Ok(quotes)
}

/// The quotes ascending by row, each row once, as it comes first.
fn in_order(alloc: Global, named: &[Quote]) -> Result<Vec<Quote>, AllocError>
    ensures { IfOk result (λ quotes. quotes.items ≡ fold inserted [] named.now) }
{
    let mut quotes = Vec::new(alloc);
    for place in 0..named.len() {
        insert(&mut quotes, item_at(named, place))?;
    }
    Ok(quotes)
}

/// The rows that facts name: ascending, each once, marked as by the first that names it.
pub(crate) fn pick(alloc: Global, facts: &[Fact]) -> Result<Vec<Quote>, AllocError>
    ensures { IfOk result (λ quotes. quotes.items ≡ quotes_of facts.now) }
{
    let named = named(alloc, facts)?;
    in_order(alloc, named.as_slice())
}
