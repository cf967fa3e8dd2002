//! The file.

ghost use Rattle.std.specs.Prelude.{◌≡◌, ℕ, ◌≤◌, codes, length, option_map, IfOk};
ghost use Rattle.lft_syntax.specs.Lexeme.{Symbol, Letters, is};
ghost use Rattle.lft_syntax.specs.inner.{View.{Gives, at_next}, Reading.{maybe, ignoring_at, braces_at, target_at, item_at, items_at, file_at, whole_at}};
ghost use Rattle.lft_syntax.specs.inner.Parsing.{words};
ghost use Rattle.lft_syntax.specs.{Language.many, Placed.{FileStands, past_target}};
ghost use Rattle.lft_tree.specs.View.{range_view, item_view, item_views, file_view};
ghost use Rattle.lft_syntax.specs.Placed as Placed;

use crate::input::Input;
use crate::parse_error::ParseError;
use crate::parser::declarations::preamble;
use crate::parser::groups::braces;
use crate::parser::names::{is_preamble_key, skip_name};
use crate::parser::reactors::reactor;
use crate::parser::tokens::{is_key, is_symbol, is_there, key};
use lft_tree::{Item, TokenRange};

/// The target's properties, which may be left out.
fn properties(input: &Input, at: usize) -> Result<usize, ParseError>
    ensures { Gives at_next result (ignoring_at (maybe (is (Symbol 123)) braces_at) (words input.now) at) }
{
    if !is_symbol(input, at, b'{') {
        return Ok(at);
    }
    braces(input, at)
}

#[tactic(auto, unfolding(crate::specs::inner::Reading::target_at))]
fn target(input: &Input, at: usize) -> Result<(TokenRange, usize), ParseError>
    ensures gives { Gives (λ x. (range_view x.0, x.1)) result (target_at (words input.now) at) }
    ensures next { IfOk result (λ x. x.1 ≡ x.0.end) }
{
    let start = at;
    let at = key(input, at, b"target")?;
    // Any target will do, since the code of reactions isn't read.
    let at = skip_name(input, at)?;
    let end = properties(input, at)?;
    Ok((TokenRange { start, end }, end))
}

/// The target, which may be left out.
fn left_out_target(input: &Input, at: usize) -> Result<(Option<TokenRange>, usize), ParseError>
    ensures gives { Gives (λ x. (option_map range_view x.0, x.1)) result (maybe (is (Letters (codes "target"))) target_at (words input.now) at) }
    ensures next { IfOk result (λ x. x.1 ≡ past_target at x.0) }
{
    if !is_key(input, at, b"target") {
        return Ok((None, at));
    }
    let (tokens, at) = target(input, at)?;
    Ok((Some(tokens), at))
}

#[tactic(auto, unfolding(crate::specs::inner::Reading::item_at))]
fn item(input: &Input, at: usize) -> Result<(Item, usize), ParseError>
    ensures gives { Gives (λ x. (item_view x.0, x.1)) result (item_at (words input.now) at) }
    ensures stands { IfOk result (λ x. Placed.item (words input.now) at x.1 x.0) }
{
    if is_preamble_key(input, at) {
        let (tokens, at) = preamble(input, at)?;
        return Ok((Item::Preamble(tokens), at));
    }
    // What begins no item is read as a reactor, which refuses it at its first token.
    let (reactor, at) = reactor(input, at)?;
    Ok((Item::Reactor(reactor), at))
}

fn items(input: &Input, at: usize) -> Result<(Vec<Item>, usize), ParseError>
    requires { at ≤ length (words input.now) }
    ensures gives { Gives (λ x. (item_views x.0.items, x.1)) result (items_at (words input.now) at) }
    ensures stand { IfOk result (λ x. many Placed.item (words input.now) at (length (words input.now)) x.0.items) }
{
    let mut items = Vec::new(input.alloc);
    let mut next = at;
    // Nothing closes the items but the end of the tokens. A token that begins no item must be refused, not
    // left over.
    'list: while is_there(input, next) {
        let (item, after) = item(input, next)?;
        items.push(item)?;
        next = after;
    }
    Ok((items, next))
}

/// What stands in a file, of which an `Ast` is made once its names are known to be identifiers.
#[derive(Drop)]
pub struct Content {
    pub target: Option<TokenRange>,
    pub items: Vec<Item>,
}

#[tactic(auto, unfolding(crate::specs::inner::Reading::file_at))]
fn file(input: &Input) -> Result<(Content, usize), ParseError>
    ensures gives { Gives (λ x. (file_view x.0.target x.0.items.items, x.1)) result (file_at (words input.now) 0) }
    ensures stand { IfOk result (λ x. FileStands (words input.now) x.0.target x.0.items.items) }
{
    let (target, first) = left_out_target(input, 0)?;
    let (items, end) = items(input, first)?;
    Ok((Content { target, items }, end))
}

/// What stands in the whole text.
#[tactic(auto, unfolding(crate::specs::inner::Reading::whole_at))]
pub fn whole(input: &Input) -> Result<Content, ParseError>
    ensures gives { Gives (λ x. file_view x.target x.items.items) result (whole_at (words input.now)) }
    ensures stand { IfOk result (λ x. FileStands (words input.now) x.target x.items.items) }
{
    // The place behind the file isn't asked for: items end only where the tokens do.
    let (content, _) = file(input)?;
    Ok(content)
}
