//! Why a program with a tree is refused, for people.

ghost use Rattle.std.specs.Prelude.{◌≡◌, ◌≢◌, IfOk, IsErr, string_bytes};
ghost use Rattle.lft_tree.specs.View.{tree_view};
ghost use Rattle.lft_syntax.specs.{Grammar.Spells, Lexes.Lexes, Placed.FileStands, View.lexemes};
ghost use Rattle.lft_resolve.specs.Causes.{IsFirst, causes};
ghost use Rattle.lft_validate.specs.{Members.reactors_among, Witnesses.fault_shown};
ghost use Rattle.lft_program.specs.inner.Refusals.{Tells, cause_of, fault_of};
ghost use Rattle.lft_program_diagnostics.specs.{Reasons.{BeginsAt, IsShownAt, IsToldIn, IsToldOf}, inner.{Pages.ArePages, Sentences.{IsOf, reason_sentence}}};
ghost use Rattle.lft_program_diagnostics.specs.Spots.{witness_spot};
ghost use Rattle.lft_program.specs.declared.refusal.Refusal.TheVariants as refusals;

use crate::pages::{Page, place_words, push_marked};
use crate::reason::WhyRefused;
use crate::refused::Refused;
use crate::sentence::push_said;
use crate::spots::{spot_before, spot_of};
use lft_program::Refusal;
use lft_syntax::{Token, Tokens};
use lft_tag::NoMemory;
use lft_text_diagnostics::Diagnostic;
use lft_text_diagnostics::words::push_way;
use lft_tree::Ast;
use lft_validate::{Witness, reactors_among};
use std::alloc::Global;

/// What is said of a witness, and where it stands.
fn of_witness<'a>(refused: &Refused<'a>, witness: Witness<'a>) -> Result<WhyRefused, NoMemory>
    ensures fault { IfOk result (IsOf (fault_shown witness.entry)) }
    ensures at { IfOk result (λ r. r.at ≡ witness_spot refused.now.tokens.now witness.entry) }
{
    let reason = refused.of_witness(witness)?;
    let before = spot_before(refused.tokens, witness);
    Ok(reason.before(before).at(spot_of(refused.tokens, witness)))
}

/// What is said of a refusal of a program that has this tree.
fn reason_of(
    alloc: Global,
    text: &[u8],
    tokens: &[Token],
    ast: &Ast,
    refusal: &Refusal,
) -> Result<WhyRefused, NoMemory>
    requires { Tells ast.now refusal.now }
    ensures fault { IfOk result (IsOf (fault_of refusal.now)) }
    ensures shown { IfOk result (λ r. IsShownAt tokens.now (reactors_among ast.now.items.items) (cause_of refusal.now) r.at) }
    ensures memory { refusal.now ≡ refusals.NoMemory → IsErr result }
{
    let reactors = reactors_among(alloc, &ast.items)?;
    let refused = Refused {
        alloc,
        text,
        tokens,
        reactors: &reactors,
    };
    match refusal {
        Refusal::Shown(witness) => of_witness(&refused, *witness),
        Refusal::Recursive(circle) => refused.recursive(circle),
        Refusal::TooMany(excess) => refused.too_many(*excess),
        Refusal::ConnectionCycle(way) => refused.cycle(way),
        Refusal::LongChain(way) => refused.long_chain(way),
        Refusal::NoMemory => Err(NoMemory),
    }
}

/// What is told of a reason.
fn tell(alloc: Global, text: &[u8], files: &[Page], reason: &WhyRefused) -> Result<String, NoMemory>
    requires { ArePages text.now files.now }
    ensures { IfOk result (λ words. BeginsAt text.now files.now reason.now.at (reason_sentence reason.now) (string_bytes words)) }
{
    let mut told = Diagnostic::new(alloc);
    told.place = place_words(alloc, text, files, reason.at)?;
    push_said(&mut told.sentence, reason.sentence.words(), &reason.names)?;
    told.sentence.push_str(".")?;
    // The earlier place comes first, as in the text.
    push_marked(alloc, &mut told.lines, text, files, reason.before)?;
    push_marked(alloc, &mut told.lines, text, files, reason.at)?;
    told.help.push_str(reason.ways.as_str())?;
    push_way(&mut told.help, reason.sentence.way())?;
    told.print()
}

/// Why a program that has this tree is refused, in lines that end with a line feed: the place, what is wrong
/// there, the line with a mark, and what to write. Where something stands twice, both lines. `NoMemory` where the refusal
/// is. The text may be that of several files, one behind another.
pub fn tell_refusal_in(
    alloc: Global,
    text: &[u8],
    tokens: &[Token],
    files: &[Page],
    ast: &Ast,
    refusal: &Refusal,
) -> Result<String, NoMemory>
    requires files { ArePages text.now files.now }
    requires tells { Tells ast.now refusal.now }
    ensures told { IfOk result (λ words. IsToldIn text.now tokens.now files.now ast.now.items.items (cause_of refusal.now) (string_bytes words)) }
    ensures memory { refusal.now ≡ refusals.NoMemory → IsErr result }
{
    let reason = reason_of(alloc, text, tokens, ast, refusal)?;
    tell(alloc, text, files, &reason)
}

/// The same of a program whose text stands alone.
pub fn tell_refusal(
    alloc: Global,
    text: &[u8],
    tokens: &Tokens,
    ast: &Ast,
    refusal: &Refusal,
) -> Result<String, NoMemory>
    requires lexed { Lexes text.now tokens.now }
    requires spelled { Spells (tree_view ast.now) (lexemes text.now tokens.now) }
    requires places { FileStands (lexemes text.now tokens.now) ast.now.target ast.now.items.items }
    requires first { refusal.now ≢ refusals.NoMemory → IsFirst (causes (tree_view ast.now)) (cause_of refusal.now) }
    requires tells { Tells ast.now refusal.now }
    ensures { IfOk result (λ words. IsToldOf text.now (cause_of refusal.now) (string_bytes words)) }
{
    tell_refusal_in(alloc, text, tokens.as_slice(), &[], ast, refusal)
}
