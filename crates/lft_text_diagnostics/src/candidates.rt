//! What could stand in place of a token, found by trying, and listed.

ghost use Rattle.std.specs.Prelude.{◌≡◌, ◌++◌, IfOk, OnOk, flat_map, string_bytes};
ghost use Rattle.std.specs.List.{All};
ghost use Rattle.lft_text_diagnostics.specs.{Candidates.{could_words, other_candidate_words}, inner.Candidates.few};

use crate::candidate::Candidate;
use lft_tag::NoMemory;
use std::alloc::Global;

/// A place in a text at which candidates are tried.
pub trait Trial {
    ghost use Rattle.std.specs.Prelude.{◌≡◌, IfOk, true};
    ghost use Rattle.lft_text_diagnostics.specs.declared.candidate.Candidate.{Candidate};

    ghost is_sound: { Self → Type 0 };

    ghost stands: { Self → Candidate → Type 0 };

    /// Whether the candidate can stand there.
    fn can_stand(&self, candidate: Candidate) -> Result<bool, NoMemory>
        requires { is_sound self.now }
        ensures { IfOk result (λ can. can ≡ true → stands self.now candidate) };
}

/// What is also a name elsewhere, and so isn't told where a name can stand.
const WORDS: [Candidate; 4] = [
    Candidate::Unit,
    Candidate::TypeTime,
    Candidate::Import,
    Candidate::From,
];

const OTHERS: [Candidate; 14] = [
    Candidate::Number,
    Candidate::Code,
    Candidate::Text,
    Candidate::Symbol(b'('),
    Candidate::Symbol(b')'),
    Candidate::Symbol(b'['),
    Candidate::Symbol(b']'),
    Candidate::Symbol(b'{'),
    Candidate::Symbol(b'}'),
    Candidate::Symbol(b','),
    Candidate::Symbol(b':'),
    Candidate::Symbol(b'='),
    Candidate::Symbol(b'.'),
    Candidate::Arrow,
];

/// Words that begin something. Where each of them can stand any word can, and it is told as a name.
const KEYS: [Candidate; 6] = [
    Candidate::Member,
    Candidate::Reactor,
    Candidate::Action,
    Candidate::Startup,
    Candidate::New,
    Candidate::After,
];

/// Puts the candidate behind what was found, if it can stand there.
fn try_candidate<T: Trial>(
    trial: &T,
    found: &mut Vec<Candidate>,
    candidate: Candidate,
) -> Result<(), NoMemory>
    requires sound { T.is_sound trial.now }
    requires found { All (T.stands trial.now) found.old.items }
    ensures { OnOk result (All (T.stands trial.now) found.new.items) }
{
    if trial.can_stand(candidate)? {
        found.push(candidate)?;
    }
    Ok(())
}

/// Puts those of the candidates that can stand there behind what was found.
fn find<T: Trial>(
    trial: &T,
    found: &mut Vec<Candidate>,
    tried: &[Candidate],
) -> Result<(), NoMemory>
    requires sound { T.is_sound trial.now }
    requires found { All (T.stands trial.now) found.old.items }
    ensures { OnOk result (All (T.stands trial.now) found.new.items) }
{
    for at in 0..tried.len() {
        try_candidate(trial, found, tried[at])?;
    }
    Ok(())
}

/// A name, where one can stand there; else the words that can.
fn name_or_words<T: Trial>(alloc: Global, trial: &T) -> Result<Vec<Candidate>, NoMemory>
    requires { T.is_sound trial.now }
    ensures { IfOk result (λ found. All (T.stands trial.now) found.items) }
{
    let mut found = Vec::new(alloc);
    try_candidate(trial, &mut found, Candidate::Name)?;
    if found.is_empty() {
        find(trial, &mut found, &WORDS)?;
    }
    Ok(found)
}

/// The words that can stand there, unless any word can.
fn keys<T: Trial>(alloc: Global, trial: &T) -> Result<Vec<Candidate>, NoMemory>
    requires { T.is_sound trial.now }
    ensures { IfOk result (λ found. All (T.stands trial.now) found.items) }
{
    let mut found = Vec::new(alloc);
    find(trial, &mut found, &KEYS)?;
    if found.len() == KEYS.len() {
        found.clear();
    }
    Ok(found)
}

/// What can stand there: a name, or the words that can, and other things. The parser is asked of each of some twenty
/// things, so the grammar stands once.
pub fn candidates<T: Trial>(alloc: Global, trial: &T) -> Result<Vec<Candidate>, NoMemory>
    requires { T.is_sound trial.now }
    ensures { IfOk result (λ found. All (T.stands trial.now) found.items) }
{
    let mut found = name_or_words(alloc, trial)?;
    find(trial, &mut found, &OTHERS)?;
    let keys = keys(alloc, trial)?;
    found.extend_from_slice(&keys)?;
    Ok(found)
}

/// Puts one more candidate behind the text that could stand there.
fn push_other(alloc: Global, out: &mut String, candidate: Candidate) -> Result<(), NoMemory>
    ensures { OnOk result (string_bytes out.new ≡ string_bytes out.old ++ other_candidate_words candidate) }
{
    out.push_str(", ")?;
    candidate.push_words(alloc, out)
}

/// Puts further candidates behind the text that could stand there.
fn push_others(alloc: Global, out: &mut String, others: &[Candidate]) -> Result<(), NoMemory>
    ensures { OnOk result (string_bytes out.new ≡ string_bytes out.old ++ flat_map other_candidate_words others.now) }
{
    for at in 0..others.len() {
        push_other(alloc, out, others[at])?;
    }
    Ok(())
}

/// Puts what could stand there behind the text, where that is no more than so many.
pub fn push_candidates(
    alloc: Global,
    out: &mut String,
    found: &[Candidate],
    most: usize,
) -> Result<(), NoMemory>
    ensures { OnOk result (string_bytes out.new ≡ string_bytes out.old ++ could_words (few most found.now)) }
{
    if found.len() > most {
        return Ok(());
    }
    let Some((first, others)) = found.split_first() else {
        return Ok(());
    };
    out.push_str("  There could stand: ")?;
    first.push_words(alloc, out)?;
    push_others(alloc, out, others)?;
    out.push_str(".\n")?;
    Ok(())
}
