//! Why a program is refused: a sentence, the places that it speaks of, and what to write.

ghost use Rattle.std.specs.Prelude.{◌≡◌, IfOk};

use crate::near::{push_link, push_question};
use crate::sentence::Sentence;
use crate::spans::Span;
use lft_tag::NoMemory;
use std::alloc::Global;

/// Why a program is refused.
#[derive(Drop)]
pub(crate) struct WhyRefused {
    /// What is wrong.
    pub sentence: Sentence,
    /// The names in the sentence, in order.
    pub names: Vec<String>,
    /// Where that is.
    pub at: Option<Span>,
    /// What stands there twice, or is written from there too.
    pub before: Option<Span>,
    /// What to write, a sentence a line.
    pub ways: String,
}

impl WhyRefused {
    /// The sentence with these names.
    pub(crate) fn of(
        alloc: Global,
        sentence: Sentence,
        names: &[&str],
    ) -> Result<WhyRefused, NoMemory>
        ensures { IfOk result (λ r. r.sentence ≡ sentence) }
    {
        // Copies, since some of the names are made by the caller and end with it.
        let mut owned = Vec::new(alloc);
        for name in names {
            let mut copy = String::new(alloc);
            copy.push_str(*name)?;
            owned.push(copy)?;
        }
        Ok(WhyRefused {
            sentence,
            names: owned,
            at: None,
            before: None,
            ways: String::new(alloc),
        })
    }

    /// The same with that place.
    pub(crate) fn at(self, spot: Option<Span>) -> WhyRefused
        ensures at { result.at ≡ spot }
        ensures sentence { result.sentence ≡ self.sentence }
    {
        WhyRefused { at: spot, ..self }
    }

    /// The same with that place before.
    pub(crate) fn before(self, spot: Option<Span>) -> WhyRefused
        ensures at { result.at ≡ self.at }
        ensures sentence { result.sentence ≡ self.sentence }
    {
        WhyRefused {
            before: spot,
            ..self
        }
    }

    /// The same with what to write.
    pub(crate) fn way(self, words: &str) -> Result<WhyRefused, NoMemory>
        ensures { IfOk result (λ r. r.sentence ≡ self.sentence) }
    {
        let mut reason = self;
        reason.ways.push_str("  ")?;
        reason.ways.push_str(words)?;
        reason.ways.push_str("\n")?;
        Ok(reason)
    }

    /// The same with the question whether a name was meant, or a port of an instance.
    pub(crate) fn ask(self, head: &str, port: Option<&str>) -> Result<WhyRefused, NoMemory>
        ensures { IfOk result (λ r. r.sentence ≡ self.sentence) }
    {
        let mut reason = self;
        push_question(&mut reason.ways, head, port)?;
        Ok(reason)
    }

    /// The same with what one reactor contains.
    pub(crate) fn link(self, outer: &str, inner: &str) -> Result<WhyRefused, NoMemory>
        ensures { IfOk result (λ r. r.sentence ≡ self.sentence) }
    {
        let mut reason = self;
        push_link(&mut reason.ways, outer, inner)?;
        Ok(reason)
    }
}
