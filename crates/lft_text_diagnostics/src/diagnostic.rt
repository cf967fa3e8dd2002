//! What is told of a refusal, and how it is printed.

ghost use Rattle.std.specs.Prelude.{◌≡◌, [], IfOk, string_bytes};
ghost use Rattle.lft_text_diagnostics.specs.inner.Diagnostics.{printed};

use lft_tag::NoMemory;
use std::alloc::Global;

/// Why a text is refused, for people.
#[derive(Drop)]
pub struct Diagnostic {
    /// Where it is refused.
    pub place: String,
    /// What is wrong there. It goes on in the line of the place.
    pub sentence: String,
    /// The lines that are quoted, each with a mark below it.
    pub lines: String,
    /// What helps, in lines.
    pub help: String,
}

impl Diagnostic {
    /// One of which nothing is known yet.
    pub fn new(alloc: Global) -> Diagnostic
        ensures place { string_bytes result.place ≡ [] }
        ensures sentence { string_bytes result.sentence ≡ [] }
        ensures lines { string_bytes result.lines ≡ [] }
        ensures help { string_bytes result.help ≡ [] }
    {
        Diagnostic {
            place: String::new(alloc),
            sentence: String::new(alloc),
            lines: String::new(alloc),
            help: String::new(alloc),
        }
    }

    /// Its text, in lines that end with a line feed.
    pub fn print(self) -> Result<String, NoMemory>
        ensures { IfOk result (λ words. string_bytes words ≡ printed self) }
    {
        let Diagnostic {
            place,
            sentence,
            lines,
            help,
        } = self;
        let mut out = place;
        out.push_str(sentence.as_str())?;
        out.push_str("\n")?;
        out.push_str(lines.as_str())?;
        out.push_str(help.as_str())?;
        Ok(out)
    }
}
