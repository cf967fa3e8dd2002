//! What is said of a program that is lowered.

ghost use Rattle.std.specs.Prelude.{◌≡◌, ◌≤◌, ◌<◌, ◌++◌, ℕ, List, [], IfOk, OnOk, decimal, false, string_bytes};
ghost use Rattle.std.specs.BTreeSet.{contains_text};
ghost use Rattle.lft_tree.specs.Tree.{nanoseconds as nanoseconds_of};
ghost use Rattle.lft_resolve.specs.Causes.{longest};
ghost use Rattle.lft_lower.specs.inner.Meanings.Notes.{IsSaid, default_words, widths_differ_words, divide_words, note_begin, stop_words};

use lft_ir::words::push_number;
use lft_resolve::times::nanoseconds;
use lft_whole::Timeout;
use lft_whole::sources::{SourceFile, push_place};
use std::alloc::{AllocError, Global};
use std::collections::BTreeSet;

/// Lines about a program, each once.
#[derive(Drop)]
pub struct Notes<'a> {
    alloc: Global,
    files: &'a [SourceFile],
    said: BTreeSet<String>,
    lines: Vec<String>,
}

/// Puts words and a number at the end of a text.
fn push_counted(text: &mut String, words: &str, number: u64) -> Result<(), AllocError>
    ensures { OnOk result (string_bytes text.new ≡ string_bytes text.old ++ (words.now ++ decimal number)) }
{
    text.push_str(words)?;
    push_number(text, number)?;
    Ok(())
}

/// Puts at the end of a line that the sources of a broadcast don't divide its destinations.
fn push_divide(line: &mut String, left: u64, right: u64) -> Result<(), AllocError>
    ensures { OnOk result (string_bytes line.new ≡ string_bytes line.old ++ divide_words left right) }
{
    push_counted(line, "the width on the left, ", left)?;
    push_counted(line, ", doesn't divide the width on the right, ", right)?;
    line.push_str(".")?;
    Ok(())
}

/// Puts at the end of a line that the two sides of a connection differ.
fn push_differ(line: &mut String, left: u64, right: u64) -> Result<(), AllocError>
    ensures { OnOk result (string_bytes line.new ≡ string_bytes line.old ++ widths_differ_words left right) }
{
    push_counted(line, "the widths differ: ", left)?;
    push_counted(line, " on the left, ", right)?;
    line.push_str(" on the right. The rest stays unconnected.")?;
    Ok(())
}

/// Puts at the end of a line which row stands for a timeout of so many nanoseconds.
fn push_stop(line: &mut String, stop: u64) -> Result<(), AllocError>
    ensures { OnOk result (string_bytes line.new ≡ string_bytes line.old ++ stop_words stop) }
{
    push_counted(line, "timeout: write the row `stop,", stop)?;
    line.push_str(",0,,` into the external table.")?;
    Ok(())
}

/// Puts at the end of a line that a parameter of the main reactor has its default.
fn push_default(line: &mut String, name: &str) -> Result<(), AllocError>
    ensures { OnOk result (string_bytes line.new ≡ string_bytes line.old ++ default_words name.now) }
{
    line.push_str("the parameter ")?;
    line.push_str(name)?;
    line.push_str(" of the main reactor has its default here.")?;
    Ok(())
}

impl<'a> Notes<'a> {
    /// Nothing is said yet of the program of these files.
    pub fn of(alloc: Global, files: &'a [SourceFile]) -> Notes<'a>
        ensures files { result.files.now ≡ files.now }
        ensures lines { result.lines.items ≡ [] }
        ensures said { (line : List ℕ) → contains_text result.said line ≡ false }
    {
        Notes {
            alloc,
            files,
            said: BTreeSet::new(alloc),
            lines: Vec::new(alloc),
        }
    }

    /// The lines, in the order in which they were said.
    pub fn into_lines(self) -> Vec<String>
        ensures { result ≡ self.entry.lines }
    {
        let Notes {
            alloc: _,
            files: _,
            said: _,
            lines,
        } = self;
        lines
    }

    /// Begins a line about a token.
    fn line(&self, file: usize, token: usize) -> Result<String, AllocError>
        ensures { IfOk result (λ line. string_bytes line ≡ note_begin self.now.files.now file token) }
    {
        let mut line = String::from_str(self.alloc, "note: ")?;
        if let Some(found) = self.files.get(file) {
            push_place(self.alloc, &mut line, found, token)?;
        }
        line.push_str(": ")?;
        Ok(line)
    }

    /// Says a line, if it wasn't said.
    fn say(&mut self, line: String) -> Result<(), AllocError>
        ensures { OnOk result (IsSaid (string_bytes line) self.old self.new) }
    {
        // A reactor is lowered for each of its settings, and each time the same may be said of its lines.
        if !self.said.contains(line.as_str()) {
            self.said.insert(line.clone()?)?;
            self.lines.push(line)?;
        }
        Ok(())
    }

    /// Says words about a token.
    pub fn words(&mut self, file: usize, token: usize, words: &str) -> Result<(), AllocError>
        ensures { OnOk result (IsSaid (note_begin self.old.files.now file token ++ words.now) self.old self.new) }
    {
        let mut line = self.line(file, token)?;
        line.push_str(words)?;
        self.say(line)
    }

    /// The sources of a broadcast don't divide its destinations.
    pub fn divide(
        &mut self,
        file: usize,
        token: usize,
        left: u64,
        right: u64,
    ) -> Result<(), AllocError>
        ensures { OnOk result (IsSaid (note_begin self.old.files.now file token ++ divide_words left right) self.old self.new) }
    {
        let mut line = self.line(file, token)?;
        push_divide(&mut line, left, right)?;
        self.say(line)
    }

    /// The two sides of a connection differ.
    pub fn differ(
        &mut self,
        file: usize,
        token: usize,
        left: u64,
        right: u64,
    ) -> Result<(), AllocError>
        ensures { OnOk result (IsSaid (note_begin self.old.files.now file token ++ widths_differ_words left right) self.old self.new) }
    {
        let mut line = self.line(file, token)?;
        push_differ(&mut line, left, right)?;
        self.say(line)
    }

    /// A timeout of the target. Of one that no row can give nothing is said.
    pub fn timeout(&mut self, timeout: &Timeout) -> Result<(), AllocError>
        ensures said { nanoseconds_of timeout.now.time ≤ longest → OnOk result (IsSaid (note_begin self.old.files.now 0 timeout.now.at ++ stop_words (nanoseconds_of timeout.now.time)) self.old self.new) }
        ensures none { longest < nanoseconds_of timeout.now.time → self.new ≡ self.old }
    {
        let Some(stop) = nanoseconds(timeout.time) else {
            return Ok(());
        };
        let mut line = self.line(0, timeout.at)?;
        push_stop(&mut line, stop)?;
        self.say(line)
    }

    /// A parameter of the main reactor that is needed.
    pub fn default(&mut self, file: usize, token: usize, name: &str) -> Result<(), AllocError>
        ensures { OnOk result (IsSaid (note_begin self.old.files.now file token ++ default_words name.now) self.old self.new) }
    {
        let mut line = self.line(file, token)?;
        push_default(&mut line, name)?;
        self.say(line)
    }
}
