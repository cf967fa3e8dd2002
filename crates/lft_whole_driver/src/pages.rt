//! The files of a program as one text, so that what is told of a program is told of all of them.

ghost use Rattle.std.specs.Prelude.{◌≡◌, ◌+◌, ◌<◌, ◌^◌, IfOk, OnOk, length};
ghost use Rattle.lft_whole.specs.inner.Tokens.{AreTokens};
ghost use Rattle.lft_whole_parser.specs.Imports.{Files.AreOfTexts, Reads.HasTree};
ghost use Rattle.lft_whole_driver.specs.{Pages.{AreJoined, token_moved as moved_token}, inner.Pages.{JoinsFile, JoinsTokens}};

use lft_program_diagnostics::Page;
use lft_syntax::{Token, TokenKind, Tokens};
use lft_tag::NoMemory;
use lft_whole::lex;
use lft_whole::sources::{SourceFile, shown_path};
use std::alloc::Global;

/// The text of files with its tokens. A line feed stands behind each file, and a token for its end behind its tokens.
// A part of the tree has one number for its token, and what tells of a refusal takes one text with its
// tokens. Only the words of a place ask for files.
#[derive(Drop)]
pub(crate) struct Joined {
    pub(crate) text: Vec<u8>,
    pub(crate) tokens: Vec<Token>,
    pub(crate) pages: Vec<Page>,
}

/// A token of a file whose text begins there in the text of all.
fn moved(start: usize, token: Token) -> Token
    requires start { start + token.start < 2 ^ 64 }
    requires end { start + token.end < 2 ^ 64 }
    ensures { result ≡ moved_token start token }
{
    Token {
        kind: token.kind,
        start: start + token.start,
        end: start + token.end,
    }
}

/// Puts the tokens of a file at the end of a list, where its text begins there in the text of all.
fn push_tokens(
    list: &mut Vec<Token>,
    text: &[u8],
    tokens: &Tokens,
    start: usize,
) -> Result<(), NoMemory>
    requires tokens { AreTokens text.now tokens.now }
    requires end { start + length text.now < 2 ^ 64 }
    ensures { OnOk result (JoinsTokens start tokens.now list.old.items list.new.items) }
{
    let tokens = tokens.as_slice();
    for at in 0..tokens.len() {
        list.push(moved(start, tokens[at]))?;
    }
    Ok(())
}

impl Joined {
    /// Puts a file behind those that are there.
    fn push(&mut self, alloc: Global, file: &SourceFile) -> Result<(), NoMemory>
        requires { HasTree file.now.text.items file.now.spots.items file.now.tree }
        ensures { OnOk result (JoinsFile file.now self.old self.new) }
    {
        let Ok(tokens) = lex(alloc, &file.text) else {
            // The text had tokens before, so only memory can be refused.
            return Err(NoMemory);
        };
        let start = self.text.len();
        self.text.extend_from_slice(&file.text)?;
        let end = self.text.len();
        push_tokens(&mut self.tokens, &file.text, &tokens, start)?;
        // The numbers of tokens among all files count the end of each.
        self.tokens.push(Token {
            kind: TokenKind::Name,
            start: end,
            end,
        })?;
        // Else a file would begin where the one before it ends, and its first byte would count as that end.
        self.text.push(b'\n')?;
        let path = shown_path(alloc, file.path.as_str())?;
        self.pages.push(Page { path, start, end })?;
        Ok(())
    }
}

/// The text of files, one behind another.
pub(crate) fn join_files(alloc: Global, files: &[SourceFile]) -> Result<Joined, NoMemory>
    requires { AreOfTexts files.now }
    ensures { IfOk result (AreJoined files.now) }
{
    let mut joined = Joined {
        text: Vec::new(alloc),
        tokens: Vec::new(alloc),
        pages: Vec::new(alloc),
    };
    for at in 0..files.len() {
        joined.push(alloc, &files[at])?;
    }
    Ok(joined)
}
