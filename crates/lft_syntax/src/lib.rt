#![tactic(auto)]
//! Core texts: their tokens, and the tree that these spell. The calls on bytes and words, and what a token is and
//! what is seen of it, serve other readers of texts.
//!
//! A text has at most one cutting into tokens, and tokens have at most one tree. `parse` tells the first token
//! with which no tree goes on. `can_stand` decides the same of any token at any place.

mod fault;
mod form;
mod input;
mod lexer;
mod parse_error;
mod parser;
mod piece;
mod token;

pub use fault::{LexFault, SyntaxFault};
pub use form::{is_digit, is_in_line, is_letter, is_word};
pub use input::Seen;
pub use lexer::{MAX_LENGTH, lex, refused_at};
pub use lft_tree::{
    Action, Assignment, Ast, Connection, Instance, Item, Member, Parameter, Port, Reaction,
    Reactor, Reference, Time, TimeExpression, TimeUnit, Timer, TokenRange, Trigger,
};
pub use parser::{can_stand, is_reserved_word, parse, text_of, unit_named};
pub use piece::{digits_end, line_end, word_end};
pub use token::{Token, TokenKind, Tokens};
