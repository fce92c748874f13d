//! The lines of a script, and the tokens of each.
#![tactic(auto)]

mod digits;
mod errors;
mod lexer;
mod lines;
mod words;

pub use digits::{is_natural, size_of_digits};
pub use errors::LexError;
pub use lexer::{MOST_BYTES, MOST_TEXT, Token, Tokens, is_lexical, is_skipped, tokens};
pub use lines::{Line, Lines, lex, lex_after, line_length, line_of};
pub use words::{begins, is_the_word};
