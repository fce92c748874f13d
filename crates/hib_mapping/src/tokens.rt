// What single tokens are, for all readers of lines.
ghost use Rattle.hib_mapping.specs.Parts as parts;
ghost use Rattle.std.specs.Prelude.{◌≡◌, IfOk};

use hib_base::{Seq, Text};
use hib_lex::Token;
use std::alloc::{AllocError, Global};

/// Whether a token is a word.
pub fn is_word(token: &Token) -> bool
    ensures { result ≡ parts.is_a_word token.now }
{
    matches!(token, Token::Word(_))
}

/// Whether a token is a number.
pub fn is_number(token: &Token) -> bool
    ensures { result ≡ parts.is_a_number token.now }
{
    matches!(token, Token::Number(_))
}

/// Whether a token is a number from `low` to `high`.
pub fn is_within(token: &Token, low: u32, high: u32) -> bool
    ensures { result ≡ parts.is_within low high token.now }
{
    match token {
        Token::Number(n) => *n >= i64::from(low) && *n <= i64::from(high),
        _ => false,
    }
}

/// The number that a token is, if it is one from 0 to `high`; else 0.
pub fn number_up_to(token: &Token, high: u32) -> u32
    ensures { result ≡ parts.number_up_to high token.now }
{
    match token {
        Token::Number(n) if *n >= 0 && *n <= i64::from(high) => *n as u32,
        _ => 0,
    }
}

/// The bytes of a word, and none of another token.
pub fn word_bytes(token: &Token) -> &[u8]
    ensures { result.now ≡ parts.word_of token.now }
{
    match token {
        Token::Word(text) => text.as_slice(),
        _ => b"",
    }
}

/// The bytes of a word as a text of its own; no bytes of another token. Fails for want of memory alone.
pub fn word(alloc: Global, token: &Token) -> Result<Text, AllocError>
    ensures { IfOk result (λ w. w ≡ parts.word_of token.now) }
{
    Ok(Seq::from_vec(word_bytes(token).to_vec(alloc)?))
}
