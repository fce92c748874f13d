// The lines of a text that say something, with their tokens. The readers of scripts and of what follows them take
// these.
ghost use Rattle.hib_lex.specs.Lines as format;
ghost use Rattle.std.specs.Prelude.{◌≡◌, ◌+◌, ◌^◌, ◌<◌, length, IfOk, IfErr};

use crate::errors::LexError;
use crate::lexer::{MOST_BYTES, Tokens, is_printable, is_skipped, tokens_of_lexical};
use hib_base::{Kind, Refused, Seq};
use std::alloc::{AllocError, Global};

/// A line that isn't skipped.
#[derive(Drop)]
pub struct Line {
    /// The line's number, from 1.
    pub line: u32,
    /// Its tokens, in order.
    pub tokens: Tokens,
}

/// The lines of a text.
#[derive(Drop)]
pub struct Lines {
    /// Those that aren't skipped, in order.
    pub lines: Seq<Line>,
    /// How many lines there are, the skipped ones among them.
    pub count: u32,
}

/// What a line holds.
#[derive(Drop)]
enum Content {
    /// Nothing: spaces alone, no byte, or a comment.
    Nothing,
    /// Tokens.
    Tokens(Tokens),
    /// Something that breaks a rule.
    Bad(Kind),
}

/// The lines of a text with their tokens, without those that are skipped. Lines are numbered from 1; their number is
/// that of the line feeds, plus one if bytes follow the last.
///
/// Errors: `Refused` exactly if a line breaks a rule, with the first such line, and with the first of the kinds byte,
/// long and token that it has; `NoMemory` if there is none left. Nothing else is changed.
pub fn lex(alloc: Global, text: &[u8]) -> Result<Lines, LexError>
    requires { length text.now < 2 ^ 31 }
    ensures lines { IfOk result (λ l. format.lex_of text.now ≡ Ok l) }
    ensures refused { IfErr result (format.IsWhere (format.lex_of text.now)) }
{
    lex_after(alloc, 0, text)
}

/// The lines of a text that has `before` lines before it: the first one has the next number, and their count is that of
/// all lines so far. Else it is as `lex` says.
#[tactic(auto, using(crate::proofs::Texts::lexing_done, crate::proofs::Texts::length_fits))]
pub fn lex_after(alloc: Global, before: u32, text: &[u8]) -> Result<Lines, LexError>
    requires { before + length text.now < 2 ^ 31 }
    ensures lines { IfOk result (λ l. format.lex_after before text.now ≡ Ok l) }
    ensures refused { IfErr result (format.IsWhere (format.lex_after before text.now)) }
{
    let mut done = Lines {
        lines: Seq::new(alloc),
        count: before,
    };
    let mut start = 0;
    while start < text.len() {
        let end = start + line_length(&text[start..]);
        done = with_line(alloc, done, &text[start..end])?;
        start = end + 1;
    }
    Ok(done)
}

/// The lines with one more, or why that one is bad.
fn with_line(alloc: Global, done: Lines, line: &[u8]) -> Result<Lines, LexError>
    requires { done.count < 2 ^ 31 }
    ensures lines { IfOk result (λ l. format.with_line done line.now ≡ Ok l) }
    ensures count { IfOk result (λ l. l.count ≡ done.count + 1) }
    ensures refused { IfErr result (format.IsWhere (format.with_line done line.now)) }
{
    let Lines { mut lines, count } = done;
    let count = count + 1;
    if let Some(line) = line_of(alloc, count, line)? {
        lines.push(line)?;
    }
    Ok(Lines { lines, count })
}

/// The line of this number that has these bytes, or none if it is skipped.
///
/// Errors: `Refused` exactly if the line breaks a rule, with the first of the kinds byte, long and token that it has;
/// `NoMemory` if there is none left.
pub fn line_of(alloc: Global, number: u32, bytes: &[u8]) -> Result<Option<Line>, LexError>
    ensures line { IfOk result (λ l. format.line_of number bytes.now ≡ Ok l) }
    ensures refused { IfErr result (format.IsWhere (format.line_of number bytes.now)) }
{
    match content_of(alloc, bytes)? {
        Content::Nothing => Ok(None),
        Content::Tokens(tokens) => Ok(Some(Line {
            line: number,
            tokens,
        })),
        Content::Bad(kind) => Err(LexError::Refused(Refused { line: number, kind })),
    }
}

/// What a line holds.
fn content_of(alloc: Global, line: &[u8]) -> Result<Content, AllocError>
    ensures { IfOk result (λ c. c ≡ format.content_of line.now) }
{
    if !is_printable(line) {
        return Ok(Content::Bad(Kind::Byte));
    }
    if line.len() > MOST_BYTES {
        return Ok(Content::Bad(Kind::Long));
    }
    if is_skipped(line) {
        return Ok(Content::Nothing);
    }
    match tokens_of_lexical(alloc, line)? {
        Some(tokens) => Ok(Content::Tokens(tokens)),
        None => Ok(Content::Bad(Kind::Token)),
    }
}

/// How many bytes stand before the first line feed, or in all.
#[tactic(auto, using(crate::proofs::Texts::length_next, crate::proofs::Texts::length_done))]
pub fn line_length(text: &[u8]) -> usize
    ensures { result ≡ format.line_length text.now }
{
    for (i, byte) in text.iter().enumerate() {
        if *byte == b'\n' {
            return i;
        }
    }
    text.len()
}
