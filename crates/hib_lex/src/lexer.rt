// The tokens of a line, and which lines are skipped. A mark is here a quotation mark.
ghost use Rattle.std.specs.List.{list_all};
ghost use Rattle.std.specs.Prelude.{◌≡◌, ◌==◌, ◌^◌, ◌<◌, ◌≤◌, true, pos, neg_ℤ, length, IfOk, position};
ghost use Rattle.hib_base.specs.Fits.{is_printable};
ghost use Rattle.hib_lex.specs.Tokens as lines;
ghost use Rattle.hib_lex.specs.Parts as parts;

use crate::digits::{is_natural, is_positive, size_of_digits};
use hib_base::{Seq, Text};
use std::alloc::{AllocError, Global};

/// The most bytes of a line, without its line end.
pub const MOST_BYTES: usize = 4096;

/// The most bytes of a quoted text.
pub const MOST_TEXT: usize = 200;

/// For how many tokens room is made at once: few lines have more.
const USUAL_TOKENS: usize = 6;

/// A part of a line.
#[derive(Drop)]
pub enum Token {
    /// A letter, then letters, digits, `_` or `-`; 1 to 32 bytes.
    Word(Text),
    /// Two words that a dot joins.
    Path(Text, Text),
    /// A number.
    Number(i64),
    /// A text between quotation marks, without them and without the backslashes that escape.
    Quoted(Text),
    /// An opening parenthesis.
    Left,
    /// A closing parenthesis.
    Right,
}

/// The tokens of a line, in order.
pub type Tokens = Seq<Token>;

/// Whether a line has printable bytes alone, and not too many of them. Skipped lines must be so too.
pub fn is_lexical(line: &[u8]) -> bool
    ensures { result ≡ lines.is_lexical line.now }
{
    line.len() <= MOST_BYTES && is_printable(line)
}

/// Whether a line has printable bytes alone: those from 32 to 126.
pub fn is_printable(line: &[u8]) -> bool
    ensures { result ≡ list_all is_printable line.now }
{
    line.iter().all(|byte| *byte >= 32 && *byte <= 126)
}

/// Whether a line says nothing: spaces alone, no byte at all, or a comment.
#[tactic(auto, using(crate::proofs::Scans::blank_next))]
pub fn is_skipped(line: &[u8]) -> bool
    ensures { result ≡ lines.is_blank line.now }
{
    for byte in line {
        if *byte != b' ' {
            return *byte == b'#';
        }
    }
    true
}

/// The tokens of a line, or none if a byte, its length or a part of it is against the rules. A comment isn't told from
/// other lines here: `is_skipped` must be asked first. Fails for want of memory alone.
pub fn tokens(alloc: Global, line: &[u8]) -> Result<Option<Tokens>, AllocError>
    ensures { IfOk result (λ t. t ≡ lines.tokens_of line.now) }
{
    if !is_lexical(line) {
        return Ok(None);
    }
    tokens_of_lexical(alloc, line)
}

/// The tokens of a line whose bytes and length keep the rules, as the caller must know; none if a part of it is no
/// token.
pub(crate) fn tokens_of_lexical(alloc: Global, line: &[u8]) -> Result<Option<Tokens>, AllocError>
    requires { lines.is_lexical line.now ≡ true }
    ensures { IfOk result (λ t. t ≡ lines.tokens_of line.now) }
{
    let mut tokens = Seq::from_vec(Vec::with_capacity(alloc, USUAL_TOKENS)?);
    let mut at = 0;
    while at < line.len() {
        match add_part(alloc, &mut tokens, &line[at..])? {
            Some(size) => at += size,
            None => return Ok(None),
        }
    }
    Ok(Some(tokens))
}

/// Adds the token at the front of some bytes, or passes a space. There must be a byte. Answers how many bytes that
/// takes; none if they begin with no token.
fn add_part(alloc: Global, tokens: &mut Tokens, bytes: &[u8]) -> Result<Option<usize>, AllocError>
    requires { 0 < length bytes.now }
    ensures { IfOk result (parts.ReadsPart tokens.old tokens.new bytes.now) }
{
    match bytes[0] {
        b' ' => Ok(Some(1)),
        b'(' => {
            tokens.push(Token::Left)?;
            Ok(Some(1))
        }
        b')' => {
            tokens.push(Token::Right)?;
            Ok(Some(1))
        }
        b'"' => add_quoted(alloc, tokens, bytes),
        _ => add_bare(alloc, tokens, bytes),
    }
}

/// Adds the word, path or number at the front of some bytes; none if they begin with no such token.
fn add_bare(alloc: Global, tokens: &mut Tokens, bytes: &[u8]) -> Result<Option<usize>, AllocError>
    requires { parts.begins_bare bytes.now ≡ true }
    ensures { IfOk result (parts.ReadsPart tokens.old tokens.new bytes.now) }
{
    let size = bare_length(bytes);
    match bare(alloc, &bytes[..size])? {
        Some(token) => {
            tokens.push(token)?;
            Ok(Some(size))
        }
        None => Ok(None),
    }
}

/// How many bytes stand before the first at which a token ends, or in all.
#[tactic(auto, using(crate::proofs::Parts::bare_next, crate::proofs::Parts::bare_done))]
fn bare_length(bytes: &[u8]) -> usize
    ensures length { result ≡ parts.bare_length bytes.now }
    ensures within { result ≤ length bytes.now }
{
    for (i, byte) in bytes.iter().enumerate() {
        if is_end(*byte) {
            return i;
        }
    }
    bytes.len()
}

/// Adds the quoted text at the front of some bytes, which must begin with its mark; none if it has not the form of one.
fn add_quoted(alloc: Global, tokens: &mut Tokens, bytes: &[u8]) -> Result<Option<usize>, AllocError>
    requires { parts.begins_quoted bytes.now ≡ true }
    ensures { IfOk result (parts.ReadsPart tokens.old tokens.new bytes.now) }
{
    let Some((text, size)) = quoted(alloc, &bytes[1..])? else {
        return Ok(None);
    };
    if text.len() > MOST_TEXT {
        return Ok(None);
    }
    if !may_close(&bytes[size + 1..]) {
        return Ok(None);
    }
    tokens.push(Token::Quoted(text))?;
    Ok(Some(size + 1))
}

/// Whether a quoted text may end before these bytes: at the end of the line, or before a byte that ends a token.
fn may_close(bytes: &[u8]) -> bool
    ensures { result ≡ parts.may_close bytes.now }
{
    match bytes {
        [] => true,
        [first, ..] => is_end(*first),
    }
}

/// The text of these bytes, which follow its opening mark, up to its closing one, and how many bytes that takes with the
/// mark. None if nothing closes it, or if a backslash stands before another byte than a mark or a backslash.
fn quoted(alloc: Global, bytes: &[u8]) -> Result<Option<(Text, usize)>, AllocError>
    ensures { IfOk result (parts.ReadsQuoted bytes.now) }
{
    let mut text = Vec::new(alloc);
    let mut at = 0;
    while at < bytes.len() {
        let end = at + plain_length(&bytes[at..]);
        text.extend_from_slice(&bytes[at..end])?;
        if end < bytes.len() && bytes[end] == b'"' {
            return Ok(Some((Seq::from_vec(text), end + 1)));
        }
        if !is_escape(&bytes[end..]) {
            return Ok(None);
        }
        text.push(bytes[end + 1])?;
        at = end + 2;
    }
    Ok(None)
}

/// How many bytes stand before the first mark or backslash, or in all.
#[tactic(auto, using(crate::proofs::Parts::plain_next, crate::proofs::Parts::plain_done))]
fn plain_length(bytes: &[u8]) -> usize
    ensures length { result ≡ parts.plain_length bytes.now }
    ensures within { result ≤ length bytes.now }
{
    for (i, byte) in bytes.iter().enumerate() {
        if *byte == b'"' || *byte == b'\\' {
            return i;
        }
    }
    bytes.len()
}

/// Whether these bytes begin with a backslash that escapes a mark or a backslash.
fn is_escape(bytes: &[u8]) -> bool
    ensures { result ≡ parts.is_escape bytes.now }
{
    matches!(bytes, [b'\\', b'"' | b'\\', ..])
}

/// Whether a token ends before this byte.
fn is_end(byte: u8) -> bool
    ensures { result ≡ lines.is_end byte }
{
    byte == b' ' || byte == b'(' || byte == b')'
}

/// The word, path or number that these bytes are, if they are one.
fn bare(alloc: Global, bytes: &[u8]) -> Result<Option<Token>, AllocError>
    ensures { IfOk result (λ t. t ≡ lines.bare_of bytes.now) }
{
    if is_word(bytes) {
        return Ok(Some(Token::Word(Seq::from_vec(bytes.to_vec(alloc)?))));
    }
    match number(bytes) {
        Some(n) => Ok(Some(Token::Number(n))),
        None => path(alloc, bytes),
    }
}

/// The path that these bytes are, if they are one.
fn path(alloc: Global, bytes: &[u8]) -> Result<Option<Token>, AllocError>
    ensures { IfOk result (λ t. t ≡ lines.path_of bytes.now) }
{
    let Some(dot) = first_dot(bytes) else {
        return Ok(None);
    };
    let (first, second) = (&bytes[..dot], &bytes[dot + 1..]);
    if !is_word(first) || !is_word(second) {
        return Ok(None);
    }
    Ok(Some(Token::Path(
        Seq::from_vec(first.to_vec(alloc)?),
        Seq::from_vec(second.to_vec(alloc)?),
    )))
}

fn first_dot(bytes: &[u8]) -> Option<usize>
    ensures { result ≡ position (λ b. b == lines.dot) bytes.now }
{
    bytes.iter().position(|byte| *byte == b'.')
}

/// Whether these bytes are a word.
fn is_word(bytes: &[u8]) -> bool
    ensures { result ≡ lines.is_word bytes.now }
{
    match bytes {
        [] => false,
        [first, rest @ ..] => is_letter(*first) && rest.len() < 32 && are_word_bytes(rest),
    }
}

fn is_letter(byte: u8) -> bool
    ensures { result ≡ lines.is_letter byte }
{
    byte.is_ascii_alphabetic()
}

fn are_word_bytes(bytes: &[u8]) -> bool
    ensures { result ≡ list_all lines.is_word_byte bytes.now }
{
    bytes.iter().all(|byte| is_word_byte(*byte))
}

fn is_word_byte(byte: u8) -> bool
    ensures { result ≡ lines.is_word_byte byte }
{
    is_letter(byte) || byte.is_ascii_digit() || byte == b'_' || byte == b'-'
}

/// The number that these bytes are, if they are one.
fn number(bytes: &[u8]) -> Option<i64>
    ensures { result ≡ lines.number_of bytes.now }
{
    match bytes {
        [b'-', digits @ ..] => negative(digits),
        _ => natural(bytes),
    }
}

/// The number that digits stand for, if they are `0`, or don't begin with 0.
fn natural(digits: &[u8]) -> Option<i64>
    ensures { result ≡ lines.natural_of digits.now }
{
    if !is_natural(digits) {
        return None;
    }
    let size = size_of_digits(digits)?;
    if size < 1 << 63 {
        Some(size as i64)
    } else {
        None
    }
}

/// The number that digits stand for after a minus. They must not begin with 0.
#[tactic(auto, using(crate::proofs::Scans::positive_size))]
fn negative(digits: &[u8]) -> Option<i64>
    ensures { result ≡ lines.negative_of digits.now }
{
    if !is_positive(digits) {
        return None;
    }
    let size = size_of_digits(digits)?;
    if size <= 1 << 63 {
        Some(negated(size))
    } else {
        None
    }
}

/// The number of this size below 0.
fn negated(size: u64) -> i64
    requires more { 0 < size }
    requires fits { size ≤ 2 ^ 63 }
    ensures { result ≡ neg_ℤ (pos size) }
{
    -((size - 1) as i64) - 1
}
