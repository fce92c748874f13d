// The forms of lines that are no declarations, and the names that lines declare.
ghost use Rattle.hib_script.specs.Lines as lines;
ghost use Rattle.std.specs.Prelude.{◌≡◌};

use hib_base::Kind;
use hib_lex::{Token, is_the_word};
use hib_mapping::{is_number, is_within, number_up_to, word_bytes};

/// The name that a line declares; no bytes if it declares none.
pub fn name_in(tokens: &[Token]) -> &[u8]
    ensures { result.now ≡ lines.name_in tokens.now }
{
    match tokens {
        [_, name, ..] => word_bytes(name),
        _ => b"",
    }
}

/// Whether a line has one token and no more.
pub fn is_alone(tokens: &[Token]) -> bool
    ensures { result ≡ lines.is_alone tokens.now }
{
    matches!(tokens, [_])
}

/// Whether a line is `hib 1`.
pub fn is_header(tokens: &[Token]) -> bool
    ensures { result ≡ lines.is_header tokens.now }
{
    match tokens {
        [first, version] => is_the_word(first, b"hib") && is_within(version, 1, 1),
        _ => false,
    }
}

/// The number, from 1 to `most`, of a line of a word and a number.
pub fn number_line(most: u32, tokens: &[Token]) -> Result<u32, Kind>
    ensures { result ≡ lines.number_line most tokens.now }
{
    match tokens {
        [_, number] => number_within(most, number),
        _ => Err(Kind::Words),
    }
}

/// The number that a token is, from 1 to `most`.
fn number_within(most: u32, token: &Token) -> Result<u32, Kind>
    ensures { result ≡ lines.number_within most token.now }
{
    if !is_number(token) {
        Err(Kind::Words)
    } else if is_within(token, 1, most) {
        Ok(number_up_to(token, most))
    } else {
        Err(Kind::Number)
    }
}
