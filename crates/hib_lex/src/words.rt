// Tokens that are a given word, and lines that begin with one, as all readers of lines ask.
ghost use Rattle.hib_lex.specs.Words as words;
ghost use Rattle.std.specs.Prelude.{◌≡◌};

use crate::lexer::Token;

/// Whether a token is this word.
pub fn is_the_word(token: &Token, word: &[u8]) -> bool
    ensures { result ≡ words.is_the_word word.now token.now }
{
    match token {
        Token::Word(text) => text.as_slice() == word,
        _ => false,
    }
}

/// Whether a line begins with this word.
pub fn begins(tokens: &[Token], word: &[u8]) -> bool
    ensures { result ≡ words.begins word.now tokens.now }
{
    match tokens {
        [] => false,
        [first, ..] => is_the_word(first, word),
    }
}
