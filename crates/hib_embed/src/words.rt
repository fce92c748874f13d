// Words that come as the lines of a text.
ghost use Rattle.std.specs.Prelude.{◌≡◌, IfOk, map, string_bytes};
ghost use Rattle.std.specs.Str.Lines.{lines};
ghost use Rattle.hib_embed.specs.Words.{words_in};

use std::alloc::{AllocError, Global};

/// The words of a text, one a line. A text that isn't UTF-8 has none. Fails for want of memory alone.
pub fn words_in(alloc: Global, text: &[u8]) -> Result<Vec<String>, AllocError>
    ensures { IfOk result (λ words. map string_bytes words.items ≡ words_in text.now) }
{
    match str::from_utf8(text) {
        Ok(text) => lines_of(alloc, text),
        Err(_) => Ok(Vec::new(alloc)),
    }
}

/// The lines of a text, each as a text of its own.
fn lines_of(alloc: Global, text: &str) -> Result<Vec<String>, AllocError>
    ensures { IfOk result (λ words. map string_bytes words.items ≡ lines text.now) }
{
    let mut words = Vec::new(alloc);
    for line in text.lines() {
        words.push(String::from_str(alloc, line)?)?;
    }
    Ok(words)
}
