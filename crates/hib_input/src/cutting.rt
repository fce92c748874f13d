// Where a line cuts a text: a script from the journal or the section that comes after it.
ghost use Rattle.std.specs.Prelude.{◌≡◌, ◌≤◌, ◌+◌, IfOk, IfErr, length, take, drop, Some, None};
ghost use Rattle.hib_lex.specs.Lines.{lines_of};
ghost use Rattle.hib_input.specs.Cut.{is_mark, cut};

use hib_lex::line_length;

/// Where a text is cut.
#[derive(Clone, Copy)]
pub struct Cut {
    /// The bytes before the line.
    pub before: usize,
    /// The bytes before what comes after that line.
    pub behind: usize,
    /// The number of lines before it.
    pub lines: usize,
}

/// Whether a line is this word and no more.
fn is_mark(word: &[u8], line: &[u8]) -> bool
    ensures { result ≡ is_mark word.now line.now }
{
    line == word
}

/// Where the first line that is this word and no more cuts a text; or the number of lines, if there is none.
#[tactic(auto, using(hib_lex::proofs::Texts::length_fits))]
pub fn cut_of(text: &[u8], word: &[u8]) -> Result<Cut, usize>
    ensures within { IfOk result (λ c. (c.before ≤ c.behind)
        × (c.behind ≤ length text.now)) }
    ensures lines { IfOk result (λ c. c.lines ≡ length (lines_of (take c.before text.now))) }
    ensures short { IfOk result (λ c. c.lines ≤ c.before) }
    ensures cut { IfOk result (λ c. cut word.now (lines_of text.now)
        ≡ Some (lines_of (take c.before text.now), lines_of (drop c.behind text.now))) }
    ensures none { IfErr result (λ n. cut word.now (lines_of text.now) ≡ None) }
    ensures count { IfErr result (λ n. n ≡ length (lines_of text.now)) }
    ensures few { IfErr result (λ n. n ≤ length text.now + 1) }
{
    let mut start = 0;
    let mut count = 0;
    while start < text.len() {
        let end = start + line_length(&text[start..]);
        if is_mark(word, &text[start..end]) {
            return Ok(Cut {
                before: start,
                behind: text.len().min(end + 1),
                lines: count,
            });
        }
        start = end + 1;
        count += 1;
    }
    Err(count)
}
