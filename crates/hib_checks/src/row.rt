// A row of the checks, which is none of a table: its name, and what the lines that describe it say, in the form that the
// head of the file `stdin` says.
use hib_base::{EntityNo, Key, Rows, Seq};
use hib_entry_fields::{number_of, piece, row_at};
use std::alloc::{AllocError, Global};

/// A line of a row's description: its first word, and the text after it.
#[derive(Drop)]
struct Line {
    word: String,
    text: String,
}

/// What goes into the top call, and what must come of it, as the lines of its description say.
#[derive(Drop)]
pub struct Row {
    /// The row's name.
    pub name: String,
    /// The bytes of the source.
    pub input: Vec<u8>,
    /// The bytes that are to be written, if no lines of them are named.
    pub output: Vec<u8>,
    /// The lines that say something else.
    lines: Vec<Line>,
}

/// Whether a word is one of these.
fn is_one_of(word: &str, words: &[&str]) -> bool {
    words.iter().any(|one| *one == word)
}

/// Whether a line has a form that says neither bytes of the input nor such as are to be written.
fn has_form(word: &str, text: &str) -> bool {
    is_one_of(word, &["words", "also", "has", "says"])
        || (is_one_of(
            word,
            &[
                "status",
                "keeps",
                "asks",
                "room",
                "source-fails",
                "sink-fails",
                "keeper-fails",
            ],
        ) && text.parse::<u32>().is_ok())
        || (word == "kept" && kept_id(text).0 > 0)
}

/// The identifier of a row that the keeper has at first, and what follows it.
fn kept_id(text: &str) -> (u64, &[u8]) {
    let (id, rest) = piece(text.as_bytes());
    (number_of(id), rest)
}

impl Row {
    /// A row of which nothing but the name is known: no words, no input, and nothing wanted but status 0.
    pub fn new(alloc: Global, name: &str) -> Result<Row, AllocError> {
        Ok(Row {
            name: String::from_str(alloc, name)?,
            input: Vec::new(alloc),
            output: Vec::new(alloc),
            lines: Vec::new(alloc),
        })
    }

    /// Takes a line of the row's description, and answers whether it has a form.
    pub fn take(&mut self, alloc: Global, word: &str, text: &str) -> Result<bool, AllocError> {
        match word {
            "in" => add_line(&mut self.input, text)?,
            "out" => add_line(&mut self.output, text)?,
            "piece" => self.output.extend_from_slice(text.as_bytes())?,
            _ => return self.keep(alloc, word, text),
        }
        Ok(true)
    }

    /// Keeps a line that says something else, and answers whether it has a form.
    fn keep(&mut self, alloc: Global, word: &str, text: &str) -> Result<bool, AllocError> {
        if !has_form(word, text) {
            return Ok(false);
        }
        let word = String::from_str(alloc, word)?;
        let text = String::from_str(alloc, text)?;
        self.lines.push(Line { word, text })?;
        Ok(true)
    }

    /// The text of the first line of this word, if there is one.
    pub fn text(&self, word: &str) -> Option<&str> {
        let line = self.lines.iter().find(|line| line.word.as_str() == word)?;
        Some(line.text.as_str())
    }

    /// The number of the first line of this word, if there is one.
    pub fn number(&self, word: &str) -> Option<u32> {
        self.text(word)?.parse().ok()
    }

    /// That number as a list, which is empty if there is none.
    pub fn numbers(&self, alloc: Global, word: &str) -> Result<Seq<u32>, AllocError> {
        let mut numbers = Seq::new(alloc);
        if let Some(number) = self.number(word) {
            numbers.push(number)?;
        }
        Ok(numbers)
    }

    /// The words of the first line of this word.
    pub fn words(&self, alloc: Global, word: &str) -> Result<Vec<String>, AllocError> {
        let mut words = Vec::new(alloc);
        for one in self.text(word).unwrap_or("").split(' ') {
            if !one.is_empty() {
                words.push(String::from_str(alloc, one)?)?;
            }
        }
        Ok(words)
    }

    /// The first line that is to be written and doesn't stand in this text after those that are named before it.
    pub fn missing(&self, text: &str) -> Option<&str> {
        let mut written = text.lines();
        for line in self.lines.as_slice() {
            let wanted = line.text.as_str();
            if line.word.as_str() == "has" && !written.any(|one| one == wanted) {
                return Some(wanted);
            }
        }
        None
    }

    /// The rows that the keeper has at first.
    pub fn kept(&self, alloc: Global) -> Result<Rows, AllocError> {
        let mut rows = Seq::new(alloc);
        for line in self.lines.as_slice() {
            if line.word.as_str() == "kept" {
                add_kept(alloc, &mut rows, line.text.as_str())?;
            }
        }
        Ok(rows)
    }
}

fn add_line(bytes: &mut Vec<u8>, text: &str) -> Result<(), AllocError> {
    bytes.extend_from_slice(text.as_bytes())?;
    bytes.push(b'\n')?;
    Ok(())
}

/// Adds a row of the first entity.
fn add_kept(alloc: Global, rows: &mut Rows, text: &str) -> Result<(), AllocError> {
    let (id, rest) = kept_id(text);
    let (row, _) = row_at(alloc, rest)?;
    let entity = EntityNo(0);
    rows.push((Key { entity, id }, row))
}
