// The printer of scripts: tokens are appended to a text, with a space if one stands between them.
ghost use Rattle.std.specs.Prelude.{◌≡◌, ◌+◌, ◌++◌, [], ◌∷◌, OnOk, if◌then◌else◌, true, false, codes, Some};
ghost use Rattle.hib_lex.specs.declared.lexer.Token.{Token};
ghost use Rattle.hib_print.specs.Lines.{natural, cell_token, cell_tokens, key_tokens};
ghost use Rattle.hib_print.specs.Steps.{Adds, AddsLines};
ghost use Rattle.hib_texts.specs.Texts.{version_text};

use hib_base::{Cell, Key, Script};
use hib_texts::{entity_name, put_labelled, put_number, put_signed, put_text};
use std::alloc::{AllocError, Global};

/// A text to which tokens are appended.
#[derive(Drop)]
pub struct Printer {
    /// The text so far.
    pub text: Vec<u8>,
    /// Whether the next token needs no space before it: it is the first of a line, or after an opening parenthesis.
    pub glued: bool,
}

impl Printer {
    /// The printer without text, at the beginning of the first line.
    pub fn new(alloc: Global) -> Self
        ensures text { result.text.items ≡ [] }
        ensures glued { result.glued ≡ true }
    {
        Printer {
            text: Vec::new(alloc),
            glued: true,
        }
    }

    // Adds the space before a token that isn't a closing parenthesis.
    fn space(&mut self) -> Result<(), AllocError>
        ensures text { OnOk result (self.new.text.items
            ≡ self.old.text.items ++ (if self.old.glued then [] else codes " ")) }
        ensures glued { OnOk result (self.new.glued ≡ false) }
    {
        if !self.glued {
            self.text.push(b' ')?;
        }
        self.glued = false;
        Ok(())
    }

    /// Adds a word.
    pub fn word(&mut self, word: &[u8]) -> Result<(), AllocError>
        ensures { OnOk result (Adds self.old self.new (Token.Word word.now ∷ [])) }
    {
        self.space()?;
        self.text.extend_from_slice(word)
    }

    /// Adds two words that a dot joins.
    pub fn path(&mut self, first: &[u8], second: &[u8]) -> Result<(), AllocError>
        ensures { OnOk result (Adds self.old self.new (Token.Path first.now second.now ∷ [])) }
    {
        self.space()?;
        self.text.extend_from_slice(first)?;
        self.text.extend_from_slice(b".")?;
        self.text.extend_from_slice(second)
    }

    /// Adds a number.
    pub fn natural(&mut self, alloc: Global, n: u64) -> Result<(), AllocError>
        ensures { OnOk result (Adds self.old self.new (natural n ∷ [])) }
    {
        self.space()?;
        put_number(alloc, &mut self.text, n)
    }

    fn signed(&mut self, alloc: Global, n: i64) -> Result<(), AllocError>
        ensures { OnOk result (Adds self.old self.new (Token.Number n ∷ [])) }
    {
        self.space()?;
        put_signed(alloc, &mut self.text, n)
    }

    /// Adds the version of a row, as a word.
    pub fn version(&mut self, alloc: Global, version: u32) -> Result<(), AllocError>
        ensures { OnOk result (Adds self.old self.new
            (Token.Word (version_text (Some version)) ∷ [])) }
    {
        self.space()?;
        put_labelled(alloc, &mut self.text, b"v", u64::from(version))
    }

    fn quoted(&mut self, bytes: &[u8]) -> Result<(), AllocError>
        ensures { OnOk result (Adds self.old self.new (Token.Quoted bytes.now ∷ [])) }
    {
        self.space()?;
        put_text(&mut self.text, bytes)
    }

    /// Adds an opening parenthesis.
    pub fn left(&mut self) -> Result<(), AllocError>
        ensures { OnOk result (Adds self.old self.new (Token.Left ∷ [])) }
    {
        self.space()?;
        self.text.push(b'(')?;
        self.glued = true;
        Ok(())
    }

    /// Adds a closing parenthesis.
    pub fn right(&mut self) -> Result<(), AllocError>
        ensures { OnOk result (Adds self.old self.new (Token.Right ∷ [])) }
    {
        self.text.push(b')')?;
        self.glued = false;
        Ok(())
    }

    /// Adds the end of a line.
    pub fn end_line(&mut self) -> Result<(), AllocError>
        ensures text { OnOk result (self.new.text.items ≡ self.old.text.items ++ codes "\n") }
        ensures glued { OnOk result (self.new.glued ≡ true) }
    {
        self.text.push(b'\n')?;
        self.glued = true;
        Ok(())
    }

    /// Adds a cell.
    pub fn cell(&mut self, alloc: Global, cell: &Cell) -> Result<(), AllocError>
        ensures { OnOk result (Adds self.old self.new (cell_token cell.now ∷ [])) }
    {
        match cell {
            Cell::Int(n) => self.signed(alloc, *n),
            Cell::Text(t) => self.quoted(t.as_slice()),
            Cell::Bool(true) => self.word(b"true"),
            Cell::Bool(false) => self.word(b"false"),
        }
    }

    /// Adds cells, in order.
    pub fn cells(&mut self, alloc: Global, cells: &[Cell]) -> Result<(), AllocError>
        ensures { OnOk result (Adds self.old self.new (cell_tokens cells.now)) }
    {
        for cell in cells {
            self.cell(alloc, cell)?;
        }
        Ok(())
    }

    /// Adds a word, and the key that it is about.
    pub fn keyed(
        &mut self,
        alloc: Global,
        script: &Script,
        word: &[u8],
        key: Key,
    ) -> Result<(), AllocError>
        ensures { OnOk result (Adds self.old self.new
            (Token.Word word.now ∷ key_tokens script.now key)) }
    {
        self.word(word)?;
        self.word(entity_name(script, key.entity))?;
        self.natural(alloc, key.id)
    }

    /// Adds a word, and the name that it is about.
    pub fn words(&mut self, word: &[u8], name: &[u8]) -> Result<(), AllocError>
        ensures { OnOk result (Adds self.old self.new
            (Token.Word word.now ∷ Token.Word name.now ∷ [])) }
    {
        self.word(word)?;
        self.word(name)
    }

    /// Adds a word, and a number.
    pub fn counted(&mut self, alloc: Global, word: &[u8], n: u64) -> Result<(), AllocError>
        ensures { OnOk result (Adds self.old self.new (Token.Word word.now ∷ natural n ∷ [])) }
    {
        self.word(word)?;
        self.natural(alloc, n)
    }

    /// Adds a line of one word.
    pub fn word_line(&mut self, word: &[u8]) -> Result<(), AllocError>
        ensures { OnOk result (AddsLines self.old self.new ((Token.Word word.now ∷ []) ∷ [])) }
    {
        self.word(word)?;
        self.end_line()
    }
}
