// Texts that have numbers.
ghost use Rattle.hib_trace_numbers.specs.Texts.{IsApart, IsNamed, Keeps, texts};
ghost use Rattle.std.specs.Prelude.{◌≡◌, [], IfOk, length, option_map, slice_get};

use indexmap::IndexSet;
use std::alloc::{AllocError, Global};

/// Texts, each of which has a number: its place among them.
#[derive(Drop)]
pub struct Names {
    /// The texts.
    pub set: IndexSet<String>,
}

impl Names {
    /// No texts.
    pub fn new(alloc: Global) -> Self
        ensures { texts result ≡ [] }
    {
        Names {
            set: IndexSet::new(alloc),
        }
    }

    /// How many texts have a number: the numbers are below it.
    pub fn len(&self) -> usize
        ensures { result ≡ length (texts self.now) }
    {
        self.set.len()
    }

    /// The text that has a number.
    pub fn text(&self, number: usize) -> Option<&str>
        ensures { option_map (λ s. s.now) result ≡ slice_get (texts self.now) number }
    {
        match self.set.get_index(number) {
            Some(text) => Some(text.as_str()),
            None => None,
        }
    }

    /// The number of a text: a new one, if it has none. If memory is wanting the texts that have numbers keep them.
    pub fn number(&mut self, alloc: Global, text: &str) -> Result<usize, AllocError>
        ensures named { IfOk result (λ n. IsNamed (texts self.new) n text.now) }
        ensures keeps { Keeps (texts self.old) (texts self.new) }
        ensures apart { IsApart (texts self.old) → IsApart (texts self.new) }
    {
        let (number, _) = self.set.insert_full(String::from_str(alloc, text)?)?;
        Ok(number)
    }
}
