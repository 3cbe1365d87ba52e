//! A line that is being made, of texts and of words in ASCII.

ghost use Rattle.std.specs.Prelude.{◌≡◌, [], ◌∷◌, ◌++◌, true, OnOk, IfOk};
ghost use Rattle.atspi_speech.specs.Words.{behind_commas, is_plain};

use atspi_base::{NoMemory, Text};
use std::alloc::Global;
use std::marker::Model;

/// A line. Contracts see its characters.
#[derive(Drop)]
pub(crate) struct Line {
    string: String,
}

impl Model for Line {
    ghost use Rattle.std.specs.Prelude.{ℕ, List, chars, string_bytes};
    ghost use Rattle.atspi_base.specs.Text.{HasNoZero};

    ghost Value = { List ℕ };

    ghost view = { λ line. chars (string_bytes line.string) };

    ghost invariant = { λ line. HasNoZero (string_bytes line.string) };
}

impl Line {
    /// An empty line.
    pub(crate) fn new(alloc: Global) -> Line
        ensures { result ≡ [] }
    {
        Line {
            string: String::new(alloc),
        }
    }

    /// Appends a text.
    pub(crate) fn push(&mut self, text: &Text) -> Result<(), NoMemory>
        ensures { OnOk result (self.new ≡ self.old ++ text.now) }
    {
        self.string.push_str(text.as_str())?;
        Ok(())
    }

    /// Appends a word.
    pub(crate) fn push_word(&mut self, word: &str) -> Result<(), NoMemory>
        requires plain { is_plain word.now ≡ true }
        ensures { OnOk result (self.new ≡ self.old ++ word.now) }
    {
        self.string.push_str(word)?;
        Ok(())
    }

    /// The line as a text. One of 4,294,967,296 bytes or more is answered as want of memory.
    pub(crate) fn into_text(self, alloc: Global) -> Result<Text, NoMemory>
        ensures { IfOk result (λ text. text ≡ self) }
    {
        if self.string.len() >= 4_294_967_296 {
            return Err(NoMemory);
        }
        Text::of(alloc, self.string.as_str())
    }
}

/// Appends a word behind a comma and a blank.
pub(crate) fn push_piece(line: &mut Line, word: &str) -> Result<(), NoMemory>
    requires plain { is_plain word.now ≡ true }
    ensures { OnOk result (line.new ≡ line.old ++ behind_commas (word.now ∷ [])) }
{
    line.push_word(", ")?;
    line.push_word(word)
}
