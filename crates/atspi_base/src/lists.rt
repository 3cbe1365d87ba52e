//! Lists that contracts compare: of texts, of numbers, of ranges.

ghost use Rattle.std.specs.Prelude.{◌≡◌, ℕ, List, [], ◌∷◌, ◌++◌, length, OnOk, OnErr, IfOk, take};

use crate::{NoMemory, Text};
use std::alloc::Global;
use std::marker::Model;

/// A list of texts.
#[derive(Drop)]
pub struct Texts {
    items: Vec<Text>,
}

impl Model for Texts {
    ghost Value = { List (List ℕ) };

    ghost view = { λ t. t.items.items };
}

impl Texts {
    /// No text.
    pub fn new(alloc: Global) -> Texts
        ensures { result ≡ [] }
    {
        Texts {
            items: Vec::new(alloc),
        }
    }

    /// The texts of a `Vec`, which are not copied.
    pub fn from_vec(items: Vec<Text>) -> Texts
        ensures { result ≡ items.items }
    {
        Texts { items }
    }

    /// The texts as a `Vec`, not copied.
    pub fn into_vec(self) -> Vec<Text>
        ensures { result.items ≡ self }
    {
        self.items
    }

    /// The texts in order.
    pub fn as_slice(&self) -> &[Text]
        ensures { result.now ≡ self.now }
    {
        &self.items
    }

    /// How many texts there are.
    pub fn len(&self) -> usize
        ensures { result ≡ length self.now }
    {
        self.items.len()
    }

    /// Appends a text. After want of memory the list is as before.
    pub fn push(&mut self, text: Text) -> Result<(), NoMemory>
        ensures ok { OnOk result (self.new ≡ self.old ++ text ∷ []) }
        ensures err { OnErr result (self.new ≡ self.old) }
    {
        self.items.push(text)?;
        Ok(())
    }

    /// Keeps the first `len` texts.
    pub fn truncate(&mut self, len: usize)
        ensures { self.new ≡ take len self.old }
    {
        self.items.truncate(len);
    }

    /// An equal list.
    pub fn copy(&self, alloc: Global) -> Result<Texts, NoMemory>
        ensures { IfOk result (λ texts. texts ≡ self.now) }
    {
        let mut items = Vec::with_capacity(alloc, self.items.len())?;
        for text in &self.items {
            items.push(text.copy(alloc)?)?;
        }
        Ok(Texts { items })
    }
}

/// A list of numbers, of nodes say.
#[derive(Drop)]
pub struct Nums {
    items: Vec<u32>,
}

impl Model for Nums {
    ghost Value = { List ℕ };

    ghost view = { λ n. n.items.items };
}

impl Nums {
    /// No number.
    pub fn new(alloc: Global) -> Nums
        ensures { result ≡ [] }
    {
        Nums {
            items: Vec::new(alloc),
        }
    }

    /// The numbers of a `Vec`, which are not copied.
    pub fn from_vec(items: Vec<u32>) -> Nums
        ensures { result ≡ items.items }
    {
        Nums { items }
    }

    /// The numbers as a `Vec`, not copied.
    pub fn into_vec(self) -> Vec<u32>
        ensures { result.items ≡ self }
    {
        self.items
    }

    /// The numbers in order.
    pub fn as_slice(&self) -> &[u32]
        ensures { result.now ≡ self.now }
    {
        &self.items
    }

    /// How many numbers there are.
    pub fn len(&self) -> usize
        ensures { result ≡ length self.now }
    {
        self.items.len()
    }

    /// Appends a number. After want of memory the list is as before.
    pub fn push(&mut self, number: u32) -> Result<(), NoMemory>
        ensures ok { OnOk result (self.new ≡ self.old ++ number ∷ []) }
        ensures err { OnErr result (self.new ≡ self.old) }
    {
        self.items.push(number)?;
        Ok(())
    }

    /// Keeps the first `len` numbers.
    pub fn truncate(&mut self, len: usize)
        ensures { self.new ≡ take len self.old }
    {
        self.items.truncate(len);
    }

    /// An equal list.
    pub fn copy(&self, alloc: Global) -> Result<Nums, NoMemory>
        ensures { IfOk result (λ numbers. numbers ≡ self.now) }
    {
        Ok(Nums {
            items: self.items.to_vec(alloc)?,
        })
    }
}

/// A list of ranges in a text, each from its first character up to the one behind its last.
#[derive(Drop)]
pub struct Marks {
    items: Vec<(u32, u32)>,
}

impl Model for Marks {
    ghost Value = { List (ℕ × ℕ) };

    ghost view = { λ m. m.items.items };
}

impl Marks {
    /// No range.
    pub fn new(alloc: Global) -> Marks
        ensures { result ≡ [] }
    {
        Marks {
            items: Vec::new(alloc),
        }
    }

    /// The ranges of a `Vec`, which are not copied.
    pub fn from_vec(items: Vec<(u32, u32)>) -> Marks
        ensures { result ≡ items.items }
    {
        Marks { items }
    }

    /// The ranges as a `Vec`, not copied.
    pub fn into_vec(self) -> Vec<(u32, u32)>
        ensures { result.items ≡ self }
    {
        self.items
    }

    /// The ranges in order.
    pub fn as_slice(&self) -> &[(u32, u32)]
        ensures { result.now ≡ self.now }
    {
        &self.items
    }

    /// How many ranges there are.
    pub fn len(&self) -> usize
        ensures { result ≡ length self.now }
    {
        self.items.len()
    }

    /// Appends a range. After want of memory the list is as before.
    pub fn push(&mut self, range: (u32, u32)) -> Result<(), NoMemory>
        ensures ok { OnOk result (self.new ≡ self.old ++ range ∷ []) }
        ensures err { OnErr result (self.new ≡ self.old) }
    {
        self.items.push(range)?;
        Ok(())
    }

    /// An equal list.
    pub fn copy(&self, alloc: Global) -> Result<Marks, NoMemory>
        ensures { IfOk result (λ ranges. ranges ≡ self.now) }
    {
        Ok(Marks {
            items: self.items.to_vec(alloc)?,
        })
    }
}
