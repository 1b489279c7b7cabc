ghost use Rattle.std.specs.Prelude.{◌≡◌, ℕ, List, [], ◌∷◌, ◌++◌, length, OnOk, OnErr, slice_get, ◌==◌};

use std::alloc::{AllocError, Global};
use std::marker::Model;

/// A list of numbers, as of instances or parties.
#[derive(Drop)]
pub struct Ids {
    items: Vec<u32>,
}

impl Model for Ids {
    ghost Value = { List ℕ };

    ghost view = { λ a. a.items.items };
}

impl Ids {
    /// The empty list, which takes no memory.
    pub fn new(alloc: Global) -> Ids
        ensures { result ≡ [] }
    {
        Ids {
            items: Vec::new(alloc),
        }
    }

    /// Takes over a list of numbers.
    pub fn from_vec(items: Vec<u32>) -> Ids
        ensures { result ≡ items.items }
    {
        Ids { items }
    }

    /// Puts a number behind the others.
    pub fn push(&mut self, item: u32) -> Result<(), AllocError>
        ensures ok { OnOk result (self.new ≡ self.old ++ item ∷ []) }
        ensures err { OnErr result (self.new ≡ self.old) }
    {
        self.items.push(item)?;
        Ok(())
    }

    /// The number of numbers.
    pub fn len(&self) -> usize
        ensures { result ≡ length self.now }
    {
        self.items.len()
    }

    /// Whether there is none.
    pub fn is_empty(&self) -> bool
        ensures { result ≡ (length self.now == 0) }
    {
        self.items.is_empty()
    }

    /// The number at a place.
    pub fn get(&self, place: usize) -> Option<u32>
        ensures { result ≡ slice_get self.now place }
    {
        self.items.get(place).copied()
    }

    /// All numbers.
    pub fn as_slice(&self) -> &[u32]
        ensures { result.now ≡ self.now }
    {
        self.items.as_slice()
    }

    /// Gives the list of numbers back.
    pub fn into_vec(self) -> Vec<u32>
        ensures { result.items ≡ self }
    {
        self.items
    }
}

/// A list of places of inputs: the number of a circuit, and of an input of it.
#[derive(Drop)]
pub struct Slots {
    items: Vec<(u32, u32)>,
}

impl Model for Slots {
    ghost Value = { List (ℕ × ℕ) };

    ghost view = { λ a. a.items.items };
}

impl Slots {
    /// The empty list, which takes no memory.
    pub fn new(alloc: Global) -> Slots
        ensures { result ≡ [] }
    {
        Slots {
            items: Vec::new(alloc),
        }
    }

    /// Takes over a list of places.
    pub fn from_vec(items: Vec<(u32, u32)>) -> Slots
        ensures { result ≡ items.items }
    {
        Slots { items }
    }

    /// Puts a place behind the others.
    pub fn push(&mut self, item: (u32, u32)) -> Result<(), AllocError>
        ensures ok { OnOk result (self.new ≡ self.old ++ item ∷ []) }
        ensures err { OnErr result (self.new ≡ self.old) }
    {
        self.items.push(item)?;
        Ok(())
    }

    /// The number of places.
    pub fn len(&self) -> usize
        ensures { result ≡ length self.now }
    {
        self.items.len()
    }

    /// Whether there is none.
    pub fn is_empty(&self) -> bool
        ensures { result ≡ (length self.now == 0) }
    {
        self.items.is_empty()
    }

    /// The place at a place of the list.
    pub fn get(&self, place: usize) -> Option<(u32, u32)>
        ensures { result ≡ slice_get self.now place }
    {
        self.items.get(place).copied()
    }

    /// All places.
    pub fn as_slice(&self) -> &[(u32, u32)]
        ensures { result.now ≡ self.now }
    {
        self.items.as_slice()
    }

    /// Gives the list of places back.
    pub fn into_vec(self) -> Vec<(u32, u32)>
        ensures { result.items ≡ self }
    {
        self.items
    }
}
