ghost use Rattle.std.specs.Prelude.{◌≡◌, ℕ, ◌<◌, List, [], ◌∷◌, ◌++◌, length, OnOk, OnErr, slice_get, slice_index_or, option_copied, ◌==◌};

use std::alloc::{AllocError, Global};
use std::marker::Model;

/// A plaintext: its coefficients from the constant on. It fits parameters where it has n entries,
/// each below t.
#[derive(Drop)]
pub struct Plain {
    coeffs: Vec<u64>,
}

impl Model for Plain {
    ghost Value = { List ℕ };

    ghost view = { λ a. a.coeffs.items };
}

impl Plain {
    /// The empty list, which takes no memory.
    pub fn new(alloc: Global) -> Plain
        ensures { result ≡ [] }
    {
        Plain {
            coeffs: Vec::new(alloc),
        }
    }

    /// Takes over a list of coefficients.
    pub fn from_vec(coeffs: Vec<u64>) -> Plain
        ensures { result ≡ coeffs.items }
    {
        Plain { coeffs }
    }

    /// Puts a coefficient behind the others.
    pub fn push(&mut self, coeff: u64) -> Result<(), AllocError>
        ensures ok { OnOk result (self.new ≡ self.old ++ coeff ∷ []) }
        ensures err { OnErr result (self.new ≡ self.old) }
    {
        self.coeffs.push(coeff)?;
        Ok(())
    }

    /// The number of coefficients.
    pub fn len(&self) -> usize
        ensures { result ≡ length self.now }
    {
        self.coeffs.len()
    }

    /// Whether there is no coefficient.
    pub fn is_empty(&self) -> bool
        ensures { result ≡ (length self.now == 0) }
    {
        self.coeffs.is_empty()
    }

    /// The coefficient at a place.
    pub fn get(&self, place: usize) -> Option<u64>
        ensures { result ≡ slice_get self.now place }
    {
        self.coeffs.get(place).copied()
    }

    /// All coefficients, lowest degree first.
    pub fn coeffs(&self) -> &[u64]
        ensures { result.now ≡ self.now }
    {
        self.coeffs.as_slice()
    }

    /// Gives the list of coefficients back.
    pub fn into_vec(self) -> Vec<u64>
        ensures { result.items ≡ self }
    {
        self.coeffs
    }
}

/// A list of plaintexts, as the values of a circuit's inputs.
#[derive(Drop)]
pub struct Plains {
    items: Vec<Plain>,
}

impl Model for Plains {
    ghost Value = { List (List ℕ) };

    ghost view = { λ a. a.items.items };
}

impl Plains {
    /// The empty list, which takes no memory.
    pub fn new(alloc: Global) -> Plains
        ensures { result ≡ [] }
    {
        Plains {
            items: Vec::new(alloc),
        }
    }

    /// Takes over a list of plaintexts.
    pub fn from_vec(items: Vec<Plain>) -> Plains
        ensures { result ≡ items.items }
    {
        Plains { items }
    }

    /// Puts a plaintext behind the others; where memory is wanting it is dropped.
    pub fn push(&mut self, item: Plain) -> Result<(), AllocError>
        ensures ok { OnOk result (self.new ≡ self.old ++ item ∷ []) }
        ensures err { OnErr result (self.new ≡ self.old) }
    {
        self.items.push(item)?;
        Ok(())
    }

    /// The number of plaintexts.
    pub fn len(&self) -> usize
        ensures { result ≡ length self.now }
    {
        self.items.len()
    }

    /// Whether there is no plaintext.
    pub fn is_empty(&self) -> bool
        ensures { result ≡ (length self.now == 0) }
    {
        self.items.is_empty()
    }

    /// The plaintext at a place.
    pub fn get(&self, place: usize) -> Option<&Plain>
        ensures { option_copied result ≡ slice_get self.now place }
    {
        self.items.get(place)
    }

    /// The plaintext at a place, which has to be one.
    pub fn at(&self, place: usize) -> &Plain
        requires { place < length self.now }
        ensures { result.now ≡ slice_index_or self.now place [] }
    {
        &self.items[place]
    }

    /// All plaintexts.
    pub fn as_slice(&self) -> &[Plain]
        ensures { result.now ≡ self.now }
    {
        self.items.as_slice()
    }

    /// Gives the list of plaintexts back.
    pub fn into_vec(self) -> Vec<Plain>
        ensures { result.items ≡ self }
    {
        self.items
    }
}
