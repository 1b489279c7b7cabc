ghost use Rattle.std.specs.Prelude.{◌≡◌, ℕ, ◌<◌, ◌==◌, List, [], ◌∷◌, ◌++◌, length, OnOk, OnErr, slice_get, slice_index_or, slice_set, option_copied};

use std::alloc::{AllocError, Global};
use std::marker::Model;

/// A polynomial: its coefficients from the constant on.
#[derive(Drop)]
pub struct Poly {
    pub(crate) coeffs: Vec<u64>,
}

impl Model for Poly {
    ghost Value = { List ℕ };

    ghost view = { λ a. a.coeffs.items };
}

impl Poly {
    /// The coefficients, lowest degree first.
    pub fn coeffs(&self) -> &[u64]
        ensures { result.now ≡ self.now }
    {
        self.coeffs.as_slice()
    }

    /// Makes the coefficient at a place `value`; all others stay.
    pub fn set(&mut self, k: u32, value: u64)
        requires { k < length self.old }
        ensures { self.new ≡ slice_set self.old k value }
    {
        self.coeffs[k as usize] = value;
    }
}

/// A list of polynomials, as the rows of a share.
#[derive(Drop)]
pub struct Polys {
    pub(crate) items: Vec<Poly>,
}

impl Model for Polys {
    ghost Value = { List (List ℕ) };

    ghost view = { λ a. a.items.items };
}

impl Polys {
    /// The empty list, which takes no memory.
    pub fn new(alloc: Global) -> Polys
        ensures { result ≡ [] }
    {
        Polys {
            items: Vec::new(alloc),
        }
    }

    /// Takes over a list of polynomials.
    pub fn from_vec(items: Vec<Poly>) -> Polys
        ensures { result ≡ items.items }
    {
        Polys { items }
    }

    /// Gives the polynomials back.
    pub fn into_vec(self) -> Vec<Poly>
        ensures { result.items ≡ self }
    {
        self.items
    }

    /// Puts a polynomial behind the others; where memory is wanting it is dropped.
    pub fn push(&mut self, item: Poly) -> Result<(), AllocError>
        ensures ok { OnOk result (self.new ≡ self.old ++ item ∷ []) }
        ensures err { OnErr result (self.new ≡ self.old) }
    {
        self.items.push(item)?;
        Ok(())
    }

    /// The number of polynomials.
    pub fn len(&self) -> usize
        ensures { result ≡ length self.now }
    {
        self.items.len()
    }

    /// Whether there is no polynomial.
    pub fn is_empty(&self) -> bool
        ensures { result ≡ (length self.now == 0) }
    {
        self.items.is_empty()
    }

    /// The polynomial at a place, which has to be one.
    pub fn at(&self, place: usize) -> &Poly
        requires { place < length self.now }
        ensures { result.now ≡ slice_index_or self.now place [] }
    {
        &self.items[place]
    }

    /// The polynomial at a place, where there is one.
    pub fn get(&self, place: usize) -> Option<&Poly>
        ensures { option_copied result ≡ slice_get self.now place }
    {
        self.items.get(place)
    }

    /// All polynomials.
    pub fn as_slice(&self) -> &[Poly]
        ensures { result.now ≡ self.now }
    {
        self.items.as_slice()
    }
}
