ghost use Rattle.std.specs.Prelude.{◌≡◌, ◌<◌, ℤ, pos, List, length, get_or};

use std::marker::Model;

/// A list of whole numbers of up to 127 bits and a sign: the coefficients of a product, lowest degree first.
#[derive(Drop)]
pub struct Wide {
    pub(crate) entries: Vec<i128>,
}

impl Model for Wide {
    ghost Value = { List ℤ };

    ghost view = { λ a. a.entries.items };
}

impl Wide {
    /// The number of coefficients.
    pub fn len(&self) -> usize
        ensures { result ≡ length self.now }
    {
        self.entries.len()
    }

    /// The coefficient at a place, which has to be one.
    pub fn get(&self, k: usize) -> i128
        requires { k < length self.now }
        ensures { result ≡ get_or self.now k (pos 0) }
    {
        self.entries[k]
    }

    /// All coefficients.
    pub fn as_slice(&self) -> &[i128]
        ensures { result.now ≡ self.now }
    {
        self.entries.as_slice()
    }
}
