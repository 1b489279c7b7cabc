//! A list of numbers with their sums, as a lock keeps it, and the turn that adds a number.
ghost use Rattle.std.specs.Prelude.{◌≡◌, ◌+◌, ◌≤◌, IfSome, option_map, sum_by};
ghost use Rattle.std.proofs.Common.{rules};
ghost use Rattle.lock_tests.specs.Sums.{AddsUp, last_sum, number_in};

use turn_lock::{Act, Kept};

/// A caller's number, and the sum of all numbers up to here.
#[derive(Clone, Copy, Debug, PartialEq, Eq)]
pub struct Pair {
    pub number: u32,
    pub sum: u64,
}

/// Pairs of which each sum is the last one and its own number.
#[derive(Drop)]
pub struct Sums {
    pub pairs: Vec<Pair>,
    pub ghost adds_up: { AddsUp pairs.items },
}

impl Sums {
    /// The last sum, which is that of all numbers.
    pub fn total(&self) -> u64
        ensures last { result ≡ last_sum self.now.pairs.items }
        ensures all { result ≡ sum_by number_in self.now.pairs.items }
    {
        match self.pairs.last() {
            Some(pair) => pair.sum,
            None => 0,
        }
    }
}

impl Kept for Sums {
    type Fixed = ();

    type Entry = Pair;

    ghost fixed = { λ _. tt };

    ghost entries = { λ s. s.pairs.items };

    ghost number = { λ p. p.number };

    ghost IsLegal = { λ _ ps. AddsUp ps };

    ghost legal = { λ s. s.adds_up };
}

/// What a turn tells: the sum that it came to, and how much of that was added since the sum that its caller knew.
#[derive(Clone, Copy, Debug, PartialEq, Eq)]
pub struct Told {
    pub sum: u64,
    pub since: u64,
}

/// Adds a pair for a caller that knows of the sum `known`. There is no reply where there is no memory, or the sum is too large.
#[derive(Drop)]
pub struct Add {
    pub number: u32,
    pub known: u64,
}

impl Act<Sums> for Add {
    type Reply = Option<Told>;

    ghost number = { λ a. a.number };

    ghost MayAct = { λ a v. a.known ≤ last_sum v.pairs.items };

    ghost appends = { λ a r. option_map (λ t. record { number = a.number; sum = t.sum }) r };

    ghost Says = { λ a r _ v. IfSome r
        (λ t. (t.sum ≡ last_sum v.pairs.items) × (t.since + a.known ≡ t.sum)) };

    fn act(self, value: &mut Sums) -> Option<Told> {
        let sum = value.total().checked_add(self.number as u64)?;
        let since = sum - self.known;
        let pair = Pair {
            number: self.number,
            sum,
        };
        match value.pairs.push(pair) {
            Ok(()) => Some(Told { sum, since }),
            Err(_) => None,
        }
    }

    ghost signed = { Prim.search rules };
}
