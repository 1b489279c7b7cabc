//! How many instances wait for each party.
ghost use Rattle.std.specs.Prelude.{◌≡◌, ℕ, ◌≤◌, ◌^◌, [], All, length, IfSome};
ghost use Rattle.share_spec.specs.Sets.{has as is_member, members};
ghost use Rattle.proto_names.specs.Instances.{lacks};
ghost use Rattle.participants.specs.Loads.{load_in, loads_of, raised, earlier, first_of};
ghost use Rattle.participants.specs.Laws.{IsAtMost};

use proto_names::{Instance, PartySet, Stage};
use std::marker::Model;

/// The loads of the parties 1 to 32, in their order: of each the number of opened instances that wait for
/// its share.
#[derive(Debug, Drop)]
pub struct Loads {
    counts: [u32; 32],
}

impl Model for Loads {
    ghost use Rattle.std.specs.Prelude.{List, ℕ};

    ghost Value = { List ℕ };

    ghost view = { λ a. a.counts };
}

impl Loads {
    /// Those where there is no instance.
    #[tactic(auto, unfolding(crate::specs::Loads::loads_of, crate::specs::Loads::load))]
    pub fn new() -> Loads
        ensures { result ≡ loads_of [] }
    {
        Loads { counts: [0; 32] }
    }

    /// Those of some instances.
    pub fn of(instances: &[Instance]) -> Loads
        requires { length instances.now ≤ 2 ^ 30 }
        ensures { result ≡ loads_of instances.now }
    {
        let mut loads = Loads::new();
        for instance in instances {
            let set = awaited(instance);
            if set.bits != 0 {
                loads.raise(set);
            }
        }
        loads
    }

    /// The load of a party.
    pub fn get(&self, p: u32) -> u32
        requires first { 1 ≤ p }
        requires last { p ≤ 32 }
        ensures { result ≡ load_in self.now p }
    {
        self.counts[p as usize - 1]
    }

    /// Counts one more for each party of a set, as where an instance is issued for it.
    pub fn raise(&mut self, set: PartySet)
        requires { All (IsAtMost (2 ^ 30)) self.old }
        ensures { self.new ≡ raised set.bits self.old }
    {
        for place in 0..32u32 {
            if set.has(place + 1) {
                self.counts[place as usize] += 1;
            }
        }
    }

    /// The party of a set that comes first: that of the least load, and the least of them.
    #[tactic(auto, using(crate::proofs::Firsts::one_by_one))]
    pub(crate) fn first(&self, among: PartySet) -> Option<u32>
        ensures value { result ≡ first_of self.now (members among.bits) }
        ensures range { IfSome result (λ p. (1 ≤ p) × (p ≤ 32)) }
    {
        let mut first = None;
        for place in 0..32u32 {
            if among.has(place + 1) {
                first = Some(self.earlier(first, place + 1));
            }
        }
        first
    }

    /// The one that comes first of a party, if there is one, and of another with a higher number.
    #[tactic(auto, unfolding(crate::specs::Loads::earlier))]
    fn earlier(&self, first: Option<u32>, other: u32) -> u32
        requires some { IfSome first (λ p. (1 ≤ p) × (p ≤ 32)) }
        requires least { 1 ≤ other }
        requires last { other ≤ 32 }
        ensures value { Some result ≡ earlier self.now first other }
        ensures range { (1 ≤ result) × (result ≤ 32) }
    {
        match first {
            Some(p) if self.get(p) <= self.get(other) => p,
            _ => other,
        }
    }
}

/// The parties whose shares an instance waits for.
#[tactic(auto, unfolding(proto_names::specs::Instances::lacks), using(crate::proofs::Parties::of_sets))]
fn awaited(instance: &Instance) -> PartySet
    ensures { (p : ℕ) → is_member result.bits p ≡ lacks p instance.now }
{
    match instance.stage {
        Stage::Opened => PartySet {
            bits: instance.set.bits & !instance.sent.bits,
        },
        _ => PartySet { bits: 0 },
    }
}
