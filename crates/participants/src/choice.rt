//! Who takes part.
ghost use Rattle.std.specs.Prelude.{◌≡◌, ◌≤◌, ◌↔◌, IfSome, IsSome};
ghost use Rattle.share_spec.specs.Sets.{count};
ghost use Rattle.participants.specs.Loads.{chosen};

use crate::Loads;
use proto_names::PartySet;

/// The first k parties of a set, by rising load and then by rising number, or all where it has fewer.
pub fn choose(loads: &Loads, among: PartySet, k: u32) -> PartySet
    ensures { result.bits ≡ chosen k loads.now among.bits }
{
    let mut rest = among;
    let mut taken = PartySet { bits: 0 };
    for _ in 0..k {
        match loads.first(rest) {
            Some(p) => {
                rest = rest.without(p);
                taken = taken.with(p);
            }
            None => return taken,
        }
    }
    taken
}

/// The first k parties of a set, and None where it has fewer.
pub fn pick(loads: &Loads, among: PartySet, k: u32) -> Option<PartySet>
    ensures some { IfSome result (λ some. some.bits ≡ chosen k loads.now among.bits) }
    ensures enough { IsSome result ↔ (k ≤ count among.bits) }
{
    if among.count() < k {
        None
    } else {
        Some(choose(loads, among, k))
    }
}
