ghost use Rattle.std.specs.Prelude.{◌≡◌, ℕ, ◌≤◌, ◌↔◌, take, IfSome, IsSome};
ghost use Rattle.share_spec.specs.Sets.{has as is_member, members, count as number_of};
ghost use Rattle.proto_names.specs.Groups.{with_party, without_party, least_of, is_outside, first_outside, number_outside};

/// A set of the parties 1 to 32: bit p - 1 stands for party p.
#[derive(Clone, Copy, Debug, PartialEq, Eq)]
pub struct PartySet {
    pub bits: u32,
}

impl PartySet {
    /// Whether party p is in the set, which only the parties 1 to 32 can be.
    #[tactic(auto, unfolding(share_spec::specs::Sets::has))]
    pub fn has(&self, p: u32) -> bool
        ensures { result ≡ is_member self.now.bits p }
    {
        1 <= p && p <= 32 && (self.bits >> (p - 1)) % 2 == 1
    }

    /// How many parties are in the set.
    #[tactic(auto, using(crate::proofs::Members::one_by_one))]
    pub fn count(&self) -> u32
        ensures { result ≡ number_of self.now.bits }
    {
        let mut count = 0;
        for place in 0..32u32 {
            if self.has(place + 1) {
                count += 1;
            }
        }
        count
    }

    /// The k least members, and None where the set has fewer.
    #[tactic(auto, using(crate::proofs::Members::one_by_one))]
    pub fn least(&self, k: u32) -> Option<PartySet>
        ensures members { IfSome result (λ some. members some.bits ≡ take k (members self.now.bits)) }
        ensures enough { IsSome result ↔ (k ≤ number_of self.now.bits) }
        ensures bits { IfSome result (λ some. some.bits ≡ least_of k self.now.bits) }
    {
        let mut bits = 0u32;
        let mut taken = 0u32;
        for place in 0..32u32 {
            if taken < k && self.has(place + 1) {
                bits |= 1 << place;
                taken += 1;
            }
        }
        if taken == k {
            Some(PartySet { bits })
        } else {
            None
        }
    }

    /// The k least members, or all where the set has fewer.
    pub fn least_or_all(&self, k: u32) -> PartySet
        ensures { result.bits ≡ least_of k self.now.bits }
    {
        least_or_all(self.bits, k)
    }

    /// The set with party p too.
    #[tactic(auto, unfolding(crate::specs::Groups::with_party))]
    pub fn with(&self, p: u32) -> PartySet
        requires first { 1 ≤ p }
        requires last { p ≤ 32 }
        ensures { result.bits ≡ with_party self.now.bits p }
    {
        PartySet {
            bits: self.bits | (1 << (p - 1)),
        }
    }

    /// The set without party p.
    #[tactic(auto, unfolding(crate::specs::Groups::without_party))]
    pub fn without(&self, p: u32) -> PartySet
        requires first { 1 ≤ p }
        requires last { p ≤ 32 }
        ensures { result.bits ≡ without_party self.now.bits p }
    {
        PartySet {
            bits: self.bits & !(1 << (p - 1)),
        }
    }

    /// The least party of the set that isn't in another.
    #[tactic(auto, unfolding(crate::specs::Groups::first_outside, crate::specs::Groups::is_outside))]
    pub fn first_outside(&self, other: &PartySet) -> Option<u32>
        ensures { result ≡ first_outside self.now.bits other.now.bits }
    {
        (1..33u32).find(|p| self.has(*p) && !other.has(*p))
    }

    /// How many parties of the set aren't in another.
    #[tactic(auto, unfolding(crate::specs::Groups::number_outside, crate::specs::Groups::is_outside))]
    pub fn outside(&self, other: &PartySet) -> u32
        ensures { result ≡ number_outside self.now.bits other.now.bits }
    {
        (1..33u32)
            .filter(|p| self.has(*p) && !other.has(*p))
            .count() as u32
    }
}

/// The k least members of the set of some bits, or all where it has fewer.
fn least_or_all(bits: u32, k: u32) -> PartySet
    ensures { result.bits ≡ least_of k bits }
{
    let all = PartySet { bits };
    match all.least(k) {
        Some(some) => some,
        None => all,
    }
}
