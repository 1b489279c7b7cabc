ghost use Rattle.std.specs.Prelude.{◌≡◌, ◌^◌, ◌<◌, ◌≤◌, pos, ◌-ℤ◌, neg_ℤ};
ghost use Rattle.ring_spec.specs.Ring.{residue};

/// plus - minus modulo t.
#[tactic(auto, using(crate::proofs::Residues::reduced_is))]
pub(crate) fn reduced(t: u64, plus: u64, minus: u64) -> u64
    requires modulus_low { 0 < t }
    requires modulus_high { t ≤ 65537 }
    ensures { result ≡ residue t (pos plus -ℤ pos minus) }
{
    (plus % t + t - minus % t) % t
}

/// -x modulo t, for x below t.
#[tactic(auto, unfolding(ring_spec::specs::Ring::residue))]
pub(crate) fn opposite(t: u64, x: u64) -> u64
    requires { x < t }
    ensures { result ≡ residue t (neg_ℤ (pos x)) }
{
    if x == 0 { 0 } else { t - x }
}
