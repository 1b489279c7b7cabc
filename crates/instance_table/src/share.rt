ghost use Rattle.std.specs.Prelude.{◌≡◌};
ghost use Rattle.instance_table.specs.Tables.{outcome};

use mod_ring::Polys;

/// What a party gives for an instance.
#[derive(Drop)]
pub struct Share {
    /// The instance's number.
    pub id: u32,
    pub party: u32,
    /// As many polynomials as the instance's signature has rows.
    pub rows: Polys,
}

/// What counting a share comes to.
#[derive(Clone, Copy, Debug, PartialEq, Eq)]
pub enum Count {
    /// So many parties' shares are missing, at least one.
    Counted { missing: u32 },
    /// It was the last share.
    Completed,
}

/// What the count of a share tells that leaves so many missing.
#[tactic(auto, unfolding(crate::specs::Tables::outcome))]
pub(crate) fn outcome(missing: u32) -> Count
    ensures { result ≡ outcome missing }
{
    if missing == 0 {
        Count::Completed
    } else {
        Count::Counted { missing }
    }
}
