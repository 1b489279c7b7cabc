ghost use Rattle.std.specs.Prelude.{◌≡◌, length, All};
ghost use Rattle.mod_ring.specs.Fits.{Fits};
ghost use Rattle.instance_table.specs.Tables.{rows_sum};

use mod_ring::{Polys, Ring, add_into_row};

/// Adds the rows of a share to the sums of its instance.
#[tactic(auto, unfolding(crate::specs::Tables::row_sum))]
pub(crate) fn add_rows(ring: &Ring, sums: &mut Polys, rows: &Polys)
    requires number { length rows.now ≡ length sums.old }
    requires left { All (Fits ring.now) sums.old }
    requires right { All (Fits ring.now) rows.now }
    ensures value { sums.new ≡ rows_sum ring.now.params.q ring.now.params.n sums.old rows.now }
    ensures number { length sums.new ≡ length sums.old }
    ensures fits { All (Fits ring.now) sums.new }
{
    for row in 0..rows.len() {
        add_into_row(ring, sums, row, rows.at(row));
    }
}
