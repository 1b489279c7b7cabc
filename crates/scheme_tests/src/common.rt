//! The parameters that most tests take.
ghost use Rattle.std.specs.Prelude.{◌≡◌, false, IfOk};
ghost use Rattle.param_set.specs.Numbers.{numbers_of};

use param_set::{ParamFault, Params, RawParams};

/// n = 8, q = 7 * 2^52 + 1, t = 16, digits of 8 bits that aren't balanced, and noise and flood within 1, for
/// `threshold` of `parties` parties.
pub fn frame(parties: u64, threshold: u64) -> Result<Params, ParamFault>
    ensures { IfOk result (λ params. numbers_of params ≡ record {
      n = 8;
      q = 31525197391593473;
      t = 16;
      digit_bits = 8;
      balanced = false;
      err = 1;
      flood = 1;
      parties = parties;
      threshold = threshold;
    }) }
{
    Params::check(&RawParams {
        n: 8,
        q: 31_525_197_391_593_473,
        t: 16,
        root: 3,
        digit_bits: 8,
        err: 1,
        flood: 1,
        parties,
        threshold,
    })
}
