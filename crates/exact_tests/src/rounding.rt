//! The whole number nearest to t*x/q, beside the two halves on each side of 0.

use int_tensor::scale_round;
use std::test::Fail;

const Q: u64 = 31_525_197_391_593_473;

#[test]
fn rounds_to_the_nearest(rt: HostRuntime) -> Result<(), Fail> {
    let rows = [
        (985_162_418_487_296, 0),
        (985_162_418_487_297, 1),
        (-985_162_418_487_296, 0),
        (-985_162_418_487_297, -1),
        (31_525_197_391_593_473, 16),
        (0, 0),
    ];
    for (x, nearest) in rows {
        assert_eq!(rt; scale_round(x, 16, Q), nearest, "{x}");
    }
    Ok(())
}
