//! Times the transforms of `ring_ntt`, forward and back, at 1024 and 4096 coefficients modulo a prime of
//! 55 bits and one of 62 bits; and the products of `mod_ring`, modulo the first.
//!
//! With the word `measure` it prints a line for each case of a transform, with `products` one for each case
//! of a product: the medians in nanoseconds, and for a product the constant coefficient of the last one.
//! With no word it only says what it would measure. bench/ntt holds the same steps in plain Rust, and the
//! script that runs both.
#![tactic(auto)]

mod products;
mod timing;

use products::measure_products;
use std::{env, io};
use timing::measure;

/// Whether a word is given.
fn is_given(rt: &HostRuntime, word: &str) -> io::Result<bool> {
    Ok(env::args(rt)?.skip(1).any(|given| given.as_str() == word))
}

fn measure_transforms(rt: &HostRuntime) -> io::Result<()> {
    measure(rt, 31525197391593473, 1024, 1742471823828513)?;
    measure(rt, 31525197391593473, 4096, 10685641567815319)?;
    measure(rt, 4611686018427322369, 1024, 2953159431647451165)?;
    measure(rt, 4611686018427322369, 4096, 3391169269051246823)
}

fn main(rt: HostRuntime) -> io::Result<()> {
    if is_given(&rt, "measure")? {
        measure_transforms(&rt)
    } else if is_given(&rt, "products")? {
        measure_products(&rt, 1024)?;
        measure_products(&rt, 4096)
    } else {
        println!(rt;
            "times a transform or a product of 1024 and 4096 coefficients: give the word measure or products"
        )
    }
}
