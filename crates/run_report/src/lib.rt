//! The texts that a script is answered with: the report of its session, its check, or its refusal.
//!
//! `text` tells what a session has come to: each circuit (refused, open, or its value), the digest of
//! each output, each instance with the digest of its sums, and each entry of the log. A digest is the
//! SHA-256 (FIPS 180-4) of coefficients. `check_text` tells the noise bounds and the plain values of a
//! script's circuits, and `refusal_line` which line of a script was refused and why (docs/FORMATS.md).
//! Callers may rely on this: each text is exactly the one that `specs/` defines, in `Reports.antt` with
//! the values, outputs and sums of honest parties, in `Checking.antt` and in `Refusals.antt`; and with
//! `Err`, which only want of memory gives, a line leaves a text as it was. Nothing is said of a name's
//! bytes: they are written as they stand.
#![tactic(auto)]

mod check;
mod digests;
mod lines;
mod refusals;
mod report;
mod values;

pub use check::check_text;
pub use digests::{cipher_digest, polys_digest};
pub use lines::{circuit_line, open_line, output_line, refused_line};
pub use refusals::refusal_line;
pub use report::text;
