//! Switch keys, the digits of polynomials, and key switches.
//!
//! A polynomial is cut into the polynomials of its digits, one for each row of the gadget, in base 2^b or
//! balanced as the parameters of the ring say. A key switch is the sum of each of them times its row of the key
//! (Fan and Vercauteren 2012, section 4). The rows of a `SwitchKey` are kept transformed, and contracts see them
//! by their polynomials, with the parameters of the ring for which the key was made. Digits are cut by shifts
//! and masks. In a switch each polynomial of digits is transformed once, and each part of the ciphertext is
//! reduced and taken back once. Nothing is said of who makes keys, of noise, which `gadget_laws` bounds, nor of time.
#![tactic(auto)]

mod digit_row;
mod digits;
mod key_row;
mod row_sums;
mod switch_key;
mod switching;

pub use digits::digit_into;
pub use switch_key::SwitchKey;
pub use switching::switch;
