ghost use Rattle.std.specs.Prelude.{◌≡◌, ◌+◌, ◌-◌, ◌*◌, ◌/◌, ◌^◌, ◌<◌, ◌≤◌, pos, ◌+ℤ◌, ◌-ℤ◌};
ghost use Rattle.ring_spec.specs.Ring.{centre, residue};
ghost use Rattle.gadget_spec.specs.Digits.{base_digit, balanced_digit, digit};
ghost use Rattle.gadget_laws.specs.Shifted.{halves};
ghost use Rattle.param_set.specs.Moduli.{digit_rows};

use param_set::Params;

/// A row of the gadget of a ring, which takes one digit of each residue.
#[derive(Drop)]
pub(crate) struct DigitRow {
    modulus: u64,
    bits: u32,
    rows: u32,
    row: u32,
    balanced: bool,
    /// 2^(bits-1) in each digit; the last digit may end past place 64, so this takes two words
    raise: u128,
    pub ghost word: { (2 ^ 40 ≤ modulus) × (modulus < 2 ^ 55) },
    pub ghost few_bits: { (1 ≤ bits) × (bits ≤ 16) },
    pub ghost places: { (rows ≤ 55) × (bits * rows ≤ 70) × (modulus < 2 ^ (bits * rows)) },
    pub ghost place: { (row < rows) × (bits * row < 55) },
    pub ghost halves: { raise ≡ halves bits rows },
}

/// 2^(bits-1) in the digit of a row.
fn half_at(bits: u32, row: u32) -> u128
    requires bits { (1 ≤ bits) × (bits ≤ 16) }
    requires place { bits * row ≤ 70 }
    ensures { result ≡ 2 ^ (bits * row) * 2 ^ (bits - 1) }
{
    1 << (bits * row + (bits - 1))
}

/// 2^(bits-1) in each of some digits of so many bits.
#[tactic(auto, using(crate::proofs::Places::halves_next, crate::proofs::Places::halves_room, crate::proofs::Places::place_before))]
fn halves(bits: u32, rows: u32) -> u128
    requires bits { (1 ≤ bits) × (bits ≤ 16) }
    requires rows { (rows ≤ 55) × (bits * rows ≤ 70) }
    ensures { result ≡ halves bits rows }
{
    let mut sum = 0;
    'rows: for row in 0..rows {
        sum += half_at(bits, row);
    }
    sum
}

/// digit - half modulo q.
#[tactic(auto, unfolding(ring_spec::specs::Ring::residue))]
fn less(q: u64, digit: u64, half: u64) -> u64
    requires modulus { (0 < q) × (q < 2 ^ 55) }
    requires half { half ≤ q }
    requires digit { digit < half + q }
    ensures { result ≡ residue q (pos digit -ℤ pos half) }
{
    if half <= digit {
        digit - half
    } else {
        q - (half - digit)
    }
}

impl DigitRow {
    /// Row `row` of the gadget of some parameters.
    #[tactic(auto, using(crate::proofs::Places::places_within, crate::proofs::Places::place_within))]
    pub(crate) fn new(params: &Params, row: u32) -> DigitRow
        requires { row < digit_rows params.now.q params.now.digit_bits }
        ensures modulus { result.modulus ≡ params.now.q }
        ensures bits { result.bits ≡ params.now.digit_bits }
        ensures rows { result.rows ≡ digit_rows params.now.q params.now.digit_bits }
        ensures row { result.row ≡ row }
        ensures balanced { result.balanced ≡ params.now.balanced }
    {
        let bits = params.digit_bits() as u32;
        let rows = params.rows() as u32;
        DigitRow {
            modulus: params.q(),
            bits,
            rows,
            row,
            balanced: params.is_balanced(),
            raise: halves(bits, rows),
        }
    }

    /// The digit of x in base 2^bits, which is its own residue.
    fn plain(&self, x: u64) -> u64
        requires { x < self.now.modulus }
        ensures { result ≡ residue self.now.modulus (pos (base_digit self.now.bits self.now.row x)) }
    {
        (x >> (self.bits * self.row)) & ((1 << self.bits) - 1)
    }

    /// The centre of x, raised by 2^(bits-1) in each digit: it isn't negative, and its digits in base 2^bits are
    /// the balanced ones, raised.
    fn raised(&self, x: u64) -> u128
        requires { x < self.now.modulus }
        ensures { pos result ≡ centre self.now.modulus x +ℤ pos self.now.raise }
    {
        if 2 * x < self.modulus {
            self.raise + x as u128
        } else {
            self.raise + x as u128 - self.modulus as u128
        }
    }

    /// The balanced digit of x, raised: in the last row all that is left.
    fn raised_digit(&self, x: u64) -> u64
        requires { x < self.now.modulus }
        ensures digit { pos result -ℤ pos (2 ^ (self.now.bits - 1)) ≡
            balanced_digit self.now.bits self.now.rows self.now.row (centre self.now.modulus x) }
        ensures small { result ≤ 2 ^ self.now.bits }
    {
        let left = self.raised(x) >> (self.bits * self.row);
        if self.row + 1 == self.rows {
            left as u64
        } else {
            (left & ((1 << self.bits) - 1)) as u64
        }
    }

    /// The residue of the balanced digit of x.
    fn signed(&self, x: u64) -> u64
        requires { x < self.now.modulus }
        ensures { result ≡ residue self.now.modulus
            (balanced_digit self.now.bits self.now.rows self.now.row (centre self.now.modulus x)) }
    {
        less(self.modulus, self.raised_digit(x), 1 << (self.bits - 1))
    }

    /// The residue of the digit of x.
    #[tactic(auto, unfolding(gadget_spec::specs::Digits::digit))]
    pub(crate) fn of(&self, x: u64) -> u64
        requires { x < self.now.modulus }
        ensures { result ≡ residue self.now.modulus
            (digit self.now.modulus (record { bits = self.now.bits; rows = self.now.rows; balanced = self.now.balanced })
            self.now.row x) }
    {
        if self.balanced {
            self.signed(x)
        } else {
            self.plain(x)
        }
    }
}
