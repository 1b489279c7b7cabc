ghost use Rattle.std.specs.Prelude.{◌≡◌, ℕ, ◌-◌, ◌*◌, ◌/◌, ◌%◌, ◌^◌, ◌<◌, ◌≤◌, true, false, IsTrue, IfOk, IfErr, None};
ghost use Rattle.std.specs.Int.{is_power_of_two};
ghost use Rattle.param_set.specs.Moduli.{indivisible, noise_limit, binary_digits, digit_rows};

use crate::fault::ParamFault;
use crate::raw::RawParams;
use crate::root::power;
use crate::rules::first_bad;

/// The checked numbers of a session.
///
/// Ring: R_q = Z_q\[X\]/(X^n+1), plaintexts modulo t. Noise: small draws within `err`, the flood of a
/// decryption within `flood`. Gadget: digits of `digit_bits` bits, from 0 on, or from both sides of 0 where
/// they are `balanced`. Sharing: any `threshold` of `parties` parties act together. Transforms: by the
/// powers of `psi`, a residue with psi^n = -1 modulo q.
#[derive(Clone, Copy)]
pub struct Params {
    n: u64,
    q: u64,
    t: u64,
    digit_bits: u64,
    balanced: bool,
    err: u64,
    flood: u64,
    parties: u64,
    threshold: u64,
    psi: u64,
    pub ghost degree: { (8 ≤ n) × (n ≤ 4096) × IsTrue (is_power_of_two n) },
    pub ghost modulus: { (2 ^ 40 ≤ q) × (q < 2 ^ 55) × (q % (2 * n) ≡ 1) },
    pub ghost no_small_factor: { IsTrue (indivisible q 31) },
    pub ghost plain_modulus: { (2 ≤ t) × (t ≤ 65537) },
    pub ghost noise: { (1 ≤ digit_bits) × (digit_bits ≤ 16) × (1 ≤ err) × (err ≤ 255) × (flood ≤ 2 ^ 40) },
    pub ghost group: { (1 ≤ threshold) × (threshold ≤ parties) × (parties ≤ 32) },
    pub ghost root: { (psi < q) × (psi ^ n % q ≡ q - 1) },
}

impl Params {
    ghost use Rattle.param_set.specs.Rules.{first_bad as first_bad_field, root_of, root_power};
    ghost use Rattle.param_set.specs.Faults.{IsFaultOf};
    ghost use Rattle.param_set.specs.Numbers.{numbers_of, numbers_given};

    /// The parameters with these numbers, where each field keeps its rule and psi^n is -1 modulo q, for
    /// psi = root^((q-1)/(2n)) mod q. The digits of the gadget aren't balanced.
    ///
    /// Errors: `Bad` names the first field that breaks its rule; where none does, `NoRoot` tells what
    /// psi^n is.
    pub fn check(raw: &RawParams) -> Result<Params, ParamFault>
        ensures rules { IfOk result (λ _. first_bad_field raw.now ≡ None) }
        ensures root { IfOk result (λ _. root_power raw.now ≡ raw.now.q - 1) }
        ensures numbers { IfOk result (λ params. numbers_of params ≡ numbers_given raw.now) }
        ensures psi { IfOk result (λ params. params.psi ≡ root_of raw.now) }
        ensures fault { IfErr result (IsFaultOf raw.now) }
    {
        if let Some(field) = first_bad(raw) {
            let value = raw.value(field);
            return Err(ParamFault::Bad { field, value });
        }
        let psi = power(raw.root, (raw.q - 1) / (2 * raw.n), raw.q);
        let value = power(psi, raw.n, raw.q);
        if value != raw.q - 1 {
            return Err(ParamFault::NoRoot { value });
        }
        Ok(Params {
            n: raw.n,
            q: raw.q,
            t: raw.t,
            digit_bits: raw.digit_bits,
            balanced: false,
            err: raw.err,
            flood: raw.flood,
            parties: raw.parties,
            threshold: raw.threshold,
            psi,
        })
    }

    /// The same parameters, with balanced digits.
    pub fn balanced(self) -> Params
        ensures numbers { numbers_of result ≡ record (numbers_of self) { balanced = true } }
        ensures psi { result.psi ≡ self.psi }
    {
        Params {
            n: self.n,
            q: self.q,
            t: self.t,
            digit_bits: self.digit_bits,
            balanced: true,
            err: self.err,
            flood: self.flood,
            parties: self.parties,
            threshold: self.threshold,
            psi: self.psi,
        }
    }

    /// The number of coefficients of a polynomial, a power of two.
    pub fn n(&self) -> u64
        ensures { result ≡ self.now.n }
    {
        self.n
    }

    /// The modulus of ciphertexts.
    pub fn q(&self) -> u64
        ensures { result ≡ self.now.q }
    {
        self.q
    }

    /// The modulus of plaintexts.
    pub fn t(&self) -> u64
        ensures { result ≡ self.now.t }
    {
        self.t
    }

    /// The bits of a digit of the gadget.
    pub fn digit_bits(&self) -> u64
        ensures { result ≡ self.now.digit_bits }
    {
        self.digit_bits
    }

    /// Whether the digits of the gadget are balanced: from -2^(b-1) to 2^(b-1), and not from 0 to 2^b - 1.
    pub fn is_balanced(&self) -> bool
        ensures { result ≡ self.now.balanced }
    {
        self.balanced
    }

    /// The bound of small draws.
    pub fn err(&self) -> u64
        ensures { result ≡ self.now.err }
    {
        self.err
    }

    /// The bound of the wide draws that flood a decryption share.
    pub fn flood(&self) -> u64
        ensures { result ≡ self.now.flood }
    {
        self.flood
    }

    /// N, the number of parties that hold the secret.
    pub fn parties(&self) -> u64
        ensures { result ≡ self.now.parties }
    {
        self.parties
    }

    /// T, how many parties act together.
    pub fn threshold(&self) -> u64
        ensures { result ≡ self.now.threshold }
    {
        self.threshold
    }

    /// A residue with psi^n = -1 modulo q.
    pub fn psi(&self) -> u64
        ensures { result ≡ self.now.psi }
    {
        self.psi
    }

    /// l, the number of digits of a residue, which is the number of rows of the gadget.
    pub fn rows(&self) -> u64
        ensures rows { result ≡ digit_rows self.now.q self.now.digit_bits }
        ensures some { 1 ≤ result }
        ensures few { result ≤ 55 }
        ensures whole { self.now.q < 2 ^ (self.now.digit_bits * result) }
    {
        bits(self.q).div_ceil(self.digit_bits)
    }

    /// D = floor(q/t), by which a plaintext is scaled.
    pub fn delta(&self) -> u64
        ensures { result ≡ self.now.q / self.now.t }
    {
        self.q / self.t
    }

    /// r = q mod t.
    pub fn rem(&self) -> u64
        ensures { result ≡ self.now.q % self.now.t }
    {
        self.q % self.t
    }

    /// L, the greatest size of noise under which decryption gives the plaintext.
    pub fn limit(&self) -> u64
        ensures { result ≡ noise_limit self.now.q self.now.t }
    {
        (self.q - 1 - 2 * self.rem() * (self.t - 1)) / (2 * self.t)
    }
}

/// The number of binary digits of q.
fn bits(q: u64) -> u64
    requires { 0 < q }
    ensures digits { result ≡ binary_digits q }
    ensures some { 1 ≤ result }
    ensures below { q < 2 ^ result }
    ensures top { 2 ^ (result - 1) ≤ q }
{
    64 - u64::from(q.leading_zeros())
}
