/// The numbers of a session as they were given, with nothing known of them.
#[derive(Clone, Copy)]
pub struct RawParams {
    /// the number of coefficients
    pub n: u64,
    /// the modulus of ciphertexts
    pub q: u64,
    /// the modulus of plaintexts
    pub t: u64,
    /// a number whose (q-1)/(2n)-th power modulo q is to be a root psi with psi^n = -1
    pub root: u64,
    /// the bits of a digit of the gadget
    pub digit_bits: u64,
    /// the bound of small draws
    pub err: u64,
    /// the bound of the wide draws that flood a decryption share
    pub flood: u64,
    /// N
    pub parties: u64,
    /// T
    pub threshold: u64,
}

/// The names of the numbers, in the order in which they are judged.
#[derive(Clone, Copy, Debug, PartialEq, Eq)]
pub enum Field {
    N,
    Q,
    T,
    Root,
    DigitBits,
    Err,
    Flood,
    Parties,
    Threshold,
}

impl RawParams {
    ghost use Rattle.std.specs.Prelude.{◌≡◌};
    ghost use Rattle.param_set.specs.Rules.{value_of};

    /// The number under a name.
    pub(crate) fn value(&self, field: Field) -> u64
        ensures { result ≡ value_of self.now field }
    {
        match field {
            Field::N => self.n,
            Field::Q => self.q,
            Field::T => self.t,
            Field::Root => self.root,
            Field::DigitBits => self.digit_bits,
            Field::Err => self.err,
            Field::Flood => self.flood,
            Field::Parties => self.parties,
            Field::Threshold => self.threshold,
        }
    }
}
