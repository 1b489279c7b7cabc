ghost use Rattle.std.specs.Prelude.{◌≡◌, ◌≤◌};
ghost use Rattle.proto_names.specs.Names.{same, rows_of, kind, subject};

/// The protocols of which instances are run, each with what it is for.
#[derive(Clone, Copy, Debug, PartialEq, Eq)]
pub enum Signature {
    /// The public key.
    Pk,
    /// The first round of the relinearisation key.
    Rlk1,
    /// The second round of the relinearisation key.
    Rlk2,
    /// The key of a rotation, by its g.
    Rot(u32),
    /// The decryption of a circuit's output, by the circuit's number.
    Dec(u32),
}

impl Signature {
    /// Whether both are the same protocol for the same purpose.
    #[tactic(auto, unfolding(crate::specs::Names::same))]
    pub fn is(&self, other: Signature) -> bool
        ensures { result ≡ same self.now other }
    {
        match (*self, other) {
            (Signature::Pk, Signature::Pk)
            | (Signature::Rlk1, Signature::Rlk1)
            | (Signature::Rlk2, Signature::Rlk2) => true,
            (Signature::Rot(g), Signature::Rot(h)) => g == h,
            (Signature::Dec(circuit), Signature::Dec(another)) => circuit == another,
            _ => false,
        }
    }
}

/// The number of polynomials in a share of a protocol, for l rows of the gadget.
#[tactic(auto, unfolding(crate::specs::Names::rows_of))]
pub fn rows_of(signature: Signature, l: u64) -> u32
    requires { l ≤ 55 }
    ensures { result ≡ rows_of signature l }
{
    match signature {
        Signature::Pk | Signature::Dec(_) => 1,
        Signature::Rlk1 | Signature::Rlk2 => 2 * l as u32,
        Signature::Rot(_) => l as u32,
    }
}
