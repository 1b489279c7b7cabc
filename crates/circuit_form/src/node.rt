use param_set::Plain;

/// A step of a circuit. Operands are numbers of earlier nodes, counted from 0.
#[derive(Drop)]
pub enum Node {
    /// A value that party `owner` gives, from 1 to the number of parties.
    Input { owner: u32 },
    /// A plaintext that everybody knows.
    Const { value: Plain },
    Add { left: u32, right: u32 },
    Sub { left: u32, right: u32 },
    Neg { of: u32 },
    Mul { left: u32, right: u32 },
    /// The automorphism that takes X to X^g, for g odd.
    Rot { g: u32, of: u32 },
}
