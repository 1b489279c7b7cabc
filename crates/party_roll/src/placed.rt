use param_set::Plain;

/// The value for one input of a circuit.
#[derive(Drop)]
pub struct Placed {
    /// The circuit's number.
    pub circuit: u32,
    /// The input's place among the circuit's inputs.
    pub input: u32,
    pub value: Plain,
}
