use noise_ledger::Place;

/// How far a circuit has come.
#[derive(Clone, Copy, Debug, PartialEq, Eq)]
pub enum CircuitState {
    /// Its noise may be too large: the first place whose bound is above the limit.
    Refused {
        place: Place,
        bound: u128,
        limit: u64,
    },
    /// It waits for inputs, for keys, or for somebody who evaluates it.
    Idle,
    /// A caller evaluates it.
    Taken {
        caller: u32,
    },
    /// Its output is there, and waits for its decryption.
    Evaluated,
    /// Its value is there.
    Answered,
}
