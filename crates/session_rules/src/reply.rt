use param_set::{Ids, Slots};
use proto_names::{PartySet, Signature};

/// What a call answers. Joined, Left, Counted, Completed, Given, Job, Finished and Returned change the
/// state; every other reply changes nothing but the log.
#[derive(Drop)]
pub enum Reply {
    /// The party is present from now on.
    Joined,
    /// The party is absent from now on.
    Left,
    /// The party was present, or absent, before.
    Already,
    /// The party, or the owner of the input, is absent.
    Absent,
    /// The opened instances that lack the party's share, and, once there is a public key, its inputs of
    /// admitted circuits that aren't given.
    List { ids: Ids, inputs: Slots },
    /// The instance's signature, and who takes part.
    Brief { signature: Signature, set: PartySet },
    /// No instance has this number: so many are issued.
    Unknown { issued: u32 },
    /// The instance was given up, because this party was lost.
    Late { by: u32 },
    /// The party doesn't take part in the instance.
    Stranger,
    /// It was counted, or given, before.
    Repeat,
    /// A share of this instance has another number of polynomials.
    Shape { want: u32, got: u32 },
    /// The share was counted, and so many are missing.
    Counted { missing: u32 },
    /// The share was counted, and was the last.
    Completed,
    /// There is no such input in an admitted circuit.
    NoInput,
    /// There is no public key yet.
    NoKey,
    /// The input is given from now on.
    Given,
    /// The caller has this circuit to evaluate.
    Job { circuit: u32 },
    /// No circuit is ready.
    Nothing,
    /// The circuit is evaluated.
    Finished,
    /// The circuit isn't the caller's.
    NotTaken,
    /// The circuit is ready again.
    Returned,
}
