//! What follows from the definitions, whatever is called: each function states a law, and does nothing.
ghost use Rattle.circuit_laws.specs.Carrying.{OutputsCarry};
ghost use Rattle.circuit_laws.specs.Nodes.{AdmittedOnesKeepTheLimit, NodesCarry, OutputsKeepTheBound};
ghost use Rattle.circuit_laws.specs.SwitchFree.{AnyKeysServe, KeysAreNotUsed, NoFactorsToKeep};

/// The output of an admitted circuit carries the circuit's plain value, where each input carries its own and the keys
/// are keys for the circuit, within a noise that leaves room for the flood of the parties that decrypt, as many as the
/// ledger was asked with.
pub fn outputs()
    ensures { OutputsCarry }
{}

/// Each node of a circuit carries its plain value within its own bound of the ledger, by keys for the circuit, and so
/// the output within the last node's; where there is a full product the bounds before it have to be within the limit.
/// Where the circuit is admitted, no bound is above the limit.
pub fn nodes()
    ensures each { NodesCarry }
    ensures output { OutputsKeepTheBound }
    ensures limit { AdmittedOnesKeepTheLimit }
{}

/// The output of a circuit that needs no key switch is the same ciphertext under any keys; all of them are keys for it,
/// and it has no factor whose bound had to be within the limit.
pub fn switch_free()
    ensures same { KeysAreNotUsed }
    ensures keys { AnyKeysServe }
    ensures factors { NoFactorsToKeep }
{}
