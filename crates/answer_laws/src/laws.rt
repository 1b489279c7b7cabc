//! What follows from the definitions, whatever is called: each function states a law, and does nothing.
ghost use Rattle.session_laws.specs.Laws.{AnswersArePlain};
ghost use Rattle.answer_laws.specs.Keys.{HeldKeysBelong, KeysBelong};
ghost use Rattle.answer_laws.specs.ByKeys.{AnswersArePlainByKeys, BegunOnesHaveKeys, SessionNodesCarryByKeys};
ghost use Rattle.answer_laws.specs.Nodes.{SessionNodesCarry};
ghost use Rattle.answer_laws.specs.SwitchKeys.{HeldKeysServe, RelinKeysBelong, RotationKeysBelong};

/// A complete decryption of an admitted circuit's output gives the circuit's plain value, where no circuit needs a key
/// switch, the public key serves the circuit, and honest shares come from as many parties as reconstruct the secret and
/// at most as many as the ledger was asked with.
pub fn answers()
    ensures { AnswersArePlain }
{}

/// The public key that honest shares make belongs to the secret of all parties, with a noise of size at most T * B
/// where its parties act within T; and so does the key of a state that calls lead to, with the parameters' T.
pub fn keys()
    ensures made { KeysBelong }
    ensures held { HeldKeysBelong }
{}

/// The keys for rotations and full products that honest shares make are switch keys under that secret, with rows as
/// quiet as the ledger takes them to be where their parties act within its T; and where a circuit has its keys in a
/// state that calls lead to, they are keys for it, with the parameters' T.
pub fn switch_keys()
    ensures rotations { RotationKeysBelong }
    ensures relinearisation { RelinKeysBelong }
    ensures held { HeldKeysServe }
{}

/// Each node of a session's circuit that needs no key switch carries its plain value under that secret within its own
/// bound of the ledger, for any threshold that it is asked with, where the public key serves the circuit by that
/// threshold and the inputs' owners encrypt them.
pub fn nodes()
    ensures { SessionNodesCarry }
{}

/// Both by keys for a circuit, whatever its nodes: what T parties decrypt of its output is its plain value, and each of
/// its nodes keeps its own bound. A circuit that is begun has such keys, and for one that needs no key switch all are.
pub fn by_keys()
    ensures begun { BegunOnesHaveKeys }
    ensures answers { AnswersArePlainByKeys }
    ensures nodes { SessionNodesCarryByKeys }
{}
