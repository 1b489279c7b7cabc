ghost use Rattle.std.specs.Prelude.{◌≡◌};
ghost use Rattle.std.specs.List.{list_all};
ghost use Rattle.session_script.specs.Scripts.{asked};
ghost use Rattle.headline.specs.History.{is_free, are_free};
ghost use Rattle.helper_main.specs.Works.{takes};

use circuit_runner::is_switch_free;
use session_script::{NamedCircuit, NamedCircuits, Script};

/// What is done with a script.
#[derive(Clone, Copy, PartialEq, Eq, Debug)]
pub enum Work {
    /// Its session is run by one caller, and the report is written.
    Run,
    /// The noise bounds and the plain values of its circuits are written.
    Check,
}

/// Whether the evaluation of a circuit needs no key switch.
fn is_free(named: &NamedCircuit) -> bool
    ensures { result ≡ is_free named.now }
{
    is_switch_free(named.circuit())
}

/// Whether that holds of all circuits.
fn are_free(circuits: &NamedCircuits) -> bool
    ensures { result ≡ are_free circuits.now }
{
    circuits.as_slice().iter().all(|named| is_free(named))
}

/// Whether a script is taken: no circuit has a rotation or a product of two nodes neither of which is a
/// constant.
#[tactic(auto, unfolding(crate::specs::Works::takes))]
pub(crate) fn takes(script: &Script) -> bool
    ensures { result ≡ takes (asked script.now) }
{
    are_free(&script.circuits)
}
