ghost use Rattle.std.specs.Prelude.{◌≡◌};
ghost use Rattle.session_script.specs.declared.reason.Reason.{Reason};
ghost use Rattle.session_script.specs.declared.reason.Fault.TheVariants.{Refused, NoMemory};
ghost use Rattle.session_script.specs.declared.reason.ScriptStop.TheVariants as stop;

use param_set::Field;
use std::alloc::{AllocError, AllocFailed};
use thiserror::Error;

/// Why a line of a script is refused. In one line the reasons are tried in this order.
#[derive(Clone, Copy, Debug, PartialEq, Eq)]
pub enum Reason {
    /// A byte is outside 32 to 126.
    Byte,
    /// The first word is no statement that may stand here, or the number of words is wrong.
    Word,
    /// A word that must be a number is none.
    Number,
    /// The version is neither 1 nor 2.
    Version,
    /// One more than there may be, as docs/FORMATS.md lists them.
    Limit,
    /// `field` is the first of the parameters that breaks its rule, and has `value`.
    Params { field: Field, value: u64 },
    /// The parameters keep their rules, but psi^n modulo q is `value`, and not q - 1.
    NoRoot { value: u64 },
    /// The word is not 64 hexadecimal digits.
    Seed,
    /// The name breaks its rule, or is an earlier circuit's.
    Name,
    /// A number is no party's, or those who are present do not rise.
    Party,
    /// The number of an instance is not 1 to 2^32 - 1.
    Id,
    /// A node breaks a rule of circuits, or a circuit has none.
    Node,
    /// The text ended before `done`.
    End,
}

/// Why no script was read.
#[derive(Debug, Drop, Error)]
pub enum ScriptStop {
    /// Line `line`, counted from 1, is the first that breaks a rule. For `Reason::End` it is the
    /// number of lines and 1.
    #[error("line {line} of the script is refused: {reason:?}")]
    Refused { line: u32, reason: Reason },
    /// There was no memory for the script.
    #[error("no memory for the script")]
    NoMemory,
}

impl From<AllocError> for ScriptStop {
    ghost from_gives = { λ _ s. s ≡ stop.NoMemory };

    fn from(_error: AllocError) -> ScriptStop {
        ScriptStop::NoMemory
    }
}

/// Why one line is not read.
#[derive(Drop)]
pub(crate) enum Fault {
    Refused { reason: Reason },
    NoMemory,
}

impl From<Reason> for Fault {
    ghost from_gives = { λ reason fault. fault ≡ Refused reason };

    fn from(reason: Reason) -> Fault {
        Fault::Refused { reason }
    }
}

impl From<AllocError> for Fault {
    ghost from_gives = { λ _ fault. fault ≡ NoMemory };

    fn from(_error: AllocError) -> Fault {
        Fault::NoMemory
    }
}

impl<T: Drop> From<AllocFailed<T>> for Fault {
    ghost from_gives = { λ _ fault. fault ≡ NoMemory };

    fn from(_error: AllocFailed<T>) -> Fault {
        Fault::NoMemory
    }
}
