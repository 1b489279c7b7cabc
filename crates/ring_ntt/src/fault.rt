ghost use Rattle.std.specs.Prelude.{◌≡◌};
ghost use Rattle.ring_ntt.specs.declared.fault.NttFault.TheVariants.{NoMemory};

use std::alloc::{AllocError, AllocFailed};
use thiserror::Error;

/// Why there are no tables for a modulus, a length and a root.
#[derive(Clone, Copy, Debug, PartialEq, Eq, Error)]
pub enum NttFault {
    /// psi^n modulo q is `value`, and not q - 1.
    #[error("psi^n is {value} modulo q, not -1")]
    NoRoot { value: u64 },
    #[error("out of memory")]
    NoMemory,
}

impl From<AllocError> for NttFault {
    ghost from_gives = { λ _ e. e ≡ NoMemory };

    fn from(_e: AllocError) -> NttFault {
        NttFault::NoMemory
    }
}
