use crate::raw::Field;
use thiserror::Error;

/// Why numbers are no parameters of a session.
#[derive(Clone, Copy, Debug, PartialEq, Eq, Error)]
pub enum ParamFault {
    /// `field` is the first that breaks its rule, and has `value`.
    #[error("{field:?} may not be {value}")]
    Bad { field: Field, value: u64 },
    /// Every field keeps its rule, but psi^n modulo q is `value`, and not q - 1.
    #[error("psi^n is {value} modulo q, not -1")]
    NoRoot { value: u64 },
}
