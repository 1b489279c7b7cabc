use thiserror::Error;

/// Why a list of nodes is no circuit.
#[derive(Clone, Copy, Debug, PartialEq, Eq, Error)]
#[error("node {node} breaks a rule of circuits")]
pub struct CircuitFault {
    /// The node at fault: 0 where the list is empty, 256 where it has more than 256 nodes.
    pub node: u32,
}
