/// What is called round each call that a worker makes: it may wait, and tells nothing.
pub trait Gate {
    /// Before a worker's call with this number; they count from 1.
    fn before(&self, worker: u32, call: u64);

    /// After it.
    fn after(&self, worker: u32, call: u64);
}

/// Lets every call pass.
#[derive(Drop)]
pub struct OpenGate;

impl Gate for OpenGate {
    fn before(&self, _worker: u32, _call: u64) {}

    fn after(&self, _worker: u32, _call: u64) {}
}
