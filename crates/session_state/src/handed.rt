use circuit_runner::Job;
use instance_table::Brief;
use mod_ring::PublicKey;
use session_rules::Reply;
use std::sync::Arc;

/// What a party is told of what it owes, and the public key once there is one.
#[derive(Drop)]
pub struct Listing {
    pub reply: Reply,
    pub key: Option<Arc<PublicKey>>,
}

/// What is told of an instance: with the reply Brief what its parties make their shares from.
#[derive(Drop)]
pub struct Briefing {
    pub reply: Reply,
    pub brief: Option<Arc<Brief>>,
}

/// What a caller gets that asks for work: with the reply Job the circuit and its inputs.
#[derive(Drop)]
pub struct Taking {
    pub reply: Reply,
    pub job: Option<Job>,
}
