use crate::circuit_name::CircuitName;
use crate::frame::Frame;
use crate::lanes::{Lane, Lanes};
use crate::named_circuits::NamedCircuits;
use crate::node_list::NodeList;
use param_set::{Ids, Plains};

/// What is known of a script behind its head.
#[derive(Drop)]
pub(crate) struct Draft {
    pub(crate) version: u32,
    pub(crate) frame: Frame,
    pub(crate) master: [u8; 32],
    pub(crate) present: Ids,
    pub(crate) circuits: NamedCircuits,
    /// The number of inputs in all circuits.
    pub(crate) inputs: u32,
    /// The different rotations in all circuits.
    pub(crate) turns: Ids,
    pub(crate) lanes: Lanes,
    /// The number of lines in all written lanes.
    pub(crate) lines: u32,
}

/// A circuit before its `end`.
#[derive(Drop)]
pub(crate) struct OpenCircuit {
    pub(crate) name: CircuitName,
    pub(crate) nodes: NodeList,
    /// The values of its inputs.
    pub(crate) values: Plains,
}

/// A place between two lines of a script, with what is known there.
#[derive(Drop)]
pub(crate) enum Place {
    Start,
    /// Behind the version.
    Versioned {
        version: u32,
    },
    /// Behind the parameters.
    Measured {
        version: u32,
        frame: Frame,
    },
    /// Behind the seed.
    Seeded {
        version: u32,
        frame: Frame,
        master: [u8; 32],
    },
    /// Between circuits.
    Circuits {
        draft: Draft,
    },
    InCircuit {
        draft: Draft,
        begun: OpenCircuit,
    },
    /// Behind a lane.
    Lanes {
        draft: Draft,
    },
    InLane {
        draft: Draft,
        lane: Lane,
    },
    /// Behind the workers.
    Closing {
        draft: Draft,
    },
    /// Behind `done`.
    Finished {
        draft: Draft,
    },
}
