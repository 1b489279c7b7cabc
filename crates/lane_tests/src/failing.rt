//! A desk whose first call to finish a circuit meets no memory.
ghost use Rattle.std.specs.Prelude.{◌≡◌, ◌<◌};
ghost use Rattle.lane_workers.specs.Desks.{session_view, session_seen};

use lane_workers::Desk;
use mod_ring::Ciphertext;
use party_roll::NoRoll;
use session_core::{Briefing, Listing, Reply, Session, Share, Stop, Taking};
use std::alloc::Global;

/// A session as a desk, but that it may tell want of memory in place of finishing a circuit.
#[derive(Drop)]
pub struct Failing {
    pub session: Session<NoRoll>,
    /// How many calls the session answers at most.
    pub most: u32,
    /// Whether the next call to finish a circuit fails.
    pub fails: bool,
    ghost most_is: { most ≡ session.max_calls },
}

impl Desk for Failing {
    ghost view = { λ desk. session_view desk.session };

    ghost seen = { λ desk. session_seen desk.session };

    fn join(&mut self, alloc: Global, p: u32) -> Result<Reply, Stop> {
        Desk::join(&mut self.session, alloc, p)
    }

    fn lose(&mut self, alloc: Global, p: u32) -> Result<Reply, Stop> {
        Desk::lose(&mut self.session, alloc, p)
    }

    fn pending(&mut self, alloc: Global, p: u32) -> Result<Listing, Stop> {
        Desk::pending(&mut self.session, alloc, p)
    }

    fn brief(&mut self, id: u32) -> Result<Briefing, Stop> {
        Desk::brief(&mut self.session, id)
    }

    fn deliver(&mut self, alloc: Global, share: &Share) -> Result<Reply, Stop> {
        Desk::deliver(&mut self.session, alloc, share)
    }

    fn input(
        &mut self,
        alloc: Global,
        circuit: u32,
        input: u32,
        ct: Ciphertext,
    ) -> Result<Reply, Stop> {
        Desk::input(&mut self.session, alloc, circuit, input, ct)
    }

    fn take(&mut self, alloc: Global) -> Result<Taking, Stop> {
        Desk::take(&mut self.session, alloc)
    }

    fn finish(&mut self, alloc: Global, circuit: u32, ct: Ciphertext) -> Result<Reply, Stop> {
        if self.fails && self.session.log().len() < self.most as usize {
            self.fails = false;
            return Err(Stop::NoMemory);
        }
        Desk::finish(&mut self.session, alloc, circuit, ct)
    }

    fn give_back(&mut self, circuit: u32) -> Result<Reply, Stop> {
        Desk::give_back(&mut self.session, circuit)
    }
}
