//! A desk behind a gate.
ghost use Rattle.lane_workers.specs.Desks.{lent_view, lent_seen};

use crate::desk::Desk;
use crate::gate::Gate;
use instance_table::Share;
use mod_ring::Ciphertext;
use session_core::{Briefing, Listing, Reply, Stop, Taking};
use std::alloc::Global;

/// A worker's desk, round each of whose calls a gate is called.
#[derive(Drop)]
pub(crate) struct Gated<'a, D: Desk, G: Gate> {
    pub(crate) desk: &'a mut D,
    pub(crate) gate: &'a G,
    pub(crate) worker: u32,
    /// The number of the last call.
    pub(crate) calls: u64,
}

/// Counts a worker's call, before which the gate is called.
fn enter<G: Gate>(gate: &G, worker: u32, calls: &mut u64) {
    *calls = calls.saturating_add(1);
    gate.before(worker, *calls);
}

/// Each call is that of the desk.
impl<'a, D: Desk, G: Gate> Desk for Gated<'a, D, G> {
    ghost view = { λ g. lent_view g.desk.ghost_name (D.view g.desk.now) };

    ghost seen = { λ g. lent_seen g.desk.ghost_name (D.view g.desk.now) (D.seen g.desk.now) };

    fn join(&mut self, alloc: Global, p: u32) -> Result<Reply, Stop> {
        enter(self.gate, self.worker, &mut self.calls);
        let result = self.desk.join(alloc, p);
        self.gate.after(self.worker, self.calls);
        result
    }

    fn lose(&mut self, alloc: Global, p: u32) -> Result<Reply, Stop> {
        enter(self.gate, self.worker, &mut self.calls);
        let result = self.desk.lose(alloc, p);
        self.gate.after(self.worker, self.calls);
        result
    }

    fn pending(&mut self, alloc: Global, p: u32) -> Result<Listing, Stop> {
        enter(self.gate, self.worker, &mut self.calls);
        let result = self.desk.pending(alloc, p);
        self.gate.after(self.worker, self.calls);
        result
    }

    fn brief(&mut self, id: u32) -> Result<Briefing, Stop> {
        enter(self.gate, self.worker, &mut self.calls);
        let result = self.desk.brief(id);
        self.gate.after(self.worker, self.calls);
        result
    }

    fn deliver(&mut self, alloc: Global, share: &Share) -> Result<Reply, Stop> {
        enter(self.gate, self.worker, &mut self.calls);
        let result = self.desk.deliver(alloc, share);
        self.gate.after(self.worker, self.calls);
        result
    }

    fn input(
        &mut self,
        alloc: Global,
        circuit: u32,
        input: u32,
        ct: Ciphertext,
    ) -> Result<Reply, Stop> {
        enter(self.gate, self.worker, &mut self.calls);
        let result = self.desk.input(alloc, circuit, input, ct);
        self.gate.after(self.worker, self.calls);
        result
    }

    fn take(&mut self, alloc: Global) -> Result<Taking, Stop> {
        enter(self.gate, self.worker, &mut self.calls);
        let result = self.desk.take(alloc);
        self.gate.after(self.worker, self.calls);
        result
    }

    fn finish(&mut self, alloc: Global, circuit: u32, ct: Ciphertext) -> Result<Reply, Stop> {
        enter(self.gate, self.worker, &mut self.calls);
        let result = self.desk.finish(alloc, circuit, ct);
        self.gate.after(self.worker, self.calls);
        result
    }

    fn give_back(&mut self, circuit: u32) -> Result<Reply, Stop> {
        enter(self.gate, self.worker, &mut self.calls);
        let result = self.desk.give_back(circuit);
        self.gate.after(self.worker, self.calls);
        result
    }
}
