//! One who acts in a session.
ghost use Rattle.std.specs.Prelude.{◌≡◌};
ghost use Rattle.session_rules.specs.declared.call.Call.TheVariants as call;
ghost use Rattle.session_core.specs.Sessions.{IsParty};
ghost use Rattle.session_core.specs.Calls.{brings};
ghost use Rattle.lane_workers.specs.Desks.{View, IsSeen, Turned, nothing_handed, ShowsKey, ShowsBrief, ShowsJob, MayDeliver, MayGive, MayFinish, session_view, session_seen};

use instance_table::Share;
use mod_ring::Ciphertext;
use party_roll::Roll;
use session_core::{Briefing, Listing, Reply, Session, Stop, Taking};
use std::alloc::Global;

/// One who acts in a session: makes its calls, and sees what was called before them.
///
/// Each call says as its clause `turned` how it comes out: others may have called before it, and then it is
/// answered as the rules say, or it isn't and has no entry.
pub trait Desk {
    // What it knows, what it has seen, and which of the calls are its own.
    ghost view: { Self → View };

    // What holds of each.
    ghost seen: { (d : Self) → IsSeen (view d) };

    /// Party p is present from now on: Joined, or Already where it was.
    fn join(&mut self, alloc: Global, p: u32) -> Result<Reply, Stop>
        requires party { IsParty (view self.old).fixed.known.params.parties p }
        ensures turned { Turned (view self.old) (view self.new) result (λ r. r) (call.Join p)
            nothing_handed };

    /// Party p is absent from now on: Left, or Already where it was.
    fn lose(&mut self, alloc: Global, p: u32) -> Result<Reply, Stop>
        requires party { IsParty (view self.old).fixed.known.params.parties p }
        ensures turned { Turned (view self.old) (view self.new) result (λ r. r) (call.Lose p)
            nothing_handed };

    /// What party p owes: List, or Absent; with the public key where one is complete.
    fn pending(&mut self, alloc: Global, p: u32) -> Result<Listing, Stop>
        ensures turned { Turned (view self.old) (view self.new) result (λ r. r.reply)
            (call.Pending p) ShowsKey };

    /// What the parties of an instance are told: Brief with its brief, Late, or Unknown.
    fn brief(&mut self, id: u32) -> Result<Briefing, Stop>
        ensures turned { Turned (view self.old) (view self.new) result (λ r. r.reply) (call.Brief id)
            (ShowsBrief id) };

    /// Brings a share: Counted or Completed where it is wanted as it is.
    fn deliver(&mut self, alloc: Global, share: &Share) -> Result<Reply, Stop>
        requires share { MayDeliver (view self.old) share.now }
        ensures turned { Turned (view self.old) (view self.new) result (λ r. r) (brings share.now)
            nothing_handed };

    /// Brings the encryption of an input: Given where it is wanted. The ciphertext isn't handed back.
    fn input(
        &mut self,
        alloc: Global,
        circuit: u32,
        input: u32,
        ct: Ciphertext,
    ) -> Result<Reply, Stop>
        requires ct { MayGive (view self.old) circuit input ct }
        ensures turned { Turned (view self.old) (view self.new) result (λ r. r)
            (call.Input circuit input) nothing_handed };

    /// Takes the least circuit that is ready, with its inputs: Job, or Nothing.
    fn take(&mut self, alloc: Global) -> Result<Taking, Stop>
        ensures turned { Turned (view self.old) (view self.new) result (λ r. r.reply) call.Take
            ShowsJob };

    /// Brings the output of a circuit that was taken: Finished, and NotTaken where it isn't.
    fn finish(&mut self, alloc: Global, circuit: u32, ct: Ciphertext) -> Result<Reply, Stop>
        requires ct { MayFinish (view self.old) circuit ct }
        ensures turned { Turned (view self.old) (view self.new) result (λ r. r)
            (call.Finish circuit) nothing_handed };

    /// Gives a circuit back that was taken: Returned, and NotTaken where it isn't.
    fn give_back(&mut self, circuit: u32) -> Result<Reply, Stop>
        ensures turned { Turned (view self.old) (view self.new) result (λ r. r)
            (call.GiveBack circuit) nothing_handed };
}

/// A session is acted in as caller 0, who is alone.
impl<R: Roll> Desk for Session<R> {
    ghost view = { session_view };

    ghost seen = { session_seen };

    fn join(&mut self, alloc: Global, p: u32) -> Result<Reply, Stop> {
        Session::join(self, alloc, 0, p)
    }

    fn lose(&mut self, alloc: Global, p: u32) -> Result<Reply, Stop> {
        Session::lose(self, alloc, 0, p)
    }

    fn pending(&mut self, alloc: Global, p: u32) -> Result<Listing, Stop> {
        Session::pending(self, alloc, 0, p)
    }

    fn brief(&mut self, id: u32) -> Result<Briefing, Stop> {
        Session::brief(self, 0, id)
    }

    fn deliver(&mut self, alloc: Global, share: &Share) -> Result<Reply, Stop> {
        Session::deliver(self, alloc, 0, share)
    }

    fn input(
        &mut self,
        alloc: Global,
        circuit: u32,
        input: u32,
        ct: Ciphertext,
    ) -> Result<Reply, Stop> {
        Session::input(self, alloc, 0, circuit, input, ct)
    }

    fn take(&mut self, alloc: Global) -> Result<Taking, Stop> {
        Session::take(self, alloc, 0)
    }

    fn finish(&mut self, alloc: Global, circuit: u32, ct: Ciphertext) -> Result<Reply, Stop> {
        Session::finish(self, alloc, 0, circuit, ct)
    }

    fn give_back(&mut self, circuit: u32) -> Result<Reply, Stop> {
        Session::give_back(self, 0, circuit)
    }
}
