ghost use Rattle.std.specs.Prelude.{◌≢◌, IfOk};
ghost use Rattle.session_rules.specs.declared.call.Call.TheVariants as call;
ghost use Rattle.session_rules.specs.declared.reply.Reply.TheVariants as reply;
ghost use Rattle.session_spec.specs.Stores.{nothing_brought, cipher_brought};
ghost use Rattle.session_core.specs.Sessions.{BringsOutputTo};
ghost use Rattle.session_core.specs.Handing.{HandsJob};
ghost use Rattle.session_core.specs.Calls.{known, state_of, At, OnlyFor, OnlyWhere, Called};

use crate::entries::plain_copy;
use crate::{Session, Stop, Taking};
use mod_ring::Ciphertext;
use party_roll::Roll;
use session_rules::{Call, Entry, Reply};
use std::alloc::Global;

impl<R: Roll> Session<R> {
    /// Gives a caller the least circuit that is ready, with its inputs: Job, which alone takes memory, and Nothing
    /// where none is ready. The circuit is the caller's then.
    pub fn take(&mut self, alloc: Global, caller: u32) -> Result<Taking, Stop>
        ensures called { Called self.old self.new result (λ r. r.reply) caller call.Take
            nothing_brought }
        ensures job { IfOk result (At HandsJob self.old) }
        ensures free { OnlyWhere (λ r. r ≢ reply.Nothing) self.old result caller call.Take }
    {
        self.begin()?;
        let taking = self.standing.take(alloc, caller)?;
        self.log.push_reserved(Entry {
            caller,
            call: Call::Take,
            reply: plain_copy(&taking.reply),
        });
        Ok(taking)
    }

    /// Takes over the output of a circuit that is the caller's: Finished, which alone takes memory, and NotTaken where
    /// it isn't. Where the roll tells the parties' seeds, an output that is taken over has to be the circuit's.
    pub fn finish(
        &mut self,
        alloc: Global,
        caller: u32,
        circuit: u32,
        ct: Ciphertext,
    ) -> Result<Reply, Stop>
        requires ct { BringsOutputTo (known self.old) (state_of self.old) caller circuit ct }
        ensures called { Called self.old self.new result (λ r. r) caller (call.Finish circuit)
            (cipher_brought ct) }
        ensures free { OnlyFor reply.Finished self.old result caller (call.Finish circuit) }
    {
        self.begin()?;
        let reply = self.standing.finish(alloc, caller, circuit, ct)?;
        self.log.push_reserved(Entry {
            caller,
            call: Call::Finish { circuit },
            reply: plain_copy(&reply),
        });
        Ok(reply)
    }

    /// Takes a circuit back that is the caller's, so that it may be taken again: Returned, and NotTaken where it isn't.
    /// With room in the log it takes no memory.
    pub fn give_back(&mut self, caller: u32, circuit: u32) -> Result<Reply, Stop>
        ensures called { Called self.old self.new result (λ r. r) caller (call.GiveBack circuit)
            nothing_brought }
        ensures free { OnlyWhere (λ r. ⊥) self.old result caller (call.GiveBack circuit) }
    {
        self.begin()?;
        let reply = self.standing.give_back(caller, circuit);
        self.log.push_reserved(Entry {
            caller,
            call: Call::GiveBack { circuit },
            reply: plain_copy(&reply),
        });
        Ok(reply)
    }
}
