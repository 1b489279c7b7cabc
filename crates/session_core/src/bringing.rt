ghost use Rattle.session_rules.specs.declared.call.Call.TheVariants as call;
ghost use Rattle.session_rules.specs.declared.reply.Reply.TheVariants as reply;
ghost use Rattle.session_spec.specs.Stores.{share_brought, cipher_brought};
ghost use Rattle.session_core.specs.Sessions.{BringsShareTo, BringsInputTo};
ghost use Rattle.session_core.specs.Calls.{known, brings, state_of, OnlyFor, Called};

use crate::entries::plain_copy;
use crate::{Session, Stop};
use instance_table::Share;
use mod_ring::Ciphertext;
use party_roll::Roll;
use session_rules::{Call, Entry, Reply};
use std::alloc::Global;

impl<R: Roll> Session<R> {
    /// Counts a share: Unknown, Stranger, Late, Repeat or Shape where it isn't wanted as it is, else Counted, or
    /// Completed where it was the last, which alone takes memory. Where the roll tells the parties' seeds, a share
    /// that is counted has to be the honest one.
    pub fn deliver(&mut self, alloc: Global, caller: u32, share: &Share) -> Result<Reply, Stop>
        requires share { BringsShareTo (known self.old) (state_of self.old) share.now }
        ensures called { Called self.old self.new result (λ r. r) caller (brings share.now)
            (share_brought share.now.rows) }
        ensures free { OnlyFor reply.Completed self.old result caller (brings share.now) }
    {
        self.begin()?;
        let reply = self.standing.deliver(alloc, share)?;
        self.log.push_reserved(Entry {
            caller,
            call: Call::Deliver {
                id: share.id,
                p: share.party,
                rows: share.rows.len() as u32,
            },
            reply: plain_copy(&reply),
        });
        Ok(reply)
    }

    /// Takes the encryption of an input: NoInput, NoKey, Absent or Repeat where it isn't wanted, else Given, which
    /// alone takes memory. Where the roll tells the parties' seeds, an input that is given has to be the encryption
    /// of its value by its owner's stream. The ciphertext isn't handed back.
    pub fn input(
        &mut self,
        alloc: Global,
        caller: u32,
        circuit: u32,
        input: u32,
        ct: Ciphertext,
    ) -> Result<Reply, Stop>
        requires ct { BringsInputTo (known self.old) (state_of self.old) circuit input ct }
        ensures called { Called self.old self.new result (λ r. r) caller (call.Input circuit input)
            (cipher_brought ct) }
        ensures free { OnlyFor reply.Given self.old result caller (call.Input circuit input) }
    {
        self.begin()?;
        let reply = self.standing.input(alloc, circuit, input, ct)?;
        self.log.push_reserved(Entry {
            caller,
            call: Call::Input { circuit, input },
            reply: plain_copy(&reply),
        });
        Ok(reply)
    }
}
