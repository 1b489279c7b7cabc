ghost use Rattle.session_rules.specs.declared.call.Call.TheVariants as call;
ghost use Rattle.session_rules.specs.declared.reply.Reply.TheVariants as reply;
ghost use Rattle.session_spec.specs.Stores.{nothing_brought};
ghost use Rattle.session_core.specs.Sessions.{IsParty};
ghost use Rattle.session_core.specs.Calls.{OnlyFor, Called};

use crate::entries::plain_copy;
use crate::{Session, Stop};
use party_roll::Roll;
use session_rules::{Call, Entry, Reply};
use std::alloc::Global;

impl<R: Roll> Session<R> {
    /// Party p is present from now on: Joined, or Already where it was. Only Joined takes memory.
    pub fn join(&mut self, alloc: Global, caller: u32, p: u32) -> Result<Reply, Stop>
        requires party { IsParty self.old.standing.params.parties p }
        ensures called { Called self.old self.new result (λ r. r) caller (call.Join p)
            nothing_brought }
        ensures free { OnlyFor reply.Joined self.old result caller (call.Join p) }
    {
        self.begin()?;
        let reply = self.standing.join(alloc, p)?;
        self.log.push_reserved(Entry {
            caller,
            call: Call::Join { p },
            reply: plain_copy(&reply),
        });
        Ok(reply)
    }

    /// Party p is absent from now on: Left, or Already where it was. Only Left takes memory. Each opened instance that
    /// lacks its share is given up.
    pub fn lose(&mut self, alloc: Global, caller: u32, p: u32) -> Result<Reply, Stop>
        requires party { IsParty self.old.standing.params.parties p }
        ensures called { Called self.old self.new result (λ r. r) caller (call.Lose p)
            nothing_brought }
        ensures free { OnlyFor reply.Left self.old result caller (call.Lose p) }
    {
        self.begin()?;
        let reply = self.standing.lose(alloc, p)?;
        self.log.push_reserved(Entry {
            caller,
            call: Call::Lose { p },
            reply: plain_copy(&reply),
        });
        Ok(reply)
    }
}
