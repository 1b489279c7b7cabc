ghost use Rattle.std.specs.Prelude.{◌≡◌, true, IfOk};
ghost use Rattle.session_rules.specs.declared.call.Call.TheVariants as call;
ghost use Rattle.session_spec.specs.Stores.{nothing_brought};
ghost use Rattle.session_state.specs.Handed.{is_brief};
ghost use Rattle.session_core.specs.Handing.{HandsKey, HandsBrief, ListsOrKey};
ghost use Rattle.session_core.specs.Calls.{At, OnlyWhere, Called};

use crate::entries::{copy, plain_copy};
use crate::{Briefing, Listing, Session, Stop};
use party_roll::Roll;
use session_rules::{Call, Entry};
use std::alloc::Global;

impl<R: Roll> Session<R> {
    /// What party p owes: List, or Absent; with the public key where one is complete. Only the lists, and the pointer
    /// to that key, take memory.
    pub fn pending(&mut self, alloc: Global, caller: u32, p: u32) -> Result<Listing, Stop>
        ensures called { Called self.old self.new result (λ r. r.reply) caller (call.Pending p)
            nothing_brought }
        ensures key { IfOk result (At HandsKey self.old) }
        ensures free { OnlyWhere (At ListsOrKey self.old) self.old result caller (call.Pending p) }
    {
        self.begin()?;
        let listing = self.standing.pending(alloc, p)?;
        let reply = copy(alloc, &listing.reply)?;
        self.log.push_reserved(Entry {
            caller,
            call: Call::Pending { p },
            reply,
        });
        Ok(listing)
    }

    /// What the parties of an instance are told: Brief with its brief, Late, or Unknown. Only Brief takes memory.
    pub fn brief(&mut self, caller: u32, id: u32) -> Result<Briefing, Stop>
        ensures called { Called self.old self.new result (λ r. r.reply) caller (call.Brief id)
            nothing_brought }
        ensures brief { IfOk result (At (HandsBrief id) self.old) }
        ensures free { OnlyWhere (λ r. is_brief r ≡ true) self.old result caller (call.Brief id) }
    {
        self.begin()?;
        let briefing = self.standing.brief(id)?;
        self.log.push_reserved(Entry {
            caller,
            call: Call::Brief { id },
            reply: plain_copy(&briefing.reply),
        });
        Ok(briefing)
    }
}
