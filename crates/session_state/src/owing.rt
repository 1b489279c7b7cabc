ghost use Rattle.std.specs.Prelude.{◌≡◌, true, false, length, IfOk, OnErr, IfSome, IsSome, Some, None};
ghost use Rattle.proto_names.specs.Instances.{instance};
ghost use Rattle.proto_names.specs.declared.instance.Instance.{Instance};
ghost use Rattle.session_rules.specs.Steps.{pending as pending_at, brief as brief_at};
ghost use Rattle.session_rules.specs.Facts.{IsLive};
ghost use Rattle.session_spec.specs.Stores.{held_key};
ghost use Rattle.session_state.specs.Shared.{shared_if};
ghost use Rattle.session_state.specs.Standings.{setting, rules_of, state, store};
ghost use Rattle.session_state.specs.Handed.{IsBriefOf, brief_reply, is_list, is_brief, HandsOut};

use crate::{Briefing, Listing, Standing};
use mod_ring::PublicKey;
use proto_names::Stage;
use session_rules::{Reply, owed_inputs};
use std::alloc::{AllocError, Global};
use std::sync::Arc;

/// A further pointer to a key, if it is there.
fn pointer(key: &Option<Arc<PublicKey>>) -> Result<Option<Arc<PublicKey>>, AllocError>
    ensures same { IfOk result (λ again. shared_if again ≡ shared_if key.now) }
    ensures free { OnErr result (IsSome (shared_if key.now)) }
{
    match key {
        None => Ok(None),
        Some(key) => Ok(Some(Arc::try_clone(key)?)),
    }
}

impl Standing {
    /// What party p owes: List, or Absent; and the public key once there is one. Only these lists, and the pointer to
    /// that key, take memory.
    #[tactic(auto, unfolding(session_rules::specs::Steps::pending, session_rules::specs::Steps::owed_inputs, session_rules::specs::Steps::owed_of, session_rules::specs::Steps::lacks_input))]
    pub fn pending(&self, alloc: Global, p: u32) -> Result<Listing, AllocError>
        ensures reply { IfOk result (λ l. l.reply
            ≡ pending_at (rules_of self.now) (state self.now) p) }
        ensures key { IfOk result (λ l. shared_if l.key
            ≡ held_key (setting self.now) (store self.now) self.now.table.instances.items) }
        ensures free { OnErr result (HandsOut (setting self.now) (store self.now) (state self.now)
            (pending_at (rules_of self.now) (state self.now) p)) }
    {
        let key = pointer(&self.key)?;
        if !self.present.has(p) {
            return Ok(Listing {
                reply: Reply::Absent,
                key,
            });
        }
        let ids = self.table.pending(alloc, p)?;
        let instances = self.table.instances();
        let inputs = owed_inputs(alloc, &self.rules, instances, self.given.as_slice(), p)?;
        Ok(Listing {
            reply: Reply::List { ids, inputs },
            key,
        })
    }

    /// What the parties of an instance are told: Brief with its brief, Late, or Unknown. Only Brief takes memory.
    #[tactic(auto, unfolding(session_rules::specs::Steps::brief, session_rules::specs::Steps::told))]
    pub fn brief(&self, id: u32) -> Result<Briefing, AllocError>
        ensures reply { IfOk result (λ b. b.reply ≡ brief_at (state self.now) id) }
        ensures plain { IfOk result (λ b. is_list b.reply ≡ false) }
        ensures told { IfOk result (λ b. IfSome b.brief (λ a. (i : Instance)
            → instance self.now.table.instances.items id ≡ Some i
            → IsBriefOf self.now.params (store self.now) i a.value)) }
        ensures there { IfOk result (λ b. (i : Instance)
            → instance self.now.table.instances.items id ≡ Some i → IsLive i → b.brief ≡ None → ⊥) }
        ensures stands { IfOk result (λ b. IfSome b.brief (λ a. b.reply ≡ brief_reply a.value)) }
        ensures free { OnErr result (is_brief (brief_at (state self.now) id) ≡ true) }
    {
        let Some(instance) = self.table.find(id) else {
            return Ok(Briefing {
                reply: Reply::Unknown {
                    issued: self.table.issued(),
                },
                brief: None,
            });
        };
        if let Stage::Void { by } = instance.stage {
            return Ok(Briefing {
                reply: Reply::Late { by },
                brief: None,
            });
        }
        let Some(brief) = self.table.brief(id) else {
            unreachable!()
        };
        Ok(Briefing {
            reply: Reply::Brief {
                signature: instance.signature,
                set: instance.set,
            },
            brief: Some(Arc::try_clone(brief)?),
        })
    }
}
