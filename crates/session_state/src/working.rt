ghost use Rattle.std.specs.Prelude.{◌≡◌, ◌<◌, true, false, length, map, All, IfOk, IfSome, OnOk, OnErr, None};
ghost use Rattle.session_rules.specs.declared.reply.Reply.TheVariants as reply;
ghost use Rattle.session_spec.specs.Stores.{cipher_or, nothing_brought};
ghost use Rattle.session_state.specs.Parts.{ciphers_in, IsThere};
ghost use Rattle.session_state.specs.Standings.{setting, rules_of, state, store, taken, state_then, store_then, IsUnchanged};
ghost use Rattle.session_rules.specs.Steps.{ready};
ghost use Rattle.session_rules.specs.Facts.{Kept};
ghost use Rattle.session_rules.specs.Grounds.{Grounded};
ghost use Rattle.session_state.specs.Handed.{IsJobFor, CanEvaluate, is_list};

use crate::{Places, Standing, Taking};
use circuit_runner::{Inputs, Job};
use mod_ring::Ciphertext;
use session_rules::{Deed, Verdict, judge_take};
use std::alloc::{AllocError, Global};
use std::sync::Arc;

/// The ciphertexts of a circuit's inputs, all of which are there.
fn gathered(alloc: Global, places: &Places<Arc<Ciphertext>>) -> Result<Inputs, AllocError>
    requires { All IsThere places.now }
    ensures { IfOk result (λ inputs. inputs ≡ map cipher_or (ciphers_in places.now)) }
{
    let mut inputs = Inputs::new(alloc);
    'places: for place in 0..places.len() {
        if let Some(input) = places.get(place) {
            inputs.push(Arc::try_clone(input)?)?;
        }
    }
    Ok(inputs)
}

impl Standing {
    /// What the rules say to a caller that asks for work.
    fn verdict_on_take(&self, caller: u32) -> Verdict
        ensures said { result ≡ taken self.now caller }
        ensures plain { is_list result.reply ≡ false }
    {
        judge_take(
            &self.rules,
            self.table.live(),
            self.given.as_slice(),
            self.states.as_slice(),
            caller,
        )
    }

    /// The job for a circuit that is ready.
    fn job(&self, alloc: Global, number: u32) -> Result<Job, AllocError>
        requires there { number < length self.now.circuits }
        requires ready { ready (rules_of self.now) (state self.now) number ≡ true }
        requires grounded { Grounded (rules_of self.now) (state self.now) }
        ensures circuit { IfOk result (λ j. IsJobFor (setting self.now) (store self.now) number j) }
        ensures ready { IfOk result (λ j. CanEvaluate self.now.params j) }
    {
        let place = number as usize;
        let circuit = Arc::try_clone(&self.circuits.at(place).circuit)?;
        let inputs = gathered(alloc, &self.inputs[place])?;
        Ok(Job {
            number,
            circuit,
            inputs,
        })
    }

    /// Gives a caller the least circuit that is ready, which is its own then: Job, and Nothing where none is ready.
    /// Only Job takes memory.
    pub fn take(&mut self, alloc: Global, caller: u32) -> Result<Taking, AllocError>
        requires kept { Kept (rules_of self.old) (state self.old) }
        requires grounded { Grounded (rules_of self.old) (state self.old) }
        ensures reply { IfOk result (λ t. t.reply ≡ (taken self.old caller).reply) }
        ensures plain { IfOk result (λ t. is_list t.reply ≡ false) }
        ensures state { OnOk result (state self.new ≡ state_then self.old (taken self.old caller)) }
        ensures store { OnOk result (store self.new
            ≡ store_then self.old (taken self.old caller) nothing_brought) }
        ensures job { IfOk result (λ t. IfSome t.job (λ j. (taken self.old caller).reply
            ≡ reply.Job j.number)) }
        ensures there { IfOk result (λ t. t.job ≡ None → (taken self.old caller).reply
            ≡ reply.Nothing) }
        ensures circuit { IfOk result (λ t. IfSome t.job
            (λ j. IsJobFor (setting self.old) (store self.old) j.number j)) }
        ensures ready { IfOk result (λ t. IfSome t.job (λ j. CanEvaluate self.old.params j)) }
        ensures setting { setting self.new ≡ setting self.old }
        ensures params { self.new.params ≡ self.old.params }
        ensures unchanged { OnErr result (IsUnchanged self.old self.new) }
        ensures free { OnErr result ((taken self.old caller).reply ≡ reply.Nothing → ⊥) }
    {
        let verdict = self.verdict_on_take(caller);
        let Deed::Turns { circuit, to } = verdict.deed else {
            return Ok(Taking {
                reply: verdict.reply,
                job: None,
            });
        };
        let job = self.job(alloc, circuit)?;
        self.states[circuit as usize] = to;
        Ok(Taking {
            reply: verdict.reply,
            job: Some(job),
        })
    }
}
