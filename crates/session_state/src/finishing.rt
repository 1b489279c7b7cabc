ghost use Rattle.std.specs.Prelude.{◌≡◌, false, ◌<◌, ◌≤◌, length, slice_set, IfOk, OnOk, OnErr};
ghost use Rattle.ring_spec.specs.Pairs.{CipherFits};
ghost use Rattle.instance_table.specs.Spare.{spare};
ghost use Rattle.session_rules.specs.declared.reply.Reply.TheVariants as reply;
ghost use Rattle.session_rules.specs.declared.deed.Deed.TheVariants.{Turns};
ghost use Rattle.session_rules.specs.declared.state.CircuitState.TheVariants.{Evaluated};
ghost use Rattle.session_rules.specs.Issues.{most_moves};
ghost use Rattle.session_rules.specs.Deeds.{is_nothing, with_circuit};
ghost use Rattle.session_rules.specs.Steps.{does};
ghost use Rattle.session_rules.specs.Facts.{Kept};
ghost use Rattle.session_rules.specs.Grounds.{Grounded};
ghost use Rattle.session_spec.specs.Stores.{cipher_brought, with_output};
ghost use Rattle.session_state.specs.Handed.{is_list};
ghost use Rattle.session_state.specs.Issuings.{IsPlanned};
ghost use Rattle.session_state.specs.Standings.{setting, rules_of, state, store, finished, state_then, store_then, HasRoom, IsUnchanged};

use crate::Standing;
use crate::issuing::{Issuing, Source, plan};
use mod_ring::Ciphertext;
use session_rules::{CircuitState, Reply, Verdict, judge_finish};
use std::alloc::{AllocError, Global};

impl Standing {
    /// What the rules say to a caller that finishes a circuit.
    fn verdict_on_finish(&self, caller: u32, circuit: u32) -> Verdict
        ensures said { result ≡ finished self.now caller circuit }
        ensures ends { is_nothing result.deed ≡ false → result
            ≡ does reply.Finished (Turns circuit Evaluated) }
        ensures there { is_nothing result.deed ≡ false → circuit
            < length (state self.now).circuits }
        ensures plain { is_list result.reply ≡ false }
    {
        judge_finish(self.states.as_slice(), caller, circuit)
    }

    /// How far the circuits have come once one of them is evaluated.
    fn states_after(&self, alloc: Global, circuit: u32) -> Result<Vec<CircuitState>, AllocError>
        requires { circuit < length (state self.now).circuits }
        ensures { IfOk result (λ states. states.items
            ≡ slice_set (state self.now).circuits circuit Evaluated) }
    {
        let mut states = Vec::from_slice(alloc, self.states.as_slice())?;
        states[circuit as usize] = CircuitState::Evaluated;
        Ok(states)
    }

    /// What the rules of issue do once a circuit has its output, and the circuits have come so far.
    fn planned_once<'a>(
        &'a self,
        alloc: Global,
        circuit: u32,
        ct: &'a Ciphertext,
        states: &[CircuitState],
    ) -> Result<Issuing, AllocError>
        requires fits { CipherFits self.now.params.q self.now.params.n ct.now }
        requires there { circuit < length (state self.now).circuits }
        requires states { states.now ≡ slice_set (state self.now).circuits circuit Evaluated }
        requires room { HasRoom self.now }
        requires kept { Kept (rules_of self.now) (state self.now) }
        requires grounded { Grounded (rules_of self.now) (state self.now) }
        ensures planned { IfOk result (λ x. IsPlanned self.now.params (rules_of self.now)
            (with_circuit (state self.now) circuit Evaluated)
            (with_output circuit ct.now (store self.now)) x.steps.items) }
        ensures few { IfOk result (λ x. length x.steps.items ≤ most_moves (rules_of self.now)) }
    {
        let live = self.table.live_copied(alloc)?;
        let source = Source {
            table: &self.table,
            outputs: &self.outputs,
            circuit,
            made: Some(ct),
            place: 0,
            counted: None,
        };
        plan(
            alloc,
            &self.ring,
            &self.groups,
            &self.rules,
            self.needed.as_slice(),
            &self.present,
            live,
            self.table.issued(),
            states,
            &source,
        )
    }

    /// A circuit has its output from now on, and the circuits have come so far.
    fn evaluate(&mut self, circuit: u32, ct: Ciphertext, states: Vec<CircuitState>)
        requires fits { CipherFits self.old.params.q self.old.params.n ct }
        requires there { circuit < length (state self.old).circuits }
        requires states { states.items ≡ slice_set (state self.old).circuits circuit Evaluated }
        ensures state { state self.new ≡ with_circuit (state self.old) circuit Evaluated }
        ensures store { store self.new ≡ with_output circuit ct (store self.old) }
        ensures setting { setting self.new ≡ setting self.old }
        ensures params { self.new.params ≡ self.old.params }
        ensures spare { spare self.new.table ≡ spare self.old.table }
    {
        self.outputs.set(circuit as usize, ct);
        self.states = states;
    }

    /// Takes over the output of a circuit that is the caller's: Finished, and NotTaken where it isn't. Only Finished
    /// takes memory, for the instances that are issued.
    pub fn finish(
        &mut self,
        alloc: Global,
        caller: u32,
        circuit: u32,
        ct: Ciphertext,
    ) -> Result<Reply, AllocError>
        requires fits { CipherFits self.old.params.q self.old.params.n ct }
        requires room { HasRoom self.old }
        requires kept { Kept (rules_of self.old) (state self.old) }
        requires grounded { Grounded (rules_of self.old) (state self.old) }
        ensures reply { IfOk result (λ r. r ≡ (finished self.old caller circuit).reply) }
        ensures plain { IfOk result (λ r. is_list r ≡ false) }
        ensures state { OnOk result (state self.new
            ≡ state_then self.old (finished self.old caller circuit)) }
        ensures store { OnOk result (store self.new
            ≡ store_then self.old (finished self.old caller circuit) (cipher_brought ct)) }
        ensures setting { setting self.new ≡ setting self.old }
        ensures params { self.new.params ≡ self.old.params }
        ensures unchanged { OnErr result (IsUnchanged self.old self.new) }
        ensures free { OnErr result ((finished self.old caller circuit).reply ≡ reply.Finished) }
    {
        let verdict = self.verdict_on_finish(caller, circuit);
        if verdict.deed.is_nothing() {
            return Ok(verdict.reply);
        }
        let states = self.states_after(alloc, circuit)?;
        let issuing = self.planned_once(alloc, circuit, &ct, states.as_slice())?;
        self.room(issuing.steps.len() as u32)?;
        self.evaluate(circuit, ct, states);
        self.issue_planned(issuing);
        Ok(verdict.reply)
    }
}
