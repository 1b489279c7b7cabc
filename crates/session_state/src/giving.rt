ghost use Rattle.std.specs.Prelude.{◌≡◌, true, false, IfOk, OnOk, OnErr};
ghost use Rattle.ring_spec.specs.Pairs.{CipherFits};
ghost use Rattle.session_rules.specs.declared.reply.Reply.TheVariants as reply;
ghost use Rattle.session_rules.specs.declared.deed.Deed.TheVariants.{Gives};
ghost use Rattle.session_rules.specs.Deeds.{is_nothing, changed};
ghost use Rattle.session_rules.specs.Steps.{does, is_input};
ghost use Rattle.session_rules.specs.Facts.{Kept};
ghost use Rattle.session_rules.specs.Grounds.{Grounded};
ghost use Rattle.session_spec.specs.Stores.{cipher_brought, with_deed};
ghost use Rattle.session_state.specs.Handed.{is_list};
ghost use Rattle.session_state.specs.Standings.{setting, rules_of, state, store, inputted, state_then, store_then, IsUnchanged};

use crate::Standing;
use mod_ring::Ciphertext;
use session_rules::{Reply, Verdict, judge_input};
use std::alloc::{AllocError, Global};
use std::sync::Arc;

impl Standing {
    /// What the rules say to the encryption of an input.
    fn verdict_on_input(&self, circuit: u32, input: u32) -> Verdict
        ensures said { result ≡ inputted self.now circuit input }
        ensures gives { is_nothing result.deed ≡ false → result
            ≡ does reply.Given (Gives circuit input) }
        ensures wanted { is_nothing result.deed ≡ false → is_input (rules_of self.now) circuit input
            ≡ true }
        ensures plain { is_list result.reply ≡ false }
    {
        judge_input(
            &self.rules,
            &self.present,
            self.table.live(),
            self.given.as_slice(),
            circuit,
            input,
        )
    }

    /// An input is given from now on, and this is its encryption.
    fn give(&mut self, circuit: u32, input: u32, ct: Arc<Ciphertext>)
        requires fits { CipherFits self.old.params.q self.old.params.n ct.value }
        requires wanted { is_input (rules_of self.old) circuit input ≡ true }
        requires kept { Kept (rules_of self.old) (state self.old) }
        requires grounded { Grounded (rules_of self.old) (state self.old) }
        ensures state { state self.new ≡ changed (Gives circuit input) (state self.old) }
        ensures store { store self.new
            ≡ with_deed (setting self.old) (Gives circuit input) (cipher_brought ct.value)
            (store self.old) }
        ensures setting { setting self.new ≡ setting self.old }
        ensures params { self.new.params ≡ self.old.params }
    {
        let place = circuit as usize;
        self.given[place].set(input);
        self.inputs[place].set(input as usize, ct);
    }

    /// Takes the encryption of an input: NoInput, NoKey, Absent or Repeat where it isn't wanted, else Given. Only
    /// Given takes memory.
    pub fn input(
        &mut self,
        alloc: Global,
        circuit: u32,
        input: u32,
        ct: Ciphertext,
    ) -> Result<Reply, AllocError>
        requires fits { CipherFits self.old.params.q self.old.params.n ct }
        requires kept { Kept (rules_of self.old) (state self.old) }
        requires grounded { Grounded (rules_of self.old) (state self.old) }
        ensures reply { IfOk result (λ r. r ≡ (inputted self.old circuit input).reply) }
        ensures plain { IfOk result (λ r. is_list r ≡ false) }
        ensures state { OnOk result (state self.new
            ≡ state_then self.old (inputted self.old circuit input)) }
        ensures store { OnOk result (store self.new
            ≡ store_then self.old (inputted self.old circuit input) (cipher_brought ct)) }
        ensures setting { setting self.new ≡ setting self.old }
        ensures params { self.new.params ≡ self.old.params }
        ensures unchanged { OnErr result (IsUnchanged self.old self.new) }
        ensures free { OnErr result ((inputted self.old circuit input).reply ≡ reply.Given) }
    {
        let verdict = self.verdict_on_input(circuit, input);
        if verdict.deed.is_nothing() {
            return Ok(verdict.reply);
        }
        let ct = Arc::new(alloc, ct)?;
        self.give(circuit, input, ct);
        Ok(verdict.reply)
    }
}
