//! The last share of an instance: what it makes is made before anything is changed.
ghost use Rattle.std.specs.Prelude.{◌≡◌, ◌+◌, ◌^◌, ◌<◌, ◌≤◌, ℕ, [], length, slice_index_or, All, IfOk, OnOk, OnErr};
ghost use Rattle.mod_ring.specs.Fits.{Fits};
ghost use Rattle.ring_spec.specs.Ring.{IsPoly, ring_sum};
ghost use Rattle.bfv_spec.specs.Scheme.{decryption};
ghost use Rattle.proto_names.specs.Names.{rows_of};
ghost use Rattle.proto_names.specs.Instances.{after_share, missing};
ghost use Rattle.proto_names.specs.declared.signature.Signature.TheVariants.{Dec};
ghost use Rattle.instance_table.specs.Tables.{rows_sum};
ghost use Rattle.instance_table.specs.Spare.{spare};
ghost use Rattle.session_rules.specs.declared.state.CircuitState.TheVariants.{Evaluated};
ghost use Rattle.session_rules.specs.States.{circuit};
ghost use Rattle.session_rules.specs.Issues.{most_moves, issue};
ghost use Rattle.session_rules.specs.Deeds.{answered_by};
ghost use Rattle.session_rules.specs.Facts.{Kept};
ghost use Rattle.session_rules.specs.Grounds.{Grounded};
ghost use Rattle.session_spec.specs.Stores.{held_sums, held_output, cipher_or, with_rows, with_answer, grown};
ghost use Rattle.session_state.specs.Completions.{IsKey, IsAnswer, HasSumsAlone, IsMade, last_counted};
ghost use Rattle.session_state.specs.Issuings.{IsPlanned};
ghost use Rattle.session_state.specs.Standings.{setting, rules_of, state, store, HasRoom, IsUnchanged};
ghost use Rattle.session_state.specs.Wanted.{IsWanted};

use crate::Standing;
use crate::issuing::{Issuing, Source, carry_out, plan};
use bfv_core::copied;
use decrypt_protocol::dec_finish;
use instance_table::{Instance, Share};
use keygen_protocols::pk_key;
use mod_ring::{Polys, PublicKey, Ring, add_into};
use param_set::Plain;
use proto_names::Signature;
use session_rules::CircuitState;
use std::alloc::{AllocError, Global};
use std::sync::Arc;

/// What a complete instance gives by itself.
#[derive(Drop)]
pub(crate) enum Made {
    /// The public key.
    PublicKey { key: Arc<PublicKey> },
    /// The value of a circuit.
    Answer { circuit: u32, value: Plain },
    /// Nothing but its sums: it is a round of the relinearisation key, or a rotation key.
    Sums,
}

/// Sums with the rows of a share added to them.
fn with_rows_of(alloc: Global, ring: &Ring, held: &Polys, rows: &Polys) -> Result<Polys, AllocError>
    requires number { length rows.now ≡ length held.now }
    requires left { All (Fits ring.now) held.now }
    requires right { All (Fits ring.now) rows.now }
    ensures value { IfOk result (λ sums. sums
        ≡ rows_sum ring.now.params.q ring.now.params.n held.now rows.now) }
    ensures number { IfOk result (λ sums. length sums ≡ length held.now) }
    ensures fits { IfOk result (λ sums. All (Fits ring.now) sums) }
{
    let mut sums = Polys::new(alloc);
    'rows: for place in 0..held.len() {
        let mut row = copied(alloc, ring, held.at(place))?;
        add_into(ring, &mut row, rows.at(place));
        sums.push(row)?;
    }
    Ok(sums)
}

impl Standing {
    /// The sums of an instance once a share is added to them.
    fn sums_with(
        &self,
        alloc: Global,
        share: &Share,
        instance: &Instance,
    ) -> Result<Polys, AllocError>
        requires fits { All (IsPoly self.now.params.q self.now.params.n) share.now.rows }
        requires wanted { IsWanted (rules_of self.now) (state self.now) share.now.id share.now.party
            (length share.now.rows) instance.now }
        ensures value { IfOk result (λ sums. sums
            ≡ held_sums (with_rows (setting self.now) share.now.id share.now.rows (store self.now))
            share.now.id) }
        ensures number { IfOk result (λ sums. length sums
            ≡ rows_of instance.now.signature (rules_of self.now).rows) }
        ensures fits { IfOk result (λ sums. All (IsPoly self.now.params.q self.now.params.n) sums) }
    {
        match self.table.sums(share.id) {
            None => unreachable!(),
            Some(held) => with_rows_of(alloc, &self.ring, held, &share.rows),
        }
    }

    /// The value of a circuit from the sums of its complete decryption.
    #[tactic(auto, using(crate::proofs::LastShares::evaluated_there))]
    fn opened(&self, alloc: Global, c: u32, sums: &Polys) -> Result<Plain, AllocError>
        requires evaluated { circuit (state self.now).circuits c ≡ Evaluated }
        requires one_row { length sums.now ≡ 1 }
        requires fits { All (IsPoly self.now.params.q self.now.params.n) sums.now }
        ensures value { IfOk result (λ value. value
            ≡ decryption self.now.params.q self.now.params.t
            (ring_sum self.now.params.q self.now.params.n
            (cipher_or (held_output (store self.now) c)).c0 (slice_index_or sums.now 0 []))) }
        ensures fits { IfOk result (λ value. IsPoly self.now.params.t self.now.params.n value) }
    {
        match self.outputs.get(c as usize) {
            None => unreachable!(),
            Some(output) => Ok(dec_finish(alloc, &self.ring, &output.c0, sums)?),
        }
    }

    /// What an instance gives by itself, once these are its sums.
    #[tactic(auto, unfolding(proto_names::specs::Names::rows_of))]
    fn made(&self, alloc: Global, instance: &Instance, sums: &Polys) -> Result<Made, AllocError>
        requires decrypts { (c : ℕ) → instance.now.signature ≡ Dec c
            → circuit (state self.now).circuits c ≡ Evaluated }
        requires number { length sums.now
            ≡ rows_of instance.now.signature (rules_of self.now).rows }
        requires fits { All (IsPoly self.now.params.q self.now.params.n) sums.now }
        ensures made { IfOk result (IsMade self.now.params (setting self.now) (store self.now)
            sums.now instance.now) }
    {
        match instance.signature {
            Signature::Pk => {
                let key = pk_key(alloc, &self.ring, self.public, instance.id, sums)?;
                Ok(Made::PublicKey {
                    key: Arc::new(alloc, key)?,
                })
            }
            Signature::Dec(circuit) => Ok(Made::Answer {
                circuit,
                value: self.opened(alloc, circuit, sums)?,
            }),
            Signature::Rlk1 | Signature::Rlk2 | Signature::Rot(_) => Ok(Made::Sums),
        }
    }

    /// How far the circuits have come once an instance of this signature is complete.
    #[tactic(auto, unfolding(session_rules::specs::Deeds::answered_by))]
    fn states_with(
        &self,
        alloc: Global,
        signature: Signature,
    ) -> Result<Vec<CircuitState>, AllocError>
        requires there { (c : ℕ) → signature ≡ Dec c → c < length (state self.now).circuits }
        ensures { IfOk result (λ states. states.items
            ≡ answered_by signature (state self.now).circuits) }
    {
        let mut states = Vec::from_slice(alloc, self.states.as_slice())?;
        if let Signature::Dec(c) = signature {
            states[c as usize] = CircuitState::Answered;
        }
        Ok(states)
    }

    /// Counts the last share of the public key, which is there from now on.
    fn take_key(&mut self, share: &Share, instance: &Instance, key: Arc<PublicKey>)
        requires fits { All (IsPoly self.old.params.q self.old.params.n) share.now.rows }
        requires kept { Kept (rules_of self.old) (state self.old) }
        requires wanted { IsWanted (rules_of self.old) (state self.old) share.now.id share.now.party
            (length share.now.rows) instance.now }
        requires last { missing share.now.party instance.now ≡ 0 }
        requires made { IsKey (setting self.old)
            (held_sums (with_rows (setting self.old) share.now.id share.now.rows (store self.old))
            share.now.id) instance.now key.value }
        ensures state { state self.new
            ≡ last_counted (state self.old) instance.now share.now.id share.now.party }
        ensures store { store self.new ≡ with_answer (setting self.old) share.now.id
            instance.now.signature (with_rows (setting self.old) share.now.id share.now.rows
            (store self.old)) }
        ensures setting { setting self.new ≡ setting self.old }
        ensures params { self.new.params ≡ self.old.params }
        ensures spare { spare self.new.table ≡ spare self.old.table }
    {
        self.table.count(&self.ring, share);
        self.key = Some(key);
    }

    /// Counts the last share of a decryption, which answers its circuit.
    fn take_answer(
        &mut self,
        share: &Share,
        instance: &Instance,
        circuit: u32,
        value: Plain,
        states: Vec<CircuitState>,
    )
        requires fits { All (IsPoly self.old.params.q self.old.params.n) share.now.rows }
        requires kept { Kept (rules_of self.old) (state self.old) }
        requires wanted { IsWanted (rules_of self.old) (state self.old) share.now.id share.now.party
            (length share.now.rows) instance.now }
        requires last { missing share.now.party instance.now ≡ 0 }
        requires made { IsAnswer self.old.params (setting self.old) (store self.old)
            (held_sums (with_rows (setting self.old) share.now.id share.now.rows (store self.old))
            share.now.id) instance.now circuit value }
        requires states { states.items
            ≡ answered_by instance.now.signature (state self.old).circuits }
        ensures state { state self.new
            ≡ last_counted (state self.old) instance.now share.now.id share.now.party }
        ensures store { store self.new ≡ with_answer (setting self.old) share.now.id
            instance.now.signature (with_rows (setting self.old) share.now.id share.now.rows
            (store self.old)) }
        ensures setting { setting self.new ≡ setting self.old }
        ensures params { self.new.params ≡ self.old.params }
        ensures spare { spare self.new.table ≡ spare self.old.table }
    {
        self.table.count(&self.ring, share);
        self.answers.set(circuit as usize, value);
        self.states = states;
    }

    /// Counts the last share of a round of the relinearisation key, or of a rotation key.
    fn take_sums(&mut self, share: &Share, instance: &Instance)
        requires fits { All (IsPoly self.old.params.q self.old.params.n) share.now.rows }
        requires kept { Kept (rules_of self.old) (state self.old) }
        requires wanted { IsWanted (rules_of self.old) (state self.old) share.now.id share.now.party
            (length share.now.rows) instance.now }
        requires last { missing share.now.party instance.now ≡ 0 }
        requires made { HasSumsAlone instance.now.signature }
        ensures state { state self.new
            ≡ last_counted (state self.old) instance.now share.now.id share.now.party }
        ensures store { store self.new ≡ with_answer (setting self.old) share.now.id
            instance.now.signature (with_rows (setting self.old) share.now.id share.now.rows
            (store self.old)) }
        ensures setting { setting self.new ≡ setting self.old }
        ensures params { self.new.params ≡ self.old.params }
        ensures spare { spare self.new.table ≡ spare self.old.table }
    {
        self.table.count(&self.ring, share);
    }

    /// Counts the last share of an instance, and puts what it makes into its place.
    fn take_in(&mut self, share: &Share, instance: &Instance, made: Made, states: Vec<CircuitState>)
        requires fits { All (IsPoly self.old.params.q self.old.params.n) share.now.rows }
        requires kept { Kept (rules_of self.old) (state self.old) }
        requires wanted { IsWanted (rules_of self.old) (state self.old) share.now.id share.now.party
            (length share.now.rows) instance.now }
        requires last { missing share.now.party instance.now ≡ 0 }
        requires made { IsMade self.old.params (setting self.old) (store self.old)
            (held_sums (with_rows (setting self.old) share.now.id share.now.rows (store self.old))
            share.now.id) instance.now made }
        requires states { states.items
            ≡ answered_by instance.now.signature (state self.old).circuits }
        ensures state { state self.new
            ≡ last_counted (state self.old) instance.now share.now.id share.now.party }
        ensures store { store self.new ≡ with_answer (setting self.old) share.now.id
            instance.now.signature (with_rows (setting self.old) share.now.id share.now.rows
            (store self.old)) }
        ensures setting { setting self.new ≡ setting self.old }
        ensures params { self.new.params ≡ self.old.params }
        ensures spare { spare self.new.table ≡ spare self.old.table }
    {
        match made {
            Made::PublicKey { key } => self.take_key(share, instance, key),
            Made::Answer { circuit, value } => {
                self.take_answer(share, instance, circuit, value, states)
            }
            Made::Sums => self.take_sums(share, instance),
        }
    }

    /// Makes room for so many instances; nothing else changes.
    pub(crate) fn room(&mut self, instances: u32) -> Result<(), AllocError>
        ensures room { OnOk result (instances ≤ spare self.new.table) }
        ensures state { state self.new ≡ state self.old }
        ensures store { store self.new ≡ store self.old }
        ensures setting { setting self.new ≡ setting self.old }
        ensures params { self.new.params ≡ self.old.params }
    {
        self.table.room(instances)
    }

    /// Does what was planned for its state.
    pub(crate) fn issue_planned(&mut self, issuing: Issuing)
        requires kept { Kept (rules_of self.old) (state self.old) }
        requires room { length issuing.steps.items ≤ spare self.old.table }
        requires few { length (state self.old).instances + length issuing.steps.items ≤ 2 ^ 30 }
        requires planned { IsPlanned self.old.params (rules_of self.old) (state self.old)
            (store self.old) issuing.steps.items }
        ensures state { state self.new ≡ issue (rules_of self.old) (state self.old) }
        ensures store { store self.new
            ≡ grown (setting self.old) (state self.new).instances (store self.old) }
        ensures setting { setting self.new ≡ setting self.old }
        ensures params { self.new.params ≡ self.old.params }
    {
        carry_out(&mut self.table, issuing);
    }

    /// What the rules of issue do once the last share of an instance is counted, to these sums, and the circuits
    /// have come so far.
    fn planned<'a>(
        &'a self,
        alloc: Global,
        share: &Share,
        instance: &Instance,
        sums: &'a Polys,
        states: &[CircuitState],
    ) -> Result<Issuing, AllocError>
        requires room { HasRoom self.now }
        requires kept { Kept (rules_of self.now) (state self.now) }
        requires grounded { Grounded (rules_of self.now) (state self.now) }
        requires wanted { IsWanted (rules_of self.now) (state self.now) share.now.id share.now.party
            (length share.now.rows) instance.now }
        requires sums { sums.now
            ≡ held_sums (with_rows (setting self.now) share.now.id share.now.rows (store self.now))
            share.now.id }
        requires fits { All (IsPoly self.now.params.q self.now.params.n) sums.now }
        requires states { states.now ≡ answered_by instance.now.signature
            (state self.now).circuits }
        ensures planned { IfOk result (λ x. IsPlanned self.now.params (rules_of self.now)
            (last_counted (state self.now) instance.now share.now.id share.now.party)
            (with_rows (setting self.now) share.now.id share.now.rows (store self.now))
            x.steps.items) }
        ensures few { IfOk result (λ x. length x.steps.items ≤ most_moves (rules_of self.now)) }
    {
        let live = self.table.live_with_share(alloc, share.id, share.party)?;
        let source = Source {
            table: &self.table,
            outputs: &self.outputs,
            circuit: 0,
            made: None,
            place: share.id as usize - 1,
            counted: Some(sums),
        };
        plan(
            alloc,
            &self.ring,
            &self.groups,
            &self.rules,
            self.needed.as_slice(),
            &self.present,
            live,
            self.table.issued(),
            states,
            &source,
        )
    }

    /// Counts the last share of an instance, and puts what it makes into its place; then the rules of issue issue
    /// what they want. Where memory is wanting nothing has changed.
    pub(crate) fn complete(
        &mut self,
        alloc: Global,
        share: &Share,
        instance: &Instance,
    ) -> Result<(), AllocError>
        requires fits { All (IsPoly self.old.params.q self.old.params.n) share.now.rows }
        requires room { HasRoom self.old }
        requires kept { Kept (rules_of self.old) (state self.old) }
        requires grounded { Grounded (rules_of self.old) (state self.old) }
        requires wanted { IsWanted (rules_of self.old) (state self.old) share.now.id share.now.party
            (length share.now.rows) instance.now }
        requires last { missing share.now.party instance.now ≡ 0 }
        ensures state { OnOk result (state self.new
            ≡ issue (rules_of self.old) (last_counted (state self.old) instance.now share.now.id
            share.now.party)) }
        ensures store { OnOk result (store self.new
            ≡ grown (setting self.old) (state self.new).instances
            (with_answer (setting self.old) share.now.id instance.now.signature
            (with_rows (setting self.old) share.now.id share.now.rows (store self.old)))) }
        ensures setting { setting self.new ≡ setting self.old }
        ensures params { self.new.params ≡ self.old.params }
        ensures unchanged { OnErr result (IsUnchanged self.old self.new) }
    {
        let sums = self.sums_with(alloc, share, instance)?;
        let made = self.made(alloc, instance, &sums)?;
        let states = self.states_with(alloc, instance.signature)?;
        let issuing = self.planned(alloc, share, instance, &sums, states.as_slice())?;
        self.room(issuing.steps.len() as u32)?;
        self.take_in(share, instance, made, states);
        self.issue_planned(issuing);
        Ok(())
    }
}
