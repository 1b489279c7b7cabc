ghost use Rattle.std.specs.Prelude.{◌≡◌, ℕ, ◌<◌, ◌≤◌, [], ◌∷◌, true, All, Some, IfOk};
ghost use Rattle.ring_spec.specs.Pairs.{KeyFits, CipherFits};
ghost use Rattle.mod_ring.specs.Fits.{Fits};
ghost use Rattle.ring_spec.specs.Ring.{IsPoly};
ghost use Rattle.draw_spec.specs.Streams.{party_seed, input_stream};
ghost use Rattle.bfv_spec.specs.Drawn.{drawn_encryption};
ghost use Rattle.bfv_spec.specs.Shares.{honest_pk};
ghost use Rattle.dec_spec.specs.Decrypting.{honest_dec};
ghost use Rattle.share_spec.specs.Seeds.{share as share_at, part};
ghost use Rattle.party_roll.specs.Seeds.{seeds_of};
ghost use Rattle.party_roll.specs.Values.{IsPlain, HasStream};

use crate::joint::JointDealing;
use crate::party::Party;
use crate::seeds::SeedRoll;
use crate::values::Values;
use bfv_core::encrypt;
use decrypt_protocol::dec_share;
use instance_table::{Brief, Share};
use keygen_protocols::pk_share;
use mod_ring::{Ciphertext, Poly, Polys, PublicKey, Ring};
use param_set::{Params, Plain};
use proto_names::{PartySet, Signature, input_stream};
use shamir_ring::additive;
use std::alloc::{AllocError, Global};
use word_tape::Tape;

/// A party that makes its shares honestly, by its seed and its share of the secret.
#[derive(Drop)]
pub struct SeedParty {
    params: Params,
    roll: SeedRoll,
    number: u32,
    share: Poly,
    values: Values,
    ghost some_party: { 1 ≤ number },
    ghost of_all: { number ≤ params.parties },
    ghost dealt: { share ≡ share_at params.q params.n params.threshold (seeds_of roll.master params.parties) number },
    ghost fits: { IsPoly params.q params.n share },
    ghost plain: { All (IsPlain params.t params.n) values },
    ghost streams: { All HasStream values },
}

impl SeedParty {
    /// Party p of the roll, from 1 to N, with its values. All N parties deal for it alone; where several
    /// parties are made, `from_joint` has each deal once.
    pub fn new(
        alloc: Global,
        ring: &Ring,
        roll: &SeedRoll,
        p: u32,
        values: Values,
    ) -> Result<SeedParty, AllocError>
        requires some_party { 1 ≤ p }
        requires of_all { p ≤ ring.now.params.parties }
        requires plain { All (IsPlain ring.now.params.t ring.now.params.n) values }
        requires streams { All HasStream values }
        ensures params { IfOk result (λ party. ⟦<SeedParty as Party>⟧.params party ≡ ring.now.params) }
        ensures number { IfOk result (λ party. ⟦<SeedParty as Party>⟧.number party ≡ p) }
        ensures public { IfOk result (λ party. ⟦<SeedParty as Party>⟧.public party ≡ party_seed roll.now.master 0) }
        ensures tells { IfOk result (λ party. ⟦<SeedParty as Party>⟧.tells party ≡ true) }
        ensures seeds { IfOk result (λ party. ⟦<SeedParty as Party>⟧.seeds party ≡ seeds_of roll.now.master ring.now.params.parties) }
        ensures values { IfOk result (λ party. ⟦<SeedParty as Party>⟧.values party ≡ values) }
    {
        let joint = JointDealing::new(alloc, ring, roll)?;
        SeedParty::from_joint(alloc, ring, &joint, p, values)
    }

    /// Party p of the roll whose parties dealt, from 1 to N, with its values.
    pub fn from_joint(
        alloc: Global,
        ring: &Ring,
        joint: &JointDealing,
        p: u32,
        values: Values,
    ) -> Result<SeedParty, AllocError>
        requires ring { joint.now.params ≡ ring.now.params }
        requires some_party { 1 ≤ p }
        requires of_all { p ≤ ring.now.params.parties }
        requires plain { All (IsPlain ring.now.params.t ring.now.params.n) values }
        requires streams { All HasStream values }
        ensures params { IfOk result (λ party. ⟦<SeedParty as Party>⟧.params party ≡ ring.now.params) }
        ensures number { IfOk result (λ party. ⟦<SeedParty as Party>⟧.number party ≡ p) }
        ensures public { IfOk result (λ party. ⟦<SeedParty as Party>⟧.public party
            ≡ party_seed joint.now.roll.master 0) }
        ensures tells { IfOk result (λ party. ⟦<SeedParty as Party>⟧.tells party ≡ true) }
        ensures seeds { IfOk result (λ party. ⟦<SeedParty as Party>⟧.seeds party
            ≡ seeds_of joint.now.roll.master ring.now.params.parties) }
        ensures values { IfOk result (λ party. ⟦<SeedParty as Party>⟧.values party ≡ values) }
    {
        let share = joint.share(alloc, ring, p)?;
        Ok(SeedParty {
            params: *ring.params(),
            roll: joint.roll().copied(),
            number: p,
            share,
            values,
        })
    }

    /// The part of the secret that it takes part with when a set acts.
    #[tactic(auto, unfolding(share_spec::specs::Seeds::part, share_spec::specs::Seeds::share, share_spec::specs::Dealing::part))]
    fn part(&self, alloc: Global, ring: &Ring, set: PartySet) -> Result<Poly, AllocError>
        requires { self.now.params ≡ ring.now.params }
        ensures value { IfOk result (λ f. f ≡ part ring.now.params.q ring.now.params.n ring.now.params.threshold (seeds_of self.now.roll.master ring.now.params.parties) set.bits self.now.number) }
        ensures fits { IfOk result (λ f. Fits ring.now f) }
    {
        additive(alloc, ring, &self.share, set, self.number)
    }

    /// Its share of the public key of an instance with a set: one row.
    fn key_share(
        &self,
        alloc: Global,
        ring: &Ring,
        id: u32,
        set: PartySet,
    ) -> Result<Polys, AllocError>
        requires { self.now.params ≡ ring.now.params }
        ensures value { IfOk result (λ rows. rows ≡ honest_pk ring.now.params.q ring.now.params.n ring.now.params.err (party_seed self.now.roll.master 0) (party_seed self.now.roll.master self.now.number) id (part ring.now.params.q ring.now.params.n ring.now.params.threshold (seeds_of self.now.roll.master ring.now.params.parties) set.bits self.now.number) ∷ []) }
        ensures fits { IfOk result (λ rows. All (Fits ring.now) rows) }
    {
        let part = self.part(alloc, ring, set)?;
        let seed = self.roll.seed(self.number);
        pk_share(alloc, ring, self.roll.public(), seed, id, &part)
    }

    /// Its share of the decryption of a ciphertext with the second part c1, for an instance with a set:
    /// one row. Noise is added after the scaling by the Lagrange coefficient.
    fn decryption_share(
        &self,
        alloc: Global,
        ring: &Ring,
        id: u32,
        set: PartySet,
        c1: &Poly,
    ) -> Result<Polys, AllocError>
        requires ring { self.now.params ≡ ring.now.params }
        requires cipher { Fits ring.now c1.now }
        ensures value { IfOk result (λ rows. rows ≡ honest_dec ring.now.params.q ring.now.params.n ring.now.params.flood (party_seed self.now.roll.master self.now.number) id c1.now (part ring.now.params.q ring.now.params.n ring.now.params.threshold (seeds_of self.now.roll.master ring.now.params.parties) set.bits self.now.number) ∷ []) }
        ensures fits { IfOk result (λ rows. All (Fits ring.now) rows) }
    {
        let part = self.part(alloc, ring, set)?;
        let seed = self.roll.seed(self.number);
        dec_share(alloc, ring, seed, id, c1, &part)
    }
}

impl SeedParty {
    ghost use Rattle.param_set.specs.Numbers.{numbers_of};
    ghost use Rattle.session_spec.specs.Settings.{Setting};
    ghost use Rattle.session_spec.specs.Shares.{share_rows};
    ghost use Rattle.param_set.specs.Moduli.{digit_rows};
    ghost use Rattle.proto_names.specs.Names.{rows_of};
    ghost use Rattle.party_roll.specs.Briefs.{IsBrief};
    ghost use Rattle.instance_table.specs.Tables.{brief_role};
    ghost use Rattle.std.specs.Prelude.{length};

    /// The rows of its share of an instance.
    #[tactic(auto, using(crate::proofs::Honest::key_rows, crate::proofs::Honest::dec_rows), unfolding(proto_names::specs::Names::rows_of))]
    fn rows(&self, alloc: Global, ring: &Ring, brief: &Brief) -> Result<Polys, AllocError>
        requires ring { self.now.params ≡ ring.now.params }
        requires polys { IsBrief ring.now.params brief.now }
        ensures number { IfOk result (λ rows. length rows ≡ rows_of brief.now.signature (digit_rows ring.now.params.q ring.now.params.digit_bits)) }
        ensures fits { IfOk result (λ rows. All (Fits ring.now) rows) }
        ensures value { (w : Setting) → w.numbers ≡ numbers_of ring.now.params → w.public ≡ party_seed self.now.roll.master 0
            → IfOk result (λ rows. rows ≡ share_rows w (seeds_of self.now.roll.master ring.now.params.parties) (brief_role brief.now) brief.now.polys self.now.number) }
    {
        match brief.signature {
            Signature::Pk => self.key_share(alloc, ring, brief.id, brief.set),
            Signature::Dec(_) => {
                self.decryption_share(alloc, ring, brief.id, brief.set, brief.polys.at(0))
            }
            Signature::Rlk1 | Signature::Rlk2 | Signature::Rot(_) => unreachable!(),
        }
    }
}

impl Party for SeedParty {
    ghost params = { λ party. party.params };

    ghost number = { λ party. party.number };

    ghost public = { λ party. party_seed party.roll.master 0 };

    ghost tells = { λ party. true };

    ghost seeds = { λ party. seeds_of party.roll.master party.params.parties };

    ghost values = { λ party. party.values };

    fn number(&self) -> u32 {
        self.number
    }

    fn share(&self, alloc: Global, ring: &Ring, brief: &Brief) -> Result<Share, AllocError> {
        let rows = self.rows(alloc, ring, brief)?;
        Ok(Share {
            id: brief.id,
            party: self.number,
            rows,
        })
    }

    #[tactic(auto, using(crate::proofs::Placing::value_in_plain, crate::proofs::Placing::value_in_stream, crate::proofs::Told::seed_of_roll))]
    fn input(
        &self,
        alloc: Global,
        ring: &Ring,
        key: &PublicKey,
        circuit: u32,
        input: u32,
    ) -> Result<Ciphertext, AllocError> {
        let value = self.values.at(circuit, input);
        let seed = self.roll.seed(self.number);
        let mut tape = Tape::new(seed, input_stream(circuit, input));
        encrypt(alloc, ring, key, value, &mut tape)
    }
}
