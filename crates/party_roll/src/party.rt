//! What a party of a session does.
ghost use Rattle.std.specs.Prelude.{◌≡◌, ℕ, ◌<◌, List, Bool, true, length, All, Some, IsSome, IfOk};
ghost use Rattle.mod_ring.specs.Fits.{Fits};
ghost use Rattle.ring_spec.specs.Pairs.{KeyFits, CipherFits};
ghost use Rattle.draw_spec.specs.Streams.{input_stream};
ghost use Rattle.bfv_spec.specs.Drawn.{drawn_encryption};
ghost use Rattle.param_set.specs.Moduli.{digit_rows};
ghost use Rattle.param_set.specs.declared.params.Params.{Params};
ghost use Rattle.param_set.specs.Numbers.{numbers_of};
ghost use Rattle.proto_names.specs.Names.{rows_of};
ghost use Rattle.share_spec.specs.Seeds.{seed_in};
ghost use Rattle.session_spec.specs.Settings.{Setting};
ghost use Rattle.session_spec.specs.Shares.{share_rows};
ghost use Rattle.party_roll.specs.declared.placed.Placed.{Placed};
ghost use Rattle.party_roll.specs.Briefs.{IsBrief};
ghost use Rattle.instance_table.specs.Tables.{brief_role};
ghost use Rattle.party_roll.specs.Values.{value_in};

use instance_table::{Brief, Share};
use mod_ring::{Ciphertext, PublicKey, Ring};
use std::alloc::{AllocError, Global};

/// Makes shares of instances and encrypts inputs, for one party.
///
/// Whatever it makes fits the ring; where it tells the parties' seeds, it is what an honest party with
/// its seed makes.
pub trait Party: Sync {
    // The parameters that it was made for.
    ghost params: { Self → Params };

    // Its number, from 1 on.
    ghost number: { Self → ℕ };

    // The seed from which the common polynomials are drawn.
    ghost public: { Self → List ℕ };

    // Whether it tells the parties' seeds; and these, in the order of the parties.
    ghost tells: { Self → Bool };

    ghost seeds: { Self → List (List ℕ) };

    // The values that it has for inputs.
    ghost values: { Self → List Placed };

    /// The party's number.
    fn number(&self) -> u32
        ensures { result ≡ number self.now };

    /// Its share of an instance, by what it is told of it.
    fn share(&self, alloc: Global, ring: &Ring, brief: &Brief) -> Result<Share, AllocError>
        requires ring { params self.now ≡ ring.now.params }
        requires polys { IsBrief ring.now.params brief.now }
        ensures id { IfOk result (λ share. share.id ≡ brief.now.id) }
        ensures party { IfOk result (λ share. share.party ≡ number self.now) }
        ensures rows { IfOk result (λ share. length share.rows ≡ rows_of brief.now.signature (digit_rows ring.now.params.q ring.now.params.digit_bits)) }
        ensures fit { IfOk result (λ share. All (Fits ring.now) share.rows) }
        ensures honest { (w : Setting) → w.numbers ≡ numbers_of ring.now.params → w.public ≡ public self.now → tells self.now ≡ true
            → IfOk result (λ share. share.rows ≡ share_rows w (seeds self.now) (brief_role brief.now) brief.now.polys (number self.now)) };

    /// The encryption of its value for an input of a circuit, under a public key.
    fn input(
        &self,
        alloc: Global,
        ring: &Ring,
        key: &PublicKey,
        circuit: u32,
        input: u32,
    ) -> Result<Ciphertext, AllocError>
        requires ring { params self.now ≡ ring.now.params }
        requires key { KeyFits ring.now.params.q ring.now.params.n key.now }
        requires place { IsSome (value_in (values self.now) circuit input) }
        ensures fits { IfOk result (λ c. CipherFits ring.now.params.q ring.now.params.n c) }
        ensures honest { (m : List ℕ) → value_in (values self.now) circuit input ≡ Some m → tells self.now ≡ true
            → IfOk result (λ c. c ≡ drawn_encryption ring.now.params.q ring.now.params.n ring.now.params.t ring.now.params.err key.now m (seed_in (seeds self.now) (number self.now)) (input_stream circuit input) 0) };
}
