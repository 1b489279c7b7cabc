ghost use Rattle.std.specs.Prelude.{◌≤◌, ◌<◌, IfOk};
ghost use Rattle.ring_spec.specs.Pairs.{KeyFits};
ghost use Rattle.ring_spec.specs.Ring.{IsPoly};

use crate::work::Work;
use bfv_core::encrypt;
use decrypt_protocol::dec_share;
use keygen_protocols::pk_share;
use mod_ring::{Poly, PublicKey, Ring};
use param_set::{Params, Plain, RawParams};
use rand_chacha::ChaCha20Rng;
use rand_core::SeedableRng;
use rand_core::utils::NextWord;
use ring_draws::{small, ternary, uniform, wide};
use std::alloc::{AllocError, Global};
use word_tape::Tape;

const PUBLIC: [u8; 32] = [1; 32];

const SEED: [u8; 32] = [2; 32];

/// A ring, and what is needed for each work in it.
#[derive(Drop)]
pub struct Setting {
    ring: Ring,
    key: PublicKey,
    message: Plain,
    part: Poly,
    rng: ChaCha20Rng,
    tape: Tape,
    pub ghost key_fits: { KeyFits ring.params.q ring.params.n key },
    pub ghost message_fits: { IsPoly ring.params.t ring.params.n message },
    pub ghost part_fits: { IsPoly ring.params.q ring.params.n part },
}

impl Setting {
    /// A setting with n coefficients, where there is one.
    pub fn new(alloc: Global, n: u64) -> Result<Option<Setting>, AllocError> {
        let Ok(params) = Params::check(&RawParams {
            n,
            q: 31_525_197_391_593_473,
            t: 65_537,
            root: 3,
            digit_bits: 8,
            err: 3,
            flood: 1_000_000_000_000,
            parties: 1,
            threshold: 1,
        }) else {
            return Ok(None);
        };
        let ring = Ring::new(alloc, &params)?;
        let mut tape = Tape::new(SEED, 0);
        let p0 = uniform(alloc, &ring, &mut tape)?;
        let p1 = uniform(alloc, &ring, &mut tape)?;
        let part = ternary(alloc, &ring, &mut tape)?;
        let message = ones(alloc, &ring)?;
        Ok(Some(Setting {
            ring,
            key: PublicKey { p0, p1 },
            message,
            part,
            rng: ChaCha20Rng::from_seed(SEED),
            tape,
        }))
    }

    /// The number of coefficients.
    pub fn n(&self) -> u64 {
        self.ring.params().n()
    }

    /// Does a work once, and gives the constant coefficient of the result, or the last word.
    pub fn once(&mut self, alloc: Global, work: Work, id: u32) -> Result<u64, AllocError> {
        let ring = &self.ring;
        let tape = &mut self.tape;
        Ok(match work {
            Work::Words => last_word(&mut self.rng, self.ring.params().n()),
            Work::TapeWords => last_tape_word(tape, ring.params().n()),
            Work::Uniform => first_of(&uniform(alloc, ring, tape)?),
            Work::Small => first_of(&small(alloc, ring, ring.params().err(), tape)?),
            Work::Wide => first_of(&wide(alloc, ring, ring.params().flood(), tape)?),
            Work::Ternary => first_of(&ternary(alloc, ring, tape)?),
            Work::Encryption => first_of(&encrypt(alloc, ring, &self.key, &self.message, tape)?.c0),
            Work::KeyShare => {
                first_of(pk_share(alloc, ring, PUBLIC, SEED, id, &self.part)?.at(0))
            }
            Work::DecryptionShare => {
                first_of(dec_share(alloc, ring, SEED, id, &self.key.p1, &self.part)?.at(0))
            }
        })
    }
}

/// The plaintext whose coefficients are all 1.
fn ones(alloc: Global, ring: &Ring) -> Result<Plain, AllocError>
    ensures { IfOk result (λ m. IsPoly ring.now.params.t ring.now.params.n m) }
{
    Ok(Plain::from_vec(vec![in alloc; 1; ring.params().n() as usize]?))
}

/// The constant coefficient.
fn first_of(f: &Poly) -> u64 {
    f.coeffs().first().copied().unwrap_or(0)
}

/// Draws so many words, and gives the last.
fn last_word(rng: &mut ChaCha20Rng, count: u64) -> u64 {
    let mut last = 0;
    for _ in 0..count {
        last = rng.next_word();
    }
    u64::from(last)
}

fn last_tape_word(tape: &mut Tape, count: u64) -> u64 {
    let mut last = 0;
    for _ in 0..count {
        last = tape.word();
    }
    u64::from(last)
}
