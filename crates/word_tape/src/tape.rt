ghost use Rattle.std.specs.Prelude.{◌≡◌, ℕ, ◌+◌, ◌*◌, ◌^◌, ◌<◌, ◌≤◌};
ghost use Rattle.draw_spec.specs.Draws.{word as word_of, uniform as uniform_of, small as small_of, wide as wide_of, ternary as ternary_of};
ghost use Rattle.word_tape.specs.Standing.{moved};

use mod_word::Modulus;
use rand_chacha::ChaCha20Rng;
use rand_core::SeedableRng;
use rand_core::utils::NextWord;
use std::marker::Model;

/// A place in a stream of a seed, from which draws are made.
#[derive(Drop)]
pub struct Tape {
    seed: [u8; 32],
    rng: ChaCha20Rng,
}

impl Model for Tape {
    ghost use Rattle.std.specs.Prelude.{◌≡◌, ◌^◌, ◌<◌};
    ghost use Rattle.rand_chacha.specs.ChaCha.{key_of};
    ghost use Rattle.word_tape.specs.Standing.{Standing};

    ghost Value = { Standing };

    ghost view = { λ a. record { seed = a.seed; stream = a.rng.stream; next = a.rng.word_pos } };

    ghost invariant = { λ a. (a.rng.key ≡ key_of a.seed) × (a.rng.word_pos < 2 ^ 68) };
}

impl Tape {
    /// The start of a stream.
    pub fn new(seed: [u8; 32], stream: u64) -> Tape
        ensures { result ≡ record { seed = seed; stream = stream; next = 0 } }
    {
        let mut rng = ChaCha20Rng::from_seed(seed);
        rng.set_stream(stream);
        Tape { seed, rng }
    }

    /// A second tape at the same place, for a caller that moves this one only once all else is done.
    pub fn copied(&self) -> Tape
        ensures { result ≡ self.now }
    {
        let mut rng = ChaCha20Rng::from_seed(self.seed);
        rng.set_stream(self.rng.get_stream());
        rng.set_word_pos(self.rng.get_word_pos());
        Tape {
            seed: self.seed,
            rng,
        }
    }

    /// The next word.
    #[tactic(auto, using(crate::proofs::Places::word_at_place))]
    pub fn word(&mut self) -> u32
        ensures value { result ≡ word_of self.old.seed self.old.stream self.old.next }
        ensures place { self.new ≡ moved self.old 1 }
    {
        self.rng.next_word()
    }

    /// Two words, the lower first.
    #[tactic(auto, using(crate::proofs::Places::word_wraps))]
    fn pair(&mut self) -> u64
        ensures value { result ≡ word_of self.old.seed self.old.stream self.old.next + 2 ^ 32 * word_of self.old.seed self.old.stream (self.old.next + 1) }
        ensures place { self.new ≡ moved self.old 2 }
    {
        let low = u64::from(self.word());
        let high = u64::from(self.word());
        low + 4_294_967_296 * high
    }

    /// A number from 0 to q - 1: four words, the lowest first, modulo q.
    #[tactic(auto, unfolding(draw_spec::specs::Draws::uniform), using(crate::proofs::Places::word_wraps))]
    pub fn uniform(&mut self, q: u64) -> u64
        requires { 1 ≤ q }
        ensures value { result ≡ uniform_of self.old.seed self.old.stream q self.old.next }
        ensures place { self.new ≡ moved self.old 4 }
    {
        let low = self.pair() as u128;
        let high = self.pair() as u128;
        ((low + 18_446_744_073_709_551_616 * high) % q as u128) as u64
    }

    /// `uniform` for a modulus that was made before, without a division.
    #[tactic(auto, unfolding(draw_spec::specs::Draws::uniform), using(crate::proofs::Places::word_wraps))]
    pub fn uniform_by(&mut self, modulus: &Modulus) -> u64
        ensures value { result ≡ uniform_of self.old.seed self.old.stream modulus.now.q self.old.next }
        ensures place { self.new ≡ moved self.old 4 }
    {
        let low = self.pair();
        let high = self.pair();
        modulus.wide(low, high)
    }

    /// A number from -bound to bound: a word modulo 2 * bound + 1, less bound.
    #[tactic(auto, unfolding(draw_spec::specs::Draws::small))]
    pub fn small(&mut self, bound: u64) -> i64
        requires { bound ≤ 255 }
        ensures value { result ≡ small_of self.old.seed self.old.stream bound self.old.next }
        ensures place { self.new ≡ moved self.old 1 }
    {
        (u64::from(self.word()) % (2 * bound + 1)) as i64 - bound as i64
    }

    /// `small` where the modulus 2 * bound + 1 was made before, without a division.
    #[inline]
    #[tactic(auto, unfolding(draw_spec::specs::Draws::small))]
    pub fn small_by(&mut self, bound: u64, choices: &Modulus) -> i64
        requires few { bound ≤ 255 }
        requires choices { choices.now.q ≡ 2 * bound + 1 }
        ensures value { result ≡ small_of self.old.seed self.old.stream bound self.old.next }
        ensures place { self.new ≡ moved self.old 1 }
    {
        choices.word(u64::from(self.word())) as i64 - bound as i64
    }

    /// A number from -bound to bound: two words, the lower first, modulo 2 * bound + 1, less bound.
    #[tactic(auto, unfolding(draw_spec::specs::Draws::wide))]
    pub fn wide(&mut self, bound: u64) -> i64
        requires { bound ≤ 2 ^ 40 }
        ensures value { result ≡ wide_of self.old.seed self.old.stream bound self.old.next }
        ensures place { self.new ≡ moved self.old 2 }
    {
        (self.pair() % (2 * bound + 1)) as i64 - bound as i64
    }

    /// `wide` where the modulus 2 * bound + 1 was made before, without a division.
    #[inline]
    #[tactic(auto, unfolding(draw_spec::specs::Draws::wide))]
    pub fn wide_by(&mut self, bound: u64, choices: &Modulus) -> i64
        requires few { bound ≤ 2 ^ 40 }
        requires choices { choices.now.q ≡ 2 * bound + 1 }
        ensures value { result ≡ wide_of self.old.seed self.old.stream bound self.old.next }
        ensures place { self.new ≡ moved self.old 2 }
    {
        choices.word(self.pair()) as i64 - bound as i64
    }

    /// -1, 0 or 1: a word modulo 3, less 1.
    #[tactic(auto, unfolding(draw_spec::specs::Draws::ternary))]
    pub fn ternary(&mut self) -> i64
        ensures value { result ≡ ternary_of self.old.seed self.old.stream self.old.next }
        ensures place { self.new ≡ moved self.old 1 }
    {
        (self.word() % 3) as i64 - 1
    }
}
