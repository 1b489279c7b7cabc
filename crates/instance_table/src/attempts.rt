//! How many instances of each signature were issued.
ghost use Rattle.std.specs.Prelude.{◌≡◌, ◌≤◌, ◌<◌, ◌+◌, ◌^◌, cond, vec_len};
ghost use Rattle.std.specs.List.{position};
ghost use Rattle.std.specs.Vec.{vec_capacity};
ghost use Rattle.proto_names.specs.Names.{same};
ghost use Rattle.proto_names.specs.declared.signature.Signature.{Signature};
ghost use Rattle.instance_table.specs.Attempts.{attempts_in, counts};

use proto_names::Signature;

/// How many instances of a signature were issued.
#[derive(Clone, Copy)]
pub(crate) struct Attempt {
    pub(crate) signature: Signature,
    pub(crate) count: u32,
}

/// The place of the first entry of a signature.
fn entry_of(attempts: &[Attempt], signature: Signature) -> Option<usize>
    ensures { result ≡ position (counts signature) attempts.now }
{
    attempts
        .iter()
        .position(|attempt| attempt.signature.is(signature))
}

/// Counts one more instance of a signature, and tells how many there are then.
pub(crate) fn count_attempt(attempts: &mut Vec<Attempt>, signature: Signature) -> u32
    requires room { vec_len attempts.old < vec_capacity attempts.old }
    requires few { attempts_in attempts.old.items signature < 2 ^ 30 }
    ensures value { result ≡ attempts_in attempts.old.items signature + 1 }
    ensures attempts { (σ : Signature) → attempts_in attempts.new.items σ
        ≡ attempts_in attempts.old.items σ + cond (same signature σ) 1 0 }
    ensures len { vec_len attempts.new ≤ vec_len attempts.old + 1 }
    ensures capacity { vec_capacity attempts.new ≡ vec_capacity attempts.old }
{
    match entry_of(attempts.as_slice(), signature) {
        Some(place) => {
            let count = attempts[place].count + 1;
            attempts[place] = Attempt { signature, count };
            count
        }
        None => {
            attempts.push_reserved(Attempt {
                signature,
                count: 1,
            });
            1
        }
    }
}
