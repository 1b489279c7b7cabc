ghost use Rattle.std.specs.Prelude.{◌≡◌, ℕ, List, ◌++◌};
ghost use Rattle.sha2.specs.Hashers.{Holds256};
ghost use Rattle.sha2.specs.Sha256.{sha256};
ghost use Rattle.hex.specs.Hex.{encode_lower};
ghost use Rattle.run_report.specs.Digests.{poly_bytes, polys_digest, cipher_digest};

use mod_ring::{Ciphertext, Poly, Polys};
use sha2::{Digest, Sha256};

// Adds a polynomial's bytes to the message.
fn hash_poly(hasher: &mut Sha256, poly: &Poly)
    ensures { (m : List ℕ) → Holds256 hasher.old m
        → Holds256 hasher.new (m ++ poly_bytes poly.now) }
{
    let coeffs = poly.coeffs();
    'coeffs: for coeff in coeffs {
        hasher.update(coeff.to_le_bytes());
    }
}

// Bytes as hexadecimal digits in lower case.
fn hex_digits(bytes: &[u8; 32]) -> [u8; 64]
    ensures { result ≡ encode_lower bytes.now }
{
    let mut digits = [0; 64];
    // It refuses only room of another length.
    let _ = hex::encode_to_slice(bytes, &mut digits);
    digits
}

/// The digest of polynomials, as the sums of an instance: 64 hexadecimal digits in lower case, of the
/// SHA-256 of the coefficients, each as 8 bytes with the least first.
pub fn polys_digest(polys: &Polys) -> [u8; 64]
    ensures { result ≡ polys_digest polys.now }
{
    let mut hasher = Sha256::new();
    'polys: for place in 0..polys.len() {
        hash_poly(&mut hasher, polys.at(place));
    }
    hex_digits(&hasher.finalize())
}

/// The digest of a ciphertext, as `polys_digest` of c0 and then c1.
pub fn cipher_digest(cipher: &Ciphertext) -> [u8; 64]
    ensures { result ≡ cipher_digest cipher.now }
{
    let mut hasher = Sha256::new();
    hash_poly(&mut hasher, &cipher.c0);
    hash_poly(&mut hasher, &cipher.c1);
    hex_digits(&hasher.finalize())
}
