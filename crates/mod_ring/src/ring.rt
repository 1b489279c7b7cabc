ghost use Rattle.std.specs.Prelude.{◌≡◌, ℕ, ◌<◌, [], length, map, replicate, IfOk, slice_index_or, slice_set};
ghost use Rattle.mod_ring.specs.Fits.{Fits};
ghost use Rattle.ring_spec.specs.Ring.{IsPoly, residue, residues, signed, ring_sum, ring_difference, ring_negative, ring_multiple, ring_product};

use crate::entries::{add_entries, neg_entries, scale_entries, sub_entries};
use crate::poly::{Poly, Polys};
use crate::signs::residue_of;
use crate::tabled::Tabled;
use param_set::Params;
use ring_ntt::Tables;
use std::alloc::{AllocError, Global};

/// The ring of some parameters, in which polynomials have n coefficients below q, with the tables of its
/// transforms and of those for products over the whole numbers.
#[derive(Drop)]
pub struct Ring {
    params: Tabled,
}

impl Ring {
    /// The ring R_q of the parameters. Their psi always has tables, so there is no other way of a product.
    pub fn new(alloc: Global, params: &Params) -> Result<Ring, AllocError>
        ensures { IfOk result (λ ring. ring.params ≡ params.now) }
    {
        let params = Tabled::new(alloc, params)?;
        Ok(Ring { params })
    }

    /// The parameters of the ring.
    pub fn params(&self) -> &Params
        ensures { result.now ≡ self.now.params }
    {
        self.params.params()
    }

    /// The tables of its transforms.
    pub(crate) fn tables(&self) -> &Tables
        ensures modulus { result.now.modulus ≡ self.now.params.q }
        ensures degree { result.now.length ≡ self.now.params.n }
        ensures root { result.now.root ≡ self.now.params.psi }
    {
        self.params.tables()
    }

    /// The tables of transforms modulo two fixed primes of 62 bits, for products over the whole numbers.
    pub fn whole_tables(&self) -> (&Tables, &Tables)
        ensures first { (result.0.now.modulus ≡ 4611686018427322369) × (result.0.now.length ≡ self.now.params.n) }
        ensures second { (result.1.now.modulus ≡ 4611686018427289601) × (result.1.now.length ≡ self.now.params.n) }
    {
        self.params.whole_tables()
    }
}

/// The zero polynomial.
pub fn zero(alloc: Global, ring: &Ring) -> Result<Poly, AllocError>
    ensures value { IfOk result (λ f. f ≡ replicate ring.now.params.n 0) }
    ensures fits { IfOk result (λ f. Fits ring.now f) }
{
    let coeffs = vec![in alloc; 0; ring.params().n() as usize]?;
    Ok(Poly { coeffs })
}

/// The residue of each of some whole numbers.
fn residues_of(alloc: Global, q: u64, coeffs: &[i64]) -> Result<Vec<u64>, AllocError>
    requires { 0 < q }
    ensures { IfOk result (λ v. v.items ≡ map (residue q) coeffs.now) }
{
    coeffs.iter().map(|x| residue_of(q, *x)).collect(alloc)
}

/// The residues of n whole numbers.
#[tactic(auto, using(crate::proofs::Fits::signed_ones))]
pub fn of_signed(alloc: Global, ring: &Ring, coeffs: &[i64]) -> Result<Poly, AllocError>
    requires { length coeffs.now ≡ ring.now.params.n }
    ensures value { IfOk result (λ f. f ≡ residues ring.now.params.q ring.now.params.n (signed coeffs.now)) }
    ensures fits { IfOk result (λ f. Fits ring.now f) }
{
    let coeffs = residues_of(alloc, ring.params().q(), coeffs)?;
    Ok(Poly { coeffs })
}

/// Takes over a list of n residues.
pub fn of_residues(_params: &Params, values: Vec<u64>) -> Poly
    requires { IsPoly _params.now.q _params.now.n values.items }
    ensures { result ≡ values.items }
{
    Poly { coeffs: values }
}

/// Adds f to acc.
pub fn add_into(ring: &Ring, acc: &mut Poly, f: &Poly)
    requires left { Fits ring.now acc.old }
    requires right { Fits ring.now f.now }
    ensures value { acc.new ≡ ring_sum ring.now.params.q ring.now.params.n acc.old f.now }
    ensures fits { Fits ring.now acc.new }
{
    add_entries(ring.params().q(), acc.coeffs.as_mut_slice(), f.coeffs());
}

/// Adds f to the polynomial at a place of a list; all others stay.
pub fn add_into_row(ring: &Ring, rows: &mut Polys, place: usize, f: &Poly)
    requires place { place < length rows.old }
    requires left { Fits ring.now (slice_index_or rows.old place []) }
    requires right { Fits ring.now f.now }
    ensures { rows.new ≡ slice_set rows.old place (ring_sum ring.now.params.q ring.now.params.n (slice_index_or rows.old place []) f.now) }
{
    add_into(ring, &mut rows.items[place], f);
}

/// Subtracts f from acc.
pub fn sub_into(ring: &Ring, acc: &mut Poly, f: &Poly)
    requires left { Fits ring.now acc.old }
    requires right { Fits ring.now f.now }
    ensures value { acc.new ≡ ring_difference ring.now.params.q ring.now.params.n acc.old f.now }
    ensures fits { Fits ring.now acc.new }
{
    sub_entries(ring.params().q(), acc.coeffs.as_mut_slice(), f.coeffs());
}

/// Makes acc its negative.
pub fn neg_into(ring: &Ring, acc: &mut Poly)
    requires { Fits ring.now acc.old }
    ensures value { acc.new ≡ ring_negative ring.now.params.q ring.now.params.n acc.old }
    ensures fits { Fits ring.now acc.new }
{
    neg_entries(ring.params().q(), acc.coeffs.as_mut_slice());
}

/// Multiplies acc by a number below q.
pub fn scale_into(ring: &Ring, acc: &mut Poly, k: u64)
    requires poly { Fits ring.now acc.old }
    requires factor { k < ring.now.params.q }
    ensures value { acc.new ≡ ring_multiple ring.now.params.q ring.now.params.n k acc.old }
    ensures fits { Fits ring.now acc.new }
{
    scale_entries(ring.params().q(), acc.coeffs.as_mut_slice(), k);
}

/// The product of f and g, by transforms.
#[tactic(auto, using(crate::proofs::Fits::fits))]
pub fn mul(alloc: Global, ring: &Ring, f: &Poly, g: &Poly) -> Result<Poly, AllocError>
    requires left { Fits ring.now f.now }
    requires right { Fits ring.now g.now }
    ensures value { IfOk result (λ h. h ≡ ring_product ring.now.params.q ring.now.params.n f.now g.now) }
    ensures fits { IfOk result (λ h. Fits ring.now h) }
{
    let coeffs = ring.params.product(alloc, f.coeffs(), g.coeffs())?;
    Ok(Poly { coeffs })
}
