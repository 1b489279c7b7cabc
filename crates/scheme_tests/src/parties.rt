ghost use Rattle.std.specs.Prelude.{◌≡◌, ◌<◌, ◌≤◌, true, length, All, IfOk, IsSome};
ghost use Rattle.mod_ring.specs.Fits.{Fits};
ghost use Rattle.ring_spec.specs.Pairs.{KeyFits};
ghost use Rattle.param_set.specs.Moduli.{digit_rows};
ghost use Rattle.proto_names.specs.Names.{rows_of};
ghost use Rattle.draw_spec.specs.Streams.{party_seed};
ghost use Rattle.param_set.specs.Numbers.{numbers_of};
ghost use Rattle.session_spec.specs.Settings.{Setting};
ghost use Rattle.session_spec.specs.Shares.{share_rows};
ghost use Rattle.party_roll.specs.Seeds.{seeds_of};
ghost use Rattle.instance_table.specs.Tables.{brief_role};
ghost use Rattle.party_roll.specs.Briefs.{IsBrief};
ghost use Rattle.party_roll.specs.Values.{value_in, IsPlain, HasStream};

use crate::common::frame;
use instance_table::{Brief, Share};
use mod_ring::{Ciphertext, Poly, Polys, PublicKey, Ring, of_signed};
use param_set::Plain;
use party_roll::*;
use proto_names::{Groups, PartySet, Signature};
use std::alloc::{AllocError, Global};
use std::process::Abort;
use std::sync::Arc;
use std::test::Fail;

fn public_of<R: Roll>(roll: &R) -> [u8; 32]
    ensures { result ≡ R.public roll.now }
{
    roll.public()
}

fn number_of<P: Party>(party: &P) -> u32
    ensures { result ≡ P.number party.now }
{
    party.number()
}

/// The share of a party that tells the seeds of a roll.
fn share_of<P: Party>(
    alloc: Global,
    ring: &Ring,
    roll: &SeedRoll,
    party: &P,
    brief: &Brief,
) -> Result<Share, AllocError>
    requires ring { P.params party.now ≡ ring.now.params }
    requires polys { IsBrief ring.now.params brief.now }
    requires tells { P.tells party.now ≡ true }
    requires public { P.public party.now ≡ party_seed roll.now.master 0 }
    requires seeds { P.seeds party.now ≡ seeds_of roll.now.master ring.now.params.parties }
    ensures rows { IfOk result (λ share. length share.rows ≡ rows_of brief.now.signature (digit_rows ring.now.params.q ring.now.params.digit_bits)) }
    ensures fit { IfOk result (λ share. All (Fits ring.now) share.rows) }
    ensures honest { (w : Setting) → w.numbers ≡ numbers_of ring.now.params → w.public ≡ party_seed roll.now.master 0
        → IfOk result (λ share. share.rows ≡ share_rows w (seeds_of roll.now.master ring.now.params.parties) (brief_role brief.now)
        brief.now.polys (P.number party.now)) }
{
    party.share(alloc, ring, brief)
}

/// The first two coefficients of a share of one row.
fn start_of(ring: &Ring, share: &Share) -> [u64; 2]
    requires more { 2 ≤ ring.now.params.n }
    requires one_row { length share.now.rows ≡ 1 }
    requires fit { All (Fits ring.now) share.now.rows }
{
    let coeffs = share.rows.at(0).coeffs();
    [coeffs[0], coeffs[1]]
}

fn input_of<P: Party>(
    alloc: Global,
    ring: &Ring,
    party: &P,
    key: &PublicKey,
    circuit: u32,
    input: u32,
) -> Result<Ciphertext, AllocError>
    requires ring { P.params party.now ≡ ring.now.params }
    requires key { KeyFits ring.now.params.q ring.now.params.n key.now }
    requires place { IsSome (value_in (P.values party.now) circuit input) }
{
    party.input(alloc, ring, key, circuit, input)
}

#[test]
fn seeds_of_zeros(rt: HostRuntime) -> Result<(), Fail> {
    let roll = SeedRoll::new([0; 32]);
    for (party, want) in [(0, [0x7f, 0x9c, 0x9e, 0x31]), (1, [0x1f, 0xd4, 0x24, 0x74])] {
        let seed = roll.seed(party);
        assert_eq!(rt; seed[..4], want[..], "of party {party}");
    }
    assert_eq!(rt; public_of(&roll), roll.seed(0));
    Ok(())
}

#[test]
fn public_seed_alone(rt: HostRuntime) -> Result<(), Fail> {
    let roll = NoRoll::new([5; 32]);
    assert_eq!(rt; public_of(&roll), [5; 32]);
    Ok(())
}

/// A plaintext of eight coefficients.
fn plain(alloc: Global, coeffs: [u64; 8]) -> Result<Plain, AllocError>
    ensures { IfOk result (λ value. value ≡ coeffs) }
{
    Ok(Plain::from_vec(Vec::from_slice(alloc, coeffs.as_slice())?))
}

/// Puts a plaintext of eight equal coefficients behind the values.
fn put(
    alloc: Global,
    values: &mut Values,
    circuit: u32,
    input: u32,
    coeff: u64,
) -> Result<(), AllocError> {
    let value = plain(alloc, [coeff; 8])?;
    values.push(circuit, input, value)
}

/// Values for two inputs.
fn put_twice(alloc: Global) -> Result<Values, AllocError> {
    let mut values = Values::new(alloc);
    put(alloc, &mut values, 1, 2, 5)?;
    put(alloc, &mut values, 2, 1, 7)?;
    Ok(values)
}

#[test]
fn counts_values(rt: HostRuntime) -> Result<(), Fail> {
    assert!(rt; Values::new(rt.alloc()).is_empty());
    let values = put_twice(rt.alloc())?;
    assert!(rt; !values.is_empty());
    assert_eq!(rt; values.len(), 2);
    Ok(())
}

/// The second part of the output of a run of two of three parties, and the first coefficients of
/// their shares of the public key and of its decryption, worked out by another implementation.
const C1: [i64; 8] = [
    31_015_564_472_841_817,
    28_865_441_132_655_295,
    12_297_137_298_752_388,
    17_662_254_875_788_718,
    12_824_272_759_341_111,
    5_435_456_220_074_820,
    679_429_921_653_033,
    20_795_211_188_468_281,
];

const SHARES: [(u32, [u64; 2], [u64; 2]); 2] = [
    (
        1,
        [21_280_062_192_852_777, 324_252_593_838_946],
        [26_640_061_834_304_045, 20_564_642_899_750_091],
    ),
    (
        2,
        [9_869_970_777_738_857, 16_055_477_691_142_413],
        [17_587_163_655_214_944, 20_869_465_863_179_568],
    ),
];

/// Whether a share of one row tells these numbers and starts so.
fn is_told(ring: &Ring, share: &Share, id: u32, p: u32, start: [u64; 2]) -> bool
    requires more { 2 ≤ ring.now.params.n }
    requires one_row { length share.now.rows ≡ 1 }
    requires fit { All (Fits ring.now) share.now.rows }
{
    (share.id, share.party, share.rows.len()) == (id, p, 1) && start_of(ring, share) == start
}

/// Whether a party has its number and makes, from the master seed of zeros, such a share.
fn is_made(
    alloc: Global,
    ring: &Ring,
    p: u32,
    brief: &Brief,
    id: u32,
    start: [u64; 2],
) -> Result<bool, AllocError>
    requires some_party { 1 ≤ p }
    requires of_all { p ≤ ring.now.params.parties }
    requires more { 2 ≤ ring.now.params.n }
    requires polys { IsBrief ring.now.params brief.now }
    requires one_row { rows_of brief.now.signature (digit_rows ring.now.params.q ring.now.params.digit_bits) ≡ 1 }
{
    let roll = SeedRoll::new([0; 32]);
    let party = SeedParty::new(alloc, ring, &roll, p, Values::new(alloc))?;
    let share = share_of(alloc, ring, &roll, &party, brief)?;
    Ok(number_of(&party) == p && is_told(ring, &share, id, p, start))
}

/// The brief of the public key of the first two parties.
#[tactic(auto, unfolding(proto_names::specs::Names::rows_of))]
fn key_brief(alloc: Global, ring: &Ring) -> Result<Brief, AllocError>
    ensures polys { IfOk result (λ brief. IsBrief ring.now.params brief) }
    ensures one_row { IfOk result (λ brief. rows_of brief.signature
        (digit_rows ring.now.params.q ring.now.params.digit_bits) ≡ 1) }
{
    let groups = Groups::first(alloc, 2, 3)?;
    Ok(Brief {
        id: 1,
        signature: Signature::Pk,
        set: PartySet { bits: 3 },
        round1: 0,
        groups: Arc::new(alloc, groups)?,
        polys: Polys::new(alloc),
    })
}

#[test]
fn shares_of_a_key(rt: HostRuntime) -> Result<(), Fail> {
    let ring = Ring::new(rt.alloc(), &frame(3, 2)?)?;
    let brief = key_brief(rt.alloc(), &ring)?;
    for (p, start, _) in SHARES {
        let made = is_made(rt.alloc(), &ring, p, &brief, 1, start)?;
        assert!(rt; made, "the key of party {p}");
    }
    Ok(())
}

/// The brief of a decryption by the first two parties.
#[tactic(auto, unfolding(proto_names::specs::Names::rows_of))]
fn decryption_brief(alloc: Global, ring: &Ring) -> Result<Brief, AllocError>
    requires { ring.now.params.n ≡ 8 }
    ensures polys { IfOk result (λ brief. IsBrief ring.now.params brief) }
    ensures one_row { IfOk result (λ brief. rows_of brief.signature (digit_rows ring.now.params.q ring.now.params.digit_bits) ≡ 1) }
{
    let mut polys = Polys::new(alloc);
    polys.push(of_signed(alloc, ring, &C1)?)?;
    let groups = Groups::first(alloc, 2, 3)?;
    Ok(Brief {
        id: 2,
        signature: Signature::Dec(0),
        set: PartySet { bits: 3 },
        round1: 0,
        groups: Arc::new(alloc, groups)?,
        polys,
    })
}

#[test]
fn shares_of_two_of_three(rt: HostRuntime) -> Result<(), Fail> {
    let ring = Ring::new(rt.alloc(), &frame(3, 2)?)?;
    let brief = decryption_brief(rt.alloc(), &ring)?;
    for (p, _, start) in SHARES {
        let made = is_made(rt.alloc(), &ring, p, &brief, 2, start)?;
        assert!(rt; made, "the decryption of party {p}");
    }
    Ok(())
}

/// A value for input 1 of circuit 2, and behind it another, which doesn't count.
#[tactic(auto, unfolding(party_roll::specs::Values::value_in))]
fn two_values(alloc: Global, ring: &Ring) -> Result<Values, AllocError>
    requires n { ring.now.params.n ≡ 8 }
    requires t { ring.now.params.t ≡ 16 }
    ensures plain { IfOk result (λ values. All (IsPlain ring.now.params.t ring.now.params.n) values) }
    ensures streams { IfOk result (λ values. All HasStream values) }
    ensures place { IfOk result (λ values. IsSome (value_in values 2 1)) }
{
    let mut values = Values::new(alloc);
    values.push(2, 1, plain(alloc, [1, 2, 3, 4, 5, 6, 7, 8])?)?;
    values.push(2, 1, plain(alloc, [9; 8])?)?;
    Ok(values)
}

/// The parts of an encryption by the second of three parties, worked out by another implementation.
const INPUT_C0: [u64; 8] = [
    1_970_324_836_974_591,
    3_940_649_673_949_185,
    5_910_974_510_923_777,
    7_881_299_347_898_369,
    9_851_624_184_872_958,
    11_821_949_021_847_550,
    13_792_273_858_822_141,
    15_762_598_695_796_733,
];

const INPUT_C1: [u64; 8] = [
    31_525_197_391_593_470,
    5,
    31_525_197_391_593_469,
    12,
    31_525_197_391_593_472,
    8,
    1,
    31_525_197_391_593_465,
];

/// 3 + X, and 5 X^2 + 7 X^7.
fn key_of(alloc: Global, ring: &Ring) -> Result<PublicKey, AllocError>
    requires { ring.now.params.n ≡ 8 }
    ensures { IfOk result (λ key. KeyFits ring.now.params.q ring.now.params.n key) }
{
    let p0 = of_signed(alloc, ring, &[3, 1, 0, 0, 0, 0, 0, 0])?;
    let p1 = of_signed(alloc, ring, &[0, 0, 5, 0, 0, 0, 0, 7])?;
    Ok(PublicKey { p0, p1 })
}

/// The second party's encryption of its value for input 1 of circuit 2.
fn second_input(alloc: Global, ring: &Ring) -> Result<Ciphertext, AllocError>
    requires n { ring.now.params.n ≡ 8 }
    requires t { ring.now.params.t ≡ 16 }
    requires parties { 2 ≤ ring.now.params.parties }
{
    let roll = SeedRoll::new([0; 32]);
    let values = two_values(alloc, ring)?;
    let party = SeedParty::new(alloc, ring, &roll, 2, values)?;
    let key = key_of(alloc, ring)?;
    input_of(alloc, ring, &party, &key, 2, 1)
}

/// Asserts both parts of the encryption.
fn has_parts<R: Abort>(rt: &R, c: &Ciphertext) {
    assert_eq!(rt; c.c0.coeffs(), &INPUT_C0[..]);
    assert_eq!(rt; c.c1.coeffs(), &INPUT_C1[..]);
}

#[test]
fn input_of_the_second_party(rt: HostRuntime) -> Result<(), Fail> {
    let ring = Ring::new(rt.alloc(), &frame(3, 2)?)?;
    has_parts(&rt, &second_input(rt.alloc(), &ring)?);
    Ok(())
}
