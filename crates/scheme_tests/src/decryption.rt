//! Shares and answers of two whole runs with the master seed of 32 zeros, worked out by another
//! implementation: one party alone, and the first two of three. Each run adds two inputs.
ghost use Rattle.std.specs.Prelude.{◌≡◌, All, IfOk, length};
ghost use Rattle.mod_ring.specs.Fits.{Fits};

use crate::common::frame;
use decrypt_protocol::{dec_finish, dec_share};
use mod_ring::{Poly, Polys, Ring, add_into, of_signed};
use std::alloc::{AllocError, Global};
use std::test::Fail;

/// The seeds of the first two parties: the SHA-256 of 32 zeros and the party's number.
const FIRST: [u8; 32] = [
    0x1f, 0xd4, 0x24, 0x74, 0x43, 0xc9, 0x44, 0x0c, 0xb3, 0xc4, 0x8c, 0x28, 0x85, 0x19, 0x37, 0x19,
    0x6b, 0xc1, 0x56, 0x03, 0x2d, 0x70, 0xa9, 0x6c, 0x98, 0xe1, 0x27, 0xec, 0xb3, 0x47, 0xe4, 0x5f,
];

const SECOND: [u8; 32] = [
    0x58, 0xcc, 0x2f, 0x44, 0xd3, 0xa2, 0x78, 0x66, 0x87, 0x47, 0x01, 0xfb, 0xad, 0x57, 0x3d, 0xa9,
    0xad, 0x1c, 0xfd, 0x88, 0xfa, 0x31, 0x45, 0x53, 0x1c, 0x82, 0x2f, 0x20, 0xa5, 0x8b, 0xee, 0xa1,
];

/// The ciphertext, part and share of the run of one party.
const C0_ALONE: [i64; 8] = [
    24_896_342_021_436_721,
    7_894_560_309_599_452,
    19_456_329_132_229_421,
    4_281_716_728_842_420,
    25_043_561_532_000_498,
    21_758_147_920_496_410,
    297_463_249_198_795,
    2_572_410_486_078_140,
];

const C1_ALONE: [i64; 8] = [
    11_044_122_268_608_364,
    18_563_671_143_404_977,
    3_641_424_061_022_910,
    9_625_864_960_894_322,
    22_944_530_015_754_883,
    20_569_331_160_724_249,
    28_838_763_165_742_625,
    758_182_654_751_696,
];

const PART_ALONE: [i64; 8] = [-1, 1, 0, -1, -1, 0, -1, -1];

const SHARE_ALONE: [i64; 8] = [
    22_391_454_065_953_485,
    23_630_637_081_994_020,
    14_039_193_096_338_648,
    27_243_480_662_751_052,
    6_481_635_859_592_972,
    9_767_049_471_097_067,
    31_227_734_142_394_671,
    28_952_786_905_515_330,
];

/// The ciphertext, parts and shares of the run of two parties.
const C0: [i64; 8] = [
    3_060_570_597_871_221,
    21_616_286_020_257_282,
    14_770_788_694_234_315,
    18_595_085_381_663_355,
    9_765_289_172_159_444,
    20_243_730_797_746_437,
    5_244_692_186_599_577,
    27_539_030_368_016_138,
];

const C1: [i64; 8] = [
    31_015_564_472_841_817,
    28_865_441_132_655_295,
    12_297_137_298_752_388,
    17_662_254_875_788_718,
    12_824_272_759_341_111,
    5_435_456_220_074_820,
    679_429_921_653_033,
    20_795_211_188_468_281,
];

const FIRST_PART: [i64; 8] = [
    12_253_568_840_673_768,
    30_600_954_219_178_305,
    16_708_348_619_850_335,
    14_519_664_640_480_858,
    521_794_002_145_278,
    8_006_382_261_252_098,
    16_867_727_004_424_012,
    26_611_335_457_142_620,
];

const FIRST_SHARE: [i64; 8] = [
    26_640_061_834_304_045,
    20_564_642_899_750_091,
    29_082_657_594_273_278,
    17_804_875_627_925_228,
    30_162_813_893_320_510,
    5_090_092_969_248_115,
    13_674_941_733_736_641,
    12_515_729_739_806_332,
];

const SECOND_PART: [i64; 8] = [
    19_271_628_550_919_705,
    924_243_172_415_170,
    14_816_848_771_743_139,
    17_005_532_751_112_616,
    31_003_403_389_448_192,
    23_518_815_130_341_375,
    14_657_470_387_169_459,
    4_913_861_934_450_852,
];

const SECOND_SHARE: [i64; 8] = [
    17_587_163_655_214_944,
    20_869_465_863_179_568,
    21_167_273_331_653_943,
    26_650_433_773_598_361,
    23_122_291_717_706_990,
    6_191_373_624_598_921,
    12_605_563_471_257_257,
    22_995_634_675_364_469,
];

/// A polynomial of the frame's ring.
fn poly(alloc: Global, ring: &Ring, coeffs: &[i64; 8]) -> Result<Poly, AllocError>
    requires { ring.now.params.n ≡ 8 }
    ensures { IfOk result (λ f. Fits ring.now f) }
{
    of_signed(alloc, ring, coeffs)
}

/// Whether a polynomial has these coefficients.
fn is(alloc: Global, ring: &Ring, f: &Poly, coeffs: &[i64; 8]) -> Result<bool, AllocError>
    requires { ring.now.params.n ≡ 8 }
{
    let wanted = poly(alloc, ring, coeffs)?;
    Ok(f.coeffs() == wanted.coeffs())
}

/// Whether a party's share of the decryption of c1 is this, for its seed and its part.
fn is_share(
    alloc: Global,
    ring: &Ring,
    seed: [u8; 32],
    c1: &[i64; 8],
    part: &[i64; 8],
    wanted: &[i64; 8],
) -> Result<bool, AllocError>
    requires { ring.now.params.n ≡ 8 }
{
    let c1 = poly(alloc, ring, c1)?;
    let part = poly(alloc, ring, part)?;
    let share = dec_share(alloc, ring, seed, 2, &c1, &part)?;
    is(alloc, ring, share.at(0), wanted)
}

#[test]
fn shares(rt: HostRuntime) -> Result<(), Fail> {
    let alloc = rt.alloc();
    let ring = Ring::new(alloc, &frame(1, 1)?)?;
    for (seed, c1, part, wanted) in [
        (FIRST, C1_ALONE, PART_ALONE, SHARE_ALONE),
        (FIRST, C1, FIRST_PART, FIRST_SHARE),
        (SECOND, C1, SECOND_PART, SECOND_SHARE),
    ] {
        assert!(rt; is_share(alloc, &ring, seed, &c1, &part, &wanted)?);
    }
    Ok(())
}

/// The one row of the sums of two shares.
fn sums_of(
    alloc: Global,
    ring: &Ring,
    first: &[i64; 8],
    second: &[i64; 8],
) -> Result<Polys, AllocError>
    requires { ring.now.params.n ≡ 8 }
    ensures one_row { IfOk result (λ sums. length sums ≡ 1) }
    ensures fit { IfOk result (λ sums. All (Fits ring.now) sums) }
{
    let mut sum = poly(alloc, ring, first)?;
    add_into(ring, &mut sum, &poly(alloc, ring, second)?);
    let mut sums = Polys::new(alloc);
    sums.push(sum)?;
    Ok(sums)
}

/// Whether the first part of a ciphertext opens to 8 + X^2 with these two shares.
fn is_opened(
    alloc: Global,
    ring: &Ring,
    c0: &[i64; 8],
    first: &[i64; 8],
    second: &[i64; 8],
) -> Result<bool, AllocError>
    requires { ring.now.params.n ≡ 8 }
{
    let c0 = poly(alloc, ring, c0)?;
    let sums = sums_of(alloc, ring, first, second)?;
    let opened = dec_finish(alloc, ring, &c0, &sums)?;
    Ok(opened.coeffs() == [8, 0, 1, 0, 0, 0, 0, 0].as_slice())
}

#[test]
fn opens(rt: HostRuntime) -> Result<(), Fail> {
    let alloc = rt.alloc();
    let ring = Ring::new(alloc, &frame(1, 1)?)?;
    for (c0, first, second) in [
        (C0_ALONE, SHARE_ALONE, [0; 8]),
        (C0, FIRST_SHARE, SECOND_SHARE),
    ] {
        assert!(rt; is_opened(alloc, &ring, &c0, &first, &second)?);
    }
    Ok(())
}
