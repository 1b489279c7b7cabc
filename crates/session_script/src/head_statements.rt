ghost use Rattle.std.specs.Prelude.{◌≡◌, ◌==◌, false, []};
ghost use Rattle.session_script.specs.Words.{texts};
ghost use Rattle.session_script.specs.Checks.{Follows};
ghost use Rattle.session_script.specs.Heads.{is_version, version_statement, given_params, judged, params_statement, master_seed, seed_statement, rising, present_statement};
ghost use Rattle.session_script.specs.Asked.{numbers_of};
ghost use Rattle.param_set.specs.Rules.{first_bad};
ghost use Rattle.param_set.specs.Numbers.{numbers_of as bounding};

use crate::checks::{is_statement, number_at, numbers, unless};
use crate::frame::Frame;
use crate::lanes::Lanes;
use crate::lines::{behind, leads, word_at};
use crate::named_circuits::NamedCircuits;
use crate::place::{Draft, Place};
use crate::reason::{Fault, Reason};
use hex::FromHex;
use param_set::{Ids, ParamFault, Params, RawParams};
use std::alloc::Global;

/// Whether the language has this version.
fn is_version(version: u64) -> bool
    ensures { result ≡ is_version version }
{
    version == 1 || version == 2
}

/// `helium VERSION`
#[tactic(auto, unfolding(crate::specs::Heads::version_statement))]
pub(crate) fn version_statement(words: &[&[u8]]) -> Result<Place, Reason>
    ensures { result ≡ version_statement (texts words.now) }
{
    unless(is_statement("helium", 2, words), Reason::Word)?;
    let version = number_at(words, 1)?;
    unless(is_version(version), Reason::Version)?;
    Ok(Place::Versioned {
        version: version as u32,
    })
}

/// The nine numbers of `params`.
#[tactic(auto, unfolding(crate::specs::Heads::given_params))]
fn given_params(words: &[&[u8]]) -> Result<RawParams, Reason>
    ensures { result ≡ given_params (texts words.now) }
{
    Ok(RawParams {
        n: number_at(words, 1)?,
        q: number_at(words, 2)?,
        t: number_at(words, 3)?,
        root: number_at(words, 4)?,
        digit_bits: number_at(words, 5)?,
        err: number_at(words, 6)?,
        flood: number_at(words, 7)?,
        parties: number_at(words, 8)?,
        threshold: number_at(words, 9)?,
    })
}

/// Parameters without balanced digits as a version has them: in version 2 their digits are balanced.
fn versioned(version: u32, params: Params) -> Params
    requires { params.balanced ≡ false }
    ensures numbers { bounding result ≡ record (bounding params) { balanced = version == 2 } }
    ensures psi { result.psi ≡ params.psi }
{
    if version == 2 {
        params.balanced()
    } else {
        params
    }
}

/// The parameters with these numbers, as a version has them.
#[tactic(auto, unfolding(crate::specs::Heads::judged))]
fn judged(version: u32, raw: &RawParams) -> Result<Frame, Reason>
    ensures { result ≡ judged version raw.now (first_bad raw.now) }
{
    match Params::check(raw) {
        Ok(params) => Ok(Frame::new(versioned(version, params))),
        Err(ParamFault::Bad { field, value }) => Err(Reason::Params { field, value }),
        Err(ParamFault::NoRoot { value }) => Err(Reason::NoRoot { value }),
    }
}

/// `params n q t root b B D N T`
#[tactic(auto, unfolding(crate::specs::Heads::params_statement))]
pub(crate) fn params_statement(version: u32, words: &[&[u8]]) -> Result<Place, Reason>
    ensures { result ≡ params_statement version (texts words.now) }
{
    unless(is_statement("params", 10, words), Reason::Word)?;
    let raw = given_params(words)?;
    let frame = judged(version, &raw)?;
    Ok(Place::Measured { version, frame })
}

/// The 32 bytes that 64 hexadecimal digits of either case spell.
fn master_seed(word: &[u8]) -> Result<[u8; 32], Reason>
    ensures { result ≡ master_seed word.now }
{
    <[u8; 32] as FromHex>::from_hex(word)
        .ok()
        .ok_or(Reason::Seed)
}

/// `seed DIGITS`
#[tactic(auto, unfolding(crate::specs::Heads::seed_statement))]
pub(crate) fn seed_statement(version: u32, frame: Frame, words: &[&[u8]]) -> Result<Place, Reason>
    ensures { result ≡ seed_statement version frame (texts words.now) }
{
    unless(is_statement("seed", 2, words), Reason::Word)?;
    let master = master_seed(word_at(words, 1))?;
    Ok(Place::Seeded {
        version,
        frame,
        master,
    })
}

/// The numbers as those of parties, each above the last.
#[tactic(auto, unfolding(crate::specs::Heads::rising))]
fn rising(alloc: Global, parties: u32, given: &[u64]) -> Result<Ids, Fault>
    ensures { Follows (rising parties [] 0 given.now) result }
{
    let mut present = Ids::new(alloc);
    let mut last = 0u64;
    'parties: for p in given {
        if *p <= last || u64::from(parties) < *p {
            return Err(Fault::from(Reason::Party));
        }
        present.push(*p as u32)?;
        last = *p;
    }
    Ok(present)
}

/// `present p1 p2 ..`
#[tactic(auto, unfolding(crate::specs::Heads::present_statement))]
pub(crate) fn present_statement(
    alloc: Global,
    version: u32,
    frame: Frame,
    master: [u8; 32],
    words: &[&[u8]],
) -> Result<Place, Fault>
    ensures { Follows (present_statement version frame master (texts words.now)) result }
{
    unless(leads("present", words), Reason::Word)?;
    let given = numbers(alloc, behind(words, 1))?;
    let present = rising(alloc, frame.parties(), &given)?;
    Ok(Place::Circuits {
        draft: Draft {
            version,
            frame,
            master,
            present,
            circuits: NamedCircuits::new(alloc),
            inputs: 0,
            turns: Ids::new(alloc),
            lanes: Lanes::new(alloc),
            lines: 0,
        },
    })
}
