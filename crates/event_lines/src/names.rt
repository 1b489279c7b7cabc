ghost use Rattle.std.specs.Prelude.{◌≡◌, ◌++◌, OnOk};
ghost use Rattle.proto_names.specs.Groups.{is_outside};
ghost use Rattle.event_lines.specs.Names.{signature_text, set_text, outside_text};

use crate::lists::push_numbered;
use proto_names::{PartySet, Signature};
use std::alloc::AllocError;

// Puts a signature behind a text.
#[tactic(auto, unfolding(crate::specs::Names::signature_text))]
pub(crate) fn push_signature(text: &mut Vec<u8>, signature: Signature) -> Result<(), AllocError>
    ensures { OnOk result (text.new.items ≡ text.old.items ++ signature_text signature) }
{
    match signature {
        Signature::Pk => text.extend_from_slice(b"pk"),
        Signature::Rlk1 => text.extend_from_slice(b"rlk1"),
        Signature::Rlk2 => text.extend_from_slice(b"rlk2"),
        Signature::Rot(g) => push_numbered(text, b"rot", g),
        Signature::Dec(circuit) => push_numbered(text, b"dec", circuit),
    }
}

// Whether a party is in a set and not in another.
#[tactic(auto, unfolding(proto_names::specs::Groups::is_outside))]
fn is_outside(set: &PartySet, other: &PartySet, p: u32) -> bool
    ensures { result ≡ is_outside set.now.bits other.now.bits p }
{
    set.has(p) && !other.has(p)
}

// Puts the members of a set that aren't in another behind a text, rising, by commas.
#[tactic(auto, using(crate::proofs::Members::parties))]
pub(crate) fn push_outside(
    text: &mut Vec<u8>,
    set: &PartySet,
    other: &PartySet,
) -> Result<(), AllocError>
    ensures { OnOk result (text.new.items ≡ text.old.items ++ outside_text set.now.bits other.now.bits) }
{
    let mut separator: &[u8] = b"";
    'parties: for place in 0..32u32 {
        if is_outside(set, other, place + 1) {
            push_numbered(text, separator, place + 1)?;
            separator = b",";
        }
    }
    Ok(())
}

// Puts the members of a set behind a text, rising, by commas.
#[tactic(auto, using(crate::proofs::Members::outside_of_none))]
pub(crate) fn push_set(text: &mut Vec<u8>, set: &PartySet) -> Result<(), AllocError>
    ensures { OnOk result (text.new.items ≡ text.old.items ++ set_text set.now.bits) }
{
    push_outside(text, set, &PartySet { bits: 0 })
}
