ghost use Rattle.std.specs.Prelude.{◌≡◌, ◌+◌, ◌<◌, ◌≤◌, length, map, All, IfOk, OnOk};
ghost use Rattle.std.specs.List.{range_with_len};
ghost use Rattle.session_script.specs.Scripts.{asked};
ghost use Rattle.session_script.specs.Kept.{IsAccepted};
ghost use Rattle.run_report.specs.Reports.{offered};
ghost use Rattle.helper_main.specs.Inputs.{HasOwn};
ghost use Rattle.helper_main.specs.Parties.{number_of, IsPartyOf};

use mod_ring::Ring;
use param_set::Plain;
use party_roll::{JointDealing, SeedParty, SeedRoll, Values};
use session_core::{Circuits, Offered};
use session_script::{NamedCircuits, Script};
use std::alloc::{AllocError, Global};
use std::sync::Arc;

/// The circuits of a script with the values of their inputs, for a session.
pub(crate) fn offered(alloc: Global, named: &NamedCircuits) -> Result<Circuits, AllocError>
    ensures { IfOk result (λ circuits. circuits ≡ map offered named.now) }
{
    let mut circuits = Circuits::new(alloc);
    'named: for circuit in named.as_slice() {
        circuits.push(Offered {
            circuit: Arc::try_clone(circuit.circuit())?,
            values: Some(Arc::try_clone(circuit.values())?),
        })?;
    }
    Ok(circuits)
}

/// Puts the values of those inputs of circuit c that party p owns behind those of earlier circuits.
fn push_values(
    alloc: Global,
    values: &mut Values,
    script: &Script,
    c: u32,
    p: u32,
) -> Result<(), AllocError>
    requires accepted { IsAccepted (asked script.now) }
    requires there { c < length script.now.circuits }
    requires earlier { HasOwn (asked script.now) p c 0 values.old }
    ensures { OnOk result (HasOwn (asked script.now) p (c + 1) 0 values.new) }
{
    let named = &script.circuits.as_slice()[c as usize];
    'inputs: for k in 0..named.circuit().inputs() {
        if named.circuit().owner(k) == Some(p) {
            let value = Vec::from_slice(alloc, named.values().at(k as usize).coeffs())?;
            values.push(c, k, Plain::from_vec(value))?;
        }
    }
    Ok(())
}

/// The values of all inputs that party p owns.
fn values_of(alloc: Global, script: &Script, p: u32) -> Result<Values, AllocError>
    requires accepted { IsAccepted (asked script.now) }
    ensures { IfOk result (λ values. HasOwn (asked script.now) p (length script.now.circuits) 0
        values) }
{
    let mut values = Values::new(alloc);
    'circuits: for c in 0..script.circuits.len() as u32 {
        push_values(alloc, &mut values, script, c, p)?;
    }
    Ok(values)
}

/// Party p of a script, with the values of its own inputs.
fn party(
    alloc: Global,
    ring: &Ring,
    joint: &JointDealing,
    script: &Script,
    p: u32,
) -> Result<SeedParty, AllocError>
    requires ring { ring.now.params ≡ script.now.params }
    requires joint { joint.now.params ≡ ring.now.params }
    requires roll { joint.now.roll.master ≡ script.now.master }
    requires accepted { IsAccepted (asked script.now) }
    requires some_party { 1 ≤ p }
    requires of_all { p ≤ script.now.params.parties }
    ensures number { IfOk result (λ party. number_of party ≡ p) }
    ensures party { IfOk result (IsPartyOf script.now.params (asked script.now)) }
{
    let values = values_of(alloc, script, p)?;
    SeedParty::from_joint(alloc, ring, joint, p, values)
}

/// The parties of a script, from 1 to N, each with the values of its own inputs. Each party's dealing is
/// drawn once for all of them.
pub(crate) fn parties(
    alloc: Global,
    ring: &Ring,
    roll: &SeedRoll,
    script: &Script,
) -> Result<Vec<SeedParty>, AllocError>
    requires ring { ring.now.params ≡ script.now.params }
    requires roll { roll.now.master ≡ script.now.master }
    requires accepted { IsAccepted (asked script.now) }
    ensures numbers { IfOk result (λ ps. map number_of ps.items
        ≡ range_with_len 1 script.now.params.parties) }
    ensures parties { IfOk result (λ ps. All (IsPartyOf script.now.params (asked script.now))
        ps.items) }
{
    let joint = JointDealing::new(alloc, ring, roll)?;
    let mut parties = Vec::new(alloc);
    'parties: for before in 0..ring.params().parties() as u32 {
        parties.push(party(alloc, ring, &joint, script, before + 1)?)?;
    }
    Ok(parties)
}
