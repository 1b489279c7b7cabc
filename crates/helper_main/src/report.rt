ghost use Rattle.std.specs.Prelude.{◌≡◌, true, [], IfOk};
ghost use Rattle.session_script.specs.Scripts.{asked};
ghost use Rattle.session_script.specs.Kept.{IsAccepted};
ghost use Rattle.session_state.specs.Standings.{setting};
ghost use Rattle.run_report.specs.Reports.{setting_asked, seeds_asked};
ghost use Rattle.run_report.specs.Told.{seeds_of};
ghost use Rattle.headline.specs.History.{most_calls, history, are_free};
ghost use Rattle.helper_main.specs.Runs.{serial_report};

use crate::parties::{offered, parties};
use lane_workers::serial;
use mod_ring::Ring;
use party_roll::SeedRoll;
use run_report::text;
use session_core::{Session, Stop};
use session_script::Script;
use std::alloc::{AllocError, Global};
use std::sync::Arc;

/// The greatest number of calls of a session: more than any run of a script makes.
const MOST_CALLS: u32 = 8_388_608;

/// A script's session, before any call.
fn opened(alloc: Global, ring: &Arc<Ring>, script: &Script) -> Result<Session<SeedRoll>, AllocError>
    requires ring { ring.now.value.params ≡ script.now.params }
    requires free { are_free script.now.circuits ≡ true }
    requires accepted { IsAccepted (asked script.now) }
    ensures setting { IfOk result (λ s. setting s.standing ≡ setting_asked (asked script.now)) }
    ensures master { IfOk result (λ s. s.roll.master ≡ script.now.master) }
    ensures params { IfOk result (λ s. s.standing.params ≡ script.now.params) }
    ensures log { IfOk result (λ s. s.log.items ≡ []) }
    ensures most { IfOk result (λ s. s.max_calls ≡ most_calls) }
{
    let roll = SeedRoll::new(script.master);
    let circuits = offered(alloc, &script.circuits)?;
    Session::new(alloc, roll, Arc::try_clone(ring)?, circuits, MOST_CALLS)
}

/// Runs a script's session by one caller: those that are present join, its lanes are served, and it is settled.
fn run(alloc: Global, ring: &Arc<Ring>, script: &Script) -> Result<Session<SeedRoll>, AllocError>
    requires ring { ring.now.value.params ≡ script.now.params }
    requires free { are_free script.now.circuits ≡ true }
    requires accepted { IsAccepted (asked script.now) }
    ensures setting { IfOk result (λ s. setting s.standing ≡ setting_asked (asked script.now)) }
    ensures seeds { IfOk result (λ s. seeds_of s.standing s.roll.master
        ≡ seeds_asked (asked script.now)) }
    ensures log { IfOk result (λ s. s.log.items ≡ history (asked script.now)) }
{
    let roll = SeedRoll::new(script.master);
    let parties = parties(alloc, ring, &roll, script)?;
    let mut session = opened(alloc, ring, script)?;
    match serial(
        alloc,
        &mut session,
        ring,
        parties.as_slice(),
        script.present.as_slice(),
        script.lanes.as_slice(),
    ) {
        Ok(()) => Ok(session),
        Err(Stop::NoMemory) => Err(AllocError),
        Err(Stop::Spent) => unreachable!(),
    }
}

/// The report of a script.
pub(crate) fn report(alloc: Global, script: &Script) -> Result<Vec<u8>, AllocError>
    requires free { are_free script.now.circuits ≡ true }
    requires accepted { IsAccepted (asked script.now) }
    ensures { IfOk result (λ text. text.items ≡ serial_report (asked script.now)) }
{
    let ring = Arc::new(alloc, Ring::new(alloc, &script.params)?)?;
    let session = run(alloc, &ring, script)?;
    text(alloc, script, &session)
}
