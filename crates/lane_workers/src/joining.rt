ghost use Rattle.std.specs.Prelude.{◌≡◌, map, All, OnOk, IfErr};
ghost use Rattle.session_rules.specs.Courses.{joins};
ghost use Rattle.session_core.specs.Sessions.{IsParty};
ghost use Rattle.session_core.specs.Calls.{known};
ghost use Rattle.lane_workers.specs.Acting.{AreParties, AreLanes};
ghost use Rattle.lane_workers.specs.Desks.{session_view};
ghost use Rattle.lane_workers.specs.Doing.{Did, BrokeOff, Served, StoppedServing};

use crate::lanes::serve_all;
use crate::settling::settle;
use mod_ring::Ring;
use party_roll::{Party, Roll};
use session_core::{Session, Stop};
use session_script::Lane;
use std::alloc::Global;

/// Has some parties join, in their order.
fn join_all<R: Roll>(alloc: Global, session: &mut Session<R>, present: &[u32]) -> Result<(), Stop>
    requires present { All (IsParty (known session.old).params.parties) present.now }
    ensures same { known session.new ≡ known session.old }
    ensures done { OnOk result (Did (map joins present.now) (session_view session.old)
        (session_view session.new)) }
    ensures stopped { IfErr result (BrokeOff (map joins present.now) (session_view session.old)
        (session_view session.new)) }
{
    'parties: for p in present {
        session.join(alloc, 0, *p)?;
    }
    Ok(())
}

/// The serial run, all of it by caller 0: the parties that are present join in this order, the lanes are served one
/// after the other, each with a hand of its own, and the session is settled.
///
/// The parties are all of the session's, in the order of their numbers, and each party that a line names is one of
/// them. A share that a line holds is made whenever it is given, from the brief that was in hand. What is said at
/// `settle` of where it stops holds here too.
pub fn serial<R: Roll, P: Party>(
    alloc: Global,
    session: &mut Session<R>,
    ring: &Ring,
    parties: &[P],
    present: &[u32],
    lanes: &[Lane],
) -> Result<(), Stop>
    requires ring { ring.now.params ≡ (known session.old).params }
    requires parties { AreParties P.Party (known session.old) parties.now }
    requires present { All (IsParty (known session.old).params.parties) present.now }
    requires lanes { AreLanes (known session.old).params.parties lanes.now }
    ensures same { known session.new ≡ known session.old }
    ensures done { OnOk result (Served present.now lanes.now session.old session.new) }
    ensures stopped { IfErr result (StoppedServing present.now lanes.now session.old session.new) }
{
    join_all(alloc, session, present)?;
    serve_all(alloc, session, ring, parties, lanes)?;
    settle(alloc, session, ring, parties)?;
    Ok(())
}
