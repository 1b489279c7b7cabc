ghost use Rattle.std.specs.Prelude.{◌≡◌, All, OnOk, IfErr};
ghost use Rattle.std.specs.List.{flat_map};
ghost use Rattle.session_rules.specs.Courses.{lane_tasks};
ghost use Rattle.session_core.specs.Calls.{known};
ghost use Rattle.lane_workers.specs.Acting.{AreParties, IsLane, AreLanes};
ghost use Rattle.lane_workers.specs.Desks.{known_of, session_view};
ghost use Rattle.lane_workers.specs.Doing.{BrokeOff, Followed};

use crate::desk::Desk;
use crate::gate::Gate;
use crate::gated::Gated;
use crate::serving::serve_lines;
use mod_ring::Ring;
use party_roll::{Party, Roll};
use session_core::{Session, Stop};
use session_script::{Lane, Line};
use std::alloc::Global;

/// What surrounds a lane: the ring, all parties of the session in the order of their numbers, and who serves it, by
/// its number, behind which gate.
#[derive(Drop)]
pub struct Surroundings<'a, P: Party, G: Gate> {
    pub ring: &'a Ring,
    pub parties: &'a [P],
    pub gate: &'a G,
    pub worker: u32,
}

/// Serves a lane at a desk behind a gate.
fn serve_gated<D: Desk, P: Party, G: Gate>(
    alloc: Global,
    gated: &mut Gated<D, G>,
    ring: &Ring,
    parties: &[P],
    lane: &[Line],
) -> Result<(), Stop>
    requires ring { ring.now.params ≡ (known_of (D.view gated.old.desk.now)).params }
    requires parties { AreParties P.Party (known_of (D.view gated.old.desk.now)) parties.now }
    requires lane { IsLane (known_of (D.view gated.old.desk.now)).params.parties lane.now }
    ensures same_desk { gated.new.desk.ghost_name ≡ gated.old.desk.ghost_name }
    ensures same { (D.view gated.new.desk.now).fixed ≡ (D.view gated.old.desk.now).fixed }
    ensures done { OnOk result (Followed (lane_tasks lane.now) (D.view gated.old.desk.now)
        (D.view gated.new.desk.now)) }
    ensures stopped { IfErr result (BrokeOff (lane_tasks lane.now) (D.view gated.old.desk.now)
        (D.view gated.new.desk.now)) }
{
    serve_lines(alloc, gated, ring, parties, lane)
}

/// Serves a lane at a desk: its lines one after the other, from an empty hand. It stops at the first call that isn't
/// answered, and where what a call brings meets no memory.
///
/// Each party that a line names is one of the session's. What the desk's own calls were is said of them alone, so
/// others may call between them. A circuit that was taken, and for whose output there was no memory, is given back.
pub fn run_lane<D: Desk, P: Party, G: Gate>(
    alloc: Global,
    desk: &mut D,
    around: &Surroundings<P, G>,
    lane: &[Line],
) -> Result<(), Stop>
    requires ring { around.now.ring.now.params ≡ (known_of (D.view desk.old)).params }
    requires parties { AreParties P.Party (known_of (D.view desk.old)) around.now.parties.now }
    requires lane { IsLane (known_of (D.view desk.old)).params.parties lane.now }
    ensures same { (D.view desk.new).fixed ≡ (D.view desk.old).fixed }
    ensures done { OnOk result (Followed (lane_tasks lane.now) (D.view desk.old)
        (D.view desk.new)) }
    ensures stopped { IfErr result (BrokeOff (lane_tasks lane.now) (D.view desk.old)
        (D.view desk.new)) }
{
    let mut gated = Gated {
        desk,
        gate: around.gate,
        worker: around.worker,
        calls: 0,
    };
    serve_gated(alloc, &mut gated, around.ring, around.parties, lane)
}

/// Serves a lane as caller 0 of a session, without a gate: what `run_lane` says holds of it.
pub fn serve_lane<R: Roll, P: Party>(
    alloc: Global,
    session: &mut Session<R>,
    ring: &Ring,
    parties: &[P],
    lane: &[Line],
) -> Result<(), Stop>
    requires ring { ring.now.params ≡ (known session.old).params }
    requires parties { AreParties P.Party (known session.old) parties.now }
    requires lane { IsLane (known session.old).params.parties lane.now }
    ensures same { known session.new ≡ known session.old }
    ensures done { OnOk result (Followed (lane_tasks lane.now) (session_view session.old)
        (session_view session.new)) }
    ensures stopped { IfErr result (BrokeOff (lane_tasks lane.now) (session_view session.old)
        (session_view session.new)) }
{
    serve_lines(alloc, session, ring, parties, lane)
}

/// Serves lanes one after the other, each with a hand of its own.
pub(crate) fn serve_all<R: Roll, P: Party>(
    alloc: Global,
    session: &mut Session<R>,
    ring: &Ring,
    parties: &[P],
    lanes: &[Lane],
) -> Result<(), Stop>
    requires ring { ring.now.params ≡ (known session.old).params }
    requires parties { AreParties P.Party (known session.old) parties.now }
    requires lanes { AreLanes (known session.old).params.parties lanes.now }
    ensures same { known session.new ≡ known session.old }
    ensures done { OnOk result (Followed (flat_map lane_tasks lanes.now) (session_view session.old)
        (session_view session.new)) }
    ensures stopped { IfErr result (BrokeOff (flat_map lane_tasks lanes.now)
        (session_view session.old) (session_view session.new)) }
{
    'lanes: for lane in lanes {
        serve_lane(alloc, session, ring, parties, lane.as_slice())?;
    }
    Ok(())
}
