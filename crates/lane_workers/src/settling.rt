ghost use Rattle.std.specs.Prelude.{◌≡◌, true, OnOk, IfErr, None};
ghost use Rattle.std.specs.List.{list_all};
ghost use Rattle.session_rules.specs.Steps.{next_ready};
ghost use Rattle.session_rules.specs.Courses.{is_over, is_settled as is_session_settled, round_tasks};
ghost use Rattle.session_rules.specs.Grounds.{NoneOpened, CanSettle};
ghost use Rattle.session_core.specs.Calls.{known, state_of};
ghost use Rattle.lane_workers.specs.Acting.{AreParties};
ghost use Rattle.lane_workers.specs.Desks.{session_view};
ghost use Rattle.lane_workers.specs.Doing.{Did, BrokeOff, Settled, StoppedSettling, all_send, rules_for};

use crate::sending::send;
use crate::working::work_off;
use mod_ring::Ring;
use party_roll::{Party, Roll};
use session_core::{CircuitState, Session, Stop};
use std::alloc::Global;

/// Whether each circuit is answered or refused.
fn is_settled(circuits: &[CircuitState]) -> bool
    ensures { result ≡ list_all is_over circuits.now }
{
    circuits.iter().all(|c| matches!(c, CircuitState::Answered | CircuitState::Refused { .. }))
}

/// Has each party send that is present now.
fn send_by_all<R: Roll, P: Party>(
    alloc: Global,
    session: &mut Session<R>,
    ring: &Ring,
    parties: &[P],
) -> Result<(), Stop>
    requires ring { ring.now.params ≡ (known session.old).params }
    requires parties { AreParties P.Party (known session.old) parties.now }
    ensures same { known session.new ≡ known session.old }
    ensures done { OnOk result (Did (all_send session.old) (session_view session.old)
        (session_view session.new)) }
    ensures stopped { IfErr result (BrokeOff (all_send session.old) (session_view session.old)
        (session_view session.new)) }
{
    let present = session.present();
    'parties: for party in parties {
        if present.has(party.number()) {
            send(alloc, session, ring, party)?;
        }
    }
    Ok(())
}

/// A round: each party that is present at its start sends, and all circuits that are ready are evaluated.
fn round<R: Roll, P: Party>(
    alloc: Global,
    session: &mut Session<R>,
    ring: &Ring,
    parties: &[P],
) -> Result<(), Stop>
    requires ring { ring.now.params ≡ (known session.old).params }
    requires parties { AreParties P.Party (known session.old) parties.now }
    ensures same { known session.new ≡ known session.old }
    ensures done { OnOk result (Did (round_tasks (state_of session.old))
        (session_view session.old) (session_view session.new)) }
    ensures stopped { IfErr result (BrokeOff (round_tasks (state_of session.old))
        (session_view session.old) (session_view session.new)) }
{
    send_by_all(alloc, session, ring, parties)?;
    work_off(alloc, session, ring)?;
    Ok(())
}

/// Settles a session, as caller 0: rounds are made while an admitted circuit isn't answered, six at most. Then no
/// instance is opened and no circuit is ready; and each admitted circuit is answered where enough parties are
/// present, the owners of all inputs that are wanted among them, and no circuit was taken.
///
/// The parties are all of the session's, in the order of their numbers; those that aren't present send nothing.
/// Where a call, a share, an input or an output meets no memory, or all calls of the session are made, the calls
/// before it stand: they are the first ones of those that settling makes. A circuit that was taken to be evaluated
/// is given back then, where it was memory that was wanting: that call stands behind them if it is answered.
pub fn settle<R: Roll, P: Party>(
    alloc: Global,
    session: &mut Session<R>,
    ring: &Ring,
    parties: &[P],
) -> Result<(), Stop>
    requires ring { ring.now.params ≡ (known session.old).params }
    requires parties { AreParties P.Party (known session.old) parties.now }
    ensures same { known session.new ≡ known session.old }
    ensures done { OnOk result (Settled session.old session.new) }
    ensures none_opened { OnOk result (NoneOpened (state_of session.new)) }
    ensures none_ready { OnOk result (next_ready (rules_for session.new) (state_of session.new)
        ≡ None) }
    ensures answered { OnOk result (CanSettle (rules_for session.old) (state_of session.old)
        → is_session_settled (state_of session.new) ≡ true) }
    ensures stopped { IfErr result (StoppedSettling session.old session.new) }
{
    'rounds: for _ in 0..6u32 {
        if is_settled(session.circuit_states()) {
            return Ok(());
        }
        round(alloc, session, ring, parties)?;
    }
    Ok(())
}
