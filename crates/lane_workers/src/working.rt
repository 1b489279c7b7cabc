ghost use Rattle.std.specs.Prelude.{◌≡◌, [], ◌∷◌, IfOk, OnOk, IfErr};
ghost use Rattle.session_rules.specs.Tasks.{finishes, exhausts};
ghost use Rattle.session_core.specs.Calls.{known};
ghost use Rattle.lane_workers.specs.Desks.{known_of, state_seen, IsJob, session_view};
ghost use Rattle.lane_workers.specs.Doing.{Did, BrokeOff, Worked, works};

use crate::desk::Desk;
use circuit_runner::{Job, evaluate};
use mod_ring::Ring;
use party_roll::Roll;
use session_core::{Session, Stop, Taking};
use std::alloc::Global;

/// Evaluates a job in hand, and brings its output. Where there is no memory for one of both, the circuit is given
/// back: it is idle again, unless that isn't answered either.
fn finish<D: Desk>(alloc: Global, desk: &mut D, ring: &Ring, job: &Job) -> Result<(), Stop>
    requires ring { ring.now.params ≡ (known_of (D.view desk.old)).params }
    requires job { IsJob (known_of (D.view desk.old)) (state_seen (D.view desk.old)) job.now }
    ensures same { (D.view desk.new).fixed ≡ (D.view desk.old).fixed }
    ensures done { OnOk result (Did (finishes job.now.number ∷ []) (D.view desk.old)
        (D.view desk.new)) }
    ensures stopped { IfErr result (BrokeOff (finishes job.now.number ∷ []) (D.view desk.old)
        (D.view desk.new)) }
{
    let why = match evaluate(alloc, ring, job) {
        Err(_) => Stop::NoMemory,
        Ok(ct) => match desk.finish(alloc, job.number, ct) {
            Ok(_) => return Ok(()),
            Err(why) => why,
        },
    };
    if let Stop::NoMemory = why {
        let _ = desk.give_back(job.number);
    }
    Err(why)
}

/// Takes the least circuit that is ready, and evaluates it; tells whether there was one. Where there is no memory for
/// its output, it is given back.
pub(crate) fn work<D: Desk>(alloc: Global, desk: &mut D, ring: &Ring) -> Result<bool, Stop>
    requires ring { ring.now.params ≡ (known_of (D.view desk.old)).params }
    ensures same { (D.view desk.new).fixed ≡ (D.view desk.old).fixed }
    ensures done { IfOk result (Worked (D.view desk.old) (D.view desk.new)) }
    ensures stopped { IfErr result (BrokeOff (exhausts ∷ []) (D.view desk.old) (D.view desk.new)) }
    ensures line_stopped { IfErr result (BrokeOff (works ∷ []) (D.view desk.old)
        (D.view desk.new)) }
{
    let Taking { reply: _, job } = desk.take(alloc)?;
    match job {
        None => Ok(false),
        Some(job) => {
            finish(alloc, desk, ring, &job)?;
            Ok(true)
        }
    }
}

/// Evaluates circuits until none is ready, each at most once.
pub(crate) fn work_off<R: Roll>(
    alloc: Global,
    session: &mut Session<R>,
    ring: &Ring,
) -> Result<(), Stop>
    requires ring { ring.now.params ≡ (known session.old).params }
    ensures same { known session.new ≡ known session.old }
    ensures done { OnOk result (Did (exhausts ∷ []) (session_view session.old)
        (session_view session.new)) }
    ensures stopped { IfErr result (BrokeOff (exhausts ∷ []) (session_view session.old)
        (session_view session.new)) }
{
    let circuits = session.circuits().len();
    'jobs: for _ in 0..circuits {
        if !work(alloc, session, ring)? {
            return Ok(());
        }
    }
    session.take(alloc, 0)?;
    Ok(())
}
