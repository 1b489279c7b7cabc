//! What lanes have called, with one circuit that is ready at once.
ghost use Rattle.std.specs.Prelude.{◌≡◌, false, IfOk};
ghost use Rattle.session_core.specs.Calls.{known};
ghost use Rattle.lane_workers.specs.Acting.{AreParties};
ghost use Rattle.lane_tests.specs.Constants.{HasNoInput};

use crate::failing::Failing;
use crate::setting::open;
use crate::short::Short;
use crate::watching::Watching;
use lane_workers::{OpenGate, Surroundings, run_lane, serve_lane};
use mod_ring::Ring;
use party_roll::{NoRoll, Party};
use session_core::{CircuitState, Entry, Reply, Session, Stop};
use session_script::Line;
use std::alloc::{AllocError, Global};
use std::sync::Arc;
use std::sync::atomic::Ordering::SeqCst;
use std::test::Fail;

/// What a call came to.
#[derive(Clone, Copy, Debug, PartialEq, Eq)]
enum Told {
    Job,
    Nothing,
    Finished,
    Returned,
    Unknown,
    Other,
}

fn outcome(entry: &Entry) -> Told {
    match &entry.reply {
        Reply::Job { circuit: _ } => Told::Job,
        Reply::Nothing => Told::Nothing,
        Reply::Finished => Told::Finished,
        Reply::Returned => Told::Returned,
        Reply::Unknown { issued: _ } => Told::Unknown,
        _ => Told::Other,
    }
}

/// What all calls of a session came to.
fn outcomes(alloc: Global, session: &Session<NoRoll>) -> Result<Vec<Told>, AllocError> {
    let mut all = Vec::new(alloc);
    for entry in session.log() {
        all.push(outcome(entry))?;
    }
    Ok(all)
}

fn is_idle(session: &Session<NoRoll>) -> bool {
    matches!(session.state(0), Some(CircuitState::Idle))
}

/// The parties of a session of one: one that makes nothing.
fn party_of(alloc: Global, session: &Session<NoRoll>) -> Result<Vec<Short>, AllocError>
    requires parties { session.now.standing.params.parties ≡ 1 }
    requires none { HasNoInput (known session.now).setting }
    requires silent { (known session.now).tells ≡ false }
    ensures { IfOk result (λ all. AreParties ⟦<Short as Party>⟧ (known session.now) all.items) }
{
    Ok(vec![in alloc;
        Short {
            params: *session.params(),
            number: 1,
        },
    ]?)
}

/// A lane line `work` at a desk.
fn work(alloc: Global, desk: &mut Failing, ring: &Ring, parties: &[Short]) -> Result<(), Stop>
    requires ring { ring.now.params ≡ (known desk.old.session).params }
    requires parties { AreParties ⟦<Short as Party>⟧ (known desk.old.session) parties.now }
    ensures { known desk.new.session ≡ known desk.old.session }
{
    let around = Surroundings {
        ring,
        parties,
        gate: &OpenGate,
        worker: 0,
    };
    run_lane(alloc, desk, &around, [Line::Work].as_slice())
}

#[test]
fn gives_back_what_cannot_be_finished(rt: HostRuntime) -> Result<(), Fail> {
    let alloc = rt.alloc();
    let Some(session) = open(alloc, 10)? else {
        panic!(rt; "no session")
    };
    let ring = Arc::try_clone(session.ring())?;
    let parties = party_of(alloc, &session)?;
    let mut desk = Failing {
        session,
        most: 10,
        fails: true,
    };
    let first = work(alloc, &mut desk, &ring, parties.as_slice());
    assert!(rt; matches!(first, Err(Stop::NoMemory)));
    assert!(rt; is_idle(&desk.session));
    assert_eq!(rt;
        outcomes(alloc, &desk.session)?.as_slice(),
        [Told::Job, Told::Returned].as_slice()
    );
    let second = work(alloc, &mut desk, &ring, parties.as_slice());
    assert!(rt; second.is_ok());
    assert!(rt; !is_idle(&desk.session));
    assert_eq!(rt;
        outcomes(alloc, &desk.session)?.as_slice(),
        [Told::Job, Told::Returned, Told::Job, Told::Finished].as_slice()
    );
    Ok(())
}

#[test]
fn calls_by_lines(rt: HostRuntime) -> Result<(), Fail> {
    let alloc = rt.alloc();
    let Some(mut session) = open(alloc, 10)? else {
        panic!(rt; "no session")
    };
    let ring = Arc::try_clone(session.ring())?;
    let parties = party_of(alloc, &session)?;
    let lane = [
        Line::Give,
        Line::Hold { p: 1, id: 1 },
        Line::Give,
        Line::Quit,
        Line::Work,
        Line::Quit,
    ];
    let said = serve_lane(
        alloc,
        &mut session,
        &ring,
        parties.as_slice(),
        lane.as_slice(),
    );
    assert!(rt; said.is_ok());
    let owed = [
        Told::Unknown,
        Told::Job,
        Told::Returned,
        Told::Job,
        Told::Finished,
        Told::Nothing,
    ];
    assert_eq!(rt; outcomes(alloc, &session)?.as_slice(), owed.as_slice());
    Ok(())
}

#[test]
fn passes_the_gate_round_each_call(rt: HostRuntime) -> Result<(), Fail> {
    let alloc = rt.alloc();
    let Some(mut session) = open(alloc, 10)? else {
        panic!(rt; "no session")
    };
    let ring = Arc::try_clone(session.ring())?;
    let parties = party_of(alloc, &session)?;
    let gate = Watching::new();
    let around = Surroundings {
        ring: &ring,
        parties: parties.as_slice(),
        gate: &gate,
        worker: 4,
    };
    let lane = [Line::Give, Line::Quit, Line::Work];
    let said = run_lane(alloc, &mut session, &around, lane.as_slice());
    assert!(rt; said.is_ok());
    assert_eq!(rt; session.log().len(), 4);
    assert_eq!(rt; gate.last.load(SeqCst), 4);
    assert_eq!(rt; gate.inside.load(SeqCst), 0);
    assert_eq!(rt; gate.faults.load(SeqCst), 0);
    Ok(())
}
