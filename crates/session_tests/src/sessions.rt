//! Calls that a run never shows, at n = 8 and q = 31525197391593473: a session of three parties, any two of whom
//! act, with one circuit that adds an input of party 1 and one of party 2. Nothing is told of seeds.
ghost use Rattle.std.specs.Prelude.{◌≡◌, ◌^◌, ◌<◌, ◌≤◌, length, All, IfOk, IfSome};
ghost use Rattle.mod_ring.specs.Fits.{Fits};

use crate::common::{frame, one_sum, zeros};
use mod_ring::{Poly, Polys, Ring, of_signed};
use party_roll::NoRoll;
use session_core::{Call, Reply, Session, Share, Stop};
use std::alloc::{AllocError, Global};
use std::process::Abort;
use std::sync::Arc;
use std::test::Fail;

/// What a call came to.
#[derive(Clone, Copy, Debug, PartialEq, Eq)]
enum Told {
    Joined,
    Left,
    Already,
    Absent,
    NoInput,
    NoKey,
    Unknown(u32),
    Stranger,
    Late(u32),
    Repeat,
    Shape(u32, u32),
    Counted(u32),
    Completed,
    Given,
    Nothing,
    Job(u32),
    Returned,
    NotTaken,
    Other,
    Spent,
    NoMemory,
}

fn outcome(said: &Result<Reply, Stop>) -> Told {
    match said {
        Ok(Reply::Joined) => Told::Joined,
        Ok(Reply::Left) => Told::Left,
        Ok(Reply::Already) => Told::Already,
        Ok(Reply::Absent) => Told::Absent,
        Ok(Reply::NoInput) => Told::NoInput,
        Ok(Reply::NoKey) => Told::NoKey,
        Ok(Reply::Unknown { issued }) => Told::Unknown(*issued),
        Ok(Reply::Stranger) => Told::Stranger,
        Ok(Reply::Late { by }) => Told::Late(*by),
        Ok(Reply::Repeat) => Told::Repeat,
        Ok(Reply::Shape { want, got }) => Told::Shape(*want, *got),
        Ok(Reply::Counted { missing }) => Told::Counted(*missing),
        Ok(Reply::Completed) => Told::Completed,
        Ok(Reply::Given) => Told::Given,
        Ok(Reply::Nothing) => Told::Nothing,
        Ok(Reply::Job { circuit }) => Told::Job(*circuit),
        Ok(Reply::Returned) => Told::Returned,
        Ok(Reply::NotTaken) => Told::NotTaken,
        Ok(_) => Told::Other,
        Err(Stop::Spent) => Told::Spent,
        Err(Stop::NoMemory) => Told::NoMemory,
    }
}

/// A session of so many calls, where its circuit can be made.
fn open(alloc: Global, max_calls: u32) -> Result<Option<Session<NoRoll>>, Fail>
    requires some { 1 ≤ max_calls }
    requires most { max_calls ≤ 100 }
    ensures degree { IfOk result (λ made. IfSome made (λ s. s.standing.params.n ≡ 8)) }
    ensures parties { IfOk result (λ made. IfSome made (λ s. s.standing.params.parties ≡ 3)) }
{
    let params = frame(3, 2)?;
    let Some(circuits) = one_sum(alloc, &params)? else {
        return Ok(None);
    };
    let ring = Arc::new(alloc, Ring::new(alloc, &params)?)?;
    let roll = NoRoll::new([0; 32]);
    Ok(Some(Session::new(alloc, roll, ring, circuits, max_calls)?))
}

/// A constant.
fn constant_of(alloc: Global, ring: &Ring, constant: i64) -> Result<Poly, AllocError>
    requires { ring.now.params.n ≡ 8 }
    ensures { IfOk result (λ f. Fits ring.now f) }
{
    of_signed(alloc, ring, &[constant, 0, 0, 0, 0, 0, 0, 0])
}

/// One row, or two: each a constant.
fn constants(alloc: Global, ring: &Ring, rows: u32, constant: i64) -> Result<Polys, AllocError>
    requires { ring.now.params.n ≡ 8 }
    ensures fits { IfOk result (λ list. All (Fits ring.now) list) }
    ensures few { IfOk result (λ list. length list ≤ 2) }
{
    let mut list = Polys::new(alloc);
    list.push(constant_of(alloc, ring, constant)?)?;
    if rows == 2 {
        list.push(constant_of(alloc, ring, constant)?)?;
    }
    Ok(list)
}

/// Lets a party join, where it is one.
fn join(alloc: Global, session: &mut Session<NoRoll>, p: u32) -> Result<Reply, Stop>
    requires { session.old.standing.params.parties ≡ 3 }
    ensures { session.new.standing.params ≡ session.old.standing.params }
{
    if p == 0 || p > 3 {
        return Ok(Reply::Absent);
    }
    session.join(alloc, 0, p)
}

/// Takes note that a party is lost, where it is one.
fn lose(alloc: Global, session: &mut Session<NoRoll>, p: u32) -> Result<Reply, Stop>
    requires { session.old.standing.params.parties ≡ 3 }
    ensures { session.new.standing.params ≡ session.old.standing.params }
{
    if p == 0 || p > 3 {
        return Ok(Reply::Joined);
    }
    session.lose(alloc, 0, p)
}

/// Delivers a share of one row, or of two: each a constant.
fn deliver(
    alloc: Global,
    session: &mut Session<NoRoll>,
    id: u32,
    party: u32,
    rows: u32,
    constant: i64,
) -> Result<Reply, Stop>
    requires { session.old.standing.params.n ≡ 8 }
    ensures { session.new.standing.params ≡ session.old.standing.params }
{
    let rows = constants(alloc, session.ring(), rows, constant)?;
    session.deliver(alloc, 0, &Share { id, party, rows })
}

/// Gives a ciphertext of zeros for an input.
fn input(
    alloc: Global,
    session: &mut Session<NoRoll>,
    circuit: u32,
    input: u32,
) -> Result<Reply, Stop>
    ensures { session.new.standing.params ≡ session.old.standing.params }
{
    let ct = zeros(alloc, session.ring())?;
    session.input(alloc, 0, circuit, input, ct)
}

/// Brings a ciphertext of zeros for the output of a circuit.
fn finish(alloc: Global, session: &mut Session<NoRoll>, circuit: u32) -> Result<Reply, Stop>
    ensures { session.new.standing.params ≡ session.old.standing.params }
{
    let ct = zeros(alloc, session.ring())?;
    session.finish(alloc, 0, circuit, ct)
}

/// Makes a call of caller 0, with shares of a constant and ciphertexts of zeros.
fn make(
    alloc: Global,
    session: &mut Session<NoRoll>,
    call: Call,
    constant: i64,
) -> Result<Reply, Stop>
    requires degree { session.old.standing.params.n ≡ 8 }
    requires parties { session.old.standing.params.parties ≡ 3 }
    ensures { session.new.standing.params ≡ session.old.standing.params }
{
    match call {
        Call::Join { p } => join(alloc, session, p),
        Call::Deliver { id, p, rows } => deliver(alloc, session, id, p, rows, constant),
        Call::Input {
            circuit,
            input: place,
        } => input(alloc, session, circuit, place),
        Call::Take => Ok(session.take(alloc, 0)?.reply),
        Call::Finish { circuit } => finish(alloc, session, circuit),
        Call::Brief { id } => Ok(session.brief(0, id)?.reply),
        Call::Pending { p } => Ok(session.pending(alloc, 0, p)?.reply),
        Call::Lose { p } => lose(alloc, session, p),
        Call::GiveBack { circuit } => session.give_back(0, circuit),
    }
}

/// Makes some calls, and compares what each comes to. With each stands the constant of its share.
fn come_to<R: Abort>(
    rt: &R,
    alloc: Global,
    session: &mut Session<NoRoll>,
    calls: &[(Call, i64, Told)],
)
    requires degree { session.old.standing.params.n ≡ 8 }
    requires parties { session.old.standing.params.parties ≡ 3 }
{
    'calls: for (call, constant, want) in calls {
        let said = outcome(&make(alloc, session, *call, *constant));
        assert_eq!(rt; said, *want, "{call:?}");
    }
}

/// A share of instance 1 with so many rows.
const fn of_first(p: u32, rows: u32) -> Call {
    Call::Deliver { id: 1, p, rows }
}

#[test]
fn refuses_what_is_not_wanted(rt: HostRuntime) -> Result<(), Fail> {
    let alloc = rt.alloc();
    let Some(mut session) = open(alloc, 40)? else {
        panic!(rt; "no session")
    };
    let unissued = Call::Deliver {
        id: 0,
        p: 1,
        rows: 1,
    };
    let first = Call::Input {
        circuit: 0,
        input: 0,
    };
    let third = Call::Input {
        circuit: 0,
        input: 2,
    };
    let calls = [
        (Call::Join { p: 1 }, 1, Told::Joined),
        (Call::Join { p: 2 }, 1, Told::Joined),
        (Call::Join { p: 3 }, 1, Told::Joined),
        (first, 1, Told::NoKey),
        (third, 1, Told::NoInput),
        (of_first(1, 2), 1, Told::Shape(1, 2)),
        (unissued, 1, Told::Unknown(1)),
        (of_first(3, 1), 1, Told::Stranger),
        (Call::Finish { circuit: 0 }, 1, Told::NotTaken),
        (Call::Take, 1, Told::Nothing),
        (of_first(1, 1), 1, Told::Counted(1)),
        (of_first(1, 1), 1, Told::Repeat),
    ];
    come_to(&rt, alloc, &mut session, calls.as_slice());
    assert_eq!(rt; session.log().len(), 12);
    Ok(())
}

/// The share of party p of one row for an instance.
const fn share_for(id: u32, p: u32) -> Call {
    Call::Deliver { id, p, rows: 1 }
}

#[test]
fn goes_on_without_who_is_lost(rt: HostRuntime) -> Result<(), Fail> {
    let alloc = rt.alloc();
    let Some(mut session) = open(alloc, 40)? else {
        panic!(rt; "no session")
    };
    let calls = [
        (Call::Join { p: 1 }, 0, Told::Joined),
        (Call::Join { p: 2 }, 0, Told::Joined),
        (Call::Join { p: 3 }, 0, Told::Joined),
        (Call::Lose { p: 2 }, 0, Told::Left),
        (Call::Lose { p: 2 }, 0, Told::Already),
        (Call::Pending { p: 2 }, 0, Told::Absent),
        (share_for(1, 2), 1, Told::Late(2)),
        (share_for(2, 2), 1, Told::Stranger),
        (share_for(2, 1), 5, Told::Counted(1)),
        (Call::Lose { p: 1 }, 0, Told::Left),
        (Call::Join { p: 1 }, 0, Told::Joined),
        (share_for(2, 3), 7, Told::Completed),
    ];
    come_to(&rt, alloc, &mut session, calls.as_slice());
    assert!(rt; is_twelve(session.sums(2)));
    assert!(rt; session.sums(1).is_none());
    Ok(())
}

#[test]
fn takes_back_what_is_given_back(rt: HostRuntime) -> Result<(), Fail> {
    let alloc = rt.alloc();
    let Some(mut session) = open(alloc, 40)? else {
        panic!(rt; "no session")
    };
    let first = Call::Input {
        circuit: 0,
        input: 0,
    };
    let second = Call::Input {
        circuit: 0,
        input: 1,
    };
    let back = Call::GiveBack { circuit: 0 };
    let calls = [
        (Call::Join { p: 1 }, 0, Told::Joined),
        (Call::Join { p: 2 }, 0, Told::Joined),
        (share_for(1, 1), 1, Told::Counted(1)),
        (share_for(1, 2), 1, Told::Completed),
        (first, 0, Told::Given),
        (second, 0, Told::Given),
        (back, 0, Told::NotTaken),
        (Call::Take, 0, Told::Job(0)),
        (Call::Take, 0, Told::Nothing),
        (back, 0, Told::Returned),
        (back, 0, Told::NotTaken),
        (Call::Take, 0, Told::Job(0)),
    ];
    come_to(&rt, alloc, &mut session, calls.as_slice());
    Ok(())
}

#[test]
fn ends_with_its_last_call(rt: HostRuntime) -> Result<(), Fail> {
    let alloc = rt.alloc();
    let Some(mut session) = open(alloc, 3)? else {
        panic!(rt; "no session")
    };
    let calls = [
        (Call::Join { p: 1 }, 0, Told::Joined),
        (Call::Join { p: 2 }, 0, Told::Joined),
        (Call::Join { p: 3 }, 0, Told::Joined),
        (Call::Join { p: 1 }, 0, Told::Spent),
        (Call::Join { p: 1 }, 0, Told::Spent),
    ];
    come_to(&rt, alloc, &mut session, calls.as_slice());
    assert_eq!(rt; session.log().len(), 3);
    Ok(())
}

/// Whether there is one sum, the constant 12.
fn is_twelve(sums: Option<&Polys>) -> bool {
    match sums {
        Some(sums) => {
            sums.len() == 1 && sums.at(0).coeffs() == [12, 0, 0, 0, 0, 0, 0, 0].as_slice()
        }
        None => false,
    }
}

#[test]
fn adds_up_what_was_delivered(rt: HostRuntime) -> Result<(), Fail> {
    let alloc = rt.alloc();
    let Some(mut session) = open(alloc, 9)? else {
        panic!(rt; "no session")
    };
    // The constant -1 is 31525197391593472 modulo q.
    let calls = [
        (Call::Join { p: 1 }, 0, Told::Joined),
        (Call::Join { p: 2 }, 0, Told::Joined),
        (of_first(1, 1), -1, Told::Counted(1)),
        (of_first(2, 1), 13, Told::Completed),
    ];
    come_to(&rt, alloc, &mut session, calls.as_slice());
    assert!(rt; is_twelve(session.sums(1)));
    Ok(())
}

#[test]
fn answers_in_room_that_is_kept(rt: HostRuntime) -> Result<(), Fail> {
    let alloc = rt.alloc();
    let Some(mut session) = open(alloc, 9)? else {
        panic!(rt; "no session")
    };
    session.reserve_log(1)?;
    let said = outcome(&finish(alloc, &mut session, 0));
    assert_eq!(rt; said, Told::NotTaken);
    Ok(())
}
