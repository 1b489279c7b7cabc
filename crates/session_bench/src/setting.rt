ghost use Rattle.std.specs.Prelude.{◌≡◌, ◌≤◌, ◌<◌, ◌^◌, length, All, IfOk, IfSome};
ghost use Rattle.ring_spec.specs.Pairs.{CipherFits};
ghost use Rattle.mod_ring.specs.Fits.{Fits};
ghost use Rattle.session_spec.specs.Settings.{Keeps, IsSwitchFree};

use crate::work::Work;
use circuit_form::{Circuit, Node};
use mod_ring::{Ciphertext, Polys, Ring, zero};
use param_set::{Params, RawParams};
use party_roll::NoRoll;
use session_core::{Circuits, Offered, Reply, Session, Share, Stop};
use std::alloc::{AllocError, Global};
use std::sync::Arc;

/// A session of three parties, any two of whom act, in which the public key is asked for and never complete.
#[derive(Drop)]
pub struct Setting {
    session: Session<NoRoll>,
    /// The instance that is opened.
    last: u32,
    /// One of its parties, which has sent its share.
    sender: u32,
    /// The party that isn't of its set.
    third: u32,
    ghost parties: { session.standing.params.parties ≡ 3 },
    ghost first: { 1 ≤ third },
    ghost most: { third ≤ 3 },
}

/// A circuit with an input of party 1, as the only one of a session.
#[tactic(auto, unfolding(cipher_spec::specs::Ciphers::is_switch_free))]
fn one_input(alloc: Global, params: &Params) -> Result<Option<Circuits>, AllocError>
    ensures keep { IfOk result (λ made. IfSome made (λ circuits. All (Keeps params.now) circuits)) }
    ensures free { IfOk result (λ made. IfSome made (λ circuits. All IsSwitchFree circuits)) }
    ensures one { IfOk result (λ made. IfSome made (λ circuits. length circuits ≡ 1)) }
{
    let nodes = vec![in alloc; Node::Input { owner: 1 }]?;
    match Circuit::new(params, nodes) {
        Err(_) => Ok(None),
        Ok(circuit) => {
            let mut circuits = Circuits::new(alloc);
            circuits.push(Offered {
                circuit: Arc::new(alloc, circuit)?,
                values: None,
            })?;
            Ok(Some(circuits))
        }
    }
}

/// A session over one circuit, in which nothing was called.
fn session_over(
    alloc: Global,
    params: &Params,
    circuits: Circuits,
) -> Result<Session<NoRoll>, AllocError>
    requires degree { params.now.n ≡ 8 }
    requires keep { All (Keeps params.now) circuits }
    requires free { All IsSwitchFree circuits }
    requires one { length circuits ≡ 1 }
    ensures { IfOk result (λ s. s.standing.params ≡ params.now) }
{
    let ring = Arc::new(alloc, Ring::new(alloc, params)?)?;
    Session::new(alloc, NoRoll::new([0; 32]), ring, circuits, 8_388_608)
}

/// A session of three parties, any two of whom act, in which nothing was called.
fn opened(alloc: Global) -> Result<Option<Session<NoRoll>>, AllocError>
    ensures { IfOk result (λ made. IfSome made (λ s. s.standing.params.parties ≡ 3)) }
{
    let Ok(params) = Params::check(&RawParams {
        n: 8,
        q: 31_525_197_391_593_473,
        t: 16,
        root: 3,
        digit_bits: 8,
        err: 1,
        flood: 1,
        parties: 3,
        threshold: 2,
    }) else {
        return Ok(None);
    };
    match one_input(alloc, &params)? {
        None => Ok(None),
        Some(circuits) => Ok(Some(session_over(alloc, &params, circuits)?)),
    }
}

/// A party leaves and comes back.
fn leave_and_return(alloc: Global, session: &mut Session<NoRoll>, p: u32) -> Result<(), Stop>
    requires parties { session.old.standing.params.parties ≡ 3 }
    requires first { 1 ≤ p }
    requires most { p ≤ 3 }
    ensures { session.new.standing.params ≡ session.old.standing.params }
{
    session.lose(alloc, 0, p)?;
    session.join(alloc, 0, p)?;
    Ok(())
}

/// All parties join, and leave and come back in turns, until so many instances are issued.
fn issue(alloc: Global, session: &mut Session<NoRoll>, instances: u32) -> Result<(), Stop>
    requires { session.old.standing.params.parties ≡ 3 }
    ensures { session.new.standing.params ≡ session.old.standing.params }
{
    session.join(alloc, 0, 1)?;
    session.join(alloc, 0, 2)?;
    session.join(alloc, 0, 3)?;
    'turns: for _ in 0..instances {
        if session.issued() >= instances as usize {
            return Ok(());
        }
        leave_and_return(alloc, session, 1)?;
        leave_and_return(alloc, session, 2)?;
        leave_and_return(alloc, session, 3)?;
    }
    Ok(())
}

/// One row of zeros.
fn zero_row(alloc: Global, ring: &Ring) -> Result<Polys, AllocError>
    ensures fits { IfOk result (λ rows. All (Fits ring.now) rows) }
    ensures one { IfOk result (λ rows. length rows ≡ 1) }
{
    let mut rows = Polys::new(alloc);
    rows.push(zero(alloc, ring)?)?;
    Ok(rows)
}

/// Delivers a share of one row of zeros.
fn deliver(alloc: Global, session: &mut Session<NoRoll>, id: u32, party: u32) -> Result<Reply, Stop>
    ensures { session.new.standing.params ≡ session.old.standing.params }
{
    let rows = zero_row(alloc, session.ring())?;
    session.deliver(alloc, 0, &Share { id, party, rows })
}

/// A ciphertext of zeros.
fn zeros(alloc: Global, ring: &Ring) -> Result<Ciphertext, AllocError>
    ensures { IfOk result (λ ct. CipherFits ring.now.params.q ring.now.params.n ct) }
{
    Ok(Ciphertext {
        c0: zero(alloc, ring)?,
        c1: zero(alloc, ring)?,
    })
}

/// Brings a ciphertext of zeros for the input.
fn input(alloc: Global, session: &mut Session<NoRoll>) -> Result<Reply, Stop>
    ensures { session.new.standing.params ≡ session.old.standing.params }
{
    let ct = zeros(alloc, session.ring())?;
    session.input(alloc, 0, 0, 0, ct)
}

impl Setting {
    /// A session in which so many instances were issued, or up to two more, where it can be made.
    pub fn new(alloc: Global, instances: u32) -> Result<Option<Setting>, AllocError> {
        let Some(mut session) = opened(alloc)? else {
            return Ok(None);
        };
        if issue(alloc, &mut session, instances).is_err() {
            return Ok(None);
        }
        let Some(last) = session.instances().last().copied() else {
            return Ok(None);
        };
        let third = if !last.set.has(1) {
            1
        } else if !last.set.has(2) {
            2
        } else {
            3
        };
        let sender = if third == 1 { 2 } else { 1 };
        if deliver(alloc, &mut session, last.id, sender).is_err() {
            return Ok(None);
        }
        Ok(Some(Setting {
            session,
            last: last.id,
            sender,
            third,
        }))
    }

    /// What has to be done before a call, and isn't timed.
    pub fn prepare(&mut self, alloc: Global, work: Work) {
        if work == Work::Joined {
            let _left = self.session.lose(alloc, 0, self.third);
        }
    }

    /// Makes a call once; tells whether it had a reply.
    pub fn once(&mut self, alloc: Global, work: Work) -> bool {
        match work {
            Work::Joined => self.session.join(alloc, 0, self.third).is_ok(),
            Work::Repeat => deliver(alloc, &mut self.session, self.last, self.sender).is_ok(),
            Work::NoKey => input(alloc, &mut self.session).is_ok(),
            Work::Nothing => self.session.take(alloc, 0).is_ok(),
            Work::Brief => self.session.brief(0, self.last).is_ok(),
            Work::NotTaken => self.session.give_back(0, 0).is_ok(),
        }
    }
}
