//! The moves that the rules of issue make, found out on a copy of the live instances.
ghost use Rattle.std.specs.Prelude.{◌≡◌, ◌+◌, ◌^◌, ◌<◌, ◌≤◌, List, [], length, IfOk, OnOk};
ghost use Rattle.proto_names.specs.Instances.{given_up, after_void};
ghost use Rattle.proto_names.specs.declared.instance.Instance.{Instance};
ghost use Rattle.participants.specs.Loads.{loads_of};
ghost use Rattle.participants.specs.Live.{live_ones};
ghost use Rattle.session_rules.specs.States.{seen};
ghost use Rattle.session_rules.specs.Issues.{keys, moves};
ghost use Rattle.session_rules.specs.StandIns.{behind, stand_after, number_after};

use crate::issue::next_move;
use crate::{CircuitState, Fixed, Move};
use participants::Loads;
use proto_names::{Instance, PartySet, Signature, Stage, given_up};
use std::alloc::{AllocError, Global};

/// An instance, given up if it has this number.
fn given_up_at(id: u32, by: u32, instance: &Instance) -> Instance
    ensures { result ≡ given_up id by instance.now }
{
    if instance.id == id {
        given_up(by, instance)
    } else {
        *instance
    }
}

/// All instances, of which that of this number is given up.
#[tactic(auto, unfolding(proto_names::specs::Instances::after_void))]
fn after_void(
    alloc: Global,
    id: u32,
    by: u32,
    instances: &[Instance],
) -> Result<Vec<Instance>, AllocError>
    ensures { IfOk result (λ v. v.items ≡ after_void id by instances.now) }
{
    instances
        .iter()
        .map(|instance| given_up_at(id, by, instance))
        .collect(alloc)
}

/// A new instance behind so many. Which attempt it is isn't told: no rule looks at that.
#[tactic(auto, unfolding(crate::specs::StandIns::behind))]
fn behind(issued: u32, signature: Signature, set: PartySet, round1: u32) -> Instance
    requires { issued < 2 ^ 30 }
    ensures { result ≡ behind issued signature set round1 }
{
    Instance {
        id: issued + 1,
        signature,
        set,
        attempt: 1,
        sent: PartySet { bits: 0 },
        stage: Stage::Opened,
        round1,
        group: 0,
    }
}

/// Makes a move on instances that stand for all, of which so many are issued: they are those after
/// it, and the loads are theirs. Those of the parties of a new instance are raised; where one is
/// given up, which is rare, they are counted anew.
#[tactic(auto, unfolding(crate::specs::StandIns::stand_after, crate::specs::StandIns::number_after))]
fn make(
    alloc: Global,
    issued: &mut u32,
    instances: &mut Vec<Instance>,
    loads: &mut Loads,
    next: Move,
) -> Result<(), AllocError>
    requires few { length instances.old.items < 2 ^ 30 }
    requires few_issued { issued.old < 2 ^ 30 }
    requires loads { loads.old ≡ loads_of instances.old.items }
    ensures made { OnOk result (instances.new.items ≡ stand_after issued.old instances.old.items next) }
    ensures issued { OnOk result (issued.new ≡ number_after issued.old next) }
    ensures loads { OnOk result (loads.new ≡ loads_of instances.new.items) }
{
    match next {
        Move::GiveUp { id, by } => {
            *instances = after_void(alloc, id, by, instances.as_slice())?;
            *loads = Loads::of(instances.as_slice());
        }
        Move::Issue {
            signature,
            set,
            round1,
        } => {
            instances.push(behind(*issued, signature, set, round1))?;
            loads.raise(set);
            *issued += 1;
        }
    }
    Ok(())
}

/// The moves that the rules of issue make until neither applies, in their order; nothing is changed.
/// Of all instances it takes the live ones, and how many all are: void ones play no part in the rules.
pub fn planned_moves(
    alloc: Global,
    fixed: &Fixed,
    needed: &[Signature],
    present: &PartySet,
    live: Vec<Instance>,
    issued: u32,
    circuits: &[CircuitState],
) -> Result<Vec<Move>, AllocError>
    requires keys { needed.now ≡ keys fixed.now }
    requires plans { length fixed.now.plans ≡ length circuits.now }
    requires few { length circuits.now ≤ 64 }
    requires few_keys { length needed.now ≤ 32 }
    requires few_live { length live.items + length needed.now + length circuits.now + 2 ≤ 2 ^ 30 }
    requires few_issued { issued + length needed.now + length circuits.now + 2 ≤ 2 ^ 30 }
    ensures { (all : List Instance) → live.items ≡ live_ones all → issued ≡ length all
        → IfOk result (λ v. v.items ≡ moves fixed.now (seen present.now.bits all [] circuits.now)) }
{
    let mut instances = live;
    let mut number = issued;
    let mut loads = Loads::of(instances.as_slice());
    let mut made = Vec::new(alloc);
    'steps: for _ in 0..needed.len() + circuits.len() + 2 {
        match next_move(
            fixed,
            needed,
            present,
            instances.as_slice(),
            &loads,
            circuits,
        ) {
            None => return Ok(made),
            Some(next) => {
                make(alloc, &mut number, &mut instances, &mut loads, next)?;
                made.push(next)?;
            }
        }
    }
    Ok(made)
}
