//! What becomes of an instance: it is issued, has a share counted, and is given up.
ghost use Rattle.std.specs.Prelude.{◌≡◌, ◌≤◌, ◌<◌, ◌^◌, ◌↔◌, length, IsSome, option_copied};
ghost use Rattle.std.specs.List.{count_by};
ghost use Rattle.proto_names.specs.Instances.{instance as instance_of, is_of, lacks, fresh, missing, with_share, lost_by, counted_at};
ghost use Rattle.proto_names.specs.declared.instance.Stage.TheVariants.{Void};

use crate::{Instance, PartySet, Signature, Stage};

/// The instance with a number, if that many were issued.
#[tactic(auto, unfolding(crate::specs::Instances::instance))]
pub fn find(instances: &[Instance], id: u32) -> Option<&Instance>
    ensures value { option_copied result ≡ instance_of instances.now id }
    ensures issued { IsSome result ↔ ((1 ≤ id) × (id ≤ length instances.now)) }
{
    if id == 0 {
        None
    } else {
        instances.get(id as usize - 1)
    }
}

/// Whether an instance is opened and lacks the share of party p, who takes part.
#[tactic(auto, unfolding(crate::specs::Instances::lacks))]
pub fn lacks(p: u32, instance: &Instance) -> bool
    ensures { result ≡ lacks p instance.now }
{
    matches!(instance.stage, Stage::Opened) && instance.set.has(p) && !instance.sent.has(p)
}

/// How many instances are of a signature.
fn attempts(instances: &[Instance], signature: Signature) -> usize
    ensures value { result ≡ count_by (is_of signature) instances.now }
    ensures at_most { result ≤ length instances.now }
{
    instances
        .iter()
        .filter(|instance| instance.signature.is(signature))
        .count()
}

/// A new instance, to be put behind others, for the group at a place.
#[tactic(auto, unfolding(crate::specs::Instances::fresh))]
pub fn fresh(
    instances: &[Instance],
    signature: Signature,
    set: PartySet,
    round1: u32,
    group: u32,
) -> Instance
    requires { length instances.now < 2 ^ 30 }
    ensures { result ≡ fresh instances.now signature set round1 group }
{
    Instance {
        id: instances.len() as u32 + 1,
        signature,
        set,
        attempt: attempts(instances, signature) as u32 + 1,
        sent: PartySet { bits: 0 },
        stage: Stage::Opened,
        round1,
        group,
    }
}

/// How many shares an instance misses once that of party p is counted.
#[tactic(auto, unfolding(crate::specs::Instances::missing))]
pub fn missing(p: u32, instance: &Instance) -> u32
    requires first { 1 ≤ p }
    requires last { p ≤ 32 }
    ensures { result ≡ missing p instance.now }
{
    instance.set.outside(&instance.sent.with(p))
}

/// The instance once the share of party p is counted.
#[tactic(auto, unfolding(crate::specs::Instances::with_share))]
pub fn with_share(p: u32, instance: &Instance) -> Instance
    requires first { 1 ≤ p }
    requires last { p ≤ 32 }
    ensures { result ≡ with_share p instance.now }
{
    let stage = if missing(p, instance) == 0 {
        Stage::Complete
    } else {
        Stage::Opened
    };
    Instance {
        sent: instance.sent.with(p),
        stage,
        ..*instance
    }
}

/// The instance once the share of party p for the one with a number is counted.
pub fn counted_at(id: u32, p: u32, instance: &Instance) -> Instance
    requires first { 1 ≤ p }
    requires last { p ≤ 32 }
    ensures { result ≡ counted_at id p instance.now }
{
    if instance.id == id {
        with_share(p, instance)
    } else {
        *instance
    }
}

/// The instance, given up by the loss of party `by`.
pub fn given_up(by: u32, instance: &Instance) -> Instance
    ensures { result ≡ record instance.now { stage = Void by } }
{
    Instance {
        stage: Stage::Void { by },
        ..*instance
    }
}

/// The instance once party p is lost: void where it lacks the party's share.
pub fn after_loss(p: u32, instance: &Instance) -> Instance
    ensures { result ≡ lost_by p instance.now }
{
    if lacks(p, instance) {
        given_up(p, instance)
    } else {
        *instance
    }
}
