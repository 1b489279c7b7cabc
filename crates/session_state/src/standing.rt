ghost use Rattle.std.specs.Prelude.{◌≡◌, ℕ, ◌≤◌, length, All};
ghost use Rattle.proto_names.specs.Roles.{first_groups};
ghost use Rattle.session_rules.specs.States.{seen, plan};
ghost use Rattle.session_rules.specs.Issues.{keys};
ghost use Rattle.session_spec.specs.Settings.{rules as rules_for, IsSetting};
ghost use Rattle.session_spec.specs.Stores.{held_key};
ghost use Rattle.session_spec.specs.Honesty.{Matches};
ghost use Rattle.session_state.specs.Shared.{shared_if};
ghost use Rattle.session_state.specs.Parts.{setting_by, store_by, Holds, IsOfFirst};

use crate::{Circuits, Places};
use instance_table::Table;
use mod_ring::{Ciphertext, PublicKey, Ring};
use param_set::{Params, Plain};
use proto_names::{Groups, PartySet, Signature};
use session_rules::{CircuitState, Fixed, Given};
use std::sync::Arc;

/// What a session has at a moment: who is present, the instances with what their parties are told and their sums,
/// the inputs that are given, and of each circuit how far it has come, its output and its answer.
#[derive(Drop)]
pub struct Standing {
    pub(crate) params: Params,
    pub(crate) ring: Arc<Ring>,
    pub(crate) public: [u8; 32],
    pub(crate) circuits: Circuits,
    pub(crate) rules: Fixed,
    /// The keys that admitted circuits need.
    pub(crate) needed: Vec<Signature>,
    /// The groups that held the secret so far: the one to which the parties deal at first.
    pub(crate) groups: Arc<Groups>,
    pub(crate) present: PartySet,
    pub(crate) table: Table,
    pub(crate) given: Vec<Given>,
    pub(crate) states: Vec<CircuitState>,
    pub(crate) inputs: Vec<Places<Arc<Ciphertext>>>,
    pub(crate) outputs: Places<Ciphertext>,
    pub(crate) answers: Places<Plain>,
    /// The public key, once its instance is complete.
    pub(crate) key: Option<Arc<PublicKey>>,
    pub ghost ring_is: { ring.value.params ≡ params },
    pub ghost table_is: { table.params ≡ params },
    pub ghost groups_are: { groups.value ≡ first_groups params.threshold params.parties },
    pub ghost grouped: { All (IsOfFirst params) table.briefs.items },
    pub ghost rules_are: { rules ≡ rules_for (setting_by params public circuits) },
    pub ghost needed_are: { needed.items ≡ keys rules },
    pub ghost setting_is: { IsSetting params (setting_by params public circuits) },
    pub ghost few: { length circuits ≤ 64 },
    pub ghost lengths: { (length rules.plans ≡ length circuits) × (length given.items ≡ length circuits) × (length states.items ≡ length circuits) },
    pub ghost few_inputs: { (c : ℕ) → length (plan rules c).owners ≤ 256 },
    pub ghost few_turns: { length rules.turns ≤ 16 },
    pub ghost matches: { Matches (setting_by params public circuits) (seen present.bits table.instances.items given.items states.items) (store_by table.briefs.items table.sums.items inputs.items outputs answers) },
    pub ghost holds: { Holds params (seen present.bits table.instances.items given.items states.items) (store_by table.briefs.items table.sums.items inputs.items outputs answers) },
    pub ghost keyed: { shared_if key ≡ held_key (setting_by params public circuits) (store_by table.briefs.items table.sums.items inputs.items outputs answers) table.instances.items },
}
