ghost use Rattle.std.specs.Prelude.{◌≡◌, ◌↔◌, ◌<◌, length, slice_index_or, option_copied, IsSome, IsTrue, IfSome, Some, None};
ghost use Rattle.std.specs.List.{slice_get};
ghost use Rattle.ring_spec.specs.Ring.{IsPoly};
ghost use Rattle.proto_names.specs.Instances.{instance};
ghost use Rattle.instance_table.specs.Tables.{stands};
ghost use Rattle.session_rules.specs.declared.state.CircuitState.TheVariants.{Answered};
ghost use Rattle.session_rules.specs.States.{circuit};
ghost use Rattle.session_rules.specs.Steps.{ready};
ghost use Rattle.session_rules.specs.Facts.{is_settled};
ghost use Rattle.session_spec.specs.Stores.{held_sums, held_output, held_answer};
ghost use Rattle.session_state.specs.Standings.{rules_of, state, store};

use crate::{Circuits, Standing};
use instance_table::Instance;
use mod_ring::{Ciphertext, Polys, Ring};
use param_set::{Params, Plain};
use proto_names::PartySet;
use session_rules::{CircuitState, is_ready};
use std::sync::Arc;

impl Standing {
    /// The parameters.
    pub fn params(&self) -> &Params
        ensures { result.now ≡ self.now.params }
    {
        &self.params
    }

    /// The ring of its polynomials.
    pub fn ring(&self) -> &Arc<Ring>
        ensures { result.now.value.params ≡ self.now.params }
    {
        &self.ring
    }

    /// The circuits, by their numbers.
    pub fn circuits(&self) -> &Circuits
        ensures { result.now ≡ self.now.circuits }
    {
        &self.circuits
    }

    /// The parties that are present.
    pub fn present(&self) -> PartySet
        ensures { result.bits ≡ (state self.now).present }
    {
        self.present
    }

    /// All instances, in the order of their numbers.
    pub fn instances(&self) -> &[Instance]
        ensures { result.now ≡ (state self.now).instances }
    {
        self.table.instances()
    }

    /// How far each circuit has come.
    pub fn circuit_states(&self) -> &[CircuitState]
        ensures { result.now ≡ (state self.now).circuits }
    {
        self.states.as_slice()
    }

    /// Whether circuit c may be evaluated; one that isn't there may not.
    #[tactic(auto, unfolding(session_rules::specs::Steps::ready, session_rules::specs::Steps::has_keys))]
    pub fn is_ready(&self, c: u32) -> bool
        ensures { result ≡ ready (rules_of self.now) (state self.now) c }
    {
        if c as usize >= self.states.len() {
            return false;
        }
        is_ready(
            &self.rules,
            self.table.live(),
            self.given.as_slice(),
            self.states.as_slice(),
            c,
        )
    }

    /// The sums of an instance; none exactly where it isn't issued, or is void.
    #[tactic(auto, unfolding(instance_table::specs::Tables::told))]
    pub fn sums(&self, id: u32) -> Option<&Polys>
        ensures value { IfSome result (λ sums. sums.now ≡ held_sums (store self.now) id) }
        ensures while_it_stands { IsSome result ↔ IsTrue (stands (state self.now).instances id) }
    {
        self.table.sums(id)
    }

    /// The output of a circuit; none exactly where it is neither evaluated nor answered.
    pub fn output(&self, c: u32) -> Option<&Ciphertext>
        ensures value { IfSome result (λ output. held_output (store self.now) c ≡ Some output.now) }
        ensures settled { IsSome result ↔ ((c < length (state self.now).circuits) × IsTrue
            (is_settled (circuit (state self.now).circuits c))) }
    {
        match self.states.get(c as usize) {
            Some(CircuitState::Evaluated | CircuitState::Answered) => self.outputs.get(c as usize),
            _ => None,
        }
    }

    /// The value of a circuit; none exactly where it isn't answered.
    pub fn answer(&self, c: u32) -> Option<&Plain>
        ensures value { IfSome result (λ answer. held_answer (store self.now) c ≡ Some answer.now) }
        ensures answered { IsSome result
            ↔ ((c < length (state self.now).circuits)
            × (circuit (state self.now).circuits c ≡ Answered)) }
    {
        match self.states.get(c as usize) {
            Some(CircuitState::Answered) => self.answers.get(c as usize),
            _ => None,
        }
    }
}
