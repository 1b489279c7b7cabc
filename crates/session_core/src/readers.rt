ghost use Rattle.std.specs.Prelude.{◌≡◌, ◌↔◌, length, option_copied, Some, IsSome, IsTrue, IfSome};
ghost use Rattle.std.specs.List.{slice_get};
ghost use Rattle.proto_names.specs.Instances.{instance};
ghost use Rattle.instance_table.specs.Tables.{stands};
ghost use Rattle.session_rules.specs.Steps.{ready};
ghost use Rattle.session_spec.specs.Stores.{held_sums, held_output, held_answer};
ghost use Rattle.session_state.specs.Standings.{rules_of};
ghost use Rattle.session_core.specs.Handing.{IsSettledAt, IsAnsweredAt, AreHonestSums, IsHonestOutput, IsPlainAnswer};
ghost use Rattle.session_core.specs.Calls.{At, state_of, store_of};

use crate::Session;
use instance_table::Instance;
use mod_ring::{Ciphertext, Polys, Ring};
use param_set::{Params, Plain};
use party_roll::Roll;
use proto_names::PartySet;
use session_rules::{CircuitState, Entry};
use session_state::Circuits;
use std::sync::Arc;

impl<R: Roll> Session<R> {
    /// The roll.
    pub fn roll(&self) -> &R
        ensures { result.now ≡ self.now.roll }
    {
        &self.roll
    }

    /// The parameters.
    pub fn params(&self) -> &Params
        ensures { result.now ≡ self.now.standing.params }
    {
        self.standing.params()
    }

    /// The ring of its polynomials.
    pub fn ring(&self) -> &Arc<Ring>
        ensures { result.now.value.params ≡ self.now.standing.params }
    {
        self.standing.ring()
    }

    /// The circuits, by their numbers.
    pub fn circuits(&self) -> &Circuits
        ensures { result.now ≡ self.now.standing.circuits }
    {
        self.standing.circuits()
    }

    /// The parties that are present.
    pub fn present(&self) -> PartySet
        ensures { result.bits ≡ (state_of self.now).present }
    {
        self.standing.present()
    }

    /// How far a circuit has come; none exactly where there is no such circuit.
    pub fn state(&self, circuit: u32) -> Option<CircuitState>
        ensures { result ≡ slice_get (state_of self.now).circuits circuit }
    {
        self.standing
            .circuit_states()
            .get(circuit as usize)
            .copied()
    }

    /// How far each circuit has come.
    pub fn circuit_states(&self) -> &[CircuitState]
        ensures { result.now ≡ (state_of self.now).circuits }
    {
        self.standing.circuit_states()
    }

    /// Whether a circuit may be evaluated.
    pub fn ready(&self, circuit: u32) -> bool
        ensures { result ≡ ready (rules_of self.now.standing) (state_of self.now) circuit }
    {
        self.standing.is_ready(circuit)
    }

    /// The instance with a number; none exactly where it wasn't issued.
    #[tactic(auto, unfolding(proto_names::specs::Instances::instance))]
    pub fn instance(&self, id: u32) -> Option<&Instance>
        ensures { option_copied result ≡ instance (state_of self.now).instances id }
    {
        if id == 0 {
            return None;
        }
        self.standing.instances().get(id as usize - 1)
    }

    /// All instances, in the order of their numbers.
    pub fn instances(&self) -> &[Instance]
        ensures { result.now ≡ (state_of self.now).instances }
    {
        self.standing.instances()
    }

    /// How many instances were issued.
    pub fn issued(&self) -> usize
        ensures { result ≡ length (state_of self.now).instances }
    {
        self.standing.instances().len()
    }

    /// The sums of an instance; none exactly where it isn't issued, or is void. Where the roll tells, they are of one
    /// honest share of each party that has sent.
    pub fn sums(&self, id: u32) -> Option<&Polys>
        ensures value { IfSome result (λ sums. sums.now ≡ held_sums (store_of self.now) id) }
        ensures while_it_stands { IsSome result ↔ IsTrue (stands (state_of self.now).instances id) }
        ensures honest { IfSome result (λ sums. At (AreHonestSums id) self.now sums.now) }
    {
        self.standing.sums(id)
    }

    /// The output of a circuit; none exactly where it is neither evaluated nor answered. Where the roll tells, it is
    /// the ciphertext that the circuit's nodes make of the encryptions of its values.
    pub fn output(&self, circuit: u32) -> Option<&Ciphertext>
        ensures value { IfSome result (λ output. held_output (store_of self.now) circuit
            ≡ Some output.now) }
        ensures settled { IsSome result ↔ IsSettledAt (state_of self.now) circuit }
        ensures honest { IfSome result (λ output. At (IsHonestOutput circuit) self.now output.now) }
    {
        self.standing.output(circuit)
    }

    /// The value of a circuit; none exactly where it isn't answered. Where the roll tells, it is the plain value.
    pub fn answer(&self, circuit: u32) -> Option<&Plain>
        ensures value { IfSome result (λ answer. held_answer (store_of self.now) circuit
            ≡ Some answer.now) }
        ensures answered { IsSome result ↔ IsAnsweredAt (state_of self.now) circuit }
        ensures plain { IfSome result (λ answer. At (IsPlainAnswer circuit) self.now answer.now) }
    {
        self.standing.answer(circuit)
    }

    /// The log: all calls that had a reply, in their order.
    pub fn log(&self) -> &[Entry]
        ensures { result.now ≡ self.now.log.items }
    {
        self.log.as_slice()
    }
}
