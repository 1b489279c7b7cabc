//! What the rules of issue do after a call: planned, with all memory that it takes, before anything is
//! changed, and then carried out.
ghost use Rattle.std.specs.Prelude.{◌≡◌, ◌≤◌, ℕ, ◌+◌, ◌-◌, ◌^◌, true, List, [], ◌∷◌, ◌++◌, map, length, slice_index_or, is_some, All, IfOk, Some, None};
ghost use Rattle.std.specs.List.{range_with_len, fold};
ghost use Rattle.mod_ring.specs.Fits.{Fits};
ghost use Rattle.proto_names.specs.declared.signature.Signature.TheVariants.{Rlk2, Dec};
ghost use Rattle.proto_names.specs.declared.instance.Instance.{Instance};
ghost use Rattle.proto_names.specs.Roles.{first_groups};
ghost use Rattle.participants.specs.Live.{live_ones};
ghost use Rattle.instance_table.specs.Tables.{no_sums, stands};
ghost use Rattle.instance_table.specs.Spare.{spare};
ghost use Rattle.session_rules.specs.declared.state.CircuitState.TheVariants.{Evaluated};
ghost use Rattle.session_rules.specs.States.{seen, circuit};
ghost use Rattle.session_rules.specs.Issues.{keys, most_moves, instances_after};
ghost use Rattle.session_spec.specs.Stores.{polys_by};
ghost use Rattle.session_state.specs.Parts.{HasCipher};
ghost use Rattle.session_state.specs.Issuings.{move_of, issued_by, issued, id_told, polys_told, brief_of, sums_of, store_of, polys_due, IsFresh, Decrypts, Follows, HasAll, MayMove, CanMove, IsPlanned};

use crate::Places;
use instance_table::{Brief, Instance, Table};
use mod_ring::{Ciphertext, Poly, Polys, Ring, of_residues, zero};
use proto_names::{Groups, PartySet, Signature, rows_of};
use session_rules::{CircuitState, Fixed, Move, planned_moves};
use std::alloc::{AllocError, Global};
use std::marker::Model;
use std::sync::Arc;

/// An instance that is to be issued, with what its parties are told and with its sums.
#[derive(Drop)]
pub(crate) struct Fresh {
    pub(crate) signature: Signature,
    pub(crate) brief: Arc<Brief>,
    pub(crate) sums: Polys,
}

/// What the rules of issue do in one step, with all that it takes.
#[derive(Drop)]
pub(crate) enum Step {
    /// A complete first round is given up, because this party is lost.
    GivesUp { id: u32, by: u32 },
    /// An instance is issued.
    Issues(Fresh),
}

impl Step {
    /// How many instances it issues: one, or none.
    fn issued(&self) -> u32
        ensures { result ≡ length (issued_by self.now) }
    {
        match self {
            Step::GivesUp { .. } => 0,
            Step::Issues(_) => 1,
        }
    }
}

/// The steps that are to be made, in their order.
#[derive(Drop)]
pub(crate) struct Issuing {
    pub(crate) steps: Vec<Step>,
}

/// What parties are told is taken from: the sums and the outputs, as they are once a call is done.
#[derive(Drop)]
pub(crate) struct Source<'a> {
    pub(crate) table: &'a Table,
    pub(crate) outputs: &'a Places<Ciphertext>,
    /// The circuit whose output the call brings, and that output, if it brings one.
    pub(crate) circuit: u32,
    pub(crate) made: Option<&'a Ciphertext>,
    /// The place of the instance whose share the call counts, and its sums with that share, if it counts one.
    pub(crate) place: usize,
    pub(crate) counted: Option<&'a Polys>,
}

impl<'a> Model for Source<'a> {
    ghost use Rattle.std.specs.Prelude.{option_copied};
    ghost use Rattle.session_state.specs.Issuings.{Source, with_made, with_sums};

    ghost Value = { Source };

    ghost view = { λ a. record {
      instances = a.table.now.instances.items;
      sums = with_sums a.table.now.sums.items a.place (option_copied a.counted);
      outputs = with_made a.outputs.now a.circuit (option_copied a.made);
    } };
}

impl<'a> Source<'a> {
    /// What there is now.
    pub(crate) fn held(table: &'a Table, outputs: &'a Places<Ciphertext>) -> Source<'a>
        ensures { result ≡ record {
          instances = table.now.instances.items;
          sums = table.now.sums.items;
          outputs = outputs.now;
        } }
    {
        Source {
            table,
            outputs,
            circuit: 0,
            made: None,
            place: 0,
            counted: None,
        }
    }

    /// The output of a circuit, which is there.
    fn output(&self, c: u32) -> &Ciphertext
        requires there { is_some (slice_index_or self.now.outputs c None) ≡ true }
        ensures { Some result.now ≡ slice_index_or self.now.outputs c None }
    {
        if let Some(output) = self.made {
            if self.circuit == c {
                return output;
            }
        }
        match self.outputs.get(c as usize) {
            None => unreachable!(),
            Some(output) => output,
        }
    }

    /// The sums of an instance, which was issued and isn't void.
    fn sums(&self, id: u32) -> &Polys
        requires stands { stands self.now.instances id ≡ true }
        ensures { result.now ≡ slice_index_or self.now.sums (id - 1) [] }
    {
        let Some(held) = self.table.sums(id) else {
            unreachable!()
        };
        match self.counted {
            Some(sums) if id as usize - 1 == self.place => sums,
            _ => held,
        }
    }
}

/// A copy of a polynomial.
fn copied(alloc: Global, ring: &Ring, f: &Poly) -> Result<Poly, AllocError>
    requires { Fits ring.now f.now }
    ensures { IfOk result (λ copy. copy ≡ f.now) }
{
    Ok(of_residues(ring.params(), Vec::from_slice(alloc, f.coeffs())?))
}

/// A copy of some polynomials.
fn all_copied(alloc: Global, ring: &Ring, list: &Polys) -> Result<Polys, AllocError>
    requires { All (Fits ring.now) list.now }
    ensures { IfOk result (λ copies. copies ≡ list.now) }
{
    let mut copies = Polys::new(alloc);
    'list: for place in 0..list.len() {
        copies.push(copied(alloc, ring, list.at(place))?)?;
    }
    Ok(copies)
}

/// Sums to which no share is added.
#[tactic(auto, unfolding(instance_table::specs::Tables::no_sums))]
fn zero_sums(alloc: Global, ring: &Ring, signature: Signature) -> Result<Polys, AllocError>
    ensures { IfOk result (λ sums. sums ≡ no_sums ring.now.params signature) }
{
    let mut sums = Polys::new(alloc);
    'rows: for _ in 0..rows_of(signature, ring.params().rows()) {
        sums.push(zero(alloc, ring)?)?;
    }
    Ok(sums)
}

/// What the parties of an instance are told: for a decryption the second part of the circuit's output, for a
/// second round the sums of its first.
#[tactic(auto, unfolding(session_spec::specs::Stores::polys_by))]
fn told(
    alloc: Global,
    ring: &Ring,
    source: &Source,
    signature: Signature,
    round1: u32,
) -> Result<Polys, AllocError>
    requires output { (c : ℕ) → signature ≡ Dec c
        → HasCipher ring.now.params (slice_index_or source.now.outputs c None) }
    requires stands { signature ≡ Rlk2 → stands source.now.instances round1 ≡ true }
    requires sums { All (All (Fits ring.now)) source.now.sums }
    ensures { IfOk result (λ polys. polys ≡ polys_by (store_of source.now) signature round1) }
{
    match signature {
        Signature::Rlk2 => all_copied(alloc, ring, source.sums(round1)),
        Signature::Dec(c) => {
            let mut polys = Polys::new(alloc);
            polys.push(copied(alloc, ring, &source.output(c).c1)?)?;
            Ok(polys)
        }
        Signature::Pk | Signature::Rlk1 | Signature::Rot(_) => Ok(Polys::new(alloc)),
    }
}

/// What a move does, for the one group, where the next instance has this number.
fn planned(
    alloc: Global,
    ring: &Ring,
    groups: &Arc<Groups>,
    source: &Source,
    id: u32,
    next: Move,
) -> Result<Step, AllocError>
    requires groups { groups.now.value
        ≡ first_groups ring.now.params.threshold ring.now.params.parties }
    requires output { (c : ℕ) → Decrypts next c
        → HasCipher ring.now.params (slice_index_or source.now.outputs c None) }
    requires stands { (first : ℕ) → Follows next first
        → stands source.now.instances first ≡ true }
    requires sums { All (All (Fits ring.now)) source.now.sums }
    ensures move_ { IfOk result (λ step. move_of step ≡ next) }
    ensures id { IfOk result (λ step. map id_told (issued_by step)
        ≡ range_with_len id (length (issued_by step))) }
    ensures polys { IfOk result (λ step. map polys_told (issued_by step)
        ≡ map (polys_due (store_of source.now)) (issued_by step)) }
    ensures fresh { IfOk result (λ step. All (IsFresh ring.now.params) (issued_by step)) }
{
    match next {
        Move::GiveUp { id, by } => Ok(Step::GivesUp { id, by }),
        Move::Issue {
            signature,
            set,
            round1,
        } => {
            let polys = told(alloc, ring, source, signature, round1)?;
            let brief = Brief {
                id,
                signature,
                set,
                round1,
                groups: Arc::try_clone(groups)?,
                polys,
            };
            Ok(Step::Issues(Fresh {
                signature,
                brief: Arc::new(alloc, brief)?,
                sums: zero_sums(alloc, ring, signature)?,
            }))
        }
    }
}

/// What the rules of issue do behind some instances until neither applies, in its order, where parties are told
/// what stands in `source`; nothing is changed. Of all instances it takes the live ones, and how many there are. It
/// takes the memory of all briefs and sums.
pub(crate) fn plan(
    alloc: Global,
    ring: &Ring,
    groups: &Arc<Groups>,
    rules: &Fixed,
    needed: &[Signature],
    present: &PartySet,
    live: Vec<Instance>,
    count: u32,
    states: &[CircuitState],
    source: &Source,
) -> Result<Issuing, AllocError>
    requires groups { groups.now.value
        ≡ first_groups ring.now.params.threshold ring.now.params.parties }
    requires keys { needed.now ≡ keys rules.now }
    requires few_keys { length needed.now ≤ 32 }
    requires plans { length rules.now.plans ≡ length states.now }
    requires few { length states.now ≤ 64 }
    requires room { count + most_moves rules.now ≤ 2 ^ 30 }
    requires instances { HasAll source.now.instances live.items count }
    requires outputs { (c : ℕ) → circuit states.now c ≡ Evaluated
        → HasCipher ring.now.params (slice_index_or source.now.outputs c None) }
    requires sums { All (All (Fits ring.now)) source.now.sums }
    ensures planned { (all : List Instance) → live.items ≡ live_ones all → count ≡ length all
        → IfOk result (λ x. IsPlanned ring.now.params rules.now
        (seen present.now.bits all [] states.now) (store_of source.now) x.steps.items) }
    ensures few { IfOk result (λ x. length x.steps.items ≤ most_moves rules.now) }
{
    let mut id = count + 1;
    let moves = planned_moves(alloc, rules, needed, present, live, count, states)?;
    let mut steps = Vec::with_capacity(alloc, moves.len())?;
    'moves: for place in 0..moves.len() {
        let step = planned(alloc, ring, groups, source, id, moves[place])?;
        id += step.issued();
        steps.push(step)?;
    }
    Ok(Issuing { steps })
}

/// Makes a step.
fn make(table: &mut Table, step: Step)
    requires move_ { MayMove table.old.instances.items (move_of step) }
    requires room { 1 ≤ spare table.old }
    requires few { length table.old.instances.items + 1 ≤ 2 ^ 30 }
    requires ids { map id_told (issued_by step)
        ≡ range_with_len (length table.old.instances.items + 1) (length (issued_by step)) }
    requires fresh { All (IsFresh table.old.params) (issued_by step) }
    ensures instances { table.new.instances.items
        ≡ instances_after table.old.instances.items (move_of step) }
    ensures briefs { table.new.briefs.items
        ≡ table.old.briefs.items ++ map brief_of (issued_by step) }
    ensures sums { table.new.sums.items ≡ table.old.sums.items ++ map sums_of (issued_by step) }
    ensures ring { table.new.params ≡ table.old.params }
    ensures spare { spare table.old ≤ spare table.new + 1 }
{
    match step {
        Step::GivesUp { id, by } => table.void(id, by),
        Step::Issues(fresh) => {
            table.issue(fresh.signature, fresh.brief, fresh.sums);
        }
    }
}

/// Makes the steps that were planned, behind the instances for which they were planned; there has to be room.
pub(crate) fn carry_out(table: &mut Table, issuing: Issuing)
    requires moves { CanMove table.old.instances.items (map move_of issuing.steps.items) }
    requires room { length issuing.steps.items ≤ spare table.old }
    requires few { length table.old.instances.items + length issuing.steps.items ≤ 2 ^ 30 }
    requires ids { map id_told (issued issuing.steps.items)
        ≡ range_with_len (length table.old.instances.items + 1)
        (length (issued issuing.steps.items)) }
    requires fresh { All (IsFresh table.old.params) (issued issuing.steps.items) }
    ensures instances { table.new.instances.items
        ≡ fold instances_after table.old.instances.items (map move_of issuing.steps.items) }
    ensures briefs { table.new.briefs.items
        ≡ table.old.briefs.items ++ map brief_of (issued issuing.steps.items) }
    ensures sums { table.new.sums.items
        ≡ table.old.sums.items ++ map sums_of (issued issuing.steps.items) }
    ensures ring { table.new.params ≡ table.old.params }
{
    'steps: for step in issuing.steps {
        make(table, step);
    }
}
