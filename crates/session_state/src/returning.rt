ghost use Rattle.std.specs.Prelude.{◌≡◌, false, ◌<◌, length};
ghost use Rattle.session_rules.specs.declared.reply.Reply.TheVariants as reply;
ghost use Rattle.session_rules.specs.declared.deed.Deed.TheVariants.{Turns};
ghost use Rattle.session_rules.specs.declared.state.CircuitState.TheVariants.{Idle};
ghost use Rattle.session_rules.specs.Deeds.{is_nothing};
ghost use Rattle.session_rules.specs.Steps.{does};
ghost use Rattle.session_spec.specs.Stores.{nothing_brought};
ghost use Rattle.session_state.specs.Handed.{is_list};
ghost use Rattle.session_state.specs.Standings.{setting, state, store, returned, state_then, store_then};

use crate::Standing;
use session_rules::{CircuitState, Reply, Verdict, judge_give_back};

impl Standing {
    /// What the rules say to a caller that gives a circuit back.
    fn verdict_on_return(&self, caller: u32, circuit: u32) -> Verdict
        ensures said { result ≡ returned self.now caller circuit }
        ensures ends { is_nothing result.deed ≡ false → result
            ≡ does reply.Returned (Turns circuit Idle) }
        ensures there { is_nothing result.deed ≡ false → circuit
            < length (state self.now).circuits }
        ensures plain { is_list result.reply ≡ false }
    {
        judge_give_back(self.states.as_slice(), caller, circuit)
    }

    /// Takes a circuit back that is the caller's, so that it may be taken again: Returned, and NotTaken where it
    /// isn't. It takes no memory.
    pub fn give_back(&mut self, caller: u32, circuit: u32) -> Reply
        ensures reply { result ≡ (returned self.old caller circuit).reply }
        ensures plain { is_list result ≡ false }
        ensures state { state self.new ≡ state_then self.old (returned self.old caller circuit) }
        ensures store { store self.new
            ≡ store_then self.old (returned self.old caller circuit) nothing_brought }
        ensures setting { setting self.new ≡ setting self.old }
        ensures params { self.new.params ≡ self.old.params }
    {
        let verdict = self.verdict_on_return(caller, circuit);
        if verdict.deed.is_nothing() {
            return verdict.reply;
        }
        self.states[circuit as usize] = CircuitState::Idle;
        verdict.reply
    }
}
