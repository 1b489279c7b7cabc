ghost use Rattle.std.specs.Prelude.{◌≡◌};
ghost use Rattle.session_rules.specs.Histories.{IsLegal, state_after};
ghost use Rattle.session_state.specs.Standings.{rules_of, state};
ghost use Rattle.session_core.specs.Sessions.{IsSoundBy};

use party_roll::Roll;
use session_rules::Entry;
use session_state::Standing;

/// A session of N parties, any T of whom act together, from the helper's side.
///
/// It is made of a roll, a ring and circuits, and takes `max_calls` calls. Each call has a caller's number, which
/// stands in the log and tells whose a circuit is that was taken. Where the log has no room for its entry, a call
/// makes some, which takes memory; the comments of the calls say what else does.
#[derive(Drop)]
pub struct Session<R: Roll> {
    pub(crate) roll: R,
    pub(crate) max_calls: u32,
    pub(crate) standing: Standing,
    pub(crate) log: Vec<Entry>,
    pub ghost public_is: { standing.public ≡ R.public roll },
    pub ghost legal: { IsLegal (rules_of standing) log.items },
    pub ghost state_is: { state standing ≡ state_after (rules_of standing) log.items },
    pub ghost sound: { IsSoundBy (R.tells roll) (R.seed roll) max_calls standing log.items },
}
