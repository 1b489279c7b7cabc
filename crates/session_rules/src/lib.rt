//! The rules of a session: its nine calls, their replies, and which instances are issued when.
//!
//! N parties hold a secret, and any T of them act. The helper's state (docs/SESSION.md) has the
//! parties that are present, the instances of protocols, the inputs that are given, and how far each
//! circuit has come; it holds no polynomial. `specs/` says for each caller and each call the reply and
//! the deed, which is all that changes: a history is legal where each reply is the one said there.
//! Callers may rely on the laws of `laws`: of each signature at most one instance lives, what was
//! issued keeps its signature and its parties, and issuing ends. Nothing is said here of shares or keys.
#![tactic(auto)]

mod call;
mod deed;
mod fixed;
mod fixing;
mod given;
mod issue;
pub mod laws;
mod line;
mod moves;
mod owed;
mod planning;
mod ready;
mod reply;
mod state;
mod verdicts;

pub use call::{Call, Entry};
pub use deed::{Deed, Verdict};
pub use fixed::{Fixed, Plan, PlanList, SessionNumbers, SharedNodes};
pub use fixing::plan_of;
pub use given::Given;
pub use issue::{has_done, has_live};
pub use line::Line;
pub use moves::Move;
pub use noise_ledger::Place;
pub use owed::owed_inputs;
pub use planning::planned_moves;
pub use ready::{is_ready, next_ready};
pub use reply::Reply;
pub use state::CircuitState;
pub use verdicts::{
    judge_deliver, judge_finish, judge_give_back, judge_input, judge_join, judge_lose, judge_take,
    says,
};
