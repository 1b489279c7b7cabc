ghost use Rattle.std.specs.Prelude.{◌≡◌, true, false, IfOk, OnErr};
ghost use Rattle.session_state.specs.Handed.{is_list};

use param_set::{Ids, Slots};
use session_rules::Reply;
use std::alloc::{AllocError, Global};

/// A reply again, for those without lists, which take no memory.
pub(crate) fn plain_copy(reply: &Reply) -> Reply
    requires { is_list reply.now ≡ false }
    ensures { result ≡ reply.now }
{
    match reply {
        Reply::Joined => Reply::Joined,
        Reply::Left => Reply::Left,
        Reply::Already => Reply::Already,
        Reply::Absent => Reply::Absent,
        Reply::List { .. } => unreachable!(),
        Reply::Brief { signature, set } => Reply::Brief {
            signature: *signature,
            set: *set,
        },
        Reply::Unknown { issued } => Reply::Unknown { issued: *issued },
        Reply::Late { by } => Reply::Late { by: *by },
        Reply::Stranger => Reply::Stranger,
        Reply::Repeat => Reply::Repeat,
        Reply::Shape { want, got } => Reply::Shape {
            want: *want,
            got: *got,
        },
        Reply::Counted { missing } => Reply::Counted { missing: *missing },
        Reply::Completed => Reply::Completed,
        Reply::NoInput => Reply::NoInput,
        Reply::NoKey => Reply::NoKey,
        Reply::Given => Reply::Given,
        Reply::Job { circuit } => Reply::Job { circuit: *circuit },
        Reply::Nothing => Reply::Nothing,
        Reply::Finished => Reply::Finished,
        Reply::NotTaken => Reply::NotTaken,
        Reply::Returned => Reply::Returned,
    }
}

/// A reply again: only lists take memory.
pub(crate) fn copy(alloc: Global, reply: &Reply) -> Result<Reply, AllocError>
    ensures same { IfOk result (λ r. r ≡ reply.now) }
    ensures free { OnErr result (is_list reply.now ≡ true) }
{
    match reply {
        Reply::List { ids, inputs } => Ok(Reply::List {
            ids: Ids::from_vec(Vec::from_slice(alloc, ids.as_slice())?),
            inputs: Slots::from_vec(Vec::from_slice(alloc, inputs.as_slice())?),
        }),
        other => Ok(plain_copy(other)),
    }
}
