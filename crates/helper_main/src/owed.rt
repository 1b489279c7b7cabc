ghost use Rattle.std.specs.Prelude.{◌≡◌, ◌≤◌, length, true, IfOk};
ghost use Rattle.session_script.specs.Scripts.{script as script_of, asked};
ghost use Rattle.session_script.specs.Kept.{IsAccepted};
ghost use Rattle.helper_main.specs.Works.{takes, text_for, owed, is_done};
ghost use Rattle.helper_main.specs.Owed.{most_bytes};

use crate::report::report;
use crate::work::{Work, takes};
use run_report::{check_text, refusal_line};
use session_script::{Script, ScriptStop, read_script};
use std::alloc::{AllocError, Global};

/// What is answered to a script's bytes.
#[derive(Drop)]
pub(crate) struct Answer {
    pub(crate) text: Vec<u8>,
    /// Whether the work is done, and the text is no refusal.
    pub(crate) is_done: bool,
}

/// The text for a script that is taken.
#[tactic(auto, unfolding(crate::specs::Works::text_for))]
fn text_for(alloc: Global, work: Work, script: &Script) -> Result<Vec<u8>, AllocError>
    requires taken { takes (asked script.now) ≡ true }
    requires accepted { IsAccepted (asked script.now) }
    ensures { IfOk result (λ text. text.items ≡ text_for work (asked script.now)) }
{
    match work {
        Work::Run => report(alloc, script),
        Work::Check => check_text(alloc, script),
    }
}

/// The text for a script that keeps the rules of the language.
#[tactic(auto, unfolding(crate::specs::Works::owed, crate::specs::Works::is_done))]
fn for_script(alloc: Global, work: Work, script: &Script) -> Result<Answer, AllocError>
    requires accepted { IsAccepted (asked script.now) }
    ensures text { IfOk result (λ o. o.text.items ≡ owed work (Ok (asked script.now))) }
    ensures done { IfOk result (λ o. o.is_done ≡ is_done (Ok (asked script.now))) }
{
    if takes(script) {
        Ok(Answer {
            text: text_for(alloc, work, script)?,
            is_done: true,
        })
    } else {
        Ok(Answer {
            text: Vec::from_slice(alloc, b"refused form\n")?,
            is_done: false,
        })
    }
}

/// The text for the bytes of a script that was read whole.
#[tactic(auto, unfolding(crate::specs::Works::owed, crate::specs::Works::is_done))]
pub(crate) fn owed(alloc: Global, work: Work, bytes: &[u8]) -> Result<Answer, AllocError>
    requires { length bytes.now ≤ most_bytes }
    ensures text { IfOk result (λ o. o.text.items ≡ owed work (script_of bytes.now)) }
    ensures done { IfOk result (λ o. o.is_done ≡ is_done (script_of bytes.now)) }
{
    match read_script(alloc, bytes) {
        Ok(script) => for_script(alloc, work, &script),
        Err(ScriptStop::Refused { line, reason }) => Ok(Answer {
            text: refusal_line(alloc, line, reason)?,
            is_done: false,
        }),
        Err(ScriptStop::NoMemory) => Err(AllocError),
    }
}
