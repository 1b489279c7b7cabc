//! What several tests begin with: lines of scripts, and whole scripts.
ghost use Rattle.std.specs.Prelude.{IfOk};
ghost use Rattle.session_script.specs.Kept.{IsAccepted};
ghost use Rattle.session_script.specs.Scripts.{asked};

use session_script::{Script, ScriptStop, read_script};
use std::alloc::{AllocError, Global};

/// Parameters of three parties, any two of whom act together. The numbers are n, q, t, root, b, B, D_f, N and T.
pub const THREE: &str = "params 8 31525197391593473 16 3 8 1 1 3 2";

/// The same for one party alone.
pub const ONE: &str = "params 8 31525197391593473 16 3 8 1 1 1 1";

/// The greatest t, and a flood that alone reaches the limit.
pub const AT_LIMIT: &str = "params 8 31525197391593473 65537 3 8 1 240514433190 1 1";

/// The same with a flood that passes the limit.
pub const PAST_LIMIT: &str = "params 8 31525197391593473 65537 3 8 1 240514433191 1 1";

/// A master seed of zeros.
pub const SEED: &str = "seed 0000000000000000000000000000000000000000000000000000000000000000";

/// A script with this line of parameters, those who are present, and what stands behind.
pub fn script(
    alloc: Global,
    params: &str,
    present: &str,
    rest: &str,
) -> Result<String, AllocError> {
    script_in(alloc, "helium 1", params, present, rest)
}

/// The same with this line of the version.
pub fn script_in(
    alloc: Global,
    version: &str,
    params: &str,
    present: &str,
    rest: &str,
) -> Result<String, AllocError> {
    let mut text = String::new(alloc);
    for piece in [
        version,
        "\n",
        params,
        "\n",
        SEED,
        "\npresent ",
        present,
        "\n",
        rest,
        "done\n",
    ] {
        text.push_str(piece)?;
    }
    Ok(text)
}

/// What is read from a text, which is too long for the tests above 1 MiB.
pub fn read(alloc: Global, text: &str) -> Result<Script, ScriptStop>
    ensures { IfOk result (λ script. IsAccepted (asked script)) }
{
    let bytes = text.as_bytes();
    if bytes.len() > 1_048_576 {
        return Err(ScriptStop::NoMemory);
    }
    read_script(alloc, bytes)
}
