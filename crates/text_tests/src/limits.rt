//! Scripts at each limit, and one past it.
use crate::samples::{SEED, read};
use crate::scripts::is_refused;
use session_script::Reason;
use std::alloc::{AllocError, Global};
use std::test::Fail;

// What a limit is on.
#[derive(Clone, Copy)]
enum Limit {
    Circuits,
    Nodes,
    Inputs,
    Rotations,
    Lanes,
    Lines,
}

// Circuits of one node, each under a name of its own.
fn push_circuits(text: &mut String, count: u32) -> Result<(), AllocError> {
    for k in 0..count {
        write!(text, "circuit c{k}\nconst 1\nend\n")?;
    }
    Ok(())
}

// A circuit of constants.
fn push_nodes(text: &mut String, count: u32) -> Result<(), AllocError> {
    text.push_str("circuit c\n")?;
    for _ in 0..count {
        text.push_str("const 1\n")?;
    }
    Ok(())
}

// Circuits of inputs, each but the last of 256.
fn push_inputs(text: &mut String, count: u32) -> Result<(), AllocError> {
    for k in 0..count {
        if k % 256 == 0 {
            text.push_str(if k == 0 { "" } else { "end\n" })?;
            write!(text, "circuit c{k}\n")?;
        }
        text.push_str("input 1 0\n")?;
    }
    Ok(())
}

// A circuit of a constant and its rotations by 3, 5, 7 and so on.
fn push_rotations(text: &mut String, count: u32) -> Result<(), AllocError> {
    text.push_str("circuit c\nconst 1\n")?;
    for k in 0..count {
        let g = 2 * u64::from(k) + 3;
        write!(text, "rot {g} 0\n")?;
    }
    Ok(())
}

// Lanes without a line.
fn push_lanes(text: &mut String, count: u32) -> Result<(), AllocError> {
    for _ in 0..count {
        text.push_str("lane\nend\n")?;
    }
    Ok(())
}

// Lanes of lines, each but the last of 2,048.
fn push_lines(text: &mut String, count: u32) -> Result<(), AllocError> {
    for k in 0..count {
        if k % 2048 == 0 {
            text.push_str(if k == 0 { "lane\n" } else { "end\nlane\n" })?;
        }
        text.push_str("give\n")?;
    }
    Ok(())
}

// A script of one party, whose first four lines are the head: polynomials of 64 coefficients, so many of what a
// limit is on, and what stands behind.
fn full(alloc: Global, limit: Limit, count: u32, behind: &str) -> Result<String, AllocError> {
    let mut text = String::new(alloc);
    text.push_str("helium 1\nparams 64 31525197391593473 16 3 8 1 1 1 1\n")?;
    text.push_str(SEED)?;
    text.push_str("\npresent 1\n")?;
    match limit {
        Limit::Circuits => push_circuits(&mut text, count)?,
        Limit::Nodes => push_nodes(&mut text, count)?,
        Limit::Inputs => push_inputs(&mut text, count)?,
        Limit::Rotations => push_rotations(&mut text, count)?,
        Limit::Lanes => push_lanes(&mut text, count)?,
        Limit::Lines => push_lines(&mut text, count)?,
    }
    text.push_str(behind)?;
    Ok(text)
}

// Whether such a script is read, or is refused in this line for a limit.
fn keeps(
    alloc: Global,
    limit: Limit,
    count: u32,
    behind: &str,
    at: Option<u32>,
) -> Result<bool, AllocError> {
    let text = full(alloc, limit, count, behind)?;
    Ok(match at {
        None => read(alloc, &text).is_ok(),
        Some(line) => is_refused(alloc, &text, line, Reason::Limit),
    })
}

#[test]
fn refuses_one_too_many(rt: HostRuntime) -> Result<(), Fail> {
    let alloc = rt.alloc();
    // What a limit is on, how many there are, what stands behind, and the line that is refused, if one is.
    let rows = [
        (Limit::Circuits, 64, "done\n", None),
        (Limit::Circuits, 65, "", Some(197)),
        (Limit::Nodes, 256, "end\ndone\n", None),
        (Limit::Nodes, 257, "", Some(262)),
        (Limit::Inputs, 1024, "end\ndone\n", None),
        (Limit::Inputs, 1025, "", Some(1038)),
        (Limit::Rotations, 16, "rot 3 0\nend\ndone\n", None),
        (Limit::Rotations, 17, "", Some(23)),
        (Limit::Rotations, 16, "rot 4 0\n", Some(23)),
        (Limit::Lanes, 8, "workers 8 256\ndone\n", None),
        (Limit::Lanes, 9, "", Some(21)),
        (Limit::Lanes, 8, "workers 9 1\n", Some(21)),
        (Limit::Lanes, 8, "workers 8 257\n", Some(21)),
        (Limit::Lines, 4096, "end\ndone\n", None),
        (Limit::Lines, 4097, "", Some(4106)),
    ];
    for (limit, count, behind, at) in rows {
        assert!(rt; keeps(alloc, limit, count, behind, at)?, "{count} {behind}");
    }
    Ok(())
}
