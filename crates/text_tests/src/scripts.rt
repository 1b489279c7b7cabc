//! Whole scripts, and lines that are refused for each reason.
use crate::samples::{SEED, THREE, read};
use param_set::Field;
use session_script::{Lane, Line, NamedCircuit, Reason, Script, ScriptStop};
use std::alloc::{AllocError, Global};
use std::test::Fail;

const BASE: [&str; 10] = [
    "helium 1",
    THREE,
    SEED,
    "present 1 2 3",
    "circuit c",
    "input 1 3 0 1",
    "input 2 5",
    "add 0 1",
    "end",
    "done",
];

// Puts a line behind a script.
fn push_line(script: &mut String, text: &str) -> Result<(), AllocError> {
    script.push_str(text)?;
    script.push('\n')?;
    Ok(())
}

// The base script with `text` in place of a line, or behind all lines.
fn changed(alloc: Global, line: usize, text: &str) -> Result<String, AllocError> {
    let mut script = String::new(alloc);
    for k in 0..BASE.len() {
        push_line(&mut script, if k + 1 == line { text } else { BASE[k] })?;
    }
    script.push_str(if line > BASE.len() { text } else { "" })?;
    Ok(script)
}

const ABOVE_N: Reason = Reason::Params {
    field: Field::Threshold,
    value: 4,
};

// Line, what stands in its place, the line that is refused, and why.
const REFUSED: [(usize, &str, u32, Reason); 46] = [
    (1, "\u{7f}", 1, Reason::Byte),
    (5, "circuit\tc", 5, Reason::Byte),
    (11, "#\n\t", 12, Reason::Byte),
    (1, "helium", 1, Reason::Word),
    (1, "Helium 1", 1, Reason::Word),
    (4, "presents 1", 4, Reason::Word),
    (5, "circuit c\nneg", 6, Reason::Word),
    (6, "input 1", 6, Reason::Word),
    (8, "add 0", 8, Reason::Word),
    (8, "add 0 1 1", 8, Reason::Word),
    (9, "lane", 9, Reason::Word),
    (9, "end\nlane\nend\nworkers 8 256\nlane", 13, Reason::Word),
    (11, "x", 11, Reason::Word),
    (1, "helium 01", 1, Reason::Number),
    (1, "helium 18446744073709551616", 1, Reason::Number),
    (6, "input 1 -0", 6, Reason::Number),
    (1, "helium 0", 1, Reason::Version),
    (1, "helium 3", 1, Reason::Version),
    (1, "helium 2\n# balanced\nseed", 3, Reason::Word),
    (9, "end\nworkers 9 0", 10, Reason::Limit),
    (9, "end\nworkers 0 257", 10, Reason::Limit),
    (2, "params 8 31525197391593473 16 3 8 1 1 3 4", 2, ABOVE_N),
    (
        2,
        "params 8 31525197391593473 16 2 8 1 1 3 2",
        2,
        Reason::NoRoot { value: 1 },
    ),
    (3, "seed 00", 3, Reason::Seed),
    (5, "circuit C", 5, Reason::Name),
    (5, "circuit _", 5, Reason::Name),
    (5, "circuit abcdefghijklmnopq", 5, Reason::Name),
    (9, "end\ncircuit c", 10, Reason::Name),
    (4, "present 2 1", 4, Reason::Party),
    (4, "present 2 2", 4, Reason::Party),
    (4, "present 0 1", 4, Reason::Party),
    (4, "present 1 4", 4, Reason::Party),
    (6, "input 0 1", 6, Reason::Party),
    (6, "input 4 16", 6, Reason::Party),
    (6, "input 4294967297 1", 6, Reason::Party),
    (9, "end\nlane\nlose 4", 11, Reason::Party),
    (9, "end\n\n# lanes\nlane\nhold 1 0", 13, Reason::Id),
    (9, "end\nlane\nhold 1 4294967296", 11, Reason::Id),
    (6, "input 1 16", 6, Reason::Node),
    (6, "input 1 0 0 0 0 0 0 0 0 0", 6, Reason::Node),
    (6, "end", 6, Reason::Node),
    (8, "add 0 2", 8, Reason::Node),
    (8, "rot 4 0", 8, Reason::Node),
    (8, "rot 17 0", 8, Reason::Node),
    (10, "#", 11, Reason::End),
    (10, "", 11, Reason::End),
];

// Whether the text is refused in this line and for this reason.
pub(crate) fn is_refused(alloc: Global, text: &str, at: u32, wanted: Reason) -> bool {
    match read(alloc, text).err() {
        Some(ScriptStop::Refused { line, reason }) => line == at && reason == wanted,
        _ => false,
    }
}

// Whether the changed base is.
fn is_refused_with(
    alloc: Global,
    (line, text): (usize, &str),
    at: u32,
    wanted: Reason,
) -> Result<bool, AllocError> {
    let script = changed(alloc, line, text)?;
    Ok(is_refused(alloc, &script, at, wanted))
}

#[test]
fn refuses_by_each_reason(rt: HostRuntime) -> Result<(), Fail> {
    let alloc = rt.alloc();
    for (line, text, at, wanted) in REFUSED {
        let so = is_refused_with(alloc, (line, text), at, wanted)?;
        assert!(rt; so, "{line}: {text}");
    }
    assert!(rt; is_refused(alloc, "", 1, Reason::End));
    Ok(())
}

// Whether a circuit has these values.
fn has_values(named: &NamedCircuit, values: &[[u64; 8]]) -> bool {
    for (place, value) in values.iter().enumerate() {
        if place >= named.values().len() || named.values().at(place).coeffs() != value.as_slice() {
            return false;
        }
    }
    named.values().len() == values.len()
}

// Whether a script is the base.
fn is_the_base(script: &Script) -> bool {
    let values = [[3, 0, 1, 0, 0, 0, 0, 0], [5, 0, 0, 0, 0, 0, 0, 0]];
    match script.circuits.as_slice() {
        [named] => {
            script.params.parties() == 3
                && script.params.psi() == 1_791_537_114_801_093
                && script.lanes.len() == 0
                && named.name() == b"c".as_slice()
                && named.circuit().owner(0) == Some(1)
                && named.circuit().owner(1) == Some(2)
                && has_values(named, values.as_slice())
        }
        _ => false,
    }
}

// Whether the base is read from a text.
fn reads(alloc: Global, text: &str) -> Result<bool, ScriptStop> {
    let script = read(alloc, text)?;
    Ok(is_the_base(&script))
}

// The base script asks for one circuit, and its last line may lack its line feed.
#[test]
fn reads_the_base(rt: HostRuntime) -> Result<(), Fail> {
    let text = changed(rt.alloc(), 11, "")?;
    for text in [text.as_str(), text.trim_end_matches('\n')] {
        assert!(rt; reads(rt.alloc(), text)?, "{text}");
    }
    Ok(())
}

// Whether a text is a script of this version, whose digits are balanced in version 2 alone.
fn reads_version(alloc: Global, text: &str, version: u32) -> Result<bool, ScriptStop> {
    let script = read(alloc, text)?;
    Ok(
        is_the_base(&script)
            && script.version == version
            && script.params.is_balanced() == (version == 2),
    )
}

// The versions 1 and 2 have the same lines; a line `reshare` is none of them.
#[test]
fn reads_both_versions(rt: HostRuntime) -> Result<(), Fail> {
    let alloc = rt.alloc();
    for (line, version) in [("helium 1", 1), ("helium 2", 2)] {
        let text = changed(alloc, 1, line)?;
        assert!(rt; reads_version(alloc, text.as_str(), version)?, "{line}");
    }
    let text = changed(alloc, 1, "helium 2")?;
    let text = text
        .as_str()
        .replacen(alloc, "end\n", "end\nlane\nreshare 2 3\n", 1)?;
    assert!(rt; is_refused(alloc, text.as_str(), 11, Reason::Word));
    Ok(())
}

const WHOLE: &str = "# every statement\n\nhelium 1
params 8 31525197391593473 16 3 8 1 1 3 2
seed 00000000000000000000000000000000000000000000000000000000000000Ff
present 1  3
circuit a_1
input 1 3 0 1
const 2
add 0 1
sub 2 0
neg 3
mul 4 1
rot 3 5
end
circuit b
 input 2 15
end
lane
join 2
lose 1
send 3
hold 2 4294967295
give
work
quit
end
lane
end
workers 2 3
done
# nothing else";

// Whether a circuit has this name, so many nodes, and one value, which is this.
fn is_circuit(named: &NamedCircuit, name: &[u8], nodes: u32, value: [u64; 8]) -> bool {
    named.name() == name && named.circuit().len() == nodes && has_values(named, [value].as_slice())
}

// Whether this is the script of every statement, but for its lanes.
fn has_statements(script: &Script) -> bool {
    match script.circuits.as_slice() {
        [first, second] => {
            script.version == 1
                && script.params.threshold() == 2
                && script.master[31] == 255
                && script.present.as_slice() == [1, 3].as_slice()
                && is_circuit(first, b"a_1", 7, [3, 0, 1, 0, 0, 0, 0, 0])
                && is_circuit(second, b"b", 1, [15, 0, 0, 0, 0, 0, 0, 0])
        }
        _ => false,
    }
}

// Whether these are the lanes of the script of every statement.
fn are_the_lanes(lanes: &[Lane]) -> bool {
    let written = [
        Line::Join { p: 2 },
        Line::Lose { p: 1 },
        Line::Send { p: 3 },
        Line::Hold {
            p: 2,
            id: 4_294_967_295,
        },
        Line::Give,
        Line::Work,
        Line::Quit,
    ];
    let work = [Line::Work, Line::Work, Line::Work];
    match lanes {
        [first, empty, third, fourth] => {
            first.as_slice() == written.as_slice()
                && empty.as_slice().is_empty()
                && third.as_slice() == work.as_slice()
                && fourth.as_slice() == work.as_slice()
        }
        _ => false,
    }
}

// Whether the script of every statement is read, but for its lanes, and whether these are.
fn reads_whole(alloc: Global) -> Result<(bool, bool), ScriptStop> {
    let script = read(alloc, WHOLE)?;
    Ok((
        has_statements(&script),
        are_the_lanes(script.lanes.as_slice()),
    ))
}

#[test]
fn reads_every_statement(rt: HostRuntime) -> Result<(), Fail> {
    let (statements, _) = reads_whole(rt.alloc())?;
    assert!(rt; statements);
    Ok(())
}

#[test]
fn reads_lanes_and_workers(rt: HostRuntime) -> Result<(), Fail> {
    let (_, lanes) = reads_whole(rt.alloc())?;
    assert!(rt; lanes);
    Ok(())
}

// As many of a character as a script may have bytes.
fn filled(alloc: Global, filler: char) -> Result<String, AllocError> {
    let mut long = String::new(alloc);
    for _ in 0..1_048_576u32 {
        long.push(filler)?;
    }
    Ok(long)
}

// Whether they are refused.
fn is_long(alloc: Global, filler: char, at: u32, wanted: Reason) -> Result<bool, AllocError> {
    let long = filled(alloc, filler)?;
    Ok(is_refused(alloc, &long, at, wanted))
}

#[test]
fn refuses_long_texts(rt: HostRuntime) -> Result<(), Fail> {
    let rows = [
        ('\n', 1_048_577, Reason::End),
        (' ', 2, Reason::End),
        ('0', 1, Reason::Word),
    ];
    for (filler, at, wanted) in rows {
        assert!(rt; is_long(rt.alloc(), filler, at, wanted)?, "{filler}");
    }
    Ok(())
}
