//! The lines, checks and refusals that are printed, against texts written by hand and digests made by another SHA-256.
ghost use Rattle.std.specs.Prelude.{◌≡◌, false, IfOk};
ghost use Rattle.param_set.specs.Numbers.{numbers_of};
ghost use Rattle.session_script.specs.Kept.{IsAccepted};
ghost use Rattle.session_script.specs.Scripts.{asked};

use mod_ring::{Ciphertext, Polys, Ring, of_signed};
use noise_ledger::{Over, Place};
use param_set::{Field, ParamFault, Params, Plain, RawParams};
use run_report::{
    check_text, circuit_line, open_line, output_line, polys_digest, refusal_line, refused_line,
};
use session_script::{Reason, Script, ScriptStop};
use std::alloc::{AllocError, Global};
use std::test::Fail;
use text_tests::{THREE, read, script, script_in};

// The coefficients of c0 and c1, of which a negative one stands for its residue.
const FIRST: [i64; 8] = [1, 2, 256, 65535, -1, 0, 0, 0];

const SECOND: [i64; 8] = [-2, 0, 0, 0, 0, 0, 0, 7];

// Parameters of wide bounds.
const WIDE: &str = "params 1024 31525197391593473 16 3 8 8 1048576 3 2";

fn plain(alloc: Global, coeffs: &[u64]) -> Result<Plain, AllocError> {
    Ok(Plain::from_vec(Vec::from_slice(alloc, coeffs)?))
}

// The line of a circuit with this value, behind another line.
fn shows(alloc: Global, coeffs: &[u64], line: &str) -> Result<bool, AllocError> {
    let mut text = Vec::from_slice(alloc, b"circuit a open\n")?;
    circuit_line(&mut text, b"c", &plain(alloc, coeffs)?)?;
    let want = format!(in alloc; "circuit a open\n{line}")?;
    Ok(text.as_slice() == want.as_bytes())
}

#[test]
fn values(rt: HostRuntime) -> Result<(), Fail> {
    let table: [(&[u64], &str); 6] = [
        (&[8, 0, 1, 0, 0, 0, 0, 0], "circuit c = 8 0 1\n"),
        (&[0, 0, 0, 0], "circuit c = 0\n"),
        (&[0, 0, 15, 0], "circuit c = 0 0 15\n"),
        (&[], "circuit c = 0\n"),
        (&[7], "circuit c = 7\n"),
        (
            &[65536, 18446744073709551615],
            "circuit c = 65536 18446744073709551615\n",
        ),
    ];
    for (coeffs, line) in table {
        assert!(rt; shows(rt.alloc(), coeffs, line)?, "{line}");
    }
    Ok(())
}

// n = 8, q = 7 * 2^52 + 1, t = 16, digits of 8 bits that aren't balanced, and noise and flood within 1, for
// `threshold` of `parties` parties.
fn frame(parties: u64, threshold: u64) -> Result<Params, ParamFault>
    ensures { IfOk result (λ params. numbers_of params ≡ record {
      n = 8;
      q = 31525197391593473;
      t = 16;
      digit_bits = 8;
      balanced = false;
      err = 1;
      flood = 1;
      parties = parties;
      threshold = threshold;
    }) }
{
    Params::check(&RawParams {
        n: 8,
        q: 31_525_197_391_593_473,
        t: 16,
        root: 3,
        digit_bits: 8,
        err: 1,
        flood: 1,
        parties,
        threshold,
    })
}

// The ciphertext of both.
fn output(alloc: Global) -> Result<Ciphertext, Fail> {
    let ring = Ring::new(alloc, &frame(3, 2)?)?;
    let c0 = of_signed(alloc, &ring, &FIRST)?;
    let c1 = of_signed(alloc, &ring, &SECOND)?;
    Ok(Ciphertext { c0, c1 })
}

#[test]
fn digests(rt: HostRuntime) -> Result<(), Fail> {
    let output = output(rt.alloc())?;
    let mut text = Vec::new(rt.alloc());
    output_line(&mut text, b"sum-1", &output)?;
    let line = b"output sum-1 13e42a726e2eb396a13de9465de5367fb868b58647f7d9abbf95e401736213f9\n";
    assert_eq!(rt; text.as_slice(), line.as_slice());
    Ok(())
}

// Three rows.
fn rows(alloc: Global) -> Result<Polys, Fail> {
    let ring = Ring::new(alloc, &frame(3, 2)?)?;
    let mut sums = Polys::new(alloc);
    for row in [&SECOND, &FIRST, &SECOND] {
        sums.push(of_signed(alloc, &ring, row)?)?;
    }
    Ok(sums)
}

#[test]
fn digests_of_rows(rt: HostRuntime) -> Result<(), Fail> {
    let none = b"e3b0c44298fc1c149afbf4c8996fb92427ae41e4649b934ca495991b7852b855";
    assert_eq!(rt;
        polys_digest(&Polys::new(rt.alloc())).as_slice(),
        none.as_slice()
    );
    let sums = rows(rt.alloc())?;
    let three = b"1048d3b8ed6f750a533b84c53aa3ffd545de9c6d18642b153c55fdc170ae84ad";
    assert_eq!(rt; polys_digest(&sums).as_slice(), three.as_slice());
    Ok(())
}

const WITHOUT_VALUES: &str = "\
circuit wide refused node 12 bound 340282366920938463463374607431768211455 limit 4294967295
circuit sum-1 open
circuit c refused output bound 70 limit 0
";

#[test]
fn circuits_without_values(rt: HostRuntime) -> Result<(), Fail> {
    let mut text = Vec::new(rt.alloc());
    let over = Over {
        place: Place::Node(12),
        bound: u128::MAX,
        limit: 4294967295,
    };
    refused_line(&mut text, b"wide", over)?;
    open_line(&mut text, b"sum-1")?;
    let last = Over {
        place: Place::Output,
        bound: 70,
        limit: 0,
    };
    refused_line(&mut text, b"c", last)?;
    assert_eq!(rt; text.as_slice(), WITHOUT_VALUES.as_bytes());
    Ok(())
}

// What is read from a script with these parameters and circuits, in which nobody is present.
fn read_circuits(alloc: Global, params: &str, circuits: &str) -> Result<Script, ScriptStop>
    ensures { IfOk result (λ script. IsAccepted (asked script)) }
{
    read(alloc, script(alloc, params, "", circuits)?.as_str())
}

// What is told of a check of such a script.
fn checked(alloc: Global, params: &str, circuits: &str) -> Result<Vec<u8>, ScriptStop> {
    let script = read_circuits(alloc, params, circuits)?;
    Ok(check_text(alloc, &script)?)
}

// A check of these circuits of three parties tells the limit and these lines.
fn is_checked(alloc: Global, circuits: &str, lines: &str) -> Result<bool, ScriptStop> {
    let text = checked(alloc, THREE, circuits)?;
    let want = format!(in alloc; "limit 985162418487295\n{lines}")?;
    Ok(text.as_slice() == want.as_bytes())
}

#[test]
fn checked_circuits(rt: HostRuntime) -> Result<(), Fail> {
    let table = [
        (
            "circuit c\nconst 7\nend\ncircuit d_2\nconst 0\nend\n",
            "circuit c\nnode 0 0\noutput 2\nplain 7\ncircuit d_2\nnode 0 0\noutput 2\nplain 0\n",
        ),
        (
            "circuit c\ninput 1 3 0 1\ninput 2 5\nmul 0 1\nend\n",
            "circuit c\nnode 0 41\nnode 1 41\nnode 2 1350125\noutput 1350127\nplain 15 0 5\n",
        ),
        (
            "circuit c\ninput 1 0 0 0 1\nrot 3 0\nend\n",
            "circuit c\nnode 0 41\nnode 1 28602\noutput 28604\nplain 0 15\n",
        ),
        ("", ""),
    ];
    for (circuits, lines) in table {
        assert!(rt; is_checked(rt.alloc(), circuits, lines)?, "{lines}");
    }
    Ok(())
}

// What is told of a check of such a script in version 2.
fn checked_balanced(alloc: Global, params: &str, circuits: &str) -> Result<Vec<u8>, ScriptStop> {
    let text = script_in(alloc, "helium 2", params, "", circuits)?;
    let script = read(alloc, text.as_str())?;
    Ok(check_text(alloc, &script)?)
}

#[test]
fn checked_with_balanced_digits(rt: HostRuntime) -> Result<(), Fail> {
    let product = "circuit c\ninput 1 3 0 1\ninput 2 5\nmul 0 1\nend\n";
    let rotation = "circuit c\ninput 1 0 0 0 1\nrot 3 0\nend\n";
    for (params, circuits, lines) in [
        (
            THREE,
            product,
            "node 0 41\nnode 1 41\nnode 2 752717\noutput 752719\nplain 15 0 5\n",
        ),
        (
            THREE,
            rotation,
            "node 0 41\nnode 1 14378\noutput 14380\nplain 0 15\n",
        ),
        (
            WIDE,
            product,
            "node 0 40968\nnode 1 40968\nnode 2 2139915089409\noutput 2139917186561\nplain 15 0 5\n",
        ),
    ] {
        let text = checked_balanced(rt.alloc(), params, circuits)?;
        let want = format!(in rt.alloc(); "limit 985162418487295\ncircuit c\n{lines}")?;
        assert_eq!(rt; text.as_slice(), want.as_bytes());
    }
    Ok(())
}

#[test]
fn checked_refusals(rt: HostRuntime) -> Result<(), Fail> {
    let circuits = "circuit deep\ninput 1 3 0 1\ninput 2 5\nmul 0 1\nmul 2 2\nneg 3\nend\n\
                    circuit wide\ninput 1 3 0 1\ninput 2 5\nmul 0 1\nend\n";
    let want = "limit 985162418487295\n\
                circuit deep\nnode 0 40968\nnode 1 40968\nnode 2 2214518945281\n\
                node 3 111605518906659599873 over\n\
                circuit wide\nnode 0 40968\nnode 1 40968\nnode 2 2214518945281\n\
                output 2214521042433\nplain 15 0 5\n";
    let text = checked(rt.alloc(), WIDE, circuits)?;
    assert_eq!(rt; text.as_slice(), want.as_bytes());
    Ok(())
}

#[test]
fn refusal_lines(rt: HostRuntime) -> Result<(), Fail> {
    let value = 18446744073709551615;
    let table = [
        (1, Reason::Byte, "refused line 1 byte\n"),
        (2, Reason::Word, "refused line 2 word\n"),
        (3, Reason::Number, "refused line 3 number\n"),
        (4, Reason::Version, "refused line 4 version\n"),
        (5, Reason::Limit, "refused line 5 limit\n"),
        (6, Reason::NoRoot { value: 1 }, "refused line 6 noroot 1\n"),
        (
            7,
            Reason::NoRoot { value },
            "refused line 7 noroot 18446744073709551615\n",
        ),
        (8, Reason::Seed, "refused line 8 seed\n"),
        (9, Reason::Name, "refused line 9 name\n"),
        (10, Reason::Party, "refused line 10 party\n"),
        (11, Reason::Id, "refused line 11 id\n"),
        (12, Reason::Node, "refused line 12 node\n"),
        (4294967295, Reason::End, "refused line 4294967295 end\n"),
    ];
    for (line, reason, want) in table {
        let text = refusal_line(rt.alloc(), line, reason)?;
        assert_eq!(rt; text.as_slice(), want.as_bytes());
    }
    Ok(())
}

#[test]
fn refused_parameters(rt: HostRuntime) -> Result<(), Fail> {
    let table = [
        (Field::N, "refused line 2 params n 12\n"),
        (Field::Q, "refused line 2 params q 12\n"),
        (Field::T, "refused line 2 params t 12\n"),
        (Field::Root, "refused line 2 params root 12\n"),
        (Field::DigitBits, "refused line 2 params b 12\n"),
        (Field::Err, "refused line 2 params B 12\n"),
        (Field::Flood, "refused line 2 params D 12\n"),
        (Field::Parties, "refused line 2 params N 12\n"),
        (Field::Threshold, "refused line 2 params T 12\n"),
    ];
    for (field, want) in table {
        let text = refusal_line(rt.alloc(), 2, Reason::Params { field, value: 12 })?;
        assert_eq!(rt; text.as_slice(), want.as_bytes());
    }
    Ok(())
}
