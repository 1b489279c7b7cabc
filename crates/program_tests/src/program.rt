//! The program from its words to its report, over memory. The expected texts were not taken from this
//! code.
use edge_io::{MemSink, MemSource, ReadStop, read_all};
use helper_main::{Status, Work, run_words};
use std::alloc::{AllocError, Global};
use std::test::Fail;
use text_tests::{AT_LIMIT, ONE, PAST_LIMIT, THREE, script, script_in};

const SUM: &str = "circuit c\ninput 1 3 0 1\ninput 2 5\nadd 0 1\nend\n";

const ONES: &str = "circuit c\ninput 1 3 0 1\ninput 1 5\nadd 0 1\nend\n";

const SEVEN: &str = "circuit c\nconst 7\nend\n";

const MULTIPLE: &str = "circuit c\ninput 1 3 0 0 0 0 0 0 1\nconst 0 1\nmul 0 1\nend\n";

const NEGATIVE: &str = "circuit c\ninput 1 3\ninput 2 5\nsub 0 1\nneg 2\nend\n";

const PRODUCT: &str = "circuit c\ninput 1 3 0 1\ninput 2 5\nmul 0 1\nend\n";

const ROTATION: &str = "circuit c\ninput 1 0 0 0 1\nrot 3 0\nend\n";

/// A sum of which party 2 owns nothing.
const ENDS: &str = "circuit c\ninput 1 3 0 1\ninput 3 5\nadd 0 1\nend\n";

const SEVENS: &str = "circuit c\nconst 7\nend\ncircuit d\nconst 7\nend\n";

const FOUR: &str = "params 8 31525197391593473 16 3 8 1 1 4 2";

const SEVERAL: &str = "\
# Three circuits side by side.
circuit sum
input 1 3 0 1
input 2 5
add 0 1
end

circuit constant
const 7
end
circuit negative
input 3 3
input 2 5
sub 0 1
neg 2
end
";

/// The script of one party: it has another seed, and no line feed at its end.
const ALONE: &str = "\
seed 7d3afe59c65f49dc0edbd94dc0a3ed0bb32142f134218dc706ccd0a009d0cd18
present 1
circuit c
input 1 15 2
input 1 1 1
add 0 1
end
done";

const ROOM: u32 = 16_777_216;

/// The report of one party, which has both inputs.
const OF_ALONE: &str = "\
circuit c = 0 3\n\
output c 45f290cb77411b2b9f4ae39ffdb826e7b5a1426f6516e9e1cda9f58bcf9de433\n\
instance 1 pk 1 attempt 1 complete 62fc6349dce427e89e7692450e9949e677fd854b8102819f091690c6eaae1b09\n\
instance 2 dec0 1 attempt 1 complete f3fcca9424a671ff90f3a0b6fb0555f88bcb4cfd27a90b1aba4652911cf826d8\n\
event 0 join 1 joined\n\
event 0 pending 1 list 1 -\n\
event 0 brief 1 brief pk 1\n\
event 0 deliver 1 1 1 completed\n\
event 0 take nothing\n\
event 0 pending 1 list - 0.0,0.1\n\
event 0 input 0 0 given\n\
event 0 input 0 1 given\n\
event 0 take job 0\n\
event 0 finish 0 finished\n\
event 0 take nothing\n\
event 0 pending 1 list 2 -\n\
event 0 brief 2 brief dec0 1\n\
event 0 deliver 2 1 1 completed\n\
event 0 take nothing\n\
";

/// The report where one of three parties is present, and two have to act together.
const OF_OPEN: &str = "\
circuit c open\n\
event 0 join 1 joined\n\
event 0 pending 1 list - -\n\
event 0 take nothing\n\
event 0 pending 1 list - -\n\
event 0 take nothing\n\
event 0 pending 1 list - -\n\
event 0 take nothing\n\
event 0 pending 1 list - -\n\
event 0 take nothing\n\
event 0 pending 1 list - -\n\
event 0 take nothing\n\
event 0 pending 1 list - -\n\
event 0 take nothing\n\
";

const USAGE: &str = "usage: helium run [--serial] [--json] | check | gen NUMBER\n";

/// The words of a work.
fn words(alloc: Global, work: Work) -> Result<Vec<String>, AllocError> {
    let texts: &[&str] = match work {
        Work::Run => &["run", "--serial"],
        Work::Check => &["check"],
    };
    let mut words = Vec::new(alloc);
    for text in texts {
        words.push(String::from_str(alloc, text)?)?;
    }
    Ok(words)
}

/// A source of some bytes, of whose reads these fail.
fn source_of(alloc: Global, bytes: &[u8], failing: &[u64]) -> Result<MemSource, AllocError> {
    let bytes = Vec::from_slice(alloc, bytes)?;
    Ok(MemSource::new(bytes, Vec::from_slice(alloc, failing)?))
}

/// A sink with room, of whose writes these fail.
fn sink_of(alloc: Global, failing: &[u64]) -> Result<MemSink, AllocError> {
    MemSink::new(alloc, ROOM, Vec::from_slice(alloc, failing)?)
}

/// Runs the program.
fn run(
    alloc: Global,
    work: Work,
    source: &mut MemSource,
    sink: &mut MemSink,
) -> Result<Status, AllocError> {
    let words = words(alloc, work)?;
    Ok(run_words(alloc, words.as_slice(), source, sink))
}

/// Whether the program ends so and writes this text for some bytes, where these reads and these writes fail.
fn faults(
    alloc: Global,
    work: Work,
    bytes: &[u8],
    reads: &[u64],
    writes: &[u64],
    status: Status,
    text: &str,
) -> Result<bool, AllocError> {
    let mut source = source_of(alloc, bytes, reads)?;
    let mut sink = sink_of(alloc, writes)?;
    let ended = run(alloc, work, &mut source, &mut sink)?;
    Ok(ended == status && sink.bytes() == text.as_bytes())
}

/// Whether the program ends so and writes this text for some bytes, where nothing fails.
fn answers(
    alloc: Global,
    work: Work,
    bytes: &[u8],
    status: Status,
    text: &str,
) -> Result<bool, AllocError> {
    faults(alloc, work, bytes, &[], &[], status, text)
}

/// Whether it does so for the script with these parameters, those who are present, and what stands behind.
fn answers_script(
    alloc: Global,
    work: Work,
    (params, present, rest): (&str, &str, &str),
    status: Status,
    text: &str,
) -> Result<bool, AllocError> {
    let script = script(alloc, params, present, rest)?;
    answers(alloc, work, script.as_bytes(), status, text)
}

/// How many pieces between line feeds begin so; behind a last line feed there is an empty piece.
fn lines_with(text: &[u8], start: &str) -> usize {
    text.split(|byte| *byte == b'\n')
        .filter(|line| line.starts_with(start.as_bytes()))
        .count()
}

#[test]
fn writes_whole_reports(rt: HostRuntime) -> Result<(), Fail> {
    let alloc = rt.alloc();
    let script = (THREE, "1", SUM);
    let open = answers_script(alloc, Work::Run, script, Status::Done, OF_OPEN)?;
    assert!(rt; open, "open");
    let alone = format!(in alloc; "helium 1\n{ONE}\n{ALONE}")?;
    // A second write would fail: a report is whole before its first byte is written.
    let bytes = alone.as_bytes();
    let whole = faults(alloc, Work::Run, bytes, &[], &[2], Status::Done, OF_ALONE)?;
    assert!(rt; whole, "alone");
    Ok(())
}

/// Whether a report begins with these lines, and has so many of instances and of events.
fn shows(report: &[u8], text: &str, instances: usize, events: usize) -> bool {
    report.starts_with(text.as_bytes())
        && lines_with(report, "instance ") == instances
        && lines_with(report, "event ") == events
}

/// Whether the program makes such a report of a script.
fn reports(
    alloc: Global,
    script: &str,
    text: &str,
    instances: usize,
    events: usize,
) -> Result<bool, AllocError> {
    let mut source = source_of(alloc, script.as_bytes(), &[])?;
    let mut sink = sink_of(alloc, &[])?;
    let ended = run(alloc, Work::Run, &mut source, &mut sink)?;
    Ok(ended == Status::Done && shows(sink.bytes(), text, instances, events))
}

/// Whether it does so for the script with these parameters, those who are present, and these circuits.
fn reports_script(
    alloc: Global,
    (params, present, circuits): (&str, &str, &str),
    text: &str,
    instances: usize,
    events: usize,
) -> Result<bool, AllocError> {
    let script = script(alloc, params, present, circuits)?;
    reports(alloc, &script, text, instances, events)
}

#[test]
fn runs_circuits(rt: HostRuntime) -> Result<(), Fail> {
    let alloc = rt.alloc();
    // The parameters, those who are present, the circuits, the first lines of the report, and how many
    // lines of instances and of events there are.
    for (params, present, circuits, text, instances, events) in [
        (THREE, "1 2 3", SUM, "circuit c = 8 0 1\n", 2, 27),
        (ONE, "1", ONES, "circuit c = 8 0 1\n", 2, 15),
        (THREE, "1 2 3", MULTIPLE, "circuit c = 15 3\n", 2, 26),
        (THREE, "1 2 3", SEVEN, "circuit c = 7\n", 1, 17),
        (THREE, "1 2 3", NEGATIVE, "circuit c = 2\n", 2, 27),
        (AT_LIMIT, "1", SEVEN, "circuit c = 7\n", 1, 9),
        (
            AT_LIMIT,
            "1",
            ONES,
            "circuit c refused output bound 240514498650 limit 240514433190\n",
            0,
            1,
        ),
        (
            PAST_LIMIT,
            "1",
            SEVEN,
            "circuit c refused output bound 240514433191 limit 240514433190\n",
            0,
            1,
        ),
        (
            THREE,
            "1 2 3",
            SEVERAL,
            "circuit sum = 8 0 1\ncircuit constant = 7\ncircuit negative = 2\n",
            4,
            41,
        ),
    ] {
        let script = (params, present, circuits);
        let so = reports_script(alloc, script, text, instances, events)?;
        assert!(rt; so, "{text}");
    }
    Ok(())
}

/// What the program writes for a run of a script, which it ends well.
fn report_of(alloc: Global, script: &str) -> Result<Option<Vec<u8>>, AllocError> {
    let mut source = source_of(alloc, script.as_bytes(), &[])?;
    let mut sink = sink_of(alloc, &[])?;
    let ended = run(alloc, Work::Run, &mut source, &mut sink)?;
    Ok((ended == Status::Done).then_some(Vec::from_slice(alloc, sink.bytes())?))
}

/// Whether the program makes a report of a script with lanes behind its circuits: it begins with these lines, has so
/// many of instances and of events, and one that begins like this.
fn reports_lanes(
    alloc: Global,
    (params, present, circuits): (&str, &str, &str),
    lanes: &str,
    text: &str,
    (instances, events): (usize, usize),
    line: &str,
) -> Result<bool, AllocError> {
    let rest = format!(in alloc; "{circuits}{lanes}")?;
    let script = script(alloc, params, present, rest.as_str())?;
    let report = report_of(alloc, script.as_str())?;
    Ok(match &report {
        None => false,
        Some(report) => {
            shows(report.as_slice(), text, instances, events)
                && lines_with(report.as_slice(), line) == 1
        }
    })
}

#[test]
fn goes_on_after_losses(rt: HostRuntime) -> Result<(), Fail> {
    let alloc = rt.alloc();
    // The lanes, the first lines of the report, how many lines of instances and of events there are, and how
    // another line begins.
    for (lanes, text, sizes, line) in [
        // a party is lost after its share was counted, and before
        (
            "lane\nsend 2\nlose 2\nend\n",
            "circuit c = 8 0 1\n",
            (2, 26),
            "instance 1 pk 1,2 attempt 1 complete",
        ),
        (
            "lane\nsend 1\nlose 2\nend\n",
            "circuit c = 8 0 1\n",
            (3, 28),
            "instance 2 pk 1,3 attempt 2 complete",
        ),
        // a late share, a repeated one, and one of a party that doesn't take part
        (
            "lane\nhold 2 1\nlose 2\ngive\njoin 2\nhold 1 2\ngive\ngive\nhold 2 2\ngive\nend\n",
            "circuit c = 8 0 1\n",
            (3, 34),
            "event 0 deliver 2 1 1 repeat",
        ),
        // too few are left
        (
            "lane\nsend 1\nsend 2\nsend 1\nsend 3\nwork\nlose 2\nlose 3\nend\n",
            "circuit c open\n",
            (3, 29),
            "instance 3 dec0 1,3 attempt 2 void by 3",
        ),
    ] {
        let script = (THREE, "1 2 3", ENDS);
        let so = reports_lanes(alloc, script, lanes, text, sizes, line)?;
        assert!(rt; so, "{lanes}");
    }
    Ok(())
}

#[test]
fn serves_lanes(rt: HostRuntime) -> Result<(), Fail> {
    let alloc = rt.alloc();
    for (script, lanes, text, sizes, line) in [
        // a circuit is given back, and workers take both; the second decryption goes to those who owe nothing
        (
            (FOUR, "1 2 3 4", SEVENS),
            "lane\nquit\nend\nworkers 1 2\n",
            "circuit c = 7\ncircuit d = 7\n",
            (2, 23),
            "instance 2 dec1 3,4 attempt 1 complete",
        ),
        // nothing is in hand, also where no brief was had, and no lane begins with what another held
        (
            (THREE, "1 2", SUM),
            "lane\nlose 3\ngive\nhold 1 9\ngive\nquit\nend\nlane\ngive\nwork\nend\n",
            "circuit c = 8 0 1\n",
            (2, 27),
            "event 0 brief 9 unknown 1",
        ),
        (
            (THREE, "", SUM),
            "lane\njoin 1\njoin 1\njoin 2\nend\nlane\nend\n",
            "circuit c = 8 0 1\n",
            (2, 24),
            "event 0 join 1 already",
        ),
    ] {
        let so = reports_lanes(alloc, script, lanes, text, sizes, line)?;
        assert!(rt; so, "{lanes}");
    }
    Ok(())
}

#[test]
fn checks_circuits(rt: HostRuntime) -> Result<(), Fail> {
    let alloc = rt.alloc();
    for (params, circuits, text) in [
        (
            THREE,
            SUM,
            "limit 985162418487295\ncircuit c\nnode 0 41\nnode 1 41\nnode 2 83\noutput 85\nplain 8 0 1\n",
        ),
        (
            THREE,
            MULTIPLE,
            "limit 985162418487295\ncircuit c\nnode 0 41\nnode 1 0\nnode 2 5040\noutput 5042\nplain 15 3\n",
        ),
        (
            THREE,
            SEVEN,
            "limit 985162418487295\ncircuit c\nnode 0 0\noutput 2\nplain 7\n",
        ),
        (
            THREE,
            NEGATIVE,
            "limit 985162418487295\ncircuit c\nnode 0 41\nnode 1 41\nnode 2 83\nnode 3 84\noutput 86\nplain 2\n",
        ),
        (
            "params 8 31525197391593473 2 3 8 1 1 3 2",
            "circuit c\ninput 1 1\ninput 2 1\nadd 0 1\nend\n",
            "limit 7881299347898367\ncircuit c\nnode 0 41\nnode 1 41\nnode 2 83\noutput 85\nplain 0\n",
        ),
        (
            "params 8 31525197391593473 65537 3 8 1 1 3 2",
            "circuit c\ninput 1 65536\ninput 2 1\nadd 0 1\nend\n",
            "limit 240514433190\ncircuit c\nnode 0 41\nnode 1 41\nnode 2 65508\noutput 65510\nplain 0\n",
        ),
        (
            PAST_LIMIT,
            SEVEN,
            "limit 240514433190\ncircuit c\nnode 0 0\noutput 240514433191 over\n",
        ),
        (ONE, "lane\nquit\nend\n", "limit 985162418487295\n"),
    ] {
        let script = (params, "", circuits);
        let so = answers_script(alloc, Work::Check, script, Status::Done, text)?;
        assert!(rt; so, "{text}");
    }
    Ok(())
}

/// Where no key switches both versions run alike.
#[test]
fn runs_both_versions_alike(rt: HostRuntime) -> Result<(), Fail> {
    let alloc = rt.alloc();
    for circuits in [SUM, MULTIPLE, SEVERAL] {
        let first = report_of(alloc, script(alloc, THREE, "1 2 3", circuits)?.as_str())?;
        let balanced = script_in(alloc, "helium 2", THREE, "1 2 3", circuits)?;
        let second = report_of(alloc, balanced.as_str())?;
        assert!(rt; first.is_some() && first == second, "{circuits}");
    }
    Ok(())
}

#[test]
fn refuses_scripts(rt: HostRuntime) -> Result<(), Fail> {
    let alloc = rt.alloc();
    for (work, params, rest, text) in [
        (
            Work::Run,
            "params 8 31525197391593475 16 3 8 1 1 3 2",
            SUM,
            "refused line 2 params q 31525197391593475\n",
        ),
        (
            Work::Check,
            "params 8 1099511627793 16 3 8 1 1 3 2",
            SUM,
            "refused line 2 params q 1099511627793\n",
        ),
        (
            Work::Run,
            "params 8 31525197391593473 16 9 8 1 1 3 2",
            SUM,
            "refused line 2 noroot 1\n",
        ),
        (
            Work::Run,
            THREE,
            "circuit c\ninput 1 16\nend\n",
            "refused line 6 node\n",
        ),
        (
            Work::Check,
            THREE,
            "circuit c\ninput 4 1\nend\n",
            "refused line 6 party\n",
        ),
        (Work::Run, THREE, PRODUCT, "refused form\n"),
        (Work::Check, THREE, PRODUCT, "refused form\n"),
        (Work::Run, THREE, ROTATION, "refused form\n"),
        (Work::Check, THREE, ROTATION, "refused form\n"),
    ] {
        let script = (params, "1 2", rest);
        let so = answers_script(alloc, work, script, Status::Script, text)?;
        assert!(rt; so, "{text}");
    }
    Ok(())
}

#[test]
fn refuses_cut_scripts(rt: HostRuntime) -> Result<(), Fail> {
    let alloc = rt.alloc();
    let whole = script(alloc, THREE, "1 2 3", SUM)?;
    assert!(rt; whole.len() >= 17);
    let cut = &whole.as_bytes()[..whole.len() - 17];
    let refused = answers(
        alloc,
        Work::Run,
        cut,
        Status::Script,
        "refused line 8 end\n",
    )?;
    assert!(rt; refused, "cut");
    let refused = answers(
        alloc,
        Work::Run,
        &[],
        Status::Script,
        "refused line 1 end\n",
    )?;
    assert!(rt; refused, "empty");
    Ok(())
}

/// Whether the program refuses so many line feeds by this text.
fn refuses_blanks(alloc: Global, count: usize, text: &str) -> Result<bool, AllocError> {
    let blanks = vec![in alloc; b'\n'; count]?;
    answers(alloc, Work::Run, blanks.as_slice(), Status::Script, text)
}

#[test]
fn refuses_long_scripts(rt: HostRuntime) -> Result<(), Fail> {
    let longest = refuses_blanks(rt.alloc(), 1_048_576, "refused line 1048577 end\n")?;
    assert!(rt; longest, "longest");
    let too_long = refuses_blanks(rt.alloc(), 1_048_577, "refused long\n")?;
    assert!(rt; too_long, "too long");
    Ok(())
}

#[test]
fn tells_faults(rt: HostRuntime) -> Result<(), Fail> {
    let alloc = rt.alloc();
    let whole = script(alloc, THREE, "1 2 3", SUM)?;
    // The number of the read that fails, that of the write, and the status.
    for (read, write, status) in [(2, 9, Status::Read), (9, 1, Status::Write)] {
        let bytes = whole.as_bytes();
        let so = faults(alloc, Work::Run, bytes, &[read], &[write], status, "")?;
        assert!(rt; so, "read {read}, write {write}");
    }
    Ok(())
}

/// Two words.
fn two_words(alloc: Global, first: &str, second: &str) -> Result<Vec<String>, AllocError> {
    let first = String::from_str(alloc, first)?;
    let second = String::from_str(alloc, second)?;
    Ok(vec![in alloc; first, second]?)
}

/// Whether the program tells its usage for two words.
fn tells_usage(
    alloc: Global,
    first: &str,
    second: &str,
    source: &mut MemSource,
) -> Result<bool, AllocError> {
    let words = two_words(alloc, first, second)?;
    let mut sink = MemSink::new(alloc, 1_000, Vec::new(alloc))?;
    let status = run_words(alloc, words.as_slice(), source, &mut sink);
    Ok(status == Status::Usage && sink.bytes() == USAGE.as_bytes())
}

/// Whether it does so and leaves a script to be read.
fn reads_nothing(
    alloc: Global,
    first: &str,
    second: &str,
    script: &[u8],
) -> Result<bool, ReadStop> {
    let mut source = source_of(alloc, script, &[])?;
    let told = tells_usage(alloc, first, second, &mut source)?;
    let left = read_all(alloc, &mut source, 1_000)?;
    Ok(told && left.as_slice() == script)
}

#[test]
fn reads_nothing_for_other_words(rt: HostRuntime) -> Result<(), Fail> {
    let alloc = rt.alloc();
    let whole = script(alloc, THREE, "1 2 3", SUM)?;
    for (first, second) in [("run", "x"), ("check", "--serial"), ("--serial", "run")] {
        let so = reads_nothing(alloc, first, second, whole.as_bytes())?;
        assert!(rt; so, "{first} {second}");
    }
    Ok(())
}

#[test]
fn numbers_of_statuses(rt: HostRuntime) {
    for (status, number) in [
        (Status::Done, 0),
        (Status::Usage, 2),
        (Status::Script, 3),
        (Status::Read, 4),
        (Status::Write, 5),
        (Status::Memory, 6),
    ] {
        assert_eq!(rt; status.number(), number);
    }
}
