//! The lines of a report on instances and on entries of the log, against texts written by hand.
use event_lines::{event_line, event_lines, instance_line};
use param_set::{Ids, Slots};
use proto_names::{Instance, PartySet, Signature, Stage};
use session_rules::{Call, Entry, Reply};
use std::alloc::{AllocError, Global};
use std::process::Abort;
use std::test::Fail;

const DIGEST: &[u8; 64] = b"13e42a726e2eb396a13de9465de5367fb868b58647f7d9abbf95e401736213f9";

// The set of the parties 1, 3, 4 and 32.
const FOUR: PartySet = PartySet { bits: 0x8000_000d };

fn listing(alloc: Global, ids: &[u32], inputs: &[(u32, u32)]) -> Result<Reply, AllocError> {
    Ok(Reply::List {
        ids: Ids::from_vec(Vec::from_slice(alloc, ids)?),
        inputs: Slots::from_vec(Vec::from_slice(alloc, inputs)?),
    })
}

// The line of an entry with a call, behind another line, has these words.
fn calls(alloc: Global, call: Call, words: &str) -> Result<bool, AllocError> {
    let entry = Entry {
        caller: 8,
        call,
        reply: Reply::Absent,
    };
    let mut text = Vec::from_slice(alloc, b"output c 0\n")?;
    event_line(&mut text, &entry)?;
    let want = format!(in alloc; "output c 0\nevent 8 {words} absent\n")?;
    Ok(text.as_slice() == want.as_bytes())
}

#[test]
fn each_call(rt: HostRuntime) -> Result<(), Fail> {
    let table = [
        (Call::Join { p: 1 }, "join 1"),
        (Call::Lose { p: 32 }, "lose 32"),
        (Call::Pending { p: 10 }, "pending 10"),
        (Call::Brief { id: 4294967295 }, "brief 4294967295"),
        (
            Call::Deliver {
                id: 7,
                p: 2,
                rows: 14,
            },
            "deliver 7 2 14",
        ),
        (
            Call::Input {
                circuit: 0,
                input: 3,
            },
            "input 0 3",
        ),
        (Call::Take, "take"),
        (Call::Finish { circuit: 63 }, "finish 63"),
        (Call::GiveBack { circuit: 5 }, "back 5"),
    ];
    for (call, words) in table {
        assert!(rt; calls(rt.alloc(), call, words)?, "{words}");
    }
    Ok(())
}

// The line of an entry with a reply.
fn line_of(alloc: Global, reply: Reply) -> Result<Vec<u8>, AllocError> {
    let mut text = Vec::new(alloc);
    let entry = Entry {
        caller: 0,
        call: Call::Take,
        reply,
    };
    event_line(&mut text, &entry)?;
    Ok(text)
}

// The line of an entry with a reply has these words.
fn prints(alloc: Global, reply: Reply, words: &str) -> Result<bool, AllocError> {
    let text = line_of(alloc, reply)?;
    let want = format!(in alloc; "event 0 take {words}\n")?;
    Ok(text.as_slice() == want.as_bytes())
}

// Tells of the line of an entry with a reply.
fn told<R: Abort>(rt: &R, alloc: Global, reply: Reply, words: &str) -> Result<(), AllocError> {
    let so = prints(alloc, reply, words)?;
    assert!(rt; so, "{words}");
    Ok(())
}

#[test]
fn each_reply_of_a_party(rt: HostRuntime) -> Result<(), Fail> {
    let alloc = rt.alloc();
    let brief = Reply::Brief {
        signature: Signature::Rot(3),
        set: FOUR,
    };
    told(&rt, alloc, Reply::Joined, "joined")?;
    told(&rt, alloc, Reply::Left, "left")?;
    told(&rt, alloc, Reply::Already, "already")?;
    told(&rt, alloc, Reply::Absent, "absent")?;
    told(&rt, alloc, brief, "brief rot3 1,3,4,32")?;
    told(&rt, alloc, Reply::Unknown { issued: 0 }, "unknown 0")?;
    told(&rt, alloc, Reply::Late { by: 12 }, "late 12")?;
    Ok(())
}

#[test]
fn each_reply_to_a_share(rt: HostRuntime) -> Result<(), Fail> {
    let alloc = rt.alloc();
    told(&rt, alloc, Reply::Stranger, "stranger")?;
    told(&rt, alloc, Reply::Repeat, "repeat")?;
    told(&rt, alloc, Reply::Shape { want: 14, got: 1 }, "shape 14 1")?;
    told(&rt, alloc, Reply::Counted { missing: 2 }, "counted 2")?;
    told(&rt, alloc, Reply::Completed, "completed")?;
    Ok(())
}

#[test]
fn each_reply_on_a_circuit(rt: HostRuntime) -> Result<(), Fail> {
    let alloc = rt.alloc();
    told(&rt, alloc, Reply::NoInput, "noinput")?;
    told(&rt, alloc, Reply::NoKey, "nokey")?;
    told(&rt, alloc, Reply::Given, "given")?;
    told(&rt, alloc, Reply::Job { circuit: 1 }, "job 1")?;
    told(&rt, alloc, Reply::Nothing, "nothing")?;
    told(&rt, alloc, Reply::Finished, "finished")?;
    told(&rt, alloc, Reply::NotTaken, "nottaken")?;
    told(&rt, alloc, Reply::Returned, "returned")?;
    Ok(())
}

// The line of an entry with a list has these words.
fn lists(
    alloc: Global,
    ids: &[u32],
    inputs: &[(u32, u32)],
    words: &str,
) -> Result<bool, AllocError> {
    prints(alloc, listing(alloc, ids, inputs)?, words)
}

#[test]
fn each_list(rt: HostRuntime) -> Result<(), Fail> {
    let table: [(&[u32], &[(u32, u32)], &str); 4] = [
        (&[], &[], "list - -"),
        (&[1], &[], "list 1 -"),
        (&[], &[(0, 1)], "list - 0.1"),
        (
            &[2, 10, 11],
            &[(0, 0), (0, 12), (63, 7)],
            "list 2,10,11 0.0,0.12,63.7",
        ),
    ];
    for (ids, inputs, words) in table {
        assert!(rt; lists(rt.alloc(), ids, inputs, words)?, "{words}");
    }
    Ok(())
}

// A log of three calls.
fn log(alloc: Global) -> Result<Vec<Entry>, AllocError> {
    let one = listing(alloc, &[1], &[])?;
    Ok(vec![in alloc;
        Entry {
            caller: 0,
            call: Call::Join { p: 1 },
            reply: Reply::Joined
        },
        Entry {
            caller: 0,
            call: Call::Pending { p: 1 },
            reply: one
        },
        Entry {
            caller: 2,
            call: Call::Take,
            reply: Reply::Nothing
        },
    ]?)
}

#[test]
fn some_entries(rt: HostRuntime) -> Result<(), Fail> {
    let log = log(rt.alloc())?;
    let mut text = Vec::from_slice(rt.alloc(), b"a\n")?;
    event_lines(&mut text, log.as_slice())?;
    event_lines(&mut text, &[])?;
    let want = b"a\nevent 0 join 1 joined\nevent 0 pending 1 list 1 -\nevent 2 take nothing\n";
    assert_eq!(rt; text.as_slice(), want.as_slice());
    Ok(())
}

// The line of the second instance of a signature, for the parties 1, 3, 4 and 32, of whom some have sent
// their shares, has these words.
fn tells(
    alloc: Global,
    signature: Signature,
    sent: u32,
    stage: Stage,
    words: &str,
) -> Result<bool, AllocError> {
    let instance = Instance {
        id: 1,
        signature,
        set: FOUR,
        attempt: 2,
        sent: PartySet { bits: sent },
        stage,
        round1: 0,
        group: 0,
    };
    let mut text = Vec::from_slice(alloc, b"output c 0\n")?;
    instance_line(&mut text, &instance, DIGEST)?;
    let want = format!(in alloc; "output c 0\ninstance {words}\n")?;
    Ok(text.as_slice() == want.as_bytes())
}

#[test]
fn each_stage(rt: HostRuntime) -> Result<(), Fail> {
    let table = [
        (
            Signature::Pk,
            0x8000_000d,
            Stage::Complete,
            "1 pk 1,3,4,32 attempt 2 complete 13e42a726e2eb396a13de9465de5367fb868b58647f7d9abbf95e401736213f9",
        ),
        (
            Signature::Rlk1,
            0x0,
            Stage::Void { by: 32 },
            "1 rlk1 1,3,4,32 attempt 2 void by 32",
        ),
        (
            Signature::Rlk2,
            0x8000_0001,
            Stage::Opened,
            "1 rlk2 1,3,4,32 attempt 2 open 3,4",
        ),
        (
            Signature::Rot(15),
            0xd,
            Stage::Opened,
            "1 rot15 1,3,4,32 attempt 2 open 32",
        ),
        (
            Signature::Dec(0),
            0x0,
            Stage::Opened,
            "1 dec0 1,3,4,32 attempt 2 open 1,3,4,32",
        ),
    ];
    for (signature, sent, stage, words) in table {
        let so = tells(rt.alloc(), signature, sent, stage, words)?;
        assert!(rt; so, "{words}");
    }
    Ok(())
}
