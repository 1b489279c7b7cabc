//! A table over small polynomials: n = 8 and q = 31525197391593473, three parties of which two act.
ghost use Rattle.std.specs.Prelude.{◌≡◌, [], ◌∷◌, All, IfOk, length, replicate};
ghost use Rattle.mod_ring.specs.Fits.{Fits};
ghost use Rattle.instance_table.specs.Tables.{awaits};

use crate::common::frame;
use instance_table::{Brief, Count, Share, Stage, Table};
use mod_ring::{Polys, Ring, of_signed, zero};
use proto_names::{Groups, PartySet, Signature};
use std::alloc::{AllocError, Global};
use std::process::Abort;
use std::sync::Arc;
use std::test::Fail;

/// One row of zeros.
fn zeros(alloc: Global, ring: &Ring) -> Result<Polys, AllocError>
    ensures { IfOk result (λ rows. rows ≡ replicate ring.now.params.n 0 ∷ []) }
{
    let mut rows = Polys::new(alloc);
    rows.push(zero(alloc, ring)?)?;
    Ok(rows)
}

/// Issues an instance of a signature with one row, for some parties.
#[tactic(auto, unfolding(instance_table::specs::Tables::no_sums, proto_names::specs::Names::rows_of))]
fn issue(
    alloc: Global,
    table: &mut Table,
    ring: &Ring,
    circuit: u32,
    bits: u32,
) -> Result<u32, AllocError>
    requires { ring.now.params ≡ table.old.params }
    ensures { table.new.params ≡ table.old.params }
{
    if table.issued() >= 1000 {
        return Ok(0);
    }
    table.room(1)?;
    let sums = zeros(alloc, ring)?;
    let signature = Signature::Dec(circuit);
    let groups = Groups::first(alloc, 2, 3)?;
    let brief = Brief {
        id: table.issued() + 1,
        signature,
        set: PartySet { bits },
        round1: 0,
        groups: Arc::new(alloc, groups)?,
        polys: Polys::new(alloc),
    };
    Ok(table.issue(signature, Arc::new(alloc, brief)?, sums))
}

/// Whether an instance lacks the share of a party.
#[tactic(auto, unfolding(instance_table::specs::Tables::awaits, proto_names::specs::Instances::lacks))]
fn awaits(table: &Table, id: u32, party: u32) -> bool
    ensures { result ≡ awaits table.now.instances.items id party }
{
    match table.find(id) {
        None => false,
        Some(instance) => {
            matches!(instance.stage, Stage::Opened)
                && instance.set.has(party)
                && !instance.sent.has(party)
        }
    }
}

/// One row, a constant.
fn row(alloc: Global, ring: &Ring, constant: i64) -> Result<Polys, AllocError>
    requires { ring.now.params.n ≡ 8 }
    ensures one { IfOk result (λ rows. length rows ≡ 1) }
    ensures fits { IfOk result (λ rows. All (Fits ring.now) rows) }
{
    let mut rows = Polys::new(alloc);
    rows.push(of_signed(alloc, ring, &[constant, 0, 0, 0, 0, 0, 0, 0])?)?;
    Ok(rows)
}

/// Counts a share of one row, a constant, where the instance lacks it.
#[tactic(auto, using(instance_table::proofs::Places::told_entry))]
fn give(
    alloc: Global,
    table: &mut Table,
    ring: &Ring,
    id: u32,
    party: u32,
    constant: i64,
) -> Result<Option<Count>, AllocError>
    requires ring { ring.now.params ≡ table.old.params }
    requires degree { ring.now.params.n ≡ 8 }
    ensures ring { table.new.params ≡ table.old.params }
{
    let wanted = match table.sums(id) {
        Some(sums) => sums.len(),
        None => return Ok(None),
    };
    if wanted != 1 || !awaits(table, id, party) {
        return Ok(None);
    }
    let rows = row(alloc, ring, constant)?;
    Ok(Some(table.count(ring, &Share { id, party, rows })))
}

/// The constant of the first row of an instance's sums.
fn constant(table: &Table, id: u32) -> Option<u64> {
    let sums = table.sums(id)?;
    if sums.is_empty() {
        return None;
    }
    sums.at(0).coeffs().first().copied()
}

/// The stage of an instance.
fn stage(table: &Table, id: u32) -> Option<Stage> {
    table.find(id).map(|instance| instance.stage)
}

/// A table with an instance of the parties 1 and 2.
fn opened(alloc: Global, ring: &Ring) -> Result<Table, AllocError>
    ensures { IfOk result (λ table. table.params ≡ ring.now.params) }
{
    let mut table = Table::new(alloc, ring)?;
    issue(alloc, &mut table, ring, 0, 0b11)?;
    Ok(table)
}

#[test]
fn issues_an_instance(rt: HostRuntime) -> Result<(), Fail> {
    let alloc = rt.alloc();
    let ring = Ring::new(alloc, &frame(3, 2)?)?;
    let mut table = Table::new(alloc, &ring)?;
    assert_eq!(rt; issue(alloc, &mut table, &ring, 0, 0b11)?, 1);
    assert_eq!(rt; constant(&table, 1), Some(0));
    Ok(())
}

#[test]
fn counts_the_first_share(rt: HostRuntime) -> Result<(), Fail> {
    let alloc = rt.alloc();
    let ring = Ring::new(alloc, &frame(3, 2)?)?;
    let mut table = opened(alloc, &ring)?;
    let first = give(alloc, &mut table, &ring, 1, 1, -1)?;
    assert_eq!(rt; first, Some(Count::Counted { missing: 1 }));
    assert_eq!(rt; constant(&table, 1), Some(31_525_197_391_593_472));
    Ok(())
}

/// Gives the share of party 1, the constant -1, and then two that aren't counted.
fn give_thrice<R: Abort>(
    rt: &R,
    alloc: Global,
    table: &mut Table,
    ring: &Ring,
) -> Result<(), AllocError>
    requires ring { ring.now.params ≡ table.old.params }
    requires degree { ring.now.params.n ≡ 8 }
    ensures { table.new.params ≡ table.old.params }
{
    give(alloc, table, ring, 1, 1, -1)?;
    let repeat = give(alloc, table, ring, 1, 1, 5)?;
    assert_eq!(rt; repeat, None, "a repeat");
    let stranger = give(alloc, table, ring, 1, 3, 5)?;
    assert_eq!(rt; stranger, None, "a stranger");
    Ok(())
}

/// Tells of an instance of the parties 1 and 2 whose row is the constant 12.
fn is_complete<R: Abort>(rt: &R, table: &Table) {
    assert_eq!(rt; constant(table, 1), Some(12));
    assert_eq!(rt; stage(table, 1), Some(Stage::Complete));
    assert_eq!(rt; table.brief(1).map(|brief| brief.set.bits), Some(0b11));
}

#[test]
fn adds_shares_row_by_row(rt: HostRuntime) -> Result<(), Fail> {
    let alloc = rt.alloc();
    let ring = Ring::new(alloc, &frame(3, 2)?)?;
    let mut table = opened(alloc, &ring)?;
    give_thrice(&rt, alloc, &mut table, &ring)?;
    let last = give(alloc, &mut table, &ring, 1, 2, 13)?;
    assert_eq!(rt; last, Some(Count::Completed));
    is_complete(&rt, &table);
    Ok(())
}

/// Three instances, of which the first has the share of party 2.
fn three(alloc: Global, ring: &Ring) -> Result<Table, AllocError>
    requires { ring.now.params.n ≡ 8 }
    ensures { IfOk result (λ table. table.params ≡ ring.now.params) }
{
    let mut table = Table::new(alloc, ring)?;
    issue(alloc, &mut table, ring, 0, 0b11)?;
    issue(alloc, &mut table, ring, 1, 0b110)?;
    issue(alloc, &mut table, ring, 1, 0b101)?;
    give(alloc, &mut table, ring, 1, 2, 7)?;
    Ok(table)
}

/// Whether these are the instances that lack the share of a party.
fn lack(alloc: Global, table: &Table, party: u32, want: &[u32]) -> Result<bool, AllocError> {
    let ids = table.pending(alloc, party)?;
    Ok(ids.as_slice() == want)
}

/// Tells of the stages of the three instances when party 2 is lost.
fn stages_without_the_second<R: Abort>(rt: &R, table: &Table) {
    for (id, want) in [
        (0, None),
        (1, Some(Stage::Opened)),
        (2, Some(Stage::Void { by: 2 })),
        (3, Some(Stage::Opened)),
        (4, None),
    ] {
        assert_eq!(rt; stage(table, id), want, "instance {id}");
    }
}

/// Tells of the sums of the first two of them, and of the second's brief.
fn sums_without_the_second<R: Abort>(rt: &R, table: &Table) {
    assert_eq!(rt; constant(table, 1), Some(7));
    assert_eq!(rt; constant(table, 2), None);
    assert!(rt; table.brief(2).is_none());
}

#[test]
fn gives_up_what_lacks_a_share(rt: HostRuntime) -> Result<(), Fail> {
    let alloc = rt.alloc();
    let ring = Ring::new(alloc, &frame(3, 2)?)?;
    let mut table = three(alloc, &ring)?;
    assert!(rt; lack(alloc, &table, 2, &[2])?);
    table.lose(2);
    stages_without_the_second(&rt, &table);
    sums_without_the_second(&rt, &table);
    assert!(rt; lack(alloc, &table, 3, &[3])?);
    Ok(())
}

/// Gives the third instance up, where it stands.
fn void_third(table: &mut Table)
    ensures { table.new.params ≡ table.old.params }
{
    if table.brief(3).is_some() {
        table.void(3, 1);
    }
}

#[test]
fn gives_one_up(rt: HostRuntime) -> Result<(), Fail> {
    let alloc = rt.alloc();
    let ring = Ring::new(alloc, &frame(3, 2)?)?;
    let mut table = three(alloc, &ring)?;
    void_third(&mut table);
    assert_eq!(rt; stage(&table, 3), Some(Stage::Void { by: 1 }));
    assert_eq!(rt; table.find(3).map(|instance| instance.attempt), Some(2));
    Ok(())
}

/// The load of a party, if it is one of 1 to 32.
fn load(table: &Table, party: u32) -> Option<u32> {
    if 1 <= party && party <= 32 {
        Some(table.load(party))
    } else {
        None
    }
}

/// Tells of the loads of the three instances.
fn loads_of_three<R: Abort>(rt: &R, table: &Table) {
    for (party, want) in [
        (0, None),
        (1, Some(2)),
        (2, Some(1)),
        (3, Some(2)),
        (4, Some(0)),
        (33, None),
    ] {
        assert_eq!(rt; load(table, party), want, "party {party}");
    }
}

/// Tells of who is picked by these loads.
fn picks_of_three<R: Abort>(rt: &R, table: &Table) {
    for (among, k, want) in [
        (0b111, 1, Some(0b10)),
        (0b111, 2, Some(0b11)),
        (0b101, 1, Some(0b1)),
        (0b1110, 2, Some(0b1010)),
        (0b111, 3, Some(0b111)),
        (0b111, 4, None),
        (0, 0, Some(0)),
    ] {
        let picked = table.pick(PartySet { bits: among }, k);
        assert_eq!(rt; picked.map(|set| set.bits), want, "{k} of {among}");
    }
}

#[test]
fn picks_by_load(rt: HostRuntime) -> Result<(), Fail> {
    let alloc = rt.alloc();
    let ring = Ring::new(alloc, &frame(3, 2)?)?;
    let table = three(alloc, &ring)?;
    loads_of_three(&rt, &table);
    picks_of_three(&rt, &table);
    Ok(())
}

/// Whether these are the instances that aren't void.
fn stand(alloc: Global, table: &Table, want: &[u32]) -> Result<bool, AllocError> {
    let copies = table.live_copied(alloc)?;
    let ids: Vec<u32> = table
        .live()
        .iter()
        .map(|instance| instance.id)
        .collect(alloc)?;
    Ok(ids.as_slice() == want && copies.as_slice() == table.live())
}

/// Counts the last share of the first instance, and tells whether a copy foretold those that stand.
fn complete_first(alloc: Global, table: &mut Table, ring: &Ring) -> Result<bool, AllocError>
    requires ring { ring.now.params ≡ table.old.params }
    requires degree { ring.now.params.n ≡ 8 }
    ensures { table.new.params ≡ table.old.params }
{
    if !awaits(table, 1, 1) {
        return Ok(false);
    }
    let copies = table.live_with_share(alloc, 1, 1)?;
    let last = give(alloc, table, ring, 1, 1, 5)?;
    Ok(last == Some(Count::Completed) && copies.as_slice() == table.live())
}

/// Tells of one more instance of the second's signature, when it and the third are void.
fn issues_a_third_attempt<R: Abort>(
    rt: &R,
    alloc: Global,
    table: &mut Table,
    ring: &Ring,
) -> Result<(), AllocError>
    requires { ring.now.params ≡ table.old.params }
{
    assert_eq!(rt; issue(alloc, table, ring, 1, 0b11)?, 4);
    assert!(rt; stand(alloc, table, &[1, 4])?);
    assert_eq!(rt; table.find(4).map(|instance| instance.attempt), Some(3));
    assert_eq!(rt; load(table, 1), Some(1));
    Ok(())
}

#[test]
fn keeps_those_that_stand(rt: HostRuntime) -> Result<(), Fail> {
    let alloc = rt.alloc();
    let ring = Ring::new(alloc, &frame(3, 2)?)?;
    let mut table = three(alloc, &ring)?;
    assert!(rt; stand(alloc, &table, &[1, 2, 3])?);
    void_third(&mut table);
    assert!(rt; stand(alloc, &table, &[1, 2])?);
    assert!(rt; complete_first(alloc, &mut table, &ring)?);
    assert!(rt; stand(alloc, &table, &[1, 2])?);
    table.lose(3);
    assert!(rt; stand(alloc, &table, &[1])?);
    issues_a_third_attempt(&rt, alloc, &mut table, &ring)?;
    Ok(())
}
