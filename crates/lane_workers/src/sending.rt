ghost use Rattle.std.specs.Prelude.{◌≡◌, [], ◌∷◌, map, All, OnOk, IfErr};
ghost use Rattle.session_rules.specs.Tasks.{shares, delivers, gives, gives_at, share_for};
ghost use Rattle.session_rules.specs.Courses.{sends};
ghost use Rattle.lane_workers.specs.Acting.{Acts, IsKey, Owns, OwnsPlace};
ghost use Rattle.lane_workers.specs.Desks.{known_of, rules_of, state_seen};
ghost use Rattle.lane_workers.specs.Hands.{CanBring};
ghost use Rattle.lane_workers.specs.Doing.{Did, BrokeOff};

use crate::desk::Desk;
use instance_table::Brief;
use mod_ring::{PublicKey, Ring};
use party_roll::Party;
use session_core::{Reply, Stop};
use std::alloc::Global;

/// Makes a party's share from the brief of an instance, and delivers it: every share comes to the desk here.
pub(crate) fn bring_share<D: Desk, P: Party>(
    alloc: Global,
    desk: &mut D,
    ring: &Ring,
    party: &P,
    brief: &Brief,
) -> Result<(), Stop>
    requires ring { ring.now.params ≡ (known_of (D.view desk.old)).params }
    requires party { Acts P.Party (known_of (D.view desk.old)) party.now }
    requires brief { CanBring (known_of (D.view desk.old)) (state_seen (D.view desk.old))
        (P.number party.now) brief.now }
    ensures same { (D.view desk.new).fixed ≡ (D.view desk.old).fixed }
    ensures done { let held = share_for (rules_of (D.view desk.old)).rows (P.number party.now)
        brief.now.id brief.now.signature in
        OnOk result (Did (delivers held ∷ []) (D.view desk.old) (D.view desk.new)) }
    ensures stopped { let held = share_for (rules_of (D.view desk.old)).rows (P.number party.now)
        brief.now.id brief.now.signature in
        IfErr result (BrokeOff (delivers held ∷ []) (D.view desk.old) (D.view desk.new)) }
{
    let share = party.share(alloc, ring, brief)?;
    desk.deliver(alloc, &share)?;
    Ok(())
}

/// Encrypts a party's input under the public key, and gives it: every input comes to the desk here.
fn bring_input<D: Desk, P: Party>(
    alloc: Global,
    desk: &mut D,
    ring: &Ring,
    party: &P,
    key: &PublicKey,
    circuit: u32,
    input: u32,
) -> Result<(), Stop>
    requires ring { ring.now.params ≡ (known_of (D.view desk.old)).params }
    requires party { Acts P.Party (known_of (D.view desk.old)) party.now }
    requires key { IsKey (known_of (D.view desk.old)) (state_seen (D.view desk.old)) key.now }
    requires own { Owns (known_of (D.view desk.old)).setting (P.number party.now) circuit input }
    ensures same { (D.view desk.new).fixed ≡ (D.view desk.old).fixed }
    ensures done { OnOk result (Did (gives circuit input ∷ []) (D.view desk.old)
        (D.view desk.new)) }
    ensures stopped { IfErr result (BrokeOff (gives circuit input ∷ []) (D.view desk.old)
        (D.view desk.new)) }
{
    let ct = party.input(alloc, ring, key, circuit, input)?;
    desk.input(alloc, circuit, input, ct)?;
    Ok(())
}

/// Asks what an instance is, and gives a party's share of it, unless it is void or not issued.
fn share<D: Desk, P: Party>(
    alloc: Global,
    desk: &mut D,
    ring: &Ring,
    party: &P,
    id: u32,
) -> Result<(), Stop>
    requires ring { ring.now.params ≡ (known_of (D.view desk.old)).params }
    requires party { Acts P.Party (known_of (D.view desk.old)) party.now }
    ensures same { (D.view desk.new).fixed ≡ (D.view desk.old).fixed }
    ensures done { OnOk result (Did (shares (P.number party.now) id ∷ []) (D.view desk.old)
        (D.view desk.new)) }
    ensures stopped { IfErr result (BrokeOff (shares (P.number party.now) id ∷ [])
        (D.view desk.old) (D.view desk.new)) }
{
    let briefing = desk.brief(id)?;
    match &briefing.brief {
        None => Ok(()),
        Some(brief) => bring_share(alloc, desk, ring, party, brief),
    }
}

/// Gives a party's shares of some instances, in their order.
fn share_all<D: Desk, P: Party>(
    alloc: Global,
    desk: &mut D,
    ring: &Ring,
    party: &P,
    ids: &[u32],
) -> Result<(), Stop>
    requires ring { ring.now.params ≡ (known_of (D.view desk.old)).params }
    requires party { Acts P.Party (known_of (D.view desk.old)) party.now }
    ensures same { (D.view desk.new).fixed ≡ (D.view desk.old).fixed }
    ensures done { OnOk result (Did (map (shares (P.number party.now)) ids.now) (D.view desk.old)
        (D.view desk.new)) }
    ensures stopped { IfErr result (BrokeOff (map (shares (P.number party.now)) ids.now)
        (D.view desk.old) (D.view desk.new)) }
{
    'ids: for id in ids {
        share(alloc, desk, ring, party, *id)?;
    }
    Ok(())
}

/// Encrypts a party's inputs at some places under the public key, and gives them, in their order.
fn give_all<D: Desk, P: Party>(
    alloc: Global,
    desk: &mut D,
    ring: &Ring,
    party: &P,
    key: &PublicKey,
    places: &[(u32, u32)],
) -> Result<(), Stop>
    requires ring { ring.now.params ≡ (known_of (D.view desk.old)).params }
    requires party { Acts P.Party (known_of (D.view desk.old)) party.now }
    requires key { IsKey (known_of (D.view desk.old)) (state_seen (D.view desk.old)) key.now }
    requires own { All (OwnsPlace (known_of (D.view desk.old)).setting (P.number party.now))
        places.now }
    ensures same { (D.view desk.new).fixed ≡ (D.view desk.old).fixed }
    ensures done { OnOk result (Did (map gives_at places.now) (D.view desk.old)
        (D.view desk.new)) }
    ensures stopped { IfErr result (BrokeOff (map gives_at places.now) (D.view desk.old)
        (D.view desk.new)) }
{
    'places: for place in places {
        bring_input(alloc, desk, ring, party, key, place.0, place.1)?;
    }
    Ok(())
}

/// Gives all shares and inputs that a party owes, as it is told at its asking.
pub(crate) fn send<D: Desk, P: Party>(
    alloc: Global,
    desk: &mut D,
    ring: &Ring,
    party: &P,
) -> Result<(), Stop>
    requires ring { ring.now.params ≡ (known_of (D.view desk.old)).params }
    requires party { Acts P.Party (known_of (D.view desk.old)) party.now }
    ensures same { (D.view desk.new).fixed ≡ (D.view desk.old).fixed }
    ensures done { OnOk result (Did (sends (P.number party.now) ∷ []) (D.view desk.old)
        (D.view desk.new)) }
    ensures stopped { IfErr result (BrokeOff (sends (P.number party.now) ∷ []) (D.view desk.old)
        (D.view desk.new)) }
{
    let listing = desk.pending(alloc, party.number())?;
    if let Reply::List { ids, inputs } = &listing.reply {
        share_all(alloc, desk, ring, party, ids.as_slice())?;
        match &listing.key {
            // no input is owed then
            None => {}
            Some(key) => give_all(alloc, desk, ring, party, key, inputs.as_slice())?,
        }
    }
    Ok(())
}
