ghost use Rattle.std.specs.Prelude.{◌≡◌, [], ◌∷◌, Option, Some, IfOk, OnOk, IfErr};
ghost use Rattle.session_rules.specs.declared.line.Line.TheVariants.{Hold, Give};
ghost use Rattle.session_rules.specs.Tasks.{Held};
ghost use Rattle.session_rules.specs.Courses.{joins, lane_tasks};
ghost use Rattle.session_core.specs.Sessions.{IsParty};
ghost use Rattle.lane_workers.specs.Acting.{Acts, AreParties, IsLine, IsLane};
ghost use Rattle.lane_workers.specs.Desks.{known_of, rules_of, state_seen};
ghost use Rattle.lane_workers.specs.Hands.{in_hand, IsHeld, HandFits};
ghost use Rattle.lane_workers.specs.Doing.{Did, BrokeOff, Going, CutOff, DidLine, StoppedLine, Followed, loses, quits, line_left, at_end};

use crate::desk::Desk;
use crate::holding::Holding;
use crate::sending::{bring_share, send};
use crate::working::work;
use mod_ring::Ring;
use party_roll::Party;
use session_core::{Briefing, Stop, Taking};
use session_script::Line;
use std::alloc::Global;

/// The party with a number.
fn party_of<'a, D: Desk, P: Party>(_desk: &D, parties: &'a [P], p: u32) -> &'a P
    requires parties { AreParties P.Party (known_of (D.view _desk.now)) parties.now }
    requires party { IsParty (known_of (D.view _desk.now)).params.parties p }
    ensures acts { Acts P.Party (known_of (D.view _desk.now)) result.now }
    ensures number { P.number result.now ≡ p }
{
    &parties[p as usize - 1]
}

/// Has a party join.
fn join<D: Desk>(alloc: Global, desk: &mut D, p: u32) -> Result<(), Stop>
    requires party { IsParty (known_of (D.view desk.old)).params.parties p }
    ensures same { (D.view desk.new).fixed ≡ (D.view desk.old).fixed }
    ensures done { OnOk result (Did (joins p ∷ []) (D.view desk.old) (D.view desk.new)) }
    ensures stopped { IfErr result (BrokeOff (joins p ∷ []) (D.view desk.old) (D.view desk.new)) }
{
    desk.join(alloc, p)?;
    Ok(())
}

/// Has a party leave.
fn lose<D: Desk>(alloc: Global, desk: &mut D, p: u32) -> Result<(), Stop>
    requires party { IsParty (known_of (D.view desk.old)).params.parties p }
    ensures same { (D.view desk.new).fixed ≡ (D.view desk.old).fixed }
    ensures done { OnOk result (Did (loses p ∷ []) (D.view desk.old) (D.view desk.new)) }
    ensures stopped { IfErr result (BrokeOff (loses p ∷ []) (D.view desk.old) (D.view desk.new)) }
{
    desk.lose(alloc, p)?;
    Ok(())
}

/// Asks what an instance is, and takes its brief in hand for a party; nothing is in hand then where the instance is
/// void or not issued.
fn hold<D: Desk>(desk: &mut D, p: u32, id: u32) -> Result<Option<Holding>, Stop>
    requires party { IsParty (known_of (D.view desk.old)).params.parties p }
    ensures same { (D.view desk.new).fixed ≡ (D.view desk.old).fixed }
    ensures done { (hand : Option Held) → IfOk result (λ next. Going (line_left hand (Hold p id))
        (at_end (in_hand (rules_of (D.view desk.old)) next)) (D.view desk.old) (D.view desk.new)) }
    ensures fits { IfOk result (HandFits (known_of (D.view desk.new))
        (state_seen (D.view desk.new))) }
    ensures stopped { (hand : Option Held) → IfErr result (CutOff (line_left hand (Hold p id))
        (D.view desk.old) (D.view desk.new)) }
{
    let Briefing { reply: _, brief } = desk.brief(id)?;
    match brief {
        None => Ok(None),
        Some(brief) => Ok(Some(Holding { p, brief })),
    }
}

/// Makes the share of the brief that is in hand, and gives it.
fn give<D: Desk, P: Party>(
    alloc: Global,
    desk: &mut D,
    ring: &Ring,
    parties: &[P],
    holding: &Holding,
) -> Result<(), Stop>
    requires ring { ring.now.params ≡ (known_of (D.view desk.old)).params }
    requires parties { AreParties P.Party (known_of (D.view desk.old)) parties.now }
    requires holding { IsHeld (known_of (D.view desk.old)) (state_seen (D.view desk.old))
        holding.now }
    ensures same { (D.view desk.new).fixed ≡ (D.view desk.old).fixed }
    ensures done { OnOk result (DidLine Give (Some holding.now) (D.view desk.old)
        (D.view desk.new) (Some holding.now)) }
    ensures stopped { IfErr result (StoppedLine Give (Some holding.now) (D.view desk.old)
        (D.view desk.new)) }
{
    let party = party_of(desk, parties, holding.p);
    bring_share(alloc, desk, ring, party, &holding.brief)
}

/// Takes the least circuit that is ready, and gives it back.
fn quit<D: Desk>(alloc: Global, desk: &mut D) -> Result<(), Stop>
    ensures same { (D.view desk.new).fixed ≡ (D.view desk.old).fixed }
    ensures done { OnOk result (Did (quits ∷ []) (D.view desk.old) (D.view desk.new)) }
    ensures stopped { IfErr result (BrokeOff (quits ∷ []) (D.view desk.old) (D.view desk.new)) }
{
    let Taking { reply: _, job } = desk.take(alloc)?;
    match job {
        None => Ok(()),
        Some(job) => {
            desk.give_back(job.number)?;
            Ok(())
        }
    }
}

/// Does a line of a lane with what is in hand, and tells what is in hand then.
fn serve_line<D: Desk, P: Party>(
    alloc: Global,
    desk: &mut D,
    ring: &Ring,
    parties: &[P],
    line: Line,
    hand: Option<Holding>,
) -> Result<Option<Holding>, Stop>
    requires ring { ring.now.params ≡ (known_of (D.view desk.old)).params }
    requires parties { AreParties P.Party (known_of (D.view desk.old)) parties.now }
    requires line { IsLine (known_of (D.view desk.old)).params.parties line }
    requires hand { HandFits (known_of (D.view desk.old)) (state_seen (D.view desk.old)) hand }
    ensures same { (D.view desk.new).fixed ≡ (D.view desk.old).fixed }
    ensures done { IfOk result (DidLine line hand (D.view desk.old) (D.view desk.new)) }
    ensures fits { IfOk result (HandFits (known_of (D.view desk.new))
        (state_seen (D.view desk.new))) }
    ensures stopped { IfErr result (StoppedLine line hand (D.view desk.old) (D.view desk.new)) }
{
    match line {
        Line::Join { p } => {
            join(alloc, desk, p)?;
            Ok(hand)
        }
        Line::Lose { p } => {
            lose(alloc, desk, p)?;
            Ok(hand)
        }
        Line::Send { p } => {
            let party = party_of(desk, parties, p);
            send(alloc, desk, ring, party)?;
            Ok(hand)
        }
        Line::Hold { p, id } => hold(desk, p, id),
        Line::Give => match hand {
            None => Ok(None),
            Some(holding) => {
                give(alloc, desk, ring, parties, &holding)?;
                Ok(Some(holding))
            }
        },
        Line::Work => {
            work(alloc, desk, ring)?;
            Ok(hand)
        }
        Line::Quit => {
            quit(alloc, desk)?;
            Ok(hand)
        }
    }
}

/// Serves the lines of a lane one after the other, from an empty hand.
pub(crate) fn serve_lines<D: Desk, P: Party>(
    alloc: Global,
    desk: &mut D,
    ring: &Ring,
    parties: &[P],
    lane: &[Line],
) -> Result<(), Stop>
    requires ring { ring.now.params ≡ (known_of (D.view desk.old)).params }
    requires parties { AreParties P.Party (known_of (D.view desk.old)) parties.now }
    requires lane { IsLane (known_of (D.view desk.old)).params.parties lane.now }
    ensures same { (D.view desk.new).fixed ≡ (D.view desk.old).fixed }
    ensures done { OnOk result (Followed (lane_tasks lane.now) (D.view desk.old)
        (D.view desk.new)) }
    ensures stopped { IfErr result (BrokeOff (lane_tasks lane.now) (D.view desk.old)
        (D.view desk.new)) }
{
    let mut hand = None;
    'lines: for line in lane {
        hand = serve_line(alloc, desk, ring, parties, *line, hand)?;
    }
    Ok(())
}
