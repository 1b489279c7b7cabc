ghost use Rattle.std.specs.Prelude.{◌≡◌, ◌<◌, ◌++◌, [], false, codes, replicate, Ok, Err, IfOk, IfErr, OnOk};
ghost use Rattle.session_rules.specs.declared.line.Line.TheVariants.{Work};
ghost use Rattle.session_script.specs.Words.{texts};
ghost use Rattle.session_script.specs.declared.place.Place.TheVariants as place;
ghost use Rattle.session_script.specs.Lines.{leads};
ghost use Rattle.session_script.specs.Checks.{Follows, Leaves};
ghost use Rattle.session_script.specs.LaneLines.{lane_statement, has_line_left, lane_party, lone_party, hold_line, lone_line, lane_line, lane_end, in_lane, workers_statement};

use crate::checks::{number_at, party, unless};
use crate::lanes::{Lane, Lanes};
use crate::lines::leads;
use crate::place::{Draft, Place};
use crate::reason::{Fault, Reason};
use session_rules::Line;
use std::alloc::{AllocError, Global};

/// Whether a lane may begin, by `lane`.
#[tactic(auto, unfolding(crate::specs::LaneLines::lane_statement))]
fn may_begin(draft: &Draft, words: &[&[u8]]) -> Result<(), Reason>
    ensures ok { OnOk result (lane_statement draft.now (texts words.now) ≡ Ok (place.InLane draft.now [])) }
    ensures err { IfErr result (λ r. lane_statement draft.now (texts words.now) ≡ Err r) }
{
    unless(words.len() == 1, Reason::Word)?;
    unless(draft.lanes.len() < 8, Reason::Limit)
}

/// `lane`
pub(crate) fn lane_statement(alloc: Global, draft: Draft, words: &[&[u8]]) -> Result<Place, Reason>
    ensures { result ≡ lane_statement draft (texts words.now) }
{
    may_begin(&draft, words)?;
    let lane = Lane::new(alloc);
    Ok(Place::InLane { draft, lane })
}

/// Whether one more line of a lane may stand.
fn has_line_left(draft: &Draft) -> bool
    ensures { result ≡ has_line_left draft.now }
{
    draft.lines < 4096
}

/// A party that a line names.
fn lane_party(draft: &Draft, p: u64) -> Result<u32, Reason>
    ensures { result ≡ lane_party draft.now p }
{
    party(&draft.frame, p)
}

/// The party of `join p`, `lose p` and `send p`.
#[tactic(auto, unfolding(crate::specs::LaneLines::lone_party))]
fn lone_party(draft: &Draft, words: &[&[u8]]) -> Result<u32, Reason>
    ensures party { result ≡ lone_party draft.now (texts words.now) }
    ensures room { IfOk result (λ _. draft.now.lines < 4096) }
{
    unless(words.len() == 2, Reason::Word)?;
    let p = number_at(words, 1)?;
    unless(has_line_left(draft), Reason::Limit)?;
    lane_party(draft, p)
}

/// `hold p i`
#[tactic(auto, unfolding(crate::specs::LaneLines::hold_line))]
fn hold_line(draft: &Draft, words: &[&[u8]]) -> Result<Line, Reason>
    ensures line { result ≡ hold_line draft.now (texts words.now) }
    ensures room { IfOk result (λ _. draft.now.lines < 4096) }
{
    unless(words.len() == 3, Reason::Word)?;
    let given = number_at(words, 1)?;
    let id = number_at(words, 2)?;
    unless(has_line_left(draft), Reason::Limit)?;
    let p = lane_party(draft, given)?;
    unless(1 <= id && id < 1 << 32, Reason::Id)?;
    Ok(Line::Hold { p, id: id as u32 })
}

/// `give`, `work` and `quit`
#[tactic(auto, unfolding(crate::specs::LaneLines::lone_line))]
fn lone_line(draft: &Draft, said: Line, words: &[&[u8]]) -> Result<Line, Reason>
    ensures line { result ≡ lone_line draft.now said (texts words.now) }
    ensures room { IfOk result (λ _. draft.now.lines < 4096) }
{
    unless(words.len() == 1, Reason::Word)?;
    unless(has_line_left(draft), Reason::Limit)?;
    Ok(said)
}

/// A line of a lane.
#[tactic(auto, unfolding(crate::specs::LaneLines::lane_line))]
fn lane_line(draft: &Draft, words: &[&[u8]]) -> Result<Line, Reason>
    ensures line { result ≡ lane_line draft.now (texts words.now) }
    ensures room { IfOk result (λ _. draft.now.lines < 4096) }
{
    if leads("join", words) {
        let p = lone_party(draft, words)?;
        Ok(Line::Join { p })
    } else if leads("lose", words) {
        let p = lone_party(draft, words)?;
        Ok(Line::Lose { p })
    } else if leads("send", words) {
        let p = lone_party(draft, words)?;
        Ok(Line::Send { p })
    } else if leads("hold", words) {
        hold_line(draft, words)
    } else if leads("give", words) {
        lone_line(draft, Line::Give, words)
    } else if leads("work", words) {
        lone_line(draft, Line::Work, words)
    } else if leads("quit", words) {
        lone_line(draft, Line::Quit, words)
    } else {
        Err(Reason::Word)
    }
}

/// `end` behind the lines of a lane.
#[tactic(auto, unfolding(crate::specs::LaneLines::lane_end))]
fn lane_end(draft: &mut Draft, lane: Lane, words: &[&[u8]]) -> Result<(), Fault>
    ensures { Leaves (lane_end draft.old lane (texts words.now)) (place.Lanes draft.new) result }
{
    unless(words.len() == 1, Reason::Word)?;
    draft.lanes.push(lane)?;
    Ok(())
}

/// A line of a lane, put behind those before it.
#[tactic(auto, unfolding(crate::specs::LaneLines::in_lane))]
fn put_line(draft: &mut Draft, lane: &mut Lane, words: &[&[u8]]) -> Result<(), Fault>
    requires { leads (codes "end") (texts words.now) ≡ false }
    ensures { Leaves (in_lane draft.old lane.old (texts words.now)) (place.InLane draft.new lane.new) result }
{
    let said = lane_line(draft, words)?;
    draft.lines += 1;
    lane.push(said)?;
    Ok(())
}

/// A line in a lane.
#[tactic(auto, unfolding(crate::specs::LaneLines::in_lane))]
pub(crate) fn in_lane(draft: Draft, lane: Lane, words: &[&[u8]]) -> Result<Place, Fault>
    ensures { Follows (in_lane draft lane (texts words.now)) result }
{
    let (mut draft, mut lane) = (draft, lane);
    if leads("end", words) {
        lane_end(&mut draft, lane, words)?;
        return Ok(Place::Lanes { draft });
    }
    put_line(&mut draft, &mut lane, words)?;
    Ok(Place::InLane { draft, lane })
}

/// Puts the lanes of workers behind the others.
fn put_workers(
    alloc: Global,
    lanes: &mut Lanes,
    workers: usize,
    jobs: usize,
) -> Result<(), AllocError>
    ensures { OnOk result (lanes.new ≡ lanes.old ++ replicate workers (replicate jobs Work)) }
{
    'workers: for _ in 0..workers {
        lanes.push(Lane::of_work(alloc, jobs)?)?;
    }
    Ok(())
}

/// `workers W K`, but for the place behind it.
#[tactic(auto, unfolding(crate::specs::LaneLines::workers_statement))]
fn add_workers(alloc: Global, draft: &mut Draft, words: &[&[u8]]) -> Result<(), Fault>
    ensures { Leaves (workers_statement draft.old (texts words.now)) (place.Closing draft.new) result }
{
    unless(words.len() == 3, Reason::Word)?;
    let workers = number_at(words, 1)?;
    let jobs = number_at(words, 2)?;
    unless(workers <= 8 && jobs <= 256, Reason::Limit)?;
    put_workers(alloc, &mut draft.lanes, workers as usize, jobs as usize)?;
    Ok(())
}

/// `workers W K`
pub(crate) fn workers_statement(
    alloc: Global,
    draft: Draft,
    words: &[&[u8]],
) -> Result<Place, Fault>
    ensures { Follows (workers_statement draft (texts words.now)) result }
{
    let mut draft = draft;
    add_workers(alloc, &mut draft, words)?;
    Ok(Place::Closing { draft })
}
