//! What follows from the rules, whatever is called: each function states a law, and does nothing.
ghost use Rattle.session_rules.specs.Facts.{RefusalsDoNothing, NothingIsDone, CallsKeep, HistoriesKeep, PartiesArePresent, CallsLeave, HistoriesLeave, KeysStay, FirstRoundsStay, TakenStays, IssueEnds, IssueIsItsMoves, MovesAreFew, CallsLeaveRest, HistoriesLeaveRest, SharesAreWanted, ShapesAreRefused, SharesAreCountedOnce, CompleteOnesLackNone, CompleteOnesHaveAll, FewAreIssued, HistoriesIssueFew, LegalOnesGrow, NextState, BeginningsAreLegal, StatesLeadOn, LaterOnesFollow, TakenStaysOn, CompletedOnesHaveAll, RefusedOnesBeganSo};
ghost use Rattle.session_rules.specs.Allowed.{DeedsAreAllowed};
ghost use Rattle.session_rules.specs.Completions.{AnsweredOnesAreDecrypted};
ghost use Rattle.session_rules.specs.Grounds.{CallsGround, HistoriesGround, CircuitsAreWhole};

/// What is done is what the call asks for, goes with its reply, and may be done. A reply that refuses
/// goes with nothing, which leaves the state as it was.
pub fn verdicts()
    ensures allowed { DeedsAreAllowed }
    ensures refusals { RefusalsDoNothing }
    ensures nothing { NothingIsDone }
{}

/// What holds in every state that calls lead to: of each signature at most one instance is opened or
/// complete, the parties that an opened one waits for are present, a second round has its first one,
/// and the instances are numbered from 1 on.
pub fn invariants()
    ensures calls { CallsKeep }
    ensures histories { HistoriesKeep }
    ensures present { PartiesArePresent }
{}

/// What no call changes: an instance's number, signature, parties and attempt. What is void, given,
/// refused or answered stays so, an evaluated circuit stays so or is answered, and what is complete stays so,
/// but for a first round without a complete second one. A circuit that is taken is its caller's.
pub fn constancy()
    ensures calls { CallsLeave }
    ensures histories { HistoriesLeave }
    ensures keys { KeysStay }
    ensures first_rounds { FirstRoundsStay }
    ensures taken { TakenStays }
    ensures refused { RefusedOnesBeganSo }
{}

/// Issuing ends after few moves, and does them one after the other. So where the threshold isn't 0, in
/// every state that calls lead to nothing is left to be issued or given up.
pub fn issuing()
    ensures ends { IssueEnds }
    ensures moves { IssueIsItsMoves }
    ensures few { MovesAreFew }
    ensures calls { CallsLeaveRest }
    ensures histories { HistoriesLeaveRest }
{}

/// Each share of an instance that isn't void is counted once, where it has the right length; those who
/// sent to a complete one are exactly its parties, and stay so. Each circuit that is answered has a
/// complete decryption.
pub fn shares()
    ensures wanted { SharesAreWanted }
    ensures shape { ShapesAreRefused }
    ensures once { SharesAreCountedOnce }
    ensures complete { CompleteOnesLackNone }
    ensures all { CompleteOnesHaveAll }
    ensures completed { CompletedOnesHaveAll }
    ensures decrypted { AnsweredOnesAreDecrypted }
{}

/// A legal history goes on by any call with the reply that it has to have, each of its beginnings is
/// legal, and what never changes stays to its end. Few instances are issued in it.
pub fn histories()
    ensures grow { LegalOnesGrow }
    ensures next { NextState }
    ensures beginnings { BeginningsAreLegal }
    ensures states { StatesLeadOn }
    ensures later { LaterOnesFollow }
    ensures taken { TakenStaysOn }
    ensures call_issues_few { FewAreIssued }
    ensures few { HistoriesIssueFew }
{}

/// A circuit that is taken, evaluated or answered has its inputs and its keys, and there is a public key
/// where an input is given: so it is where the circuits begin idle or refused and the rotations are those
/// of the admitted ones, as in the fixed data that is made of circuits.
pub fn grounds()
    ensures calls { CallsGround }
    ensures histories { HistoriesGround }
    ensures whole { CircuitsAreWhole }
{}
