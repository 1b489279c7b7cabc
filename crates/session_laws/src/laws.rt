//! What holds of honest stores, call by call, and of the circuits that are admitted: each function states a law, and
//! does nothing.
ghost use Rattle.session_laws.specs.Laws.{AnswersArePlain, OutputsStay, RulesAskTheLedger};
ghost use Rattle.session_laws.specs.Laws.{OpeningIsHonest, CallsKeepHonest, SharesAreBrought, InputsAreBrought, OutputsAreBrought, HeldKeysAreKeys, CircuitsHaveTheirKeys, ReadyOnesHaveInputs};
ghost use Rattle.session_laws.specs.Beginnings.{OpeningStands};
ghost use Rattle.session_laws.specs.Constancy.{HistoriesLeadOn, InputsStay, IssuedOnesStay, KeyStays, ReadyOnesStay};
ghost use Rattle.session_laws.specs.Orders.{OrdersAreOne, RowsAreTotals};
ghost use Rattle.session_laws.specs.Turns.{ContentStandsOn};

/// The store is honest at first, and what the other laws ask for is met.
pub fn beginnings()
    ensures honest { OpeningIsHonest }
    ensures stands { OpeningStands }
{}

/// A circuit that the rules begin as admitted is admitted by the noise ledger asked with the parameters' T.
pub fn admissions()
    ensures { RulesAskTheLedger }
{}

/// The output of a circuit that is begun is the same in every later state.
pub fn constancy()
    ensures outputs { OutputsStay }
{}

/// What is defined once is the same in every longer history: the public key that is complete, the encryption of an
/// input that is given, the inputs and the output of a circuit that is ready, and of an instance that is issued, also of
/// a void one, what its shares are made from and each party's honest share.
pub fn longer_histories()
    ensures histories { HistoriesLeadOn }
    ensures key { KeyStays }
    ensures inputs { InputsStay }
    ensures ready { ReadyOnesStay }
    ensures issued { IssuedOnesStay }
{}

/// A share, an input and an output that are those of an honest party by what a caller has seen are so when its turn
/// comes.
pub fn turns()
    ensures content { ContentStandsOn }
{}

/// Sums are the totals of the shares row by row, and so the same in whichever order shares are counted.
pub fn orders()
    ensures one { OrdersAreOne }
    ensures totals { RowsAreTotals }
{}

/// Any call keeps the store honest where what is brought to its deed is; and a share, an input and an output
/// as honest parties bring them are so. It rests on the law that complete decryptions give plain values.
pub fn calls()
    ensures honest { AnswersArePlain → CallsKeepHonest }
    ensures shares { SharesAreBrought }
    ensures inputs { InputsAreBrought }
    ensures outputs { OutputsAreBrought }
{}

/// The key that is handed out is the public key, each circuit's keys are those of honest parties, and a circuit that is
/// ready has its inputs.
pub fn holdings()
    ensures key { HeldKeysAreKeys }
    ensures keys { CircuitsHaveTheirKeys }
    ensures inputs { ReadyOnesHaveInputs }
{}
