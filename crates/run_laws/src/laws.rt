//! What is done in a session, and how much: each function states a law, and does nothing.
ghost use Rattle.run_laws.specs.Lengths.{FewAreSigned, FewAreInputs, CallsAreFew, StopsAreShort, RoundsAreShort, RoundStopsAreShort, SettlingIsShort, UnsettledIsShort, CourseIsShort, CourseStopsShort, RunIsSerial, SerialRunIsLegal, SerialIsItsRun, SmallOnesAreShort};
ghost use Rattle.run_laws.specs.Alone.{RunFollows, RunIsOnly, SettlingIsOnly, SerialIsOnly};
ghost use Rattle.run_laws.specs.Taken.{TakenIsEnded, NoneIsTaken, NothingStaysTaken, TakenIsNext, StopsLeaveNone, UntakenStays, OthersTookNone, SerialTookNone, SerialTakenIsNext, SerialStopsLeaveNone};
ghost use Rattle.run_laws.specs.Following.{DroppedIsLeft, EntriesAppend, TasksAppend, TasksSplit, TasksBreak};
ghost use Rattle.run_laws.specs.Settling.{SendingGives, SendingGivesInputs, SettlingLosesNobody, SettlingEnds, SettlingAnswers, SettlingAnswersThen, SerialEnds, SerialAnswers, SerialAnswersThen};

/// What these numbers are at most for a session of circuits.
pub fn circuits()
    ensures signatures { FewAreSigned }
    ensures inputs { FewAreInputs }
{}

/// Entries that follow some tasks, and others behind them that follow more, follow both; and back: so what is
/// done is looked at task by task.
pub fn following()
    ensures dropped { DroppedIsLeft }
    ensures entries { EntriesAppend }
    ensures tasks { TasksAppend }
    ensures parts { TasksSplit }
    ensures breaks { TasksBreak }
{}

/// A run of calls that one caller makes alone follows what is to be done, with the replies that it has to have,
/// and no others do so to the end.
pub fn alone()
    ensures runs { RunFollows }
    ensures only { RunIsOnly }
    ensures settling { SettlingIsOnly }
    ensures serial { SerialIsOnly }
{}

/// A circuit that a caller has taken is still to be evaluated or given back by it, whoever else calls; so where
/// it has done all of its tasks, and where it stops and gives back the circuit that it would finish next,
/// nothing stays taken by it. The serial course leaves none, before it is settled and after.
pub fn taken()
    ensures ended { TakenIsEnded }
    ensures first { NoneIsTaken }
    ensures none { NothingStaysTaken }
    ensures next { TakenIsNext }
    ensures stops { StopsLeaveNone }
    ensures untaken { UntakenStays }
    ensures others { OthersTookNone }
    ensures serial { SerialTookNone }
    ensures serial_next { SerialTakenIsNext }
    ensures serial_stops { SerialStopsLeaveNone }
{}

/// A caller makes few calls for its tasks, whoever else calls in between, and one fewer where it stops; alone it
/// makes few in each round of settling, and in the serial course.
pub fn counts()
    ensures calls { CallsAreFew }
    ensures stops { StopsAreShort }
    ensures rounds { RoundsAreShort }
    ensures round_stops { RoundStopsAreShort }
    ensures settling { SettlingIsShort }
    ensures unsettled { UnsettledIsShort }
    ensures course { CourseIsShort }
    ensures course_stops { CourseStopsShort }
    ensures small { SmallOnesAreShort }
{}

/// So the run of the serial course, where it may make as many calls, keeps that course, and no other legal
/// history does; and it is legal.
pub fn course()
    ensures keeps { RunIsSerial }
    ensures only { SerialIsItsRun }
    ensures legal { SerialRunIsLegal }
{}

/// Who is present and sends gives each share that it owes, and each input once there is a public key.
pub fn sending()
    ensures shares { SendingGives }
    ensures inputs { SendingGivesInputs }
{}

/// Settling comes to an end: behind any legal history no instance is opened then, no circuit is ready, and those
/// that were present are; and each admitted circuit is answered, where no circuit is taken, enough parties are
/// present, and so is the owner of each input that isn't given, before it or at its end. So the serial course ends.
pub fn settling()
    ensures nobody_lost { SettlingLosesNobody }
    ensures ends { SettlingEnds }
    ensures answers { SettlingAnswers }
    ensures answers_then { SettlingAnswersThen }
    ensures serial_ends { SerialEnds }
    ensures serial_answers { SerialAnswers }
    ensures serial_answers_then { SerialAnswersThen }
{}
