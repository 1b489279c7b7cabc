//! What follows from the definitions, whatever is called: each function states a law, and does nothing.
ghost use Rattle.participants.specs.Laws.{ChosenAreMembers, ChosenComeFirst, ChosenAreMany, AllAreChosen, ChosenAreParties, LoadsRise, LoadsAreFew};

/// Those who are chosen are members of the set, as many as are wanted or all, and each of them comes before
/// every member who isn't chosen.
pub fn choosing()
    ensures members { ChosenAreMembers }
    ensures first { ChosenComeFirst }
    ensures many { ChosenAreMany }
    ensures all { AllAreChosen }
    ensures parties { ChosenAreParties }
{}

/// A new instance raises the load of each of its parties by one, and no load is above the number of instances.
pub fn counting()
    ensures rise { LoadsRise }
    ensures few { LoadsAreFew }
{}
