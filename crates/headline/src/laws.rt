//! The headline as a law: the function states it, and does nothing.
ghost use Rattle.headline.specs.History.{HistoriesKeepIt};

/// The serial run of each accepted script keeps the headline, where no circuit rotates or multiplies two encrypted
/// values.
pub fn histories()
    ensures { HistoriesKeepIt }
{}
