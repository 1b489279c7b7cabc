/// A line of a lane: what one of those that act in a session does next.
#[derive(Clone, Copy, Debug, PartialEq, Eq)]
pub enum Line {
    /// Party p joins.
    Join { p: u32 },
    /// Party p is lost.
    Lose { p: u32 },
    /// Party p gives all the shares and inputs that it owes.
    Send { p: u32 },
    /// Party p makes its share of an instance, which stays in hand.
    Hold { p: u32, id: u32 },
    /// The share in hand is delivered, and stays in hand.
    Give,
    /// A circuit that is ready is evaluated.
    Work,
    /// A circuit that is ready is taken and given back.
    Quit,
}
