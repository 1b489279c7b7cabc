/// A call, by the reply that it comes to.
#[derive(Clone, Copy, Debug, PartialEq, Eq)]
pub enum Work {
    Joined,
    Repeat,
    NoKey,
    Nothing,
    Brief,
    NotTaken,
}

impl Work {
    pub const ALL: [Work; 6] = [
        Work::Joined,
        Work::Repeat,
        Work::NoKey,
        Work::Nothing,
        Work::Brief,
        Work::NotTaken,
    ];

    /// The call and its reply, as a word.
    pub fn name(self) -> &'static str {
        match self {
            Work::Joined => "join-joined",
            Work::Repeat => "deliver-repeat",
            Work::NoKey => "input-no-key",
            Work::Nothing => "take-nothing",
            Work::Brief => "brief-brief",
            Work::NotTaken => "give-back-not-taken",
        }
    }
}
