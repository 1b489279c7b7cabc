ghost use Rattle.std.specs.Prelude.{◌≡◌, ℕ};
ghost use Rattle.helper_main.specs.Numbers.{number_of};

/// How a run of the program ended.
#[derive(Clone, Copy, PartialEq, Eq, Debug)]
pub enum Status {
    /// All was written.
    Done,
    /// The words are none that the program takes.
    Usage,
    /// The script was refused.
    Script,
    /// The source failed.
    Read,
    /// The sink failed.
    Write,
    /// Memory was wanting.
    Memory,
}

impl Status {
    /// The number that the program ends with.
    pub fn number(self) -> u8
        ensures { result ≡ number_of self }
    {
        match self {
            Status::Done => 0,
            Status::Usage => 2,
            Status::Script => 3,
            Status::Read => 4,
            Status::Write => 5,
            Status::Memory => 6,
        }
    }
}
