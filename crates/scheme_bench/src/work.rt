/// What is timed, once.
#[derive(Clone, Copy)]
pub enum Work {
    /// n words of the generator
    Words,
    /// n words of a tape
    TapeWords,
    /// a polynomial of uniform draws
    Uniform,
    /// one of small draws
    Small,
    /// one of wide draws
    Wide,
    /// one of ternary draws
    Ternary,
    /// the encryption of a plaintext
    Encryption,
    /// a party's share of a public key
    KeyShare,
    /// a party's share of a decryption
    DecryptionShare,
}

impl Work {
    /// All of them.
    pub const ALL: [Work; 9] = [
        Work::Words,
        Work::TapeWords,
        Work::Uniform,
        Work::Small,
        Work::Wide,
        Work::Ternary,
        Work::Encryption,
        Work::KeyShare,
        Work::DecryptionShare,
    ];

    /// The name under which its time is printed.
    pub fn name(self) -> &'static str {
        match self {
            Work::Words => "words",
            Work::TapeWords => "tape-words",
            Work::Uniform => "uniform",
            Work::Small => "small",
            Work::Wide => "wide",
            Work::Ternary => "ternary",
            Work::Encryption => "encryption",
            Work::KeyShare => "key-share",
            Work::DecryptionShare => "decryption-share",
        }
    }
}
