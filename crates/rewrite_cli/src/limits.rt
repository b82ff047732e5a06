// The limits of a repository, and of the states of a run.
ghost use Rattle.std.specs.Prelude.{◌≡◌};
ghost use Rattle.rewrite_cli.specs.Limits.{limit_line};

/// How many paths a store may have.
pub const MOST_PATHS: u32 = 100_000;

/// How many files are read.
pub const MOST_FILES: usize = 10_000;

/// How many bytes all files that are read may have.
pub const MOST_IN_ALL: u64 = 67_108_864;

/// How many bytes the journal of a run may have.
pub const MOST_JOURNAL: u64 = 1_073_741_824;

/// A quantity with a limit.
#[derive(Clone, Copy, Debug, PartialEq, Eq)]
pub enum Limit {
    Paths,
    Files,
    Bytes,
    /// Bytes of all files after a step.
    StepBytes,
    /// Bytes of the journal that would be written.
    JournalBytes,
}

impl Limit {
    /// What is told where the limit is passed.
    #[tactic(auto, unfolding(crate::specs::Limits::limit_line))]
    pub fn line(self) -> &'static [u8]
        ensures { result.now ≡ limit_line self }
    {
        match self {
            Limit::Paths => b"limit: paths more than 100000\n",
            Limit::Files => b"limit: files more than 10000\n",
            Limit::Bytes => b"limit: bytes more than 67108864\n",
            Limit::StepBytes => b"limit: step bytes more than 134217728\n",
            Limit::JournalBytes => b"limit: journal bytes more than 1073741824\n",
        }
    }
}
