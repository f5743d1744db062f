//! What a core gives a proxy, once it is written to a buffer.

ghost use Rattle.std.specs.Prelude.{◌≡◌};
ghost use Rattle.archcaraway_c.specs.Given.{given_kind, given_version, given_length};

/// What a proxy is given.
#[derive(Clone, Copy, Debug, PartialEq, Eq)]
pub enum Given {
    /// No answer is owed.
    Nothing,
    /// The reply of this version, whose frame has this length.
    Reply(i64, usize),
    /// No reply will come to the batch of this version.
    Never(i64),
    /// The batch of this version was still held at the end.
    Held(i64),
}

impl Given {
    /// Returns the number of the kind, by which C sees it.
    pub fn kind(&self) -> i32
        ensures kind { result ≡ given_kind self.now }
    {
        match self {
            Given::Nothing => 0,
            Given::Reply(_, _) => 1,
            Given::Never(_) => 2,
            Given::Held(_) => 3,
        }
    }

    /// Returns the version of the batch that is answered, or -1.
    pub fn version(&self) -> i64
        ensures version { result ≡ given_version self.now }
    {
        match self {
            Given::Nothing => -1,
            Given::Reply(version, _) | Given::Never(version) | Given::Held(version) => *version,
        }
    }

    /// Returns how many bytes were written.
    pub fn length(&self) -> usize
        ensures length { result ≡ given_length self.now }
    {
        match self {
            Given::Reply(_, length) => *length,
            _ => 0,
        }
    }
}
