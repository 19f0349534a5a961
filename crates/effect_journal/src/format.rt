ghost use Rattle.std.specs.Prelude.{◌≡◌, ◌<◌, ◌^◌};
ghost use Rattle.effect_journal.specs.Journal.{format_of, longest_of};

/// A version of the text.
///
/// The second is written. The first has requests of the first version of messages.
#[derive(Clone, Copy, Debug, PartialEq, Eq)]
pub enum Version {
    /// The first.
    One,
    /// The second.
    Two,
}

impl Version {
    /// The first line, without its line feed.
    pub fn header(self) -> &'static [u8]
        ensures { result.now ≡ (format_of self).header }
    {
        match self {
            Version::One => b"ccpp journal 1",
            Version::Two => b"ccpp journal 2",
        }
    }

    /// How many bytes a request has at most.
    pub(crate) fn longest(self) -> usize
        ensures value { result ≡ longest_of self }
        ensures small { result < 2 ^ 32 }
    {
        match self {
            Version::One => 126,
            Version::Two => 53_271,
        }
    }
}
