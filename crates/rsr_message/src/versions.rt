ghost use Rattle.std.specs.Prelude.{◌≡◌, ◌≢◌, MatchOption};
ghost use Rattle.std.specs.Int.{byte_len};
ghost use Rattle.rsr_message.specs.Requests.{format_of};

/// A version of the format, which the second byte of a message tells.
#[derive(Clone, Copy, Debug, PartialEq, Eq)]
pub enum Version {
    /// The first: a list has up to 8 values.
    One,
    /// The second, which is written: a list has up to 4,096 values.
    Two,
}

impl Version {
    ghost use Rattle.rsr_message.specs.declared.versions.Version.{Version};

    /// The second byte of its messages.
    pub(crate) fn byte(self) -> u8
        ensures { result ≡ (format_of self).version }
    {
        match self {
            Version::One => 1,
            Version::Two => 2,
        }
    }

    /// The version of the messages with this second byte, and `None` exactly where there are none.
    pub(crate) fn of_byte(byte: u8) -> Option<Version>
        ensures { MatchOption result ((version : Version) → byte ≢ (format_of version).version) (λ version. byte ≡ (format_of version).version) }
    {
        match byte {
            1 => Some(Version::One),
            2 => Some(Version::Two),
            _ => None,
        }
    }

    /// How many bytes the number of a list's values has.
    pub(crate) fn count_len(self) -> usize
        ensures { result ≡ byte_len (format_of self).count }
    {
        match self {
            Version::One => 1,
            Version::Two => 2,
        }
    }
}
