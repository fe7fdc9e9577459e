//! Versions of the text.

ghost use Rattle.std.specs.Prelude.{◌≡◌, ◌≤◌, ◌*◌};
ghost use Rattle.lpis_cert.specs.Versions.{factor, first_line, greatest_in_version, has_exact};
ghost use Rattle.lpis_cert.specs.Versions.{version_named as version_named};
ghost use Rattle.lpis_cert.specs.Limits.{number_margin};
ghost use Rattle.lpis_cert.specs.private.Margins.{written_margin};

use lpis_points::LIMIT;

/// A version of the text, by its first line.
#[derive(Clone, Copy, Debug, PartialEq, Eq)]
pub(crate) enum Version {
    /// `lpis-cert 1`: coordinates in centimetres.
    One,
    /// `lpis-cert 2`: coordinates in millimetres.
    Two,
}

impl Version {
    /// The first line of such a text, without its line end.
    pub(crate) fn first_line(self) -> &'static str
        ensures { result.now ≡ first_line self }
    {
        match self {
            Version::One => "lpis-cert 1",
            Version::Two => "lpis-cert 2",
        }
    }

    /// The version that a first line names.
    pub(crate) fn named(line: &[u8]) -> Option<Version>
        ensures { result ≡ version_named line.now }
    {
        if line == Version::One.first_line().as_bytes() {
            Some(Version::One)
        } else if line == Version::Two.first_line().as_bytes() {
            Some(Version::Two)
        } else {
            None
        }
    }

    /// The greatest absolute value of a coordinate as it is written.
    pub(crate) fn greatest(self) -> u64
        ensures is { result ≡ greatest_in_version self }
        ensures small { result ≤ number_margin }
    {
        match self {
            Version::One => 2_000_000_000,
            Version::Two => LIMIT as u64,
        }
    }

    /// Whether its texts can have blocks of exact splits and merges.
    pub(crate) fn has_exact(self) -> bool
        ensures { result ≡ has_exact self }
    {
        match self {
            Version::One => false,
            Version::Two => true,
        }
    }

    /// A coordinate without its sign, in millimetres.
    pub(crate) fn scaled(self, written: u64) -> u64
        requires { written ≤ greatest_in_version self }
        ensures is { result ≡ written * factor self }
        ensures small { result ≤ written_margin }
    {
        match self {
            Version::One => written * 10,
            Version::Two => written,
        }
    }
}
