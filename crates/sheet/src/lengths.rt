// The versions of the format, and a length out of a sheet.
ghost use Rattle.std.specs.Prelude.{◌≡◌, false, ◌≤◌, length, MatchOption};
ghost use Rattle.record.specs.Bytes.{number_at};
ghost use Rattle.record.specs.Table.{integer_size};
ghost use Rattle.sheet.specs.Sheet.{header_size, version_of, version_known};
ghost use Rattle.sheet.specs.inside.Steps.{byte_of, width};

use byte_runs::big_endian;

// The version of a sheet, by which its lengths have their bytes.
#[derive(Clone, Copy, PartialEq, Eq)]
pub enum Version {
    One,
    Two,
}

// The lengths of version 1 are below this.
pub const LIMIT_1: usize = 65536;

impl Version {
    // The version that a sheet's first byte names, if it is known; else number 13. A sheet of no bytes counts as
    // version 1.
    pub fn of(sheet: &[u8]) -> Option<Version>
        ensures { MatchOption result (version_known (version_of sheet.now) ≡ false)
            (λ v. byte_of v ≡ version_of sheet.now) }
    {
        match sheet.first() {
            None | Some(1) => Some(Version::One),
            Some(2) => Some(Version::Two),
            Some(_) => None,
        }
    }

    pub fn byte(self) -> u8
        ensures { result ≡ byte_of self }
    {
        match self {
            Version::One => 1,
            Version::Two => 2,
        }
    }

    // The bytes of a length.
    pub fn width(self) -> usize
        ensures { (result ≡ width self) × (result ≤ integer_size) }
    {
        match self {
            Version::One => 2,
            Version::Two => 4,
        }
    }

    // The bytes of the header, a length and the version; and of an entry before its value, a length and the kind.
    pub fn header(self) -> usize
        ensures { (result ≡ header_size (width self)) × (result ≤ header_size integer_size) }
    {
        self.width() + 1
    }

    // The length that bytes begin with. In each version the width is a constant.
    pub fn length(self, bytes: &[u8]) -> usize
        requires { width self ≤ length bytes.now }
        ensures { result ≡ number_at (width self) bytes.now 0 }
    {
        let n = match self {
            Version::One => big_endian::number_at(bytes, 0, 2),
            Version::Two => big_endian::number_at(bytes, 0, 4),
        };
        n as usize
    }
}
