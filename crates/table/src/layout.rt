// Where a table has what, and what depends on its version.
// That these are the numbers of the paper is part of the proofs of those who read and write it.
ghost use Rattle.std.specs.Prelude.{◌≡◌, ◌≤◌, length};
ghost use Rattle.pattern.specs.Numbers.{atoms_place};
ghost use Rattle.pattern.specs.Versions.{header_size};
ghost use Rattle.pattern.specs.Decode.{version_of, count_in};
ghost use Rattle.table.specs.Headers.{version_as, first_bytes, format_of};

use pattern::limits;
use stores::read16;

// The places of the version and of the atom count in the header.
const VERSION_PLACE: usize = 3;

pub const ATOMS_PLACE: usize = 5;

// The header of the version that is written.
const COUNT_WIDTH: usize = 2;

pub const LENGTH_PLACE: usize = ATOMS_PLACE + COUNT_WIDTH;

pub const HEADER_SIZE: usize = LENGTH_PLACE + 2;

pub const RECORD_SIZE: usize = 10;

// The bytes of the header that hold the atom count, and the limits: the most atoms, and the longest source.
#[derive(Clone, Copy)]
pub struct Format {
    pub width: usize,
    pub atoms: usize,
    pub source: usize,
}

#[derive(Clone, Copy, PartialEq, Eq)]
pub enum Version {
    One,
    Two,
}

impl Version {
    // That of a table: one that is not 1 is 2, if the table is good.
    pub fn of(table: &[u8]) -> Version
        requires { atoms_place ≤ length table.now }
        ensures { version_as result ≡ version_of table.now }
    {
        if read16(table, VERSION_PLACE) == 1 {
            Version::One
        } else {
            Version::Two
        }
    }

    // The mark and the 16-bit version.
    pub fn first_bytes(self) -> [u8; ATOMS_PLACE]
        ensures { result ≡ first_bytes (version_as self) }
    {
        match self {
            Version::One => *b"MPT\x01\x00",
            Version::Two => *b"MPT\x02\x00",
        }
    }

    // What the version has of its own.
    pub fn format(self) -> Format
        ensures { result ≡ format_of (version_as self) }
    {
        match self {
            Version::One => Format {
                width: 1,
                atoms: 64,
                source: 512,
            },
            Version::Two => Format {
                width: COUNT_WIDTH,
                atoms: limits::ATOM_LIMIT,
                source: limits::SOURCE_LIMIT,
            },
        }
    }

    // The atom count in the header.
    pub fn count_in(self, table: &[u8]) -> u16
        requires { header_size (version_as self) ≤ length table.now }
        ensures { result ≡ count_in (version_as self) table.now }
    {
        match self {
            Version::One => u16::from(table[ATOMS_PLACE]),
            Version::Two => read16(table, ATOMS_PLACE),
        }
    }
}
