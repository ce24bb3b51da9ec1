// The limits of the paper, each once.
ghost use Rattle.std.specs.Prelude.{◌≡◌};
ghost use Rattle.pattern.specs.Numbers.{source_limit, atom_limit, depth_limit, number_limit, label_limit, set_limit};

pub const SOURCE_LIMIT: usize = 2048;

pub const ATOM_LIMIT: usize = 256;

pub const DEPTH_LIMIT: usize = 8;

pub const NUMBER_LIMIT: u16 = 9999;

pub const LABEL_LIMIT: usize = 255;

// Sets of codes are below this; it is the bit of every letter other than the seven.
pub const SET_LIMIT: u8 = 128;

#[derive(Clone, Copy)]
pub struct Limits {
    pub source: usize,
    pub atoms: usize,
    pub depth: usize,
    pub number: u16,
    pub label: usize,
    pub set: u8,
}

// The constants are the paper's numbers.
pub fn all() -> Limits
    ensures { result ≡ record { source = source_limit; atoms = atom_limit; depth = depth_limit; number = number_limit; label = label_limit; set = set_limit } }
{
    Limits {
        source: SOURCE_LIMIT,
        atoms: ATOM_LIMIT,
        depth: DEPTH_LIMIT,
        number: NUMBER_LIMIT,
        label: LABEL_LIMIT,
        set: SET_LIMIT,
    }
}
