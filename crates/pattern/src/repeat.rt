// Repeat counts.
ghost use Rattle.std.specs.Prelude.{◌≡◌};
ghost use Rattle.std.proofs.Math.Option.{none, some};
ghost use Rattle.pattern.specs.Repeats.{repeat_of};

#[derive(Clone, Copy)]
pub struct Repeat {
    pub low: u16,
    pub high: u16,
}

impl Repeat {
    // The high number that stands for no upper end. No `Option`: a table's record holds this very number beside the low one.
    pub const OPEN: u16 = 65535;

    // n
    pub fn exact(n: u16) -> Self
        ensures { result ≡ repeat_of n (some n) }
    {
        Self { low: n, high: n }
    }

    // n. and .
    pub fn open(low: u16) -> Self
        ensures { result ≡ repeat_of low none }
    {
        Self {
            low,
            high: Self::OPEN,
        }
    }

    // n.m and .m
    pub fn closed(low: u16, high: u16) -> Self
        ensures { result ≡ repeat_of low (some high) }
    {
        Self { low, high }
    }
}
