// What every step of a match counts its trials by.
ghost use Rattle.std.specs.Prelude.{◌≤◌};

// The most trials that a match may make, and those made so far.
#[derive(Clone, Copy)]
pub struct Budget {
    pub limit: u64,
    pub spent: u64,
    ghost within: { spent ≤ limit },
}
