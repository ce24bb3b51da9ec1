// The refusals of the paper.
ghost use Rattle.std.specs.Prelude.{◌≡◌};
ghost use Rattle.pattern.specs.Refusals.{number_of};

// A refusal, by its name; its number is the discriminant.
#[derive(Clone, Copy, PartialEq, Eq)]
pub enum Refusal {
    Long = 1,
    Form = 2,
    Code = 3,
    Number = 4,
    Range = 5,
    Atoms = 6,
    Depth = 7,
    Room = 8,
    Answer = 9,
    Table = 11,
    Label = 12,
    Work = 13,
    Parts = 14,
    Budget = 15,
    Batch = 16,
    Full = 17,
    Register = 18,
    Missing = 19,
}

// A refusal and its position.
#[derive(Clone, Copy)]
pub struct Fault {
    pub refusal: Refusal,
    pub position: usize,
}

impl Refusal {
    // The refusal with its position.
    pub fn at(self, position: usize) -> Fault
        ensures { result ≡ record { refusal = self; position = position } }
    {
        Fault {
            refusal: self,
            position,
        }
    }
}

impl From<Refusal> for u32 {
    // The number of a refusal.
    ghost from_gives = { λ r n. n ≡ number_of r };

    fn from(refusal: Refusal) -> u32 {
        refusal as u32
    }
}
