// The kinds of a record.
ghost use Rattle.std.specs.Prelude.{◌≡◌};
ghost use Rattle.pattern.specs.Kinds.{byte_of, kind_of};

// Code letters, a literal or a group; its byte is the discriminant.
#[derive(Clone, Copy, PartialEq, Eq)]
pub enum Kind {
    Codes = 1,
    Literal = 2,
    Group = 3,
}

impl Kind {
    // The kind of a byte. An `Option` and no `TryFrom`: nobody asks which byte was no kind.
    #[tactic(auto, unfolding(crate::specs::Kinds::kind_of))]
    pub fn of(byte: u8) -> Option<Kind>
        ensures { result ≡ kind_of byte }
    {
        match byte {
            1 => Some(Kind::Codes),
            2 => Some(Kind::Literal),
            3 => Some(Kind::Group),
            _ => None,
        }
    }
}

impl From<Kind> for u8 {
    // The byte of a kind.
    ghost from_gives = { λ k b. b ≡ byte_of k };

    fn from(kind: Kind) -> u8 {
        kind as u8
    }
}
