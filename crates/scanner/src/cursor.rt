// A place in the source, by value. Each method answers the byte or digit read there beside the advanced cursor; a quote, parenthesis
// or comma is a case of its own. A case in which nothing was read carries nothing. The source stands beside it, so a place is within it by a clause.
ghost use Rattle.std.specs.Prelude.{◌≡◌};
ghost use Rattle.std.specs.Int.{from_bool};
ghost use Rattle.scanner.specs.Places.{is_plain, ends_at, BytePost, DigitPost, PointPost, ClassPost, SeparatorPost};
ghost use Rattle.scanner.specs.Bodies.{TextPost};

#[derive(Clone, Copy)]
pub struct Cursor {
    pub at: usize,
}

// With what a body begins, or goes on if it is of letters. It has four cases, so it is no `Option`.
#[derive(Clone, Copy)]
pub enum Class {
    Letter(u8, Cursor),
    Quote(Cursor),
    Opening(Cursor),
    Other,
}

// With what a branch ends. It has three cases, so it is no `Option`.
#[derive(Clone, Copy)]
pub enum Separator {
    Comma(Cursor),
    Closing(Cursor),
    Other,
}

// Inside a literal: a byte of its value, a quote inside undoubled; its end; or neither. It has three cases, so it is no `Option`.
#[derive(Clone, Copy)]
pub enum Text {
    Byte(u8, Cursor),
    End(Cursor),
    Broken,
}

// A byte other than a quote that may stand in a literal. Comparisons by hand: with `is_ascii_graphic` a literal takes 6 % more instructions.
fn is_plain(b: u8) -> bool
    ensures { result ≡ is_plain b }
{
    b != b'"' && (b' ' <= b && b <= b'~')
}

impl Cursor {
    fn byte(self, s: &[u8]) -> Option<(u8, Cursor)>
        ensures { BytePost s.now self.at result }
    {
        let b = *s.get(self.at)?;
        Some((b, Cursor { at: self.at + 1 }))
    }

    pub fn digit(self, s: &[u8]) -> Option<(u16, Cursor)>
        ensures { DigitPost s.now self.at result }
    {
        let (b, next) = self.byte(s)?;
        if b.is_ascii_digit() {
            Some((u16::from(b - b'0'), next))
        } else {
            None
        }
    }

    pub fn point(self, s: &[u8]) -> Option<Cursor>
        ensures { PointPost s.now self.at result }
    {
        let (b, next) = self.byte(s)?;
        (b == b'.').then_some(next)
    }

    pub fn class(self, s: &[u8]) -> Class
        ensures { ClassPost s.now self.at result }
    {
        let Some((b, next)) = self.byte(s) else {
            return Class::Other;
        };
        match b {
            // Letters first: most bytes that are read here are letters.
            _ if b.is_ascii_alphabetic() => Class::Letter(b, next),
            b'"' => Class::Quote(next),
            b'(' => Class::Opening(next),
            _ => Class::Other,
        }
    }

    pub fn separator(self, s: &[u8]) -> Separator
        ensures { SeparatorPost s.now self.at result }
    {
        let Some((b, next)) = self.byte(s) else {
            return Separator::Other;
        };
        match b {
            b',' => Separator::Comma(next),
            b')' => Separator::Closing(next),
            _ => Separator::Other,
        }
    }

    pub fn text(self, s: &[u8]) -> Text
        ensures { TextPost s.now self.at result }
    {
        let Some((b, next)) = self.byte(s) else {
            return Text::Broken;
        };
        if is_plain(b) {
            return Text::Byte(b, next);
        }
        if b != b'"' {
            return Text::Broken;
        }
        match next.byte(s) {
            Some((b'"', after)) => Text::Byte(b'"', after),
            _ => Text::End(next),
        }
    }
}

// Whether no atom begins at the cursor: then the atom before it ends its branch.
pub fn ends_at(s: &[u8], at: Cursor) -> bool
    ensures { from_bool result ≡ ends_at s.now at.at }
{
    let Some((b, _)) = at.byte(s) else {
        return true;
    };
    !b.is_ascii_digit() && b != b'.'
}
