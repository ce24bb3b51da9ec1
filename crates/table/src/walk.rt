// The walk over the records and the pool that follow the header: leaves, and a cycle of three functions for patterns, atoms and groups.
// What they ask (`LeafPre`, `WalkPre`) ties the bytes to the place, so it is no fact of either.
ghost use Rattle.std.specs.Prelude.{◌≡◌, ◌<◌};
ghost use Rattle.pattern.specs.Numbers.{atom_limit};
ghost use Rattle.table.specs.Fields.{RecordIn};
ghost use Rattle.table.specs.Checked.{payload_record, ordered, a_set, codes_leaf, text_leaf, leaf};
ghost use Rattle.table.specs.Leaves.{LeafPre, LeafPost};
ghost use Rattle.table.specs.Walk.{WalkPre, AtomPost, PatternPost, GroupPost};

use super::lengths;
use crate::layout::RECORD_SIZE;
use crate::record::{Record, record_at};
use pattern::kind::Kind;
use pattern::limits::{DEPTH_LIMIT, NUMBER_LIMIT, SET_LIMIT};
use pattern::repeat::Repeat;

// The bytes of a leaf in the pool and in the source.
#[derive(Clone, Copy)]
pub struct Leaf {
    pub pool: usize,
    pub source: usize,
}

// An atom, and the bytes of the pool and of the source before it.
#[derive(Clone, Copy)]
pub struct Place {
    pub atom: usize,
    pub pool: usize,
    pub source: usize,
}

// One test after the other: joined by && and || they are all computed at each atom, and the test of a table takes an eighth longer.
#[tactic(auto, unfolding(crate::specs::Checked::ordered))]
fn is_ordered(low: u16, high: u16) -> bool
    ensures { result ≡ ordered low high }
{
    if NUMBER_LIMIT < low {
        return false;
    }
    if high == Repeat::OPEN {
        return true;
    }
    if high < low {
        return false;
    }
    high <= NUMBER_LIMIT
}

#[tactic(auto, unfolding(crate::specs::Checked::a_set))]
fn is_set(a: u16) -> bool
    ensures { result ≡ a_set a }
{
    0 < a && a < SET_LIMIT as u16
}

// The records of so many atoms, and the pool after them.
#[derive(Clone, Copy)]
pub struct Payload<'a> {
    pub bytes: &'a [u8],
    pub atoms: usize,
}

impl Payload<'_> {
    // The leaf that is codes.
    fn codes_leaf(self, a: u16, b: u16, p: usize) -> Option<Leaf>
        requires { LeafPre self.bytes.now self.atoms p }
        ensures { LeafPost self.entry.bytes.now self.entry.atoms p (codes_leaf a b) result }
    {
        if is_set(a) && b == 0 {
            Some(Leaf {
                pool: 0,
                source: lengths::letters_length(a),
            })
        } else {
            None
        }
    }

    // The leaf that is a literal.
    fn text_leaf(self, a: u16, b: u16, p: usize) -> Option<Leaf>
        requires { LeafPre self.bytes.now self.atoms p }
        ensures { LeafPost self.entry.bytes.now self.entry.atoms p (text_leaf self.entry.bytes.now self.entry.atoms a b p) result }
    {
        if a as usize != p {
            return None;
        }
        let from = RECORD_SIZE * self.atoms + p;
        let to = from + b as usize;
        if self.bytes.len() < to {
            return None;
        }
        let n = lengths::text_length(&self.bytes[from..to])?;
        Some(Leaf {
            pool: b as usize,
            source: n + 2,
        })
    }

    // The leaf that a record says, with p bytes of the pool before it.
    fn leaf_at(self, r: Record, p: usize) -> Option<Leaf>
        requires { LeafPre self.bytes.now self.atoms p }
        ensures { LeafPost self.entry.bytes.now self.entry.atoms p (leaf self.entry.bytes.now self.entry.atoms r.kind r.a r.b p) result }
    {
        match r.kind()? {
            Kind::Codes => self.codes_leaf(r.a, r.b, p),
            Kind::Literal => self.text_leaf(r.a, r.b, p),
            Kind::Group => None,
        }
    }

    // Whether atom i ends its branch: the second byte of its record, since one that is neither 0 nor 1 makes the table bad.
    fn ends_of(self, i: usize) -> u8
        requires { RecordIn self.bytes.now 0 i × (i < atom_limit) }
        ensures { result ≡ (payload_record self.entry.bytes.now i).ends }
    {
        self.bytes[RECORD_SIZE * i + 1]
    }

    // The place after a pattern that begins at a place, inside depth groups, and how many atoms it has of its own.
    #[cycle(atom_group_pattern)]
    pub fn pattern(self, at: Place, depth: usize) -> Option<(Place, usize)>
        requires { WalkPre self.bytes.now self.atoms at depth }
        ensures { PatternPost self.entry.bytes.now self.entry.atoms at depth result }
    {
        // A `loop`: how many atoms come stands in the records alone.
        let mut from = at;
        let mut before = 0;
        loop {
            let next = self.atom(from, depth)?;
            let ends = self.ends_of(from.atom);
            if ends == 1 {
                return Some((next, before + 1));
            }
            if ends != 0 {
                return None;
            }
            from = next;
            before += 1;
        }
    }

    // The place after the atom at a place.
    #[cycle(atom_group_pattern)]
    fn atom(self, at: Place, depth: usize) -> Option<Place>
        requires { WalkPre self.bytes.now self.atoms at depth }
        ensures { AtomPost self.entry.bytes.now self.entry.atoms at depth result }
    {
        if self.atoms <= at.atom {
            return None;
        }
        let r = record_at(self.bytes, 0, at.atom);
        if !is_ordered(r.low, r.high) {
            return None;
        }
        let next = Place {
            atom: at.atom + 1,
            source: at.source + lengths::count_length(r.low, r.high),
            ..at
        };
        if r.is_group() {
            if DEPTH_LIMIT <= depth {
                return None;
            }
            let inside = Place {
                source: next.source + 1,
                ..next
            };
            let end = self.group(inside, depth + 1, r.a as usize)?;
            if end.atom != r.b as usize {
                return None;
            }
            return Some(Place {
                source: end.source + 1,
                ..end
            });
        }
        let leaf = self.leaf_at(r, at.pool)?;
        Some(Place {
            pool: next.pool + leaf.pool,
            source: next.source + leaf.source,
            ..next
        })
    }

    // The place after k branches from a place on.
    #[cycle(atom_group_pattern)]
    fn group(self, at: Place, depth: usize, k: usize) -> Option<Place>
        requires { WalkPre self.bytes.now self.atoms at depth }
        ensures { GroupPost self.entry.bytes.now self.entry.atoms at depth k result }
    {
        let mut from = at;
        for i in 0..k {
            let (next, _) = self.pattern(from, depth)?;
            if i + 1 == k {
                return Some(next);
            }
            from = Place {
                source: next.source + 1,
                ..next
            };
        }
        None
    }
}
