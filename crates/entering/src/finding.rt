// Where an entry stands: an equal one is found wherever it is, by the index, or by comparing at all places where entries start.
ghost use Rattle.std.specs.Prelude.{◌≡◌, List, ℕ, ◌+◌, ◌≤◌, ◌<◌, length, IfSome, unwrap_or};
ghost use Rattle.answer.specs.Fields.{fields};
ghost use Rattle.diagram.specs.Layout.{header};
ghost use Rattle.diagram.specs.Walk.{Entries, enter};
ghost use Rattle.entering.specs.Index.{slots, hashed, equal_at, noted, FoundWithin, Finding};
ghost use Rattle.entering.specs.Laid.{Laid, Room, Bounded, Settling, NewAtEnd};

use diagram::layout::size_at;
use diagram::{HEADER, MOST_PLACES};

// How many slots the index has, and how many of them are tried for an entry.
pub const SLOTS: usize = 8192;

const TRIES: usize = 32;

// The index of a diagram's entries: the place after the last one, and slots that hold places of entries. 0 in a slot holds none:
// an Option would take twice the room, which is cleared at each build. No map, since the library has no heap. That a diagram has room from
// `end` on is a fact about both, so it is in no type.
#[derive(Drop)]
pub struct Index {
    pub end: usize,
    pub slots: [u16; SLOTS],
}

// The place of the first entry before `end` that is equal, by comparing with each.
fn scan(diagram: &[u16], end: usize, entry: &[u16]) -> Option<usize>
    requires { Room (length diagram.now) end }
    ensures upper_bound { IfSome result (λ place. place < end) }
    ensures value { (es : Entries) (index : List ℕ) → Laid es diagram.now index end → unwrap_or result end ≡ (enter (header fields) es entry.now).place }
{
    let mut place = HEADER;
    // A `while`: each step is as long as the entry that stands there.
    while place < end {
        let size = size_at(diagram, place);
        if end - place < size {
            return None;
        }
        let next = place + size;
        if &diagram[place..next] == entry {
            return Some(place);
        }
        place = next;
    }
    None
}

// A number made from those of an entry.
fn hash(entry: &[u16]) -> usize
    ensures { (result ≡ hashed 0 entry.now) × (result < 65536) }
{
    let mut h: usize = 0;
    for x in entry {
        h = (h * 40503 + usize::from(*x)) % 65536;
    }
    h
}

// Whether what starts at a place, and ends before `end`, is equal.
fn equal_at(diagram: &[u16], end: usize, place: usize, entry: &[u16]) -> bool
    requires { Room (length diagram.now) end }
    ensures { result ≡ equal_at diagram.now end place entry.now }
{
    if end <= place {
        return false;
    }
    let size = size_at(diagram, place);
    if end - place < size {
        return false;
    }
    &diagram[place..place + size] == entry
}

// What the search for an entry gives: the place of an equal one, or that there is none, with the slot for a new one, if one is free.
#[derive(Clone, Copy)]
enum Found {
    Equal(usize),
    Absent(Option<usize>),
}

impl Index {
    // Searches for an equal entry: a slot holds its place, or all entries are compared.
    fn find(&self, diagram: &[u16], entry: &[u16]) -> Found
        requires { Room (length diagram.now) self.now.end }
        ensures within { FoundWithin self.now.end result }
        ensures finding { (es : Entries) → Laid es diagram.now self.now.slots self.now.end → Finding es self.now.slots self.now.end entry.now result }
    {
        let hash = hash(entry);
        for tried in 0..TRIES {
            let slot = (hash + tried) % SLOTS;
            let place = usize::from(self.slots[slot]);
            if place == 0 {
                return Found::Absent(Some(slot));
            }
            if equal_at(diagram, self.end, place, entry) {
                return Found::Equal(place);
            }
        }
        match scan(diagram, self.end, entry) {
            Some(place) => Found::Equal(place),
            None => Found::Absent(None),
        }
    }

    // Notes a place in a slot, where there is one.
    fn note(&mut self, slot: Option<usize>, place: u16)
        requires { IfSome slot (λ s. s < slots) }
        ensures { (self.new.slots ≡ noted slot self.old.slots place) × (self.new.end ≡ self.old.end) }
    {
        if let Some(slot) = slot {
            self.slots[slot] = place;
        }
    }

    // Where an entry stands, or is to stand after the last one, if there is room: it is then noted.
    pub(crate) fn settle(&mut self, diagram: &[u16], entry: &[u16]) -> Option<usize>
        requires { Room (length diagram.now) self.old.end × ((1 ≤ length entry.now) × (length entry.now ≤ 514)) }
        ensures bounded { Bounded diagram.now self.old.slots self.old.end diagram.now self.new.slots self.new.end result }
        ensures place_value { NewAtEnd self.old.end (length entry.now) self.new.end result }
        ensures settling { (es : Entries) → Laid es diagram.now self.old.slots self.old.end → Settling (enter (header fields) es entry.now) (length diagram.now) self.new.slots self.new.end result }
    {
        match self.find(diagram, entry) {
            Found::Equal(place) => Some(place),
            Found::Absent(slot) => {
                let place = self.end;
                let next = place + entry.len();
                if MOST_PLACES < next {
                    return None;
                }
                if diagram.len() < next {
                    return None;
                }
                self.note(slot, place as u16);
                self.end = next;
                Some(place)
            }
        }
    }
}
