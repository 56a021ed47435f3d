// Whether a slice is a sound diagram: one pass, linear in the places used.
#![tactic(auto)]

ghost use Rattle.std.specs.Prelude.{◌≡◌, ℕ, ◌+◌, ◌*◌, ◌≤◌, ◌<◌, length};
ghost use Rattle.answer.specs.Fields.{fields};
ghost use Rattle.diagram.specs.Layout.{header, most_places, maximum, level_at, count_at, edges_at};
ghost use Rattle.diagram.specs.Sound.{SoundTerminal, SoundNode, SoundEntry, Sound};
ghost use Rattle.diagram.specs.Decided.{yes?, Decides};
ghost use Rattle.diagram.specs.SoundIsDecided.{sound?};
ghost use Rattle.soundness.specs.Pass.{Whole, EntriesMarked, Opened, Unmarked};

pub mod checked;

use answer::FIELDS;
use combining::Decision;
use diagram::layout::{edges_of, size_at};
use diagram::{HEADER, MOST_PLACES};

// A diagram that uses no more places than this is marked in a small array, which is cleared sooner.
const SMALL: usize = 2048;

// Whether no maximum is over 255.
fn maxima_sound(diagram: &[u16]) -> bool
    requires { header fields ≤ length diagram.now }
    ensures { Decides ((f : ℕ) → f < fields → maximum diagram.now f ≤ 255) result }
{
    diagram[2..HEADER].iter().all(|maximum| *maximum <= 255)
}

// Whether the entry at a place, which begins with 0, is a sound terminal.
fn terminal_sound(diagram: &[u16], place: usize) -> bool
    requires place_value { level_at diagram.now place ≡ 0 }
    requires place_lt_most_places { (place < most_places) × (place + 3 + count_at diagram.now place ≤ length diagram.now) }
    ensures { Decides (SoundTerminal diagram.now place) result }
{
    let count = usize::from(diagram[place + 2]);
    if u16::from(Decision::INDETERMINATE) < diagram[place + 1] || 127 < count {
        return false;
    }
    let cards = &diagram[place + 3..place + 3 + count];
    !cards.contains(&0)
}

// Whether the entry at a place, which does not begin with 0, is a sound node. An edge may not end before `from`. A child is checked by one read of its mark; a place that is no earlier has none, which is 0.
fn node_sound(diagram: &[u16], place: usize, marks: &[u8]) -> bool
    requires bound { (1 ≤ level_at diagram.now place) × (header fields ≤ length diagram.now) }
    requires place_lt_most_places { (place < most_places) × (place + 2 + 2 * edges_at diagram.now place ≤ length diagram.now) }
    requires entries_marked { EntriesMarked diagram.now place marks.now }
    ensures { Decides (SoundNode fields diagram.now place) result }
{
    let level = usize::from(diagram[place]);
    if FIELDS < level {
        return false;
    }
    let below = if level < FIELDS { level as u8 + 2 } else { 1 };
    let passed = &marks[..place];
    let mut from = 0;
    for [last, child] in edges_of(diagram, place) {
        let last = usize::from(*last);
        let mark = passed.get(usize::from(*child)).copied().unwrap_or(0);
        if last < from || mark != below {
            return false;
        }
        from = last + 1;
    }
    from == usize::from(diagram[1 + level]) + 1
}

// Whether the entry at a place is sound.
fn entry_sound(diagram: &[u16], place: usize, marks: &[u8]) -> bool
    requires whole { Whole diagram.now place }
    requires entries_marked { EntriesMarked diagram.now place marks.now }
    ensures { Decides (SoundEntry fields diagram.now place) result }
{
    if diagram[place] == 0 {
        terminal_sound(diagram, place)
    } else {
        node_sound(diagram, place, marks)
    }
}

// Whether sound entries tile the used places and the root place starts one of level 1. One pass: where an entry starts, a mark of one more than its level is left, so that no entry is searched for again. A mark is a byte, 0 for none: an `Option` of one would double what the marks take of the stack.
fn entries_sound(diagram: &[u16], marks: &mut [u8]) -> bool
    requires opened { Opened diagram.now }
    requires unmarked { Unmarked diagram.now marks.old }
    ensures { Decides (Sound fields diagram.now) result }
{
    let end = usize::from(diagram[0]);
    let mut place = HEADER;
    // Entries differ in size, so no library form goes from one to the next.
    while place < end {
        let size = size_at(diagram, place);
        if end < place + size {
            return false;
        }
        if !entry_sound(diagram, place, marks) {
            return false;
        }
        marks[place] = diagram[place] as u8 + 1;
        place += size;
    }
    let root = usize::from(diagram[1]);
    root < end && marks[root] == 2
}

// Whether the header is as a sound diagram has it.
fn header_sound(diagram: &[u16]) -> bool
    ensures { Decides (Opened diagram.now) result }
{
    if diagram.len() < HEADER {
        return false;
    }
    let end = usize::from(diagram[0]);
    HEADER <= end && end <= diagram.len() && end <= MOST_PLACES && maxima_sound(diagram)
}

// Whether the slice is a sound diagram.
pub fn is_sound(diagram: &[u16]) -> bool
    ensures { result ≡ yes? (sound? fields diagram.now) }
{
    if !header_sound(diagram) {
        return false;
    }
    // One function over the length of the marks would be no shorter than these two lines for each.
    if usize::from(diagram[0]) <= SMALL {
        let mut marks = [0u8; SMALL];
        entries_sound(diagram, &mut marks)
    } else {
        let mut marks = [0u8; MOST_PLACES];
        entries_sound(diagram, &mut marks)
    }
}
