// The lines of a listing.
ghost use Rattle.std.specs.Prelude.{◌≡◌, ℕ, ◌+◌, ◌*◌, ◌≤◌, ◌<◌, take, drop, length, slice_index_or};
ghost use Rattle.answer.specs.Fields.{fields};
ghost use Rattle.answer.specs.Requests.{Within};
ghost use Rattle.diagram.specs.Layout.{header, most_places, maximum, edges_at, count_at};
ghost use Rattle.diagram.specs.Landed.{Landed};
ghost use Rattle.listing.specs.Text.{ranges, refused_line, most_line};
ghost use Rattle.listing.specs.Written.{HasRoom, Puts};
ghost use Rattle.listing.specs.Paths.{first_at, path_of, line_of, first_line};

use crate::text::Text;
use answer::FIELDS;
use diagram::layout::edges_of;
use lookup::edge_of;
use soundness::checked::SoundDiagram;

// Writes the first line, the maxima. Room for a line is a clause and no invariant of a text, since each line uses room up.
pub fn fields_line(diagram: &[u16], text: &mut Text)
    requires fields_in_bounds { header fields ≤ length diagram.now }
    requires line_fits { text.old.end + most_line ≤ length text.old.bytes.now }
    ensures puts { Puts text.old text.new (first_line diagram.now) }
    ensures upper_bound { text.new.end ≤ text.old.end + most_line }
{
    text.put_all(b"fields");
    text.put_items(&diagram[2..2 + FIELDS]);
    text.end_line();
}

// Writes the only line of a refusal, by its number, as C reads it in an answer.
pub fn refused_line(number: u8, place: usize, text: &mut Text)
    requires { text.old.end + most_line ≤ length text.old.bytes.now }
    ensures puts { Puts text.old text.new (refused_line number place) }
    ensures upper_bound { text.new.end ≤ text.old.end + most_line }
{
    text.put_all(b"refused ");
    text.put_decimal(usize::from(number));
    text.put_all(b" at ");
    text.put_decimal(place);
    text.end_line();
}

// The first value of an edge of the node at a place.
pub(crate) fn first_of(diagram: &[u16], place: usize, edge: usize) -> usize
    requires { (place < most_places) × (edge < edges_at diagram.now place) × (place + 2 + 2 * edges_at diagram.now place ≤ length diagram.now) }
    ensures { (result ≡ first_at diagram.now place edge) × (result ≤ 65536) }
{
    if edge == 0 {
        return 0;
    }
    usize::from(edges_of(diagram, place)[edge - 1][0]) + 1
}

// Writes the ranges of the path that the values take, each with a space after it. Returns the place of the terminal.
fn put_path(diagram: SoundDiagram, values: [u16; FIELDS], text: &mut Text) -> usize
    requires within { Within (maximum diagram.numbers.now) values }
    requires room_for { HasRoom text.old (ranges (path_of diagram.numbers.now values)) }
    ensures landed { Landed diagram.entry.numbers.now values result }
    ensures puts { Puts text.old text.new (ranges (path_of diagram.entry.numbers.now values)) }
{
    let numbers = diagram.numbers;
    let mut place = usize::from(numbers[1]);
    for value in values {
        let edge = edge_of(numbers, place, value);
        let low = first_of(numbers, place, edge);
        let [last, child] = edges_of(numbers, place)[edge];
        text.put_range(low, usize::from(last));
        text.put(b' ');
        place = usize::from(child);
    }
    place
}

// The cards of the terminal at a place, numbers of 16 bits.
fn cards_of(diagram: &[u16], place: usize) -> &[u16]
    requires { (place < most_places) × (place + 3 + count_at diagram.now place ≤ length diagram.now) }
    ensures cards { result.now ≡ take (count_at diagram.now place) (drop (place + 3) diagram.now) }
    ensures small { (i : ℕ) → slice_index_or result.now i 0 < 65536 }
{
    let from = place + 3;
    let to = from + usize::from(diagram[place + 2]);
    &diagram[from..to]
}

// Writes the line of the path that the values take in a sound diagram.
pub fn line(diagram: SoundDiagram, values: [u16; FIELDS], text: &mut Text)
    requires within { Within (maximum diagram.numbers.now) values }
    requires line_fits { text.old.end + most_line ≤ length text.old.bytes.now }
    ensures puts { Puts text.old text.new (line_of diagram.entry.numbers.now values) }
    ensures upper_bound { text.new.end ≤ text.old.end + most_line }
{
    let numbers = diagram.numbers;
    let place = put_path(diagram, values, text);
    let cards = cards_of(numbers, place);
    text.put_decision(numbers[place + 1] as u8);
    text.put_items(cards);
    text.end_line();
}
