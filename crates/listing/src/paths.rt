// From one path of a diagram to the next, in rising order.
ghost use Rattle.std.specs.Prelude.{◌≡◌, ◌≤◌, take, drop, IfSome};
ghost use Rattle.answer.specs.Fields.{fields};
ghost use Rattle.answer.specs.Requests.{Within};
ghost use Rattle.diagram.specs.Layout.{used, maximum};
ghost use Rattle.diagram.specs.Sound.{EntryBefore, next_level};
ghost use Rattle.listing.specs.Paths.{after, request_of, next_from, next_of, Later};

use crate::lines::first_of;
use answer::FIELDS;
use diagram::layout::edges_of;
use lookup::edge_of;
use soundness::checked::SoundDiagram;

// The first request after the path from the place of a field on, with the values before that field as they are.
fn next_from(
    diagram: SoundDiagram,
    place: usize,
    values: [u16; FIELDS],
    field: usize,
) -> Option<[u16; FIELDS]>
    requires within { Within (maximum diagram.numbers.now) values }
    requires entry_before { EntryBefore fields diagram.numbers.now (used diagram.numbers.now) (next_level fields field) place × (field ≤ fields) }
    ensures { result ≡ request_of (take field values) (next_from diagram.entry.numbers.now place (drop field values)) }
{
    if field == FIELDS {
        return None;
    }
    let numbers = diagram.numbers;
    let edge = edge_of(numbers, place, values[field]);
    let edges = edges_of(numbers, place);
    let child = usize::from(edges[edge][1]);
    let below = next_from(diagram, child, values, field + 1);
    if below.is_some() {
        return below;
    }
    if edge + 1 < edges.len() {
        let mut next = values;
        next[field] = first_of(numbers, place, edge + 1) as u16;
        next[field + 1..].fill(0);
        return Some(next);
    }
    None
}

// The first request after the path that the values take in a sound diagram.
pub fn next(diagram: SoundDiagram, values: [u16; FIELDS]) -> Option<[u16; FIELDS]>
    requires { Within (maximum diagram.numbers.now) values }
    ensures value { after result ≡ next_of diagram.entry.numbers.now values }
    ensures later { IfSome result (λ next. Later diagram.entry.numbers.now values next) }
{
    next_from(diagram, usize::from(diagram.numbers[1]), values, 0)
}
