// What was walked before, by the set of nodes that was still possible: a slot holds the set, the field walked from and the place.
ghost use Rattle.std.specs.Prelude.{◌≡◌, ◌≤◌, ◌<◌, set, Some, IfSome};
ghost use Rattle.answer.specs.Fields.{fields};
ghost use Rattle.diagram.specs.Layout.{most_places};
ghost use Rattle.building.specs.Walked.{Slot};

use diagram::MOST_PLACES;
use sets::Set;

// How many slots there are: a prime number, so that every place of a set's words counts.
pub(crate) const SEEN: usize = 701;

// A set of nodes, and the place of what was walked with it.
#[derive(Clone, Copy)]
pub(crate) struct Known {
    pub nodes: Set,
    pub place: usize,
}

// A set of nodes, the field walked from with it, and the place of what was walked.
#[derive(Clone, Copy)]
pub(crate) struct Seen {
    pub nodes: Set,
    pub field: u16,
    pub place: u16,
}

// The place that the neighbour has for a set.
pub(crate) fn recall_near(near: Option<Known>, nodes: Set) -> Option<usize>
    ensures { IfSome result (λ place. near ≡ Some (record { nodes = nodes; place = place })) }
{
    let known = near?;
    if known.nodes == nodes {
        Some(known.place)
    } else {
        None
    }
}

// The slot of a set and a field. Any hash is correct: slots store their key. Set and field stay two parameters: the walk changes one where it
// keeps the other.
pub(crate) fn slot_of(nodes: Set, field: usize) -> usize
    requires { field ≤ fields }
    ensures { result < 701 }
{
    let low = nodes.low % SEEN as u64;
    let high = nodes.high % SEEN as u64;
    (3 * (low as usize) + 5 * (high as usize) + field) % SEEN
}

// The place that a slot holds of a set and a field.
pub(crate) fn recall(
    seen: &[Option<Seen>; SEEN],
    slot: usize,
    nodes: Set,
    field: usize,
) -> Option<usize>
    requires { slot < 701 }
    ensures upper_bound { IfSome result (λ place. place < most_places) }
    ensures slot { IfSome result (λ place. Slot seen.now slot nodes field place) }
{
    let held = seen[slot]?;
    let place = usize::from(held.place);
    if held.nodes == nodes && usize::from(held.field) == field && place < MOST_PLACES {
        Some(place)
    } else {
        None
    }
}

// Remembers the place of what was walked with a set from a field on.
pub(crate) fn remember(
    seen: &mut [Option<Seen>; SEEN],
    slot: usize,
    nodes: Set,
    field: usize,
    place: usize,
)
    requires { (slot < 701) × (field ≤ fields) × (place < most_places) }
    ensures { seen.new ≡ set seen.old slot (Some (record { nodes = nodes; field = field; place = place })) }
{
    seen[slot] = Some(Seen {
        nodes,
        field: field as u16,
        place: place as u16,
    });
}
