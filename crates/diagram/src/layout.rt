// The numbers of a slice that may end too soon.
ghost use Rattle.std.specs.Prelude.{◌≡◌, ℕ, ◌+◌, ◌*◌, ◌<◌, ◌≤◌, [], length, slice_index_or};
ghost use Rattle.diagram.specs.Layout.{most_places, number_at, edges_at, edge_at, size_at};

// The number in a place; 0 past the end.
fn number_at(diagram: &[u16], place: usize) -> u16
    ensures { result ≡ number_at diagram.now place }
{
    diagram.get(place).copied().unwrap_or(0)
}

// How many places the entry at a place takes.
pub fn size_at(diagram: &[u16], place: usize) -> usize
    requires { place ≤ most_places }
    ensures { (result ≡ size_at diagram.now place) × (result < 131073) }
{
    if number_at(diagram, place) == 0 {
        3 + usize::from(number_at(diagram, place + 2))
    } else {
        2 + 2 * usize::from(number_at(diagram, place + 1))
    }
}

// The edges of the node at a place, each with its last value and its child's place.
pub fn edges_of(diagram: &[u16], place: usize) -> &[[u16; 2]]
    requires early { place < most_places }
    requires within { place + 2 + 2 * edges_at diagram.now place ≤ length diagram.now }
    ensures count { length result.now ≡ edges_at diagram.now place }
    ensures each { (j : ℕ) → j < edges_at diagram.now place → slice_index_or result.now j [] ≡ edge_at diagram.now place j }
{
    let from = place + 2;
    let to = from + 2 * usize::from(diagram[place + 1]);
    diagram[from..to].as_chunks().0
}
