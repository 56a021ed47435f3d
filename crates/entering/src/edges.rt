// The open edges of a level.
ghost use Rattle.std.specs.Prelude.{◌≡◌, ◌+◌, ◌≤◌, ◌<◌, length};
ghost use Rattle.diagram.specs.Walk.{extend};
ghost use Rattle.entering.specs.Edges.{edges_in, edges_of, KeptPast};

// How many edges a node may have.
pub const MOST_EDGES: usize = 256;

// The last values of the open edges and the places of their children; they are the first `count`. An array of these is, by value and without a
// heap, what the requirements ask for: per level, last values and child places. How many may be open stands in clauses: `extend` asks for fewer
// than the others.
#[derive(Clone, Copy)]
pub struct Edges {
    pub last: [u16; MOST_EDGES],
    pub child: [u16; MOST_EDGES],
    pub count: usize,
}

impl Edges {
    // No edge is open.
    pub fn none() -> Edges
        ensures { result.count ≡ 0 }
    {
        Edges {
            last: [0; MOST_EDGES],
            child: [0; MOST_EDGES],
            count: 0,
        }
    }

    // Closes all edges.
    pub fn clear(&mut self)
        ensures { self.new.count ≡ 0 }
    {
        self.count = 0;
    }

    // One more value of the level, whose child is at a place: it shares the last edge where that has the same child.
    pub fn extend(&mut self, value: u16, place: u16)
        requires { self.old.count < 256 }
        ensures upper_bound { self.new.count ≤ self.old.count + 1 }
        ensures result_after { edges_of self.new ≡ extend (edges_of self.old) value place }
        ensures kept_past { KeptPast self.new.count self.old.last self.new.last × KeptPast self.new.count self.old.child self.new.child }
    {
        self.count = extend(&mut self.last, &mut self.child, self.count, value, place);
    }
}

// One more value of a level, whose child is at a place: it shares the last edge where that has the same child. How many edges there are then.
// The lists of a level may have any length, so that they are no `Edges` here.
pub fn extend(last: &mut [u16], child: &mut [u16], edges: usize, value: u16, place: u16) -> usize
    requires { (edges < length last.old) × (edges < length child.old) × (edges < 256) }
    ensures upper_bound { result ≤ edges + 1 }
    ensures result_after { edges_in last.new child.new result ≡ extend (edges_in last.old child.old edges) value place }
    ensures kept_past { KeptPast result last.old last.new × KeptPast result child.old child.new }
{
    if 0 < edges && child[edges - 1] == place {
        last[edges - 1] = value;
        return edges;
    }
    last[edges] = value;
    child[edges] = place;
    edges + 1
}
