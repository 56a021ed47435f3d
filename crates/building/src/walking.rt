// The walk: all subjects upward, within each all resources, within each all actions. What has the same set of nodes left is walked once.
ghost use Rattle.std.specs.Prelude.{◌≡◌, ◌≤◌, ◌<◌, length, IfSome};
ghost use Rattle.answer.specs.Fields.{fields};
ghost use Rattle.answer.specs.Answers.{zeros};
ghost use Rattle.sets.specs.Sets.{has};
ghost use Rattle.ruling.specs.Meaning.{meaning};
ghost use Rattle.targets.specs.Closed.{Closed};
ghost use Rattle.applying.specs.Filled.{Filled};
ghost use Rattle.diagram.specs.Layout.{header, most_places};
ghost use Rattle.diagram.specs.Entries.{terminal};
ghost use Rattle.diagram.specs.Walk.{Entries, enter};
ghost use Rattle.entering.specs.Laid.{Laid, Room, Bounded, Standing};
ghost use Rattle.entering.specs.Edges.{EdgesKept};
ghost use Rattle.entering.specs.Walking.{Held, Walks};
ghost use Rattle.building.specs.Walked.{walk_by, Remembers, RemembersNear, AllWalked};

use crate::remembering::{Known, SEEN, Seen, recall, recall_near, remember, slot_of};
use answer::FIELDS;
use applying::{Run, VALUES, fill, run_end, set_at};
use deciding::rule_set;
use diagram::HEADER;
use encoding::layout::maximum_at;
use entering::edges::Edges;
use entering::writing::MOST_CARDS;
use entering::{Index, SLOTS};
use sets::Set;
use table::Table;

// What a walk keeps beside the diagram: the index of the entries, what was walked before, and the open edges of each level.
#[derive(Drop)]
struct Memory {
    index: Index,
    seen: [Option<Seen>; SEEN],
    edges: [Edges; FIELDS],
}

// What was walked: the place after the last entry, and the place of the root.
#[derive(Clone, Copy)]
pub(crate) struct Root {
    pub end: usize,
    pub place: usize,
}

// Enters the terminal of what the groups give where the nodes of a set apply.
fn enter_ruling(
    table: Table,
    applying: Set,
    diagram: &mut [u16],
    index: &mut Index,
) -> Option<usize>
    requires closed { Closed table.bytes.now (has applying) }
    requires room { Room (length diagram.old) index.old.end }
    ensures bounded { Bounded diagram.old index.old.slots index.old.end diagram.new index.new.slots index.new.end result }
    ensures standing { (es : Entries) → Laid es diagram.old index.old.slots index.old.end → Standing (enter (header fields) es (terminal (meaning (has applying) table.entry.bytes.now))) (length diagram.old) diagram.new index.new.slots index.new.end result }
{
    let mut cards = [0u16; MOST_CARDS];
    let ruled = rule_set(table, applying, &mut cards);
    let count = ruled.count;
    index.enter_terminal(diagram, ruled.decision, &cards[..count])
}

// Walks the fields from one on, unless that was done with the same set: by the neighbour before, or remembered from earlier.
#[cycle(walk_walk_once)]
fn walk_once(
    table: Table,
    sets: &[[Run; VALUES]; FIELDS],
    field: usize,
    possible: Set,
    near: Option<Known>,
    diagram: &mut [u16],
    memory: &mut Memory,
) -> Option<usize>
    requires filled { Filled table.bytes.now sets.now × Closed table.bytes.now (has possible) }
    requires room { Room (length diagram.old) memory.old.index.end × (field ≤ fields) × IfSome near (λ known. known.place < most_places) }
    ensures walks { Walks (walk_by table.entry.bytes.now field (has possible)) (Held (RemembersNear table.entry.bytes.now memory.old.seen field near) diagram.old memory.old.index.slots memory.old.index.end) (Remembers table.entry.bytes.now memory.new.seen) (length diagram.old) diagram.new memory.new.index.slots memory.new.index.end result }
    ensures edges_kept { EdgesKept field memory.old.edges memory.new.edges }
{
    if let Some(place) = recall_near(near, possible) {
        return Some(place);
    }
    let slot = slot_of(possible, field);
    if let Some(place) = recall(&memory.seen, slot, possible, field) {
        return Some(place);
    }
    let place = walk(table, sets, field, possible, diagram, memory)?;
    remember(&mut memory.seen, slot, possible, field, place);
    Some(place)
}

// Walks the fields from one on, where the fields before it leave a set of nodes possible: everything under a run of values
// is entered, then the node itself.
#[cycle(walk_walk_once)]
fn walk(
    table: Table,
    sets: &[[Run; VALUES]; FIELDS],
    field: usize,
    possible: Set,
    diagram: &mut [u16],
    memory: &mut Memory,
) -> Option<usize>
    requires filled { Filled table.bytes.now sets.now × Closed table.bytes.now (has possible) }
    requires room { Room (length diagram.old) memory.old.index.end × (field ≤ fields) }
    ensures walks { Walks (walk_by table.entry.bytes.now field (has possible)) (Held (Remembers table.entry.bytes.now memory.old.seen) diagram.old memory.old.index.slots memory.old.index.end) (Remembers table.entry.bytes.now memory.new.seen) (length diagram.old) diagram.new memory.new.index.slots memory.new.index.end result }
    ensures edges_kept { EdgesKept field memory.old.edges memory.new.edges }
{
    if field == FIELDS {
        return enter_ruling(table, possible, diagram, &mut memory.index);
    }
    let most = usize::from(maximum_at(table.bytes, field));
    let mut near = None;
    memory.edges[field].clear();
    let mut value: usize = 0;
    // A `while`: each step is as long as the run of values that starts there.
    while value <= most {
        let here = possible.meet(set_at(&sets[field], value));
        let until = run_end(&sets[field], value);
        let place = walk_once(table, sets, field + 1, here, near, diagram, memory)?;
        near = Some(Known { nodes: here, place });
        memory.edges[field].extend(until as u16, place as u16);
        value = until + 1;
    }
    memory
        .index
        .enter_node(diagram, field as u16 + 1, &memory.edges[field])
}

// Walks all fields, in a cleared diagram.
pub(crate) fn walk_all(table: Table, diagram: &mut [u16]) -> Option<Root>
    requires room { Room (length diagram.old) (header fields) }
    requires diagram_value { diagram.old ≡ zeros (length diagram.old) }
    ensures { AllWalked table.entry.bytes.now (length diagram.old) diagram.new result }
{
    let run = Run {
        set: Set::empty(),
        last: 0,
    };
    let mut sets = [[run; VALUES]; FIELDS];
    fill(table, &mut sets);
    let mut memory = Memory {
        index: Index {
            end: HEADER,
            slots: [0; SLOTS],
        },
        seen: [None; SEEN],
        edges: [Edges::none(); FIELDS],
    };
    let place = walk(table, &sets, 0, Set::full(), diagram, &mut memory)?;
    Some(Root {
        end: memory.index.end,
        place,
    })
}
