// Entering a terminal or a node: "only if no equal entry stands; an equal one is pointed to".
// Two functions that differ in the writer alone: lent on as a closure, its contract would be longer than what they share.
ghost use Rattle.std.specs.Prelude.{◌≡◌, ◌≤◌, length};
ghost use Rattle.answer.specs.Fields.{fields};
ghost use Rattle.diagram.specs.Layout.{header};
ghost use Rattle.diagram.specs.Entries.{terminal, node};
ghost use Rattle.diagram.specs.Walk.{Entries, enter};
ghost use Rattle.entering.specs.Edges.{edges_of};
ghost use Rattle.entering.specs.Laid.{Laid, Room, Bounded, Standing};

use crate::edges::Edges;
use crate::finding::Index;
use crate::writing::{NODE, TERMINAL, write_node, write_terminal};

// The two ways of entering stay apart: each lends the rest of the diagram to its own writer, as the requirements ask, and copies nothing.
impl Index {
    // Enters a terminal: a new one is written into the part of the diagram that starts after the last entry. Where it stands, if there is room.
    pub fn enter_terminal(
        &mut self,
        diagram: &mut [u16],
        decision: u8,
        cards: &[u16],
    ) -> Option<usize>
        requires { Room (length diagram.old) self.old.end × (length cards.now ≤ 127) }
        ensures bounded { Bounded diagram.old self.old.slots self.old.end diagram.new self.new.slots self.new.end result }
        ensures standing { (es : Entries) → Laid es diagram.old self.old.slots self.old.end → Standing (enter (header fields) es (terminal (record { decision = decision; cards = cards.now }))) (length diagram.old) diagram.new self.new.slots self.new.end result }
    {
        let mut entry = [0u16; TERMINAL];
        let size = write_terminal(&mut entry, decision, cards);
        let end = self.end;
        let place = self.settle(diagram, &entry[..size])?;
        if place < end {
            return Some(place);
        }
        write_terminal(&mut diagram[end..], decision, cards);
        Some(place)
    }

    // Enters a node of some edges: a new one is written into the part of the diagram that starts after the last entry. Where it stands, if there is room.
    pub fn enter_node(&mut self, diagram: &mut [u16], level: u16, edges: &Edges) -> Option<usize>
        requires { Room (length diagram.old) self.old.end × ((1 ≤ level) × (edges.now.count ≤ 256)) }
        ensures bounded { Bounded diagram.old self.old.slots self.old.end diagram.new self.new.slots self.new.end result }
        ensures standing { (es : Entries) → Laid es diagram.old self.old.slots self.old.end → Standing (enter (header fields) es (node level (edges_of edges.now))) (length diagram.old) diagram.new self.new.slots self.new.end result }
    {
        let mut entry = [0u16; NODE];
        let size = write_node(&mut entry, level, edges);
        let end = self.end;
        let place = self.settle(diagram, &entry[..size])?;
        if place < end {
            return Some(place);
        }
        write_node(&mut diagram[end..], level, edges);
        Some(place)
    }
}
