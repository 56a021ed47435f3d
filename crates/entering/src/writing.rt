// The writers: the numbers of a terminal or of a node, to the start of the room that they are lent.
ghost use Rattle.std.specs.Prelude.{◌≡◌, ◌+◌, ◌*◌, ◌≤◌, length, take};
ghost use Rattle.std.proofs.lemmas.List.Edits.{sets};
ghost use Rattle.diagram.specs.Entries.{terminal, node};
ghost use Rattle.entering.specs.Edges.{edges_of};

use crate::edges::{Edges, MOST_EDGES};
use answer::store;

// How many cards a terminal may have, and the places of the longest one.
pub const MOST_CARDS: usize = 127;

pub const TERMINAL: usize = 3 + MOST_CARDS;

// The places of the longest node.
pub const NODE: usize = 2 + 2 * MOST_EDGES;

// A terminal to the start of the room: how many places it takes.
pub(crate) fn write_terminal(room: &mut [u16], decision: u8, cards: &[u16]) -> usize
    requires { (length cards.now ≤ 127) × (3 + length cards.now ≤ length room.old) }
    ensures value { result ≡ 3 + length cards.now }
    ensures room_after { room.new ≡ sets room.old 0 (terminal (record { decision = decision; cards = cards.now })) }
    ensures room_after_2 { take result room.new ≡ terminal (record { decision = decision; cards = cards.now }) }
{
    let count = cards.len();
    room[0] = 0;
    room[1] = u16::from(decision);
    room[2] = count as u16;
    store(cards, room, 3);
    3 + count
}

// A node of some edges to the start of the room: how many places it takes.
pub(crate) fn write_node(room: &mut [u16], level: u16, edges: &Edges) -> usize
    requires { (edges.now.count ≤ 256) × (2 + 2 * edges.now.count ≤ length room.old) }
    ensures value { result ≡ 2 + 2 * edges.now.count }
    ensures room_after { room.new ≡ sets room.old 0 (node level (edges_of edges.now)) }
    ensures room_after_2 { take result room.new ≡ node level (edges_of edges.now) }
{
    room[0] = level;
    room[1] = edges.count as u16;
    for j in 0..edges.count {
        room[2 + 2 * j] = edges.last[j];
        room[3 + 2 * j] = edges.child[j];
    }
    2 + 2 * edges.count
}
