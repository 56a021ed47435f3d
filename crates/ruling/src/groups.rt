// Decisions and cards of nodes, in one walk down the tree: each node that is reached is tested once.
ghost use Rattle.std.specs.Prelude.{◌≡◌, ◌+◌, ◌<◌, length, set};
ghost use Rattle.std.proofs.lemmas.List.Edits.{sets};
ghost use Rattle.combining.specs.Ways.{way};
ghost use Rattle.encoding.specs.Layout.{card, NodeHeld};
ghost use Rattle.ruling.specs.Forest.{run};
ghost use Rattle.targets.specs.Subjects.{applies_to_some};
ghost use Rattle.ruling.specs.Meaning.{effect, children, decision};
ghost use Rattle.ruling.specs.Ruling.{groups_together};
ghost use Rattle.ruling.specs.Walk.{MembersPass, AppliesToEach, Node, ChildRun, Gathered};

use answer::{JointRequest, OTHERS};
use combining::{Decision, Kind, Running, Ways};
use encoding::layout::{card_at, count_at, kind_at, short_span_at};
use table::Table;
use targets::members_left;

// A decision, and how many cards there are so far.
#[derive(Clone, Copy)]
pub struct Ruled {
    pub decision: u8,
    pub count: usize,
}

// Stores a card at place k, where the list has that place. After `get_mut` a proof knows no element of the list, so the place is tested here.
pub fn put(cards: &mut [u16], k: usize, card: u16)
    ensures { cards.new ≡ set cards.old k card }
{
    if k < cards.len() {
        cards[k] = card;
    }
}

// What a rule of a kind gives where it matches.
pub fn effect_of(kind: u8) -> u8
    ensures { result ≡ effect kind }
{
    match kind {
        Kind::PERMIT_RULE => Decision::PERMIT,
        _ => Decision::DENY,
    }
}

// Rules node i, a rule of a kind that matches: its card is stored at place count, where the list has that place, and counted.
fn rule_match(table: Table, i: usize, kind: u8, cards: &mut [u16], count: usize) -> Ruled
    requires { NodeHeld table.bytes.now i × (count < 128) }
    ensures decision_value { (result.decision ≡ effect kind) × (result.count ≡ count + 1) }
    ensures cards_after { cards.new ≡ set cards.old count (card table.entry.bytes.now i) }
{
    put(cards, count, card_at(table.bytes, i));
    Ruled {
        decision: effect_of(kind),
        count: count + 1,
    }
}

// Rules node i, which ends at end, for members to each of which it applies. The cards of matching rules are stored from place
// count on, as far as the list reaches, and counted. Table, ways and other values go down side by side: as one struct, by value or by
// reference, rulings took up to 1.09 times as long, and missed the bar of 1.1 times plain C++ where there are few nodes. So do list and
// count: of a struct that holds the lent list each call would have to promise as well that it is still the same list.
#[cycle(rule_node_rule_run)]
pub(crate) fn rule_node(
    table: Table,
    ways: &Ways,
    members: u64,
    others: &[u16; OTHERS],
    i: usize,
    end: usize,
    cards: &mut [u16],
    count: usize,
) -> Ruled
    requires node { Node (applies_to_some table.bytes.now members others.now) table.bytes.now i end count }
    requires applies_to_each { AppliesToEach table.bytes.now members others.now i }
    ensures decision_value { result.decision ≡ decision (applies_to_some table.entry.bytes.now members others.now) table.entry.bytes.now i }
    ensures gathered { Gathered (applies_to_some table.entry.bytes.now members others.now) table.entry.bytes.now i end count result.count cards.old cards.new }
{
    let kind = kind_at(table.bytes, i);
    match kind {
        Kind::FIRST_APPLICABLE..=Kind::DENY_OVERRIDES => rule_run(
            table,
            ways,
            members,
            others,
            kind,
            i + 1,
            end,
            cards,
            count,
        ),
        _ => rule_match(table, i, kind, cards, count),
    }
}

// Rules the children of a group of a kind, the nodes from first up to end, each with those under it, for members for which every
// target above them holds, where there were so many cards before: the running decision takes in one child after another. A child
// whose target holds for a member counts; any other changes nothing, and is stepped over by its span. The loop steps by spans, and
// the next node is known before the child is ruled: an iterator over the children would be longer than the loop.
#[cycle(rule_node_rule_run)]
fn rule_run(
    table: Table,
    ways: &Ways,
    members: u64,
    others: &[u16; OTHERS],
    kind: u8,
    first: usize,
    end: usize,
    cards: &mut [u16],
    before: usize,
) -> Ruled
    requires child_run { ChildRun table.bytes.now first end before × (kind < 4) }
    requires members_pass { MembersPass table.bytes.now members others.now first }
    ensures decision_value { result.decision ≡ way kind (children (applies_to_some table.entry.bytes.now members others.now) table.entry.bytes.now (run table.entry.bytes.now first end)) }
    ensures gathered { Gathered (applies_to_some table.entry.bytes.now members others.now) table.entry.bytes.now first end before result.count cards.old cards.new }
{
    let mut running = Running::start(kind);
    let mut count = before;
    let mut i = first;
    // Spans differ, so that no range of numbers gives the children; an iterator over them would be longer than this loop.
    while i < end {
        let next = i + short_span_at(table.bytes, i);
        let left = members_left(table.bytes, members, others, i);
        if left != 0 {
            let child = rule_node(table, ways, left, others, i, next, cards, count);
            running = running.take(ways, child.decision, true);
            count = child.count;
        }
        i = next;
    }
    Ruled {
        decision: running.decision,
        count,
    }
}

// Rules by a table that was read: the cards are stored as far as the list reaches, and counted.
pub(crate) fn rule_read(table: Table, request: JointRequest, cards: &mut [u16]) -> Ruled
    ensures decision_value { (result.decision ≡ (groups_together table.entry.bytes.now request.subjects request.others).decision) × (result.count ≡ length (groups_together table.entry.bytes.now request.subjects request.others).cards) }
    ensures cards_after { cards.new ≡ sets cards.old 0 (groups_together table.entry.bytes.now request.subjects request.others).cards }
{
    let others = &request.others;
    let left = members_left(table.bytes, request.subjects, others, 0);
    if left == 0 {
        return Ruled {
            decision: Decision::NOT_APPLICABLE,
            count: 0,
        };
    }
    let count = count_at(table.bytes);
    let kind = kind_at(table.bytes, 0);
    match kind {
        Kind::FIRST_APPLICABLE..=Kind::DENY_OVERRIDES => {
            let ways = Running::ways();
            rule_run(table, &ways, left, others, kind, 1, count, cards, 0)
        }
        _ => rule_match(table, 0, kind, cards, 0),
    }
}
