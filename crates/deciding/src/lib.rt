// Evaluates a table, given the set of nodes that apply.
#![tactic(auto)]

ghost use Rattle.std.specs.Prelude.{◌≡◌, true, ◌<◌, ◌≤◌, length};
ghost use Rattle.std.proofs.lemmas.List.Edits.{sets};
ghost use Rattle.sets.specs.Sets.{most, has, NextOrNone};
ghost use Rattle.encoding.specs.Layout.{count};
ghost use Rattle.ruling.specs.Meaning.{decision, cards, meaning};
ghost use Rattle.targets.specs.Closed.{Closed};

use combining::{Decision, Kind, Running, Ways};
use encoding::layout::{card_at, count_at, kind_at, span_at};
use ruling::groups::{Ruled, effect_of, put};
use sets::Set;
use table::Table;

// The next node of the set from i up, below end.
fn next_below(applying: Set, i: usize, end: usize) -> Option<usize>
    requires { (i ≤ end) × (end ≤ most) }
    ensures { NextOrNone end (has applying) i result }
{
    applying.next(i).filter(|node| *node < end)
}

// The decision of node i, which is in the set. That a set is closed is a fact about it and its table, so neither has it in its type.
#[tactic(auto, using(ruling::proofs::Steps::held))]
fn decide(table: Table, ways: &Ways, applying: Set, i: usize) -> u8
    requires closed { Closed table.bytes.now (has applying) }
    requires i_bound { (i < count table.bytes.now) × (has applying i ≡ true) }
    ensures { result ≡ decision (has applying) table.entry.bytes.now i }
{
    let kind = kind_at(table.bytes, i);
    match kind {
        Kind::FIRST_APPLICABLE..=Kind::DENY_OVERRIDES => {
            let end = i + span_at(table.bytes, i);
            let mut running = Running::start(kind);
            let mut from = i + 1;
            // The nodes under a child are stepped over, by its span: the members of the set one after another would be all of them.
            while let Some(child) = next_below(applying, from, end) {
                let decision = decide(table, ways, applying, child);
                running = running.take(ways, decision, true);
                from = child + span_at(table.bytes, child);
            }
            running.decision
        }
        _ => effect_of(kind),
    }
}

// The decision of the root.
fn decide_root(table: Table, applying: Set) -> u8
    requires closed { Closed table.bytes.now (has applying) }
    ensures { result ≡ decision (has applying) table.entry.bytes.now 0 }
{
    if applying.has(0) {
        let ways = Running::ways();
        decide(table, &ways, applying, 0)
    } else {
        Decision::NOT_APPLICABLE
    }
}

// How many rules of the set there are. Their cards are stored in table order, as far as the list reaches.
#[tactic(auto, using(encoding::proofs::Places::header_held, ruling::proofs::Steps::held))]
fn gather(table: Table, applying: Set, list: &mut [u16]) -> usize
    ensures value { result ≡ length (cards (has applying) table.entry.bytes.now) }
    ensures list_after { list.new ≡ sets list.old 0 (cards (has applying) table.entry.bytes.now) }
{
    let count = count_at(table.bytes);
    let mut stored = 0;
    let mut from = 0;
    // An iterator over a set, with its laws, would be longer than this loop, its only user.
    while let Some(i) = next_below(applying, from, count) {
        match kind_at(table.bytes, i) {
            Kind::FIRST_APPLICABLE..=Kind::DENY_OVERRIDES => {}
            _ => {
                put(list, stored, card_at(table.bytes, i));
                stored += 1;
            }
        }
        from = i + 1;
    }
    stored
}

// Rules where the nodes of a set apply: the cards are stored as far as the list reaches, and counted.
pub fn rule_set(table: Table, applying: Set, list: &mut [u16]) -> Ruled
    requires closed { Closed table.bytes.now (has applying) }
    ensures decision_value { (result.decision ≡ (meaning (has applying) table.entry.bytes.now).decision) × (result.count ≡ length (meaning (has applying) table.entry.bytes.now).cards) }
    ensures list_after { list.new ≡ sets list.old 0 (meaning (has applying) table.entry.bytes.now).cards }
{
    let count = gather(table, applying, list);
    let decision = decide_root(table, applying);
    Ruled { decision, count }
}
