// Reading a table: refusals 1 to 8, in one pass over the nodes.
ghost use Rattle.std.specs.Prelude.{◌≡◌, ◌||◌, ◌+◌, ◌≤◌, ◌<◌, eqb, ltb, IfOk};
ghost use Rattle.answer.specs.Answers.{counted};
ghost use Rattle.answer.specs.Fields.{fields};
ghost use Rattle.answer.specs.Numbers.{number_or_zero, answer_by};
ghost use Rattle.answer.specs.Refusals.{first_number};
ghost use Rattle.encoding.specs.Layout.{count, HeaderHeld, NodeHeld};
ghost use Rattle.table.specs.Tree.{is_rule, level};
ghost use Rattle.table.specs.Open.{deepest, EndAbove};
ghost use Rattle.table.specs.Conformance.{asks_for_rules, conforms};
ghost use Rattle.table.specs.Reading.{length_fault, version_fault, count_fault, odd_span, span_fault, range_fault, ranges_fault, card_fault};
ghost use Rattle.table.specs.Reading.{header_refusals, refusals_after_kind, node_refusals, reading};

use answer::{Answer, FIELDS, Refusal, Refused};
use combining::Kind;
use encoding::layout::{
    LEVELS, NODES, Range, VERSION, card_at, count_at, header_size, kind_at, maximum_at, range_at,
    span_at, start_of, word_at,
};

// Refusal 1: the slice is too short, or not as long as it says.
fn length_fault(table: &[u8]) -> bool
    ensures { result ≡ length_fault table.now }
{
    table.len() < header_size(table) || table.len() != usize::from(word_at(table, 0)) + 2
}

// Refusal 2: another version.
fn version_fault(table: &[u8]) -> bool
    requires { HeaderHeld table.now }
    ensures { result ≡ version_fault table.now }
{
    table[VERSION] != 1
}

// No nodes, or too many.
fn odd_count(n: usize) -> bool
    ensures { result ≡ (eqb n 0 || ltb 128 n) }
{
    n == 0 || NODES < n
}

// Refusal 3: no nodes, too many, or not the records that the count says.
fn count_fault(table: &[u8]) -> bool
    requires { HeaderHeld table.now }
    ensures { result ≡ count_fault table.now }
{
    let n = count_at(table);
    odd_count(n) || table.len() != start_of(table, n)
}

// The first refusal of the whole table, of 1 to 3.
fn header_fault(table: &[u8]) -> Option<Refusal>
    ensures { number_or_zero result ≡ first_number (header_refusals table.now) }
{
    if length_fault(table) {
        Some(Refusal::Length)
    } else if version_fault(table) {
        Some(Refusal::Version)
    } else if count_fault(table) {
        Some(Refusal::NodeCount)
    } else {
        None
    }
}

// A span of 0, or a rule's that is not 1.
fn odd_span(span: usize, rule: bool) -> bool
    ensures { result ≡ odd_span span rule }
{
    span == 0 || rule && span != 1
}

// Refusal 5; `above` is the parent's end.
fn span_fault(table: &[u8], i: usize, rule: bool, above: usize) -> bool
    requires node_held { NodeHeld table.now i }
    requires rule_value { (rule ≡ is_rule table.now i) × EndAbove table.now i above }
    ensures { result ≡ span_fault table.now i }
{
    let span = span_at(table, i);
    // Branches, and not one expression of `||` and `&&`: with that a reading was measured to take up to a tenth longer.
    if odd_span(span, rule) {
        true
    } else if above < i + span {
        true
    } else if i == 0 {
        span != above
    } else {
        false
    }
}

// Refusal 7 in one field.
fn range_fault(table: &[u8], i: usize, field: usize) -> bool
    requires node_held { NodeHeld table.now i }
    requires field_lt_fields { field < fields }
    ensures { result ≡ range_fault table.now i field }
{
    let maximum = maximum_at(table, field);
    let Range { low, high } = range_at(table, i, field);
    maximum < low || maximum < high
}

// Refusal 7: a low or a high over the maximum.
fn ranges_fault(table: &[u8], i: usize) -> bool
    requires { NodeHeld table.now i }
    ensures { result ≡ ranges_fault table.now i }
{
    (0..FIELDS).any(|field| range_fault(table, i, field))
}

// Refusal 8: a rule with card 0, or a group with another.
fn card_fault(table: &[u8], i: usize, rule: bool) -> bool
    requires node_held { NodeHeld table.now i }
    requires rule_value { rule ≡ is_rule table.now i }
    ensures { result ≡ card_fault table.now i }
{
    let card = card_at(table, i);
    if rule { card == 0 } else { card != 0 }
}

// The first of refusals 5 to 8 of node i, under a node on level depth.
fn fault_of(table: &[u8], i: usize, rule: bool, above: usize, depth: usize) -> Option<Refusal>
    requires node_held { NodeHeld table.now i }
    requires rule_value { (rule ≡ is_rule table.now i) × EndAbove table.now i above }
    requires i_value { level table.now i ≡ depth + 1 }
    ensures { number_or_zero result ≡ first_number (refusals_after_kind table.now i) }
{
    if span_fault(table, i, rule, above) {
        Some(Refusal::Span)
    } else if LEVELS <= depth {
        Some(Refusal::Level)
    } else if ranges_fault(table, i) {
        Some(Refusal::Range)
    } else if card_fault(table, i, rule) {
        Some(Refusal::Card)
    } else {
        None
    }
}

// The first refusal of node i, of 4 to 8.
fn node_fault(table: &[u8], i: usize, above: usize, depth: usize) -> Option<Refusal>
    requires node_held { NodeHeld table.now i }
    requires end_above { EndAbove table.now i above × (level table.now i ≡ depth + 1) }
    ensures { number_or_zero result ≡ first_number (node_refusals table.now i) }
{
    match kind_at(table, i) {
        Kind::FIRST_APPLICABLE..=Kind::DENY_OVERRIDES => fault_of(table, i, false, above, depth),
        Kind::PERMIT_RULE..=Kind::DENY_RULE => fault_of(table, i, true, above, depth),
        _ => Some(Refusal::Kind),
    }
}

// The level of the node right above node i, by climbing from the deepest level that is open: ends says where the open node of each
// level ends. A node opens at most one level and that is left once, so all climbs together leave no more levels than there are nodes. The
// depth and the ends are no struct: that keeps the depth in memory, and a reading was measured to take 1.17 times as long.
pub(crate) fn depth_above(ends: &[usize; LEVELS + 1], depth: usize, i: usize) -> usize
    requires { depth ≤ 8 }
    ensures { (result ≡ deepest ends.now i depth) × (result ≤ depth) }
{
    for level in (1..=depth).rev() {
        if i < ends[level] {
            return level;
        }
    }
    0
}

// Whether node i is a rule.
pub fn rule_at(table: &[u8], i: usize) -> bool
    requires { NodeHeld table.now i }
    ensures { result ≡ is_rule table.now i }
{
    match kind_at(table, i) {
        Kind::FIRST_APPLICABLE..=Kind::DENY_OVERRIDES => false,
        _ => true,
    }
}

// Whether group i's children must be rules under the profile. It has a child.
fn asks_for_rules(table: &[u8], i: usize) -> bool
    requires { NodeHeld table.now i × NodeHeld table.now (i + 1) }
    ensures { result ≡ asks_for_rules table.now i }
{
    kind_at(table, i) != Kind::ONLY_ONE_APPLICABLE && rule_at(table, i + 1)
}

// Reads a table: the first refusal, or whether the table conforms to the convention profile, that is whether each node is a rule exactly
// where its parent's children must be rules.
pub fn read_conformance(table: &[u8]) -> Result<bool, Refused>
    ensures value { answer_by (λ _. counted (count table.now)) result ≡ reading table.now }
    ensures conforming { IfOk result (λ conforming. conforming ≡ conforms table.now) }
{
    if let Some(refusal) = header_fault(table) {
        return Err(refusal.at(0));
    }
    let n = count_at(table);
    // For each level, where its open node ends, and whether that node's children must be rules. Level 0 is the table itself, whose child
    // must be a group. Two arrays, and not one of structs: with that a reading of nested groups was measured to take up to 1.15 times as long.
    let mut ends = [n; LEVELS + 1];
    let mut rules = [false; LEVELS + 1];
    let mut conforming = true;
    let mut depth = 0;
    for i in 0..n {
        depth = depth_above(&ends, depth, i);
        if let Some(refusal) = node_fault(table, i, ends[depth], depth) {
            return Err(refusal.at(i));
        }
        conforming &= rule_at(table, i) == rules[depth];
        let span = span_at(table, i);
        // A node without children opens no level.
        if 1 < span {
            depth += 1;
            ends[depth] = i + span;
            rules[depth] = asks_for_rules(table, i);
        }
    }
    Ok(conforming)
}

// Reads a table: the number of its nodes, or the first refusal.
pub fn read(table: &[u8]) -> Answer
    ensures { result ≡ reading table.now }
{
    match read_conformance(table) {
        Ok(_) => Answer::counted(count_at(table)),
        Err(refused) => Answer::from(refused),
    }
}
