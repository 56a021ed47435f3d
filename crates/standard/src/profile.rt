// Which of refusals 14, 15 and 16 an accepted table gets, and where: one pass over its nodes, from the last to the first.
ghost use Rattle.std.specs.Prelude.{◌≡◌, not, cond, ◌&&◌, ◌+◌, ◌<◌, eqb, set};
ghost use Rattle.answer.specs.Answers.{counted};
ghost use Rattle.answer.specs.Numbers.{answer_by};
ghost use Rattle.encoding.specs.Layout.{count};
ghost use Rattle.standard.specs.Profile.{profiled};
ghost use Rattle.standard.specs.Pass.{rules_on, groups_on, FoundFrom};

use answer::{Refusal, Refused};
use combining::Kind;
use encoding::layout::{NODES, count_at, kind_at, span_at};
use table::Table;
use table::reading::rule_at;

// How many rules and how many groups stand on a row from some node on. A row goes on past the end of the parent: a group holds what stands
// on the row of its first child and not on the one of the node where it ends.
#[derive(Clone, Copy)]
pub(crate) struct Row {
    pub rules: u8,
    pub groups: u8,
}

// What the nodes from one on show: its row from it on, the lowest group that holds rules and groups, and the lowest only-one-applicable
// group that holds a rule.
#[derive(Clone, Copy)]
pub(crate) struct Found {
    pub row: Row,
    pub mixed: Option<usize>,
    pub in_only_one: Option<usize>,
}

// Node i where it is at fault, else the lowest after it.
fn lowest_of(fault: bool, i: usize, after: Option<usize>) -> Option<usize>
    ensures { result ≡ cond fault (Some i) after }
{
    if fault { Some(i) } else { after }
}

// With group i, which is only one applicable or not, where `end` is the row of the node where it ends.
fn with_group(i: usize, one: bool, end: Row, after: Found) -> Found
    requires { end.groups < 128 }
    ensures rules_value { (result.row.rules ≡ end.rules) × (result.row.groups ≡ end.groups + 1) }
    ensures mixed_value { result.mixed ≡ cond (not (eqb after.row.rules end.rules) && not (eqb after.row.groups end.groups)) (Some i) after.mixed }
    ensures in_only_one_value { result.in_only_one ≡ cond (one && not (eqb after.row.rules end.rules)) (Some i) after.in_only_one }
{
    let holds_rules = after.row.rules != end.rules;
    let holds_groups = after.row.groups != end.groups;
    Found {
        row: Row {
            rules: end.rules,
            groups: end.groups + 1,
        },
        mixed: lowest_of(holds_rules & holds_groups, i, after.mixed),
        in_only_one: lowest_of(one & holds_rules, i, after.in_only_one),
    }
}

// With a rule.
fn with_rule(after: Found) -> Found
    requires { after.row.rules < 128 }
    ensures rules_value { (result.row.rules ≡ after.row.rules + 1) × (result.row.groups ≡ after.row.groups) }
    ensures mixed_value { (result.mixed ≡ after.mixed) × (result.in_only_one ≡ after.in_only_one) }
{
    Found {
        row: Row {
            rules: after.row.rules + 1,
            groups: after.row.groups,
        },
        mixed: after.mixed,
        in_only_one: after.in_only_one,
    }
}

// With node i, where the rows of all nodes after it are known.
fn with_node(table: Table, i: usize, rows: &[Row; NODES + 1], after: Found) -> Found
    requires i_bound { i < count table.bytes.now }
    requires found_from { FoundFrom table.bytes.now (i + 1) (rules_on rows.now) (groups_on rows.now) after }
    ensures { FoundFrom table.entry.bytes.now i (set (rules_on rows.now) i result.row.rules) (set (groups_on rows.now) i result.row.groups) result }
{
    let kind = kind_at(table.bytes, i);
    match kind {
        Kind::FIRST_APPLICABLE..=Kind::DENY_OVERRIDES => {
            let end = rows[i + span_at(table.bytes, i)];
            with_group(i, kind == Kind::ONLY_ONE_APPLICABLE, end, after)
        }
        _ => with_rule(after),
    }
}

// Checks an accepted table by the profile: the first of refusals 14, 15 and 16, if any.
pub(crate) fn check_profile(table: Table) -> Result<(), Refused>
    ensures { answer_by (λ _. counted (count table.entry.bytes.now)) result ≡ profiled table.entry.bytes.now }
{
    let n = count_at(table.bytes);
    let none = Row {
        rules: 0,
        groups: 0,
    };
    let mut rows = [none; NODES + 1];
    let mut found = Found {
        row: none,
        mixed: None,
        in_only_one: None,
    };
    for i in (0..n).rev() {
        found = with_node(table, i, &rows, found);
        rows[i] = found.row;
    }
    if let Some(node) = found.mixed {
        Err(Refusal::MixedGroup.at(node))
    } else if let Some(node) = found.in_only_one {
        Err(Refusal::RuleInOnlyOne.at(node))
    } else if rule_at(table.bytes, 0) {
        Err(Refusal::RuleAsRoot.at(0))
    } else {
        Ok(())
    }
}
