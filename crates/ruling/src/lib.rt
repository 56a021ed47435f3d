// Ruling by a table's groups, with every matching card.
#![tactic(auto)]

pub mod groups;
mod ruling;

pub use ruling::{for_subjects, outcome_for_subjects, rule, rule_accepted};
