// The convention profile: tables that are XACML 2.0 as printed.
#![tactic(auto)]

mod profile;
mod standard;

pub use standard::{read_standard, rule_standard};
