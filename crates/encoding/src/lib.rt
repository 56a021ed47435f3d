// The bytes of a table: where each number stands, and writing numbers there.
#![tactic(auto)]

pub mod layout;
pub mod writing;
