// Tables of rules: reading them, and the levels of their nodes.
#![tactic(auto)]

pub mod accepted;
pub mod levels;
pub mod reading;

pub use accepted::Table;
pub use reading::read;
