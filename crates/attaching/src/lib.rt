// Fitting an expansion to a base table.
#![tactic(auto)]

mod attaching;
mod faults;
mod writing;

pub use attaching::attach;
