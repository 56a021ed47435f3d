// Entries of a diagram that is built: written into its rest, or pointed to where an equal one stands.
#![tactic(auto)]

pub mod edges;
mod entering;
mod finding;
pub mod writing;

pub use finding::{Index, SLOTS};
