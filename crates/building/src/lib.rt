// Building the diagram of a table, in the room that is lent.
#![tactic(auto)]

mod header;
mod remembering;
mod walking;
mod whole;

pub use whole::build;
