// The format of a decision diagram.
#![tactic(auto)]

pub mod layout;

use answer::FIELDS;

// Where entries start: after the places used, the place of the root and the maxima.
pub const HEADER: usize = 2 + FIELDS;

// How many places a diagram may use.
pub const MOST_PLACES: usize = 32768;
