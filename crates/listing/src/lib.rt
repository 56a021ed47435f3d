// The text of a listing: the fields' maxima, then a line for each path of a diagram, in rising order; or a refusal.
#![tactic(auto)]

pub mod lines;
pub mod pages;
pub mod paths;
pub mod text;

use answer::FIELDS;

// No line is longer than this many bytes: for each field a range of two values of three digits, the longest word, 127
// cards of five digits, and the line's end, with a space or a dash between two items.
pub const LINE: usize = 8 * FIELDS + 7 + 6 * 127 + 1;
