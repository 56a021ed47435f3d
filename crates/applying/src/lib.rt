// For each value of a field, the set of nodes that apply there, by that field alone.
#![tactic(auto)]

ghost use Rattle.std.specs.Prelude.{◌≡◌, ℕ, ◌≤◌, ◌<◌, length};
ghost use Rattle.answer.specs.Fields.{fields};
ghost use Rattle.sets.specs.Sets.{Has};
ghost use Rattle.encoding.specs.Layout.{maximum, NodeHeld};
ghost use Rattle.applying.specs.Members.{range_holds, member};
ghost use Rattle.applying.specs.Filled.{set_at, last_at, run_end, Runs, KeptPastMaximum, FieldFilled, ValuesFilled, SetRows, Filled, KeptPastMaxima};

use answer::FIELDS;
use encoding::layout::{count_at, maximum_at, range_of, ranges_at, span_at};
use sets::Set;
use table::Table;
use targets::in_range;

// How many values a field may have.
pub const VALUES: usize = 256;

// The set of nodes of a value, and the last of the values from it on that are known to have the same.
#[derive(Clone, Copy)]
pub struct Run {
    pub set: Set,
    pub last: usize,
}

// Whether a value lies in node i's range of a field.
fn holds(table: &[u8], field: usize, value: u8, i: usize) -> bool
    requires { NodeHeld table.now i × (field < fields) }
    ensures { result ≡ range_holds table.now field value i }
{
    let ranges = ranges_at(table, i);
    in_range(range_of(ranges, field), value)
}

// The nodes that apply in a field alone at a value: a node whose range fails is skipped with all nodes under it.
#[tactic(auto, using(encoding::proofs::Places::header_held, ruling::proofs::Steps::held))]
pub fn members(table: Table, field: usize, value: u8) -> Set
    requires field_lt_fields { field < fields }
    ensures { Has result (member table.entry.bytes.now field value) }
{
    let count = count_at(table.bytes);
    let mut set = Set::empty();
    let mut i = 0;
    // A node whose range fails is stepped over by its span, so no range of numbers gives the nodes to be tested.
    while i < count {
        if holds(table.bytes, field, value, i) {
            set = set.with(i);
            i += 1;
        } else {
            i += span_at(table.bytes, i);
        }
    }
    set
}

// The sets of one field, for each of its values: each value is a run of its own.
#[tactic(auto, using(encoding::proofs::Places::header_held))]
fn fill_values(table: Table, field: usize, row: &mut [Run; VALUES])
    requires field_lt_fields { field < fields }
    ensures values_filled { ValuesFilled table.entry.bytes.now field row.new }
    ensures kept_past_maximum { KeptPastMaximum (maximum table.entry.bytes.now field) row.old row.new }
{
    for value in 0..=maximum_at(table.bytes, field) {
        let last = usize::from(value);
        let set = members(table, field, value);
        row[last] = Run { set, last };
    }
}

// Neighbouring values up to the largest that have the same set become one run: its first value has its last.
fn mark_runs(row: &mut [Run; VALUES], most: usize)
    requires most_lt_256 { most < 256 }
    requires alone { (v : ℕ) → v ≤ most → last_at row.old v ≡ v }
    ensures kept { (v : ℕ) → set_at row.new v ≡ set_at row.old v }
    ensures runs { Runs most row.new }
    ensures kept_past_maximum { KeptPastMaximum most row.old row.new }
{
    let mut start = 0;
    for value in 1..=most {
        if row[start].set == row[value].set {
            row[start].last = value;
        } else {
            start = value;
        }
    }
}

// The sets of one field, and its runs.
#[tactic(auto, using(encoding::proofs::Places::header_held))]
fn fill_field(table: Table, field: usize, row: &mut [Run; VALUES])
    requires field_lt_fields { field < fields }
    ensures field_filled { FieldFilled table.entry.bytes.now field row.new }
    ensures kept_past_maximum { KeptPastMaximum (maximum table.entry.bytes.now field) row.old row.new }
{
    fill_values(table, field, row);
    mark_runs(row, usize::from(maximum_at(table.bytes, field)));
}

// The sets of all fields.
pub fn fill(table: Table, rows: &mut [[Run; VALUES]; FIELDS])
    requires set_rows { SetRows rows.old }
    ensures filled { Filled table.entry.bytes.now rows.new }
    ensures kept_past_maxima { KeptPastMaxima table.entry.bytes.now rows.old rows.new }
{
    for (field, row) in rows.iter_mut().enumerate() {
        fill_field(table, field, row);
    }
}

// The set of a value, in a field's row.
pub fn set_at(row: &[Run; VALUES], value: usize) -> Set
    requires { value < 256 }
    ensures { result ≡ set_at row.now value }
{
    row[value].set
}

// The last value of a run of values, in a field's row.
pub fn run_end(row: &[Run; VALUES], value: usize) -> usize
    requires { value < 256 }
    ensures { (result ≡ run_end row.now value) × (value ≤ result) }
{
    row[value].last.max(value)
}
