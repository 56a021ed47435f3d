// Which subjects a target holds for: those in its range of subjects, where every other value lies in its range.
#![tactic(auto)]

ghost use Rattle.std.specs.Prelude.{◌≡◌, ℕ, ◌+◌, ◌%◌, ◌^◌, ◌<◌, ◌≤◌, ◌&&◌, ◌∷◌, nat_le};
ghost use Rattle.std.specs.Ordering.{partial_le};
ghost use Rattle.std.proofs.Common.{rules};
ghost use Rattle.encoding.specs.Layout.{NodeHeld};
ghost use Rattle.targets.specs.Targets.{in_range, target_holds, target_holds_from};
ghost use Rattle.targets.specs.Subjects.{most_subjects, member, subjects_fault};
ghost use Rattle.targets.specs.Targets.{others_hold_from};

use answer::OTHERS;
use encoding::layout::{Range, range_of, ranges_at};
use sets::{WORD, least_at, without_least};
use std::num::{wrapping_sub_u8, wrapping_sub_u16};

// An unsigned number of some width, whose values go round: the first comes after the last.
pub trait Unsigned: Copy + PartialOrd + From<u8> {
    // The number itself, and how many values its type has.
    ghost number: { Self → ℕ };

    ghost values: { ℕ };

    // How many steps up lead here from another value.
    fn steps_from(self, other: Self) -> Self
        ensures met { (number result + number other) % values ≡ number self }
        ensures bound { number result < values };

    // What each type must prove: every byte is a value of it and stays the same number, and the numbers say which value is at most which.
    ghost has_bytes: { 256 ≤ values };

    ghost keeps_bytes: { (byte : ℕ) (x : Self) → Self.from_gives byte x → number x ≡ byte };

    ghost ordered: { (x y : Self) → partial_le Self.partial_cmp x y ≡ nat_le (number x) (number y) };
}

impl Unsigned for u8 {
    ghost number = { λ x. x };

    ghost values = { 2 ^ 8 };

    ghost has_bytes = { Prim.search rules };

    ghost keeps_bytes = { λ byte x gives. gives };

    ghost ordered = { Prim.search rules };

    fn steps_from(self, other: u8) -> u8 {
        wrapping_sub_u8(self, other)
    }
}

impl Unsigned for u16 {
    ghost number = { λ x. x };

    ghost values = { 2 ^ 16 };

    ghost has_bytes = { Prim.search rules };

    ghost keeps_bytes = { λ byte x gives. gives };

    ghost ordered = { Prim.search rules };

    fn steps_from(self, other: u16) -> u16 {
        wrapping_sub_u16(self, other)
    }
}

// Whether a value lies in a range, both ends included: going up from low, and round to 0 after the last value of the type, it is met no later
// than high. A value that is a byte is compared as a byte, so that nothing is widened.
pub fn in_range<T: Unsigned>(range: Range, value: T) -> bool
    ensures { result ≡ in_range range.low range.high (T.number value) }
{
    let low = T::from(range.low);
    let high = T::from(range.high);
    value.steps_from(low) <= high.steps_from(low)
}

// The subjects from low up, as a set.
fn subjects_from(low: u8) -> u64
    ensures { (k : ℕ) → k < most_subjects → member result k ≡ nat_le low k }
{
    if usize::from(low) >= WORD {
        0
    } else {
        u64::MAX << low
    }
}

// The subjects up to high, as a set.
fn subjects_up_to(high: u8) -> u64
    ensures { (k : ℕ) → k < most_subjects → member result k ≡ nat_le k high }
{
    if usize::from(high) >= WORD - 1 {
        u64::MAX
    } else {
        u64::MAX >> (WORD - 1 - usize::from(high))
    }
}

// The subjects in a range, both ends included, as a set: where low is above high, those from low up or up to high.
pub fn subjects_in(range: Range) -> u64
    ensures { (k : ℕ) → k < most_subjects → member result k ≡ in_range range.low range.high k }
{
    let from_low = subjects_from(range.low);
    let up_to_high = subjects_up_to(range.high);
    if range.high < range.low {
        from_low | up_to_high
    } else {
        from_low & up_to_high
    }
}

// Whether the values of all fields but the subject lie in their ranges, from the word of a node's ranges.
fn others_hold_from(ranges: u64, others: &[u16; OTHERS]) -> bool
    ensures { result ≡ others_hold_from ranges others.now }
{
    for other in 0..OTHERS {
        if !in_range(range_of(ranges, other + 1), others[other]) {
            return false;
        }
    }
    true
}

// The members of a set for which a target holds, tested from the word of its ranges, where the other fields have these values.
fn members_from(ranges: u64, members: u64, others: &[u16; OTHERS]) -> u64
    ensures { (k : ℕ) → member result k ≡ member members k && target_holds_from ranges (k ∷ others.now) }
{
    if !others_hold_from(ranges, others) {
        return 0;
    }
    members & subjects_in(range_of(ranges, 0))
}

// The members of a set for which node i's target holds, where the other fields have these values: its ranges are gathered once.
pub fn members_left(table: &[u8], members: u64, others: &[u16; OTHERS], i: usize) -> u64
    requires { NodeHeld table.now i }
    ensures { (k : ℕ) → member result k ≡ member members k && target_holds table.now (k ∷ others.now) i }
{
    let ranges = ranges_at(table, i);
    members_from(ranges, members, others)
}

// Refusal 13: whether a set has no subject, or one over the maximum. The set is walked as the requirements ask, each next member by the trailing
// zeros of those left, until one is over the maximum or none is left: a walk by members, for which no `for` is plainer.
pub fn subjects_fault(subjects: u64, maximum: u16) -> bool
    ensures { result ≡ subjects_fault maximum subjects }
{
    if subjects == 0 {
        return true;
    }
    let mut left = subjects;
    while left != 0 {
        let member = least_at(left);
        if usize::from(maximum) < member {
            return true;
        }
        left = without_least(left);
    }
    false
}
