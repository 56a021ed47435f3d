// Sets of numbers below 128, as two words by value.
#![tactic(auto)]

ghost use Rattle.std.specs.Prelude.{◌≡◌, false, not, ◌&&◌, ◌||◌, ℕ, ◌≤◌, ◌<◌, eqb, ltb};
ghost use Rattle.answer.specs.Below.{count_below};
ghost use Rattle.sets.specs.Sets.{most, bit, has, Has, Next, NextOrNone};

// How many places a word has.
pub const WORD: usize = 64;

// Numbers in a set are below this.
pub const MOST: usize = 2 * WORD;

// Whether place i of a word is set.
fn bit_at(word: u64, i: usize) -> bool
    requires { i < 64 }
    ensures { result ≡ bit word i }
{
    (word >> i) & 1 == 1
}

// The word with place i alone set.
fn only(i: usize) -> u64
    requires { i < 64 }
    ensures { (j : ℕ) → bit result j ≡ eqb i j }
{
    1 << i
}

// How many places of a word are set.
pub fn ones_at(word: u64) -> usize
    ensures { result ≡ count_below 64 (bit word) }
{
    word.count_ones() as usize
}

// The least place of a word that is set.
pub fn least_at(word: u64) -> usize
    requires { 0 < word }
    ensures { Next 64 (bit word) 0 result × (result < 64) }
{
    word.trailing_zeros() as usize
}

// The word with its least set place cleared.
pub fn without_least(word: u64) -> u64
    requires { 0 < word }
    ensures by_index { (i : ℕ) → Next 64 (bit word) 0 i → (j : ℕ) → bit result j ≡ bit word j && not (eqb i j) }
    ensures upper_bound { result < word }
{
    word & (word - 1)
}

// The least place of a word from i up that is set.
fn next_at(word: u64, i: usize) -> Option<usize>
    requires { i < 64 }
    ensures { NextOrNone 64 (bit word) i result }
{
    let rest = word >> i;
    if rest == 0 {
        None
    } else {
        Some(i + least_at(rest))
    }
}

// The low word has the numbers below 64, the high word those from 64 on. Two fields, so that an operation on one place tests which word it is in:
// with an array of words, or one word of 128 bits, adding a number took up to a tenth longer, and the next number up to a quarter.
#[derive(Clone, Copy, PartialEq, Eq)]
pub struct Set {
    pub low: u64,
    pub high: u64,
}

impl Set {
    // The empty set.
    pub fn empty() -> Self
        ensures { Has result (λ i. false) }
    {
        Self { low: 0, high: 0 }
    }

    // The set of all numbers below 128.
    pub fn full() -> Self
        ensures { Has result (λ i. ltb i most) }
    {
        Self {
            low: u64::MAX,
            high: u64::MAX,
        }
    }

    // Whether the set has i.
    pub fn has(self, i: usize) -> bool
        requires { i < most }
        ensures { result ≡ has self i }
    {
        let word = if i < WORD { self.low } else { self.high };
        bit_at(word, i % WORD)
    }

    // The set with i added.
    pub fn with(self, i: usize) -> Self
        requires { i < most }
        ensures { Has result (λ j. has self j || eqb i j) }
    {
        if i < WORD {
            Self {
                low: self.low | only(i),
                ..self
            }
        } else {
            Self {
                high: self.high | only(i - WORD),
                ..self
            }
        }
    }

    // The set with i removed.
    pub fn without(self, i: usize) -> Self
        requires { i < most }
        ensures { Has result (λ j. has self j && not (eqb i j)) }
    {
        if i < WORD {
            Self {
                low: self.low & !only(i),
                ..self
            }
        } else {
            Self {
                high: self.high & !only(i - WORD),
                ..self
            }
        }
    }

    // The numbers that both sets have.
    pub fn meet(self, other: Set) -> Self
        ensures { Has result (λ i. has self i && has other i) }
    {
        Self {
            low: self.low & other.low,
            high: self.high & other.high,
        }
    }

    // The least number of the set from i up.
    pub fn next(self, i: usize) -> Option<usize>
        requires { i ≤ most }
        ensures { NextOrNone most (has self) i result }
    {
        if i < WORD {
            next_at(self.low, i).or_else(|| next_at(self.high, 0).map(|place| WORD + place))
        } else if i < MOST {
            next_at(self.high, i - WORD).map(|place| WORD + place)
        } else {
            None
        }
    }
}
