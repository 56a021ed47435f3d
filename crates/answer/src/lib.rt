// What every call shares: the answer it hands back, the request it is asked, and what it is lent to write, cleared and written.
#![tactic(auto)]

ghost use Rattle.std.specs.Prelude.{◌≡◌, ◌++◌, ◌+◌, ◌≤◌, length};
ghost use Rattle.std.proofs.lemmas.List.Edits.{sets};
ghost use Rattle.answer.specs.Fields.{fields};
ghost use Rattle.answer.specs.Answers.{refused, blank, counted, ruled, zeros};
ghost use Rattle.answer.specs.Requests.{value, field_fault, one_of_fields};

pub mod refusal;

pub use refusal::{Refusal, Refused};

// How many fields a request has: subject, resource, action.
pub const FIELDS: usize = 3;

// How many fields there are beside the subject.
pub const OTHERS: usize = FIELDS - 1;

// A refusal, or a success with its decision, count and number of subjects: numbers and no enum, since C reads it.
#[repr(C)]
#[derive(Clone, Copy)]
pub struct Answer {
    pub number: u8,
    pub decision: u8,
    pub place: usize,
    pub count: usize,
    pub subjects: usize,
}

impl Answer {
    // The blank answer: nothing refused, nothing to show.
    pub fn blank() -> Self
        ensures { result ≡ blank }
    {
        Self {
            number: 0,
            decision: 0,
            place: 0,
            count: 0,
            subjects: 0,
        }
    }

    // A refusal.
    pub fn refused(number: u8, place: usize) -> Self
        ensures { result ≡ refused number place }
    {
        let mut answer = Self::blank();
        answer.number = number;
        answer.place = place;
        answer
    }

    // The answer of a call that gives a count and no decision.
    pub fn counted(count: usize) -> Self
        ensures { result ≡ counted count }
    {
        let mut answer = Self::blank();
        answer.count = count;
        answer
    }

    // The answer of a ruling: its decision, its count of cards, and how many subjects a set has that was ruled on.
    pub fn ruled(decision: u8, count: usize, subjects: usize) -> Self
        ensures { result ≡ ruled decision count subjects }
    {
        let mut answer = Self::counted(count);
        answer.decision = decision;
        answer.subjects = subjects;
        answer
    }
}

// One value for each field, in field order.
#[derive(Clone, Copy)]
pub struct Request {
    pub values: [u16; FIELDS],
}

// A set of subjects that ask together, subject k as bit k, and one value for each other field, in field order.
#[derive(Clone, Copy)]
pub struct JointRequest {
    pub subjects: u64,
    pub others: [u16; OTHERS],
}

// Refusal 9: the first field, from a given one on, whose value is over its maximum. The values are those of the fields from that one on.
pub fn field_fault(maxima: &[u16], values: &[u16], from: usize) -> Option<usize>
    requires { (fields ≤ length maxima.now) × (from + length values.now ≡ fields) }
    ensures { result ≡ one_of_fields (field_fault (value maxima.now) (zeros from ++ values.now) from) }
{
    for field in from..FIELDS {
        if maxima[field] < values[field - from] {
            return Some(field);
        }
    }
    None
}

// Zeros throughout a lent list or a lent diagram.
pub fn clear(list: &mut [u16])
    ensures { list.new ≡ zeros (length list.old) }
{
    list.fill(0);
}

// Items into a list that has room for them from a place on. One by one, and not by `copy_from_slice`, with which the archive for C would
// need `memmove` from outside, beside `memcpy` and `memset`.
pub fn store<T: Copy>(items: &[T], list: &mut [T], at: usize)
    requires { at + length items.now ≤ length list.old }
    ensures { list.new ≡ sets list.old at items.now }
{
    for (i, item) in items.iter().enumerate() {
        list[at + i] = *item;
    }
}
