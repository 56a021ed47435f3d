// A table that was read and accepted.
ghost use Rattle.std.specs.Prelude.{◌≡◌, IfOk};
ghost use Rattle.answer.specs.Answers.{counted};
ghost use Rattle.answer.specs.Numbers.{answer_by};
ghost use Rattle.encoding.specs.Layout.{count};
ghost use Rattle.table.specs.WellFormed.{WellFormed};
ghost use Rattle.table.specs.Reading.{reading};

use crate::reading::read_conformance;
use answer::Refused;

// A slice that is an accepted table: one that was read, or that is known to be accepted where it is made.
#[derive(Clone, Copy)]
pub struct Table<'a> {
    pub bytes: &'a [u8],
    pub ghost accepted: { WellFormed bytes.now },
}

impl<'a> Table<'a> {
    // The slice, where none of refusals 1 to 8 applies, or the first of them.
    pub fn accept(bytes: &'a [u8]) -> Result<Self, Refused>
        ensures value { answer_by (λ _. counted (count bytes.now)) result ≡ reading bytes.now }
        ensures same_bytes { IfOk result (λ table. table.bytes.now ≡ bytes.now) }
    {
        read_conformance(bytes)?;
        Ok(Self { bytes })
    }
}
