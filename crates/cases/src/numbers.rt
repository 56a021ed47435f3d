// The numbers that a text says, and why one says none.
ghost use Rattle.std.specs.Prelude.{◌≤◌};

use std::alloc::{AllocError, AllocFailed, Global};

// Why a line has no effect.
#[derive(Debug, Drop)]
pub(crate) enum Fault {
    NotUnderstood,
    OutOfMemory,
}

impl From<AllocError> for Fault {
    fn from(_error: AllocError) -> Self {
        Fault::OutOfMemory
    }
}

impl<T: Drop> From<AllocFailed<T>> for Fault {
    fn from(_error: AllocFailed<T>) -> Self {
        Fault::OutOfMemory
    }
}

// The decimal numbers of a text, if there are no more than `most`.
pub(crate) fn decimal(alloc: Global, text: &str, most: usize) -> Result<Vec<u16>, Fault> {
    numbers(alloc, text, 10, most)
}

// The numbers of a text, with spaces and commas between, if there are no more than `most`. They are counted first, so that a list takes no
// more memory than its numbers do.
pub(crate) fn numbers(alloc: Global, text: &str, radix: u32, most: usize) -> Result<Vec<u16>, Fault>
    requires at_least_binary { 2 ≤ radix }
    requires has_digits { radix ≤ 36 }
{
    let words = text.split([' ', ',']).filter(|word| !word.is_empty());
    let count = words.clone()?.count();
    if most < count {
        return Err(Fault::NotUnderstood);
    }
    let mut numbers = Vec::with_capacity(alloc, count)?;
    for word in words {
        numbers.push(number(word, radix)?)?;
    }
    Ok(numbers)
}

// A number without a sign, its letters capitals.
fn number(word: &str, radix: u32) -> Result<u16, Fault>
    requires at_least_binary { 2 ≤ radix }
    requires has_digits { radix ≤ 36 }
{
    if word.contains(|c: char| c == '+' || c.is_ascii_lowercase()) {
        return Err(Fault::NotUnderstood);
    }
    u16::from_str_radix(word, radix).map_err(|_| Fault::NotUnderstood)
}

// So many decimal numbers, which are all that a text says.
pub(crate) fn decimals<const N: usize>(alloc: Global, text: &str) -> Result<[u16; N], Fault> {
    exactly(decimal(alloc, text, N)?)
}

// So many numbers.
pub(crate) fn exactly<const N: usize>(numbers: Vec<u16>) -> Result<[u16; N], Fault> {
    <[u16; N]>::try_from(numbers.as_slice()).map_err(|_| Fault::NotUnderstood)
}

// Bytes that are text.
pub(crate) fn text(bytes: &[u8]) -> Result<&str, Fault> {
    str::from_utf8(bytes).map_err(|_| Fault::NotUnderstood)
}

// A text without the bytes 0 that it ends in.
pub(crate) fn ended(text: &str) -> &str {
    text.trim_end_matches('\0')
}

// Numbers as bytes.
pub(crate) fn to_bytes(alloc: Global, numbers: &[u16]) -> Result<Vec<u8>, Fault> {
    numbers
        .iter()
        .map(|number| u8::try_from(*number).map_err(|_| Fault::NotUnderstood))
        .try_collect(alloc)
}
