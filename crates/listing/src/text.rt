// A text that is written item by item.
ghost use Rattle.std.specs.Prelude.{◌≡◌, [], ◌∷◌, ◌≤◌, take, length};
ghost use Rattle.listing.specs.Text.{newline, decimal, decision_word, range, items};
ghost use Rattle.listing.specs.Written.{HasRoom, Puts};

use combining::Decision;

// The bytes that a text has room for, and where those end that are written.
#[derive(Drop)]
pub struct Text<'a> {
    pub bytes: &'a mut [u8],
    pub end: usize,
}

impl<'a> Text<'a> {
    // A text of which nothing is written.
    pub fn new(bytes: &'a mut [u8]) -> Text<'a>
        ensures same_reference { result.bytes.ghost_name ≡ bytes.entry.ghost_name }
        ensures bytes { result.bytes.now ≡ bytes.old }
        ensures end { result.end ≡ 0 }
    {
        Text { bytes, end: 0 }
    }

    // What is written.
    pub fn written(&self) -> &[u8]
        requires { self.now.end ≤ length self.now.bytes.now }
        ensures { result.now ≡ take self.now.end self.now.bytes.now }
    {
        let end = self.end;
        &self.bytes[..end]
    }

    // Writes one byte.
    pub(crate) fn put(&mut self, byte: u8)
        requires { HasRoom self.old (byte ∷ []) }
        ensures { Puts self.old self.new (byte ∷ []) }
    {
        self.bytes[self.end] = byte;
        self.end += 1;
    }

    // Writes the end of a line.
    pub(crate) fn end_line(&mut self)
        requires { HasRoom self.old (newline ∷ []) }
        ensures { Puts self.old self.new (newline ∷ []) }
    {
        self.put(b'\n');
    }

    // Writes some bytes.
    pub(crate) fn put_all(&mut self, bytes: &[u8])
        requires { HasRoom self.old bytes.now }
        ensures { Puts self.old self.new bytes.now }
    {
        for byte in bytes {
            self.put(*byte);
        }
    }

    // Writes a number's decimal digits: those of a tenth of it, if it has more than one, then the last. Numbers,
    // words and ranges are written so, and not by `write!`, which hands back a Result where nothing can fail.
    pub(crate) fn put_decimal(&mut self, number: usize)
        requires { HasRoom self.old (decimal number) }
        ensures { Puts self.old self.new (decimal number) }
    {
        if 10 <= number {
            self.put_decimal(number / 10);
        }
        self.put(b'0' + (number % 10) as u8);
    }

    // Writes a decision's word.
    pub(crate) fn put_decision(&mut self, decision: u8)
        requires decision_bound { decision ≤ 3 }
        requires room_for { HasRoom self.old (decision_word decision) }
        ensures { Puts self.old self.new (decision_word decision) }
    {
        match decision {
            Decision::NOT_APPLICABLE => self.put_all(b"none"),
            Decision::PERMIT => self.put_all(b"may"),
            Decision::DENY => self.put_all(b"not"),
            _ => self.put_all(b"unclear"),
        }
    }

    // Writes a range, its low and its high.
    pub(crate) fn put_range(&mut self, low: usize, high: usize)
        requires { HasRoom self.old (range low high) }
        ensures { Puts self.old self.new (range low high) }
    {
        self.put_decimal(low);
        self.put(b'-');
        self.put_decimal(high);
    }

    // Writes numbers, each after a space.
    pub(crate) fn put_items(&mut self, numbers: &[u16])
        requires { HasRoom self.old (items numbers.now) }
        ensures { Puts self.old self.new (items numbers.now) }
    {
        for number in numbers {
            self.put(b' ');
            self.put_decimal(usize::from(*number));
        }
    }
}
