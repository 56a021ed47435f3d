// The bytes of a table, in one place: a fourth field changes FIELDS, and what is computed from it here.
ghost use Rattle.std.specs.Prelude.{◌≡◌, ◌+◌, ◌*◌, ◌^◌, ◌<◌, length};
ghost use Rattle.answer.specs.Fields.{fields};
ghost use Rattle.encoding.specs.Layout.{word, maximum, maxima, count_place, count, header, start, record_byte, record_word, kind, span, card, low, high, HeaderHeld, NodeHeld};
ghost use Rattle.encoding.specs.Ranges.{ranges_word, range_byte, low_of, high_of, ReadsBack};

use answer::FIELDS;

// The header: bytes after the first two (2), version (1), a maximum for each field, number of nodes (2).
pub const VERSION: usize = 2;

const MAXIMA: usize = 3;

const COUNT: usize = MAXIMA + FIELDS;

const HEADER: usize = COUNT + 2;

// A record: kind (1), span (2), card (2), low and high for each field.
const KIND: usize = 0;

pub(crate) const SPAN: usize = 1;

const CARD: usize = 3;

const RANGES: usize = 5;

const RECORD: usize = RANGES + 2 * FIELDS;

// How many nodes a table may have.
pub const NODES: usize = 128;

// The most bytes that a table has.
pub const MOST_BYTES: usize = HEADER + RECORD * NODES;

// How many levels a tree may have.
pub const LEVELS: usize = 8;

// The two ends of a range, both included.
#[derive(Clone, Copy)]
pub struct Range {
    pub low: u8,
    pub high: u8,
}

// The big-endian number of two bytes at p.
pub fn word_at(table: &[u8], p: usize) -> u16
    requires { p + 1 < length table.now }
    ensures { (result ≡ word table.now p) × (result < 65536) }
{
    u16::from_be_bytes([table[p], table[p + 1]])
}

// The readers ask that the header is there, or the record of a node. A type for either would be proved where it is made, as the clause is where
// a reader is called, and most callers read one number.

// How many bytes the header of a table has.
pub fn header_size(table: &[u8]) -> usize
    ensures { result ≡ header table.now }
{
    HEADER
}

// Where the record of node i starts.
pub fn start_of(table: &[u8], i: usize) -> usize
    requires { start table.now i < 2 ^ 64 }
    ensures { result ≡ start table.now i }
{
    HEADER + RECORD * i
}

// Where the number of nodes stands.
pub(crate) fn count_place(table: &[u8]) -> usize
    requires { HeaderHeld table.now }
    ensures { result ≡ count_place table.now }
{
    COUNT
}

// How many nodes the table says it has.
pub fn count_at(table: &[u8]) -> usize
    requires { HeaderHeld table.now }
    ensures { (result ≡ count table.now) × (result < 65536) }
{
    let place = count_place(table);
    usize::from(word_at(table, place))
}

// The largest value of a field.
pub fn maximum_at(table: &[u8], field: usize) -> u8
    requires { HeaderHeld table.now × (field < fields) }
    ensures { result ≡ maximum table.now field }
{
    table[MAXIMA + field]
}

// The largest value of each field, in field order.
pub fn maxima_at(table: &[u8]) -> [u16; FIELDS]
    requires { HeaderHeld table.now }
    ensures { result ≡ maxima table.now }
{
    let mut maxima = [0; FIELDS];
    for field in 0..FIELDS {
        maxima[field] = u16::from(maximum_at(table, field));
    }
    maxima
}

// The byte at place k of node i's record.
fn record_byte(table: &[u8], i: usize, k: usize) -> u8
    requires { NodeHeld table.now i × (k < 5 + 2 * fields) }
    ensures { result ≡ record_byte table.now i k }
{
    table[start_of(table, i) + k]
}

// The number of the two bytes at place k of node i's record.
fn record_word(table: &[u8], i: usize, k: usize) -> u16
    requires { NodeHeld table.now i × (k + 1 < 5 + 2 * fields) }
    ensures { (result ≡ record_word table.now i k) × (result < 65536) }
{
    word_at(table, start_of(table, i) + k)
}

// Node i's kind.
pub fn kind_at(table: &[u8], i: usize) -> u8
    requires { NodeHeld table.now i }
    ensures { result ≡ kind table.now i }
{
    record_byte(table, i, KIND)
}

// Node i's span.
pub fn span_at(table: &[u8], i: usize) -> usize
    requires { NodeHeld table.now i }
    ensures { (result ≡ span table.now i) × (result < 65536) }
{
    usize::from(record_word(table, i, SPAN))
}

// Node i's span where it is short, as in an accepted table: its low byte alone. It stands beside `span_at` for speed: a walk that reads both
// bytes knows the next node later, and rules by a flat table in up to 1.17 times the time.
pub fn short_span_at(table: &[u8], i: usize) -> usize
    requires { NodeHeld table.now i × (span table.now i < 256) }
    ensures { (result ≡ span table.now i) × (result < 256) }
{
    usize::from(record_byte(table, i, SPAN + 1))
}

// Node i's card.
pub fn card_at(table: &[u8], i: usize) -> u16
    requires { NodeHeld table.now i }
    ensures { (result ≡ card table.now i) × (result < 65536) }
{
    record_word(table, i, CARD)
}

// Node i's range in a field.
pub fn range_at(table: &[u8], i: usize, field: usize) -> Range
    requires { NodeHeld table.now i × (field < fields) }
    ensures { (result.low ≡ low table.now i field) × (result.high ≡ high table.now i field) }
{
    Range {
        low: record_byte(table, i, RANGES + 2 * field),
        high: record_byte(table, i, RANGES + 2 * field + 1),
    }
}

// Node i's range bytes gathered into one word, from which its target is tested: low and high of each field, in field order.
pub fn ranges_at(table: &[u8], i: usize) -> u64
    requires { NodeHeld table.now i }
    ensures value { result ≡ ranges_word table.now i }
    ensures reads_back { ReadsBack result table.now i }
{
    let mut word = 0;
    for field in 0..FIELDS {
        let range = range_at(table, i, field);
        word = (word * 256 + u64::from(range.low)) * 256 + u64::from(range.high);
    }
    word
}

// The byte at place k of such a word.
fn range_byte(ranges: u64, k: usize) -> u8
    requires { k < 2 * fields }
    ensures { result ≡ range_byte ranges k }
{
    ((ranges >> (8 * (2 * FIELDS - 1 - k))) % 256) as u8
}

// A field's range, read back from such a word.
pub fn range_of(ranges: u64, field: usize) -> Range
    requires { field < fields }
    ensures { (result.low ≡ low_of ranges field) × (result.high ≡ high_of ranges field) }
{
    Range {
        low: range_byte(ranges, 2 * field),
        high: range_byte(ranges, 2 * field + 1),
    }
}
