// Writing the numbers of two bytes that a table's header and its records hold.
ghost use Rattle.std.specs.Prelude.{◌≡◌, ◌+◌, ◌<◌, length};
ghost use Rattle.encoding.specs.Layout.{HeaderHeld, NodeHeld};
ghost use Rattle.encoding.specs.Writing.{with_word, with_bytes_after, with_count, with_span};

use crate::layout::{SPAN, count_place, start_of};

// A number into the two bytes at p, big-endian.
fn put_word(table: &mut [u8], p: usize, number: u16)
    requires { p + 1 < length table.old }
    ensures { table.new ≡ with_word table.old p number }
{
    let [high, low] = number.to_be_bytes();
    table[p] = high;
    table[p + 1] = low;
}

// How many bytes stand after the first two.
pub fn put_bytes_after(table: &mut [u8], bytes: u16)
    requires { HeaderHeld table.old }
    ensures { table.new ≡ with_bytes_after table.old bytes }
{
    put_word(table, 0, bytes);
}

// How many nodes there are.
pub fn put_count(table: &mut [u8], nodes: u16)
    requires { HeaderHeld table.old }
    ensures { table.new ≡ with_count table.old nodes }
{
    let place = count_place(table);
    put_word(table, place, nodes);
}

// Node i's span.
pub fn put_span(table: &mut [u8], i: usize, span: u16)
    requires { NodeHeld table.old i }
    ensures { table.new ≡ with_span table.old i span }
{
    let start = start_of(table, i);
    put_word(table, start + SPAN, span);
}
