// Writing the table: bytes are copied, and nothing is decoded.
ghost use Rattle.std.specs.Prelude.{◌≡◌, ◌+◌, ◌≤◌, ◌<◌, length};
ghost use Rattle.std.proofs.lemmas.List.Edits.{sets};
ghost use Rattle.answer.specs.Answers.{zeros, padded};
ghost use Rattle.attaching.specs.Attached.{joined, attached_bytes};

use answer::store;
use encoding::layout::{count_at, header_size};
use encoding::writing::{put_bytes_after, put_count, put_span};
use table::Table;

// How many bytes the table takes: the base's, and those of the expansion's nodes.
pub(crate) fn attached_size(base: Table, expansion: Table) -> usize
    ensures { (result ≡ length (attached_bytes base.entry.bytes.now expansion.entry.bytes.now)) × (result < 65536) }
{
    let header = header_size(expansion.bytes);
    base.bytes.len() + (expansion.bytes.len() - header)
}

// The base's bytes, and then the expansion's nodes.
fn join(base: Table, expansion: Table, table: &mut [u8])
    requires { length (joined base.bytes.now expansion.bytes.now) ≤ length table.old }
    ensures { table.new ≡ sets table.old 0 (joined base.entry.bytes.now expansion.entry.bytes.now) }
{
    let header = header_size(expansion.bytes);
    store(base.bytes, table, 0);
    store(&expansion.bytes[header..], table, base.bytes.len());
}

// The table into zeros that have room for it.
pub(crate) fn write_attached(base: Table, expansion: Table, table: &mut [u8])
    requires { (table.old ≡ zeros (length table.old)) × (length (attached_bytes base.bytes.now expansion.bytes.now) ≤ length table.old) }
    ensures { table.new ≡ padded (attached_bytes base.entry.bytes.now expansion.entry.bytes.now) (length table.old) }
{
    let size = attached_size(base, expansion);
    let base_nodes = count_at(base.bytes);
    let nodes = base_nodes + count_at(expansion.bytes);
    join(base, expansion, table);
    put_bytes_after(table, (size - 2) as u16);
    put_count(table, nodes as u16);
    put_span(table, 0, nodes as u16);
}
