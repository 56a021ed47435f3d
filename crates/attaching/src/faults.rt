// Refusals 17, 18 and 19, of two accepted tables.
ghost use Rattle.std.specs.Prelude.{◌≡◌, not, ◌<◌, eqb};
ghost use Rattle.answer.specs.Fields.{fields};
ghost use Rattle.answer.specs.Numbers.{number_or_zero};
ghost use Rattle.answer.specs.Refusals.{first_number};
ghost use Rattle.encoding.specs.Layout.{version, maximum};
ghost use Rattle.attaching.specs.Attached.{headers_differ, too_large, fit_refusals};

use answer::{FIELDS, Refusal};
use encoding::layout::{NODES, VERSION, count_at, maximum_at};
use table::Table;
use table::levels::has_last_level;
use table::reading::rule_at;

// Another maximum in a field.
fn maximum_differs(base: Table, expansion: Table, field: usize) -> bool
    requires { field < fields }
    ensures { result ≡ not (eqb (maximum base.entry.bytes.now field) (maximum expansion.entry.bytes.now field)) }
{
    maximum_at(base.bytes, field) != maximum_at(expansion.bytes, field)
}

// Refusal 18: another version, or another maximum in some field.
fn headers_differ(base: Table, expansion: Table) -> bool
    ensures { result ≡ headers_differ base.entry.bytes.now expansion.entry.bytes.now }
{
    base.bytes[VERSION] != expansion.bytes[VERSION]
        || (0..FIELDS).any(|field| maximum_differs(base, expansion, field))
}

// Refusal 19: too many nodes in all, or a node of the expansion on the last level, since all of them come to stand one level deeper.
fn too_large(base: Table, expansion: Table) -> bool
    requires { version base.bytes.now ≡ version expansion.bytes.now }
    ensures { result ≡ too_large base.entry.bytes.now expansion.entry.bytes.now }
{
    NODES < count_at(base.bytes) + count_at(expansion.bytes) || has_last_level(expansion)
}

// The first of refusals 17, 18 and 19.
pub(crate) fn fit_fault(base: Table, expansion: Table) -> Option<Refusal>
    ensures { number_or_zero result ≡ first_number (fit_refusals base.entry.bytes.now expansion.entry.bytes.now) }
{
    if rule_at(base.bytes, 0) {
        Some(Refusal::BaseIsRule)
    } else if headers_differ(base, expansion) {
        Some(Refusal::HeadersDiffer)
    } else if too_large(base, expansion) {
        Some(Refusal::TooLarge)
    } else {
        None
    }
}
