// The levels of an accepted table's nodes.
ghost use Rattle.std.specs.Prelude.{◌≡◌};
ghost use Rattle.table.specs.Tree.{has_level};

use crate::accepted::Table;
use crate::reading::depth_above;
use encoding::layout::{LEVELS, count_at, span_at};

// Whether some node is on the last level that is allowed: one pass over the nodes, as far as such a one.
pub fn has_last_level(table: Table) -> bool
    ensures { result ≡ has_level table.entry.bytes.now 8 }
{
    let n = count_at(table.bytes);
    // Where the open node of each level ends. Level 0 is the table itself.
    let mut ends = [n; LEVELS + 1];
    let mut depth = 0;
    for i in 0..n {
        depth = depth_above(&ends, depth, i);
        if LEVELS <= depth + 1 {
            return true;
        }
        let span = span_at(table.bytes, i);
        // A node without children opens no level.
        if 1 < span {
            depth += 1;
            ends[depth] = i + span;
        }
    }
    false
}
