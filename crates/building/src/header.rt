// The header of a diagram.
ghost use Rattle.std.specs.Prelude.{◌≡◌, ◌∷◌, ◌≤◌, length};
ghost use Rattle.std.proofs.lemmas.List.Edits.{sets};
ghost use Rattle.answer.specs.Fields.{fields};
ghost use Rattle.encoding.specs.Layout.{maxima, HeaderHeld};
ghost use Rattle.diagram.specs.Layout;

use answer::store;
use encoding::layout::maxima_at;

// The places used, the place of the root and the maxima, to the start of a diagram.
pub(crate) fn write_header(diagram: &mut [u16], used: u16, root: u16, table: &[u8])
    requires header_held { HeaderHeld table.now }
    requires fields_in_bounds { Rattle.diagram.specs.Layout.header fields ≤ length diagram.old }
    ensures { diagram.new ≡ sets diagram.old 0 (used ∷ root ∷ maxima table.now) }
{
    diagram[0] = used;
    diagram[1] = root;
    let maxima = maxima_at(table);
    store(&maxima, diagram, 2);
}
