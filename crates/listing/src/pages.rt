// A listing page by page, so that a text of any length from one line on can hold it.
ghost use Rattle.std.specs.Prelude.{◌≡◌, ◌+◌, ◌≤◌, length};
ghost use Rattle.answer.specs.Requests.{Within};
ghost use Rattle.diagram.specs.Layout.{maximum};
ghost use Rattle.listing.specs.Text.{most_line};
ghost use Rattle.listing.specs.Paths.{after};
ghost use Rattle.listing.specs.Listing.{Paged, Onward};

use crate::LINE;
use crate::lines::line;
use crate::paths::next;
use crate::text::Text;
use answer::FIELDS;
use soundness::checked::SoundDiagram;

// Writes the lines from a request on, in rising order, as long as there is room for a longest line. Returns the request that is next, if any is.
pub fn fill(diagram: SoundDiagram, values: [u16; FIELDS], text: &mut Text) -> Option<[u16; FIELDS]>
    requires within { Within (maximum diagram.numbers.now) values }
    requires line_fits { text.old.end + most_line ≤ length text.old.bytes.now }
    ensures paged { Paged diagram.entry.numbers.now values text.old.bytes.now text.new.bytes.now text.old.end text.new.end (after result) }
    ensures onward { Onward diagram.entry.numbers.now values (after result) × (text.new.end ≤ length text.old.bytes.now) }
    ensures same_reference { text.new.bytes.ghost_name ≡ text.old.bytes.ghost_name }
{
    let mut request = values;
    // No index is counted: each request comes from the one before.
    loop {
        line(diagram, request, text);
        let Some(following) = next(diagram, request) else {
            return None;
        };
        if text.bytes.len() - text.end < LINE {
            return Some(following);
        }
        request = following;
    }
}
