// Building: refusals 1 to 8 and 11 in order, or the diagram.
ghost use Rattle.std.specs.Prelude.{◌≡◌, length};
ghost use Rattle.answer.specs.Answers.{counted, zeros};
ghost use Rattle.answer.specs.Numbers.{answer_by};
ghost use Rattle.building.specs.Built.{built, built_diagram};

use crate::header::write_header;
use crate::walking::walk_all;
use answer::{Answer, Refusal, Refused, clear};
use diagram::HEADER;
use table::Table;

// Builds the diagram of a table in room that was cleared: how many places it uses, or the first refusal.
fn build_cleared(bytes: &[u8], diagram: &mut [u16]) -> Result<usize, Refused>
    requires { diagram.old ≡ zeros (length diagram.old) }
    ensures value { answer_by counted result ≡ built bytes.now (length diagram.old) }
    ensures diagram_after { diagram.new ≡ built_diagram bytes.now (length diagram.old) }
{
    let table = Table::accept(bytes)?;
    if diagram.len() < HEADER {
        return Err(Refusal::Room.at(0));
    }
    let Some(root) = walk_all(table, diagram) else {
        clear(diagram);
        return Err(Refusal::Room.at(0));
    };
    write_header(diagram, root.end as u16, root.place as u16, bytes);
    Ok(root.end)
}

// Builds the diagram of a table: how many places it uses. The places past them become 0.
pub fn build(table: &[u8], diagram: &mut [u16]) -> Answer
    ensures value { result ≡ built table.now (length diagram.old) }
    ensures diagram_after { diagram.new ≡ built_diagram table.now (length diagram.old) }
{
    clear(diagram);
    match build_cleared(table, diagram) {
        Ok(places) => Answer::counted(places),
        Err(refused) => Answer::from(refused),
    }
}
