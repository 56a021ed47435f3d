// Attaching: refusals 1 to 8 of the base and of the expansion, 17, 18, 19 and 11 in order, or the table.
ghost use Rattle.std.specs.Prelude.{◌≡◌, length};
ghost use Rattle.answer.specs.Answers.{counted, zeros};
ghost use Rattle.answer.specs.Numbers.{answer_by};
ghost use Rattle.attaching.specs.Attached.{attached, attached_table};

use crate::faults::fit_fault;
use crate::writing::{attached_size, write_attached};
use answer::{Answer, Refusal, Refused};
use table::Table;

// Attaches into bytes that were cleared: how many bytes the table takes, or the first refusal.
fn attach_cleared(base: &[u8], expansion: &[u8], table: &mut [u8]) -> Result<usize, Refused>
    requires { table.old ≡ zeros (length table.old) }
    ensures value { answer_by counted result ≡ attached base.now expansion.now (length table.old) }
    ensures table_after { table.new ≡ attached_table base.now expansion.now (length table.old) }
{
    let base = Table::accept(base)?;
    let expansion = Table::accept(expansion)?;
    if let Some(refusal) = fit_fault(base, expansion) {
        return Err(refusal.at(0));
    }
    let size = attached_size(base, expansion);
    if table.len() < size {
        return Err(Refusal::Room.at(0));
    }
    write_attached(base, expansion, table);
    Ok(size)
}

// Writes the base with the expansion's root as the last child of its root: how many bytes the table takes. The bytes past them become 0.
pub fn attach(base: &[u8], expansion: &[u8], table: &mut [u8]) -> Answer
    ensures value { result ≡ attached base.now expansion.now (length table.old) }
    ensures table_after { table.new ≡ attached_table base.now expansion.now (length table.old) }
{
    table.fill(0);
    match attach_cleared(base, expansion, table) {
        Ok(size) => Answer::counted(size),
        Err(refused) => Answer::from(refused),
    }
}
