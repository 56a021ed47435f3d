// Reading and ruling by the profile: after refusals 1 to 8 come 14, 15 and 16; all else is as without it.
ghost use Rattle.std.specs.Prelude.{◌≡◌, length, IfOk};
ghost use Rattle.answer.specs.Answers.{counted};
ghost use Rattle.answer.specs.Numbers.{answer_by};
ghost use Rattle.encoding.specs.Layout.{count};
ghost use Rattle.standard.specs.Profile.{reading_standard};
ghost use Rattle.standard.specs.RulingStandard.{ruling_standard, ruled_list_standard};

use crate::profile::check_profile;
use answer::{Answer, JointRequest, Refused, clear};
use encoding::layout::count_at;
use ruling::{outcome_for_subjects, rule_accepted};
use table::Table;
use table::reading::read_conformance;

// Accepts a table by the profile, or gives its first refusal.
fn accept_standard<'a>(bytes: &'a [u8]) -> Result<Table<'a>, Refused>
    ensures value { answer_by (λ _. counted (count bytes.now)) result ≡ reading_standard bytes.now }
    ensures same_bytes { IfOk result (λ table. table.bytes.now ≡ bytes.now) }
{
    let conforming = read_conformance(bytes)?;
    let table = Table { bytes };
    if !conforming {
        check_profile(table)?;
    }
    Ok(table)
}

// Reads a table by the profile: the number of its nodes, or the first refusal.
pub fn read_standard(table: &[u8]) -> Answer
    ensures { result ≡ reading_standard table.now }
{
    match accept_standard(table) {
        Ok(_) => Answer::counted(count_at(table)),
        Err(refused) => Answer::from(refused),
    }
}

// Rules by the profile on a request of several subjects together: the decision, how many subjects they are, and in the list the cards of
// all matching rules, with zeros after them.
pub fn rule_standard(table: &[u8], request: JointRequest, cards: &mut [u16]) -> Answer
    ensures value { result ≡ ruling_standard table.now request.subjects request.others (length cards.old) }
    ensures cards_after { cards.new ≡ ruled_list_standard table.now request.subjects request.others (length cards.old) }
{
    clear(cards);
    let accepted = match accept_standard(table) {
        Ok(accepted) => accepted,
        Err(refused) => return Answer::from(refused),
    };
    let outcome = rule_accepted(accepted, request, cards);
    outcome_for_subjects(outcome, request.subjects)
}
