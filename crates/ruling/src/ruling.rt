// Ruling by groups: refusals 1 to 8, 13, 9 and 10 in order, or the decision and the cards.
ghost use Rattle.std.specs.Prelude.{◌≡◌, length};
ghost use Rattle.answer.specs.Answers.{zeros};
ghost use Rattle.answer.specs.Rulings.{ruled_or};
ghost use Rattle.targets.specs.Subjects.{size};
ghost use Rattle.ruling.specs.Ruling.{groups_together, asked_refusals, ruling_refusals, ruled_answer, for_subjects, listed_after, ruling, ruled_list};

use crate::groups::{Ruled, rule_read};
use answer::{Answer, JointRequest, Refusal, Refused, clear, field_fault};
use encoding::layout::maxima_at;
use sets::ones_at;
use table::Table;
use targets::subjects_fault;

// Rules on a request of several subjects together by an accepted table, with a list that was cleared: refusals 13, 9 and 10 in order, or the
// decision and the number of cards.
pub fn rule_accepted(
    table: Table,
    request: JointRequest,
    cards: &mut [u16],
) -> Result<Ruled, Refused>
    requires { cards.old ≡ zeros (length cards.old) }
    ensures value { ruled_answer result ≡ ruled_or (asked_refusals table.entry.bytes.now request.subjects request.others (length cards.old)) (groups_together table.entry.bytes.now request.subjects request.others) 0 }
    ensures cards_after { cards.new ≡ listed_after (asked_refusals table.entry.bytes.now request.subjects request.others (length cards.old)) table.entry.bytes.now request.subjects request.others (length cards.old) }
{
    let maxima = maxima_at(table.bytes);
    if subjects_fault(request.subjects, maxima[0]) {
        return Err(Refusal::Subjects.at(0));
    }
    if let Some(field) = field_fault(&maxima, &request.others, 1) {
        return Err(Refusal::Value.at(field));
    }
    let root = rule_read(table, request, cards);
    if cards.len() < root.count {
        clear(cards);
        return Err(Refusal::ListTooShort.at(0));
    }
    Ok(root)
}

// The answer with the number of subjects, whichever answer it is. It is made part by part, since a copy of the whole would wait until all
// parts are in memory.
pub fn for_subjects(answer: Answer, subjects: u64) -> Answer
    ensures { result ≡ for_subjects answer (size subjects) }
{
    if answer.number != 0 {
        Answer::refused(answer.number, answer.place)
    } else {
        Answer::ruled(answer.decision, answer.count, ones_at(subjects))
    }
}

// The answer of a ruling on several subjects, with how many they are, or of its refusal: made straight from the outcome, with no answer between.
pub fn outcome_for_subjects(outcome: Result<Ruled, Refused>, subjects: u64) -> Answer
    ensures { result ≡ for_subjects (ruled_answer outcome) (size subjects) }
{
    match outcome {
        Ok(root) => Answer::ruled(root.decision, root.count, ones_at(subjects)),
        Err(refused) => Answer::from(refused),
    }
}

// Rules on a request of several subjects together, with a list that was cleared: the first refusal of the table or of what it is asked,
// or the decision and the number of cards.
fn rule_checked(bytes: &[u8], request: JointRequest, cards: &mut [u16]) -> Result<Ruled, Refused>
    requires { cards.old ≡ zeros (length cards.old) }
    ensures value { ruled_answer result ≡ ruled_or (ruling_refusals bytes.now request.subjects request.others (length cards.old)) (groups_together bytes.now request.subjects request.others) 0 }
    ensures cards_after { cards.new ≡ ruled_list bytes.now request.subjects request.others (length cards.old) }
{
    let table = Table::accept(bytes)?;
    rule_accepted(table, request, cards)
}

// Rules on a request of several subjects together: the decision, how many subjects they are, and in the list the cards of all
// matching rules, with zeros after them.
pub fn rule(table: &[u8], request: JointRequest, cards: &mut [u16]) -> Answer
    ensures value { result ≡ ruling table.now request.subjects request.others (length cards.old) }
    ensures cards_after { cards.new ≡ ruled_list table.now request.subjects request.others (length cards.old) }
{
    clear(cards);
    let outcome = rule_checked(table, request, cards);
    outcome_for_subjects(outcome, request.subjects)
}
