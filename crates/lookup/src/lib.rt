// Ruling by a diagram from anyone: refusals 12, 9 and 10 in order, or the decision and the cards.
#![tactic(auto)]

ghost use Rattle.std.specs.Prelude.{◌≡◌, ◌+◌, ◌*◌, ◌-◌, ◌≤◌, ◌<◌, length};
ghost use Rattle.answer.specs.Fields.{fields};
ghost use Rattle.answer.specs.Answers.{zeros};
ghost use Rattle.answer.specs.Numbers.{answer_by};
ghost use Rattle.answer.specs.Requests.{Within};
ghost use Rattle.diagram.specs.Layout.{most_places, maximum, level_at, edges_at};
ghost use Rattle.diagram.specs.LookUp.{edge, child};
ghost use Rattle.diagram.specs.Sound.{SoundNode};
ghost use Rattle.diagram.specs.Landed.{Landed};
ghost use Rattle.diagram.specs.LookedUp.{sound_looked_up, sound_looked_up_list, looked_up, looked_up_list};

use answer::{Answer, FIELDS, Refusal, Refused, Request, clear, field_fault, store};
use diagram::HEADER;
use diagram::layout::edges_of;
use soundness::checked::SoundDiagram;

// The edge of a value at the sound node at a place: the first that does not end below it. Last values rise. It asks for a sound
// node and no sound diagram, so that it asks no more than it needs.
pub fn edge_of(diagram: &[u16], place: usize, value: u16) -> usize
    requires place_lt_most_places { (place < most_places) × (place + 2 + 2 * edges_at diagram.now place ≤ length diagram.now) }
    requires sound_node { SoundNode fields diagram.now place }
    requires value_bound { value ≤ maximum diagram.now (level_at diagram.now place - 1) }
    ensures { (result ≡ edge diagram.now place value) × (result < edges_at diagram.now place) }
{
    edges_of(diagram, place).partition_point(|edge| edge[0] < value)
}

// The child for a value of the sound node at a place.
fn child_of(diagram: &[u16], place: usize, value: u16) -> usize
    requires place_lt_most_places { (place < most_places) × (place + 2 + 2 * edges_at diagram.now place ≤ length diagram.now) }
    requires sound_node { SoundNode fields diagram.now place }
    requires value_bound { value ≤ maximum diagram.now (level_at diagram.now place - 1) }
    ensures { (result ≡ child diagram.now place value) × (result < 65536) }
{
    let edge = edge_of(diagram, place, value);
    usize::from(diagram[place + 3 + 2 * edge])
}

// The place of the terminal that the values reach from the root of a diagram.
fn descend(diagram: SoundDiagram, values: [u16; FIELDS]) -> usize
    requires { Within (maximum diagram.numbers.now) values }
    ensures { Landed diagram.entry.numbers.now values result }
{
    let mut place = usize::from(diagram.numbers[1]);
    for value in values {
        place = child_of(diagram.numbers, place, value);
    }
    place
}

// Rules on a request by a sound diagram, with a list that was cleared: refusal 9 or 10, or the decision and the cards.
fn look_up_checked(
    diagram: SoundDiagram,
    request: Request,
    cards: &mut [u16],
) -> Result<Answer, Refused>
    requires { cards.old ≡ zeros (length cards.old) }
    ensures value { answer_by (λ answer. answer) result ≡ sound_looked_up diagram.entry.numbers.now request.values (length cards.old) }
    ensures cards_after { cards.new ≡ sound_looked_up_list diagram.entry.numbers.now request.values (length cards.old) }
{
    let numbers = diagram.numbers;
    let values = request.values;
    if let Some(field) = field_fault(&numbers[2..HEADER], &values, 0) {
        return Err(Refusal::Value.at(field));
    }
    let place = descend(diagram, values);
    let count = usize::from(numbers[place + 2]);
    if cards.len() < count {
        return Err(Refusal::ListTooShort.at(0));
    }
    let from = place + 3;
    let to = from + count;
    store(&numbers[from..to], cards, 0);
    Ok(Answer::ruled(numbers[place + 1] as u8, count, 0))
}

// Rules on a request by a sound diagram, with a list that was cleared: refusals 9 and 10 in order, or the decision and the cards.
pub fn look_up_sound(diagram: SoundDiagram, request: Request, cards: &mut [u16]) -> Answer
    requires { cards.old ≡ zeros (length cards.old) }
    ensures value { result ≡ sound_looked_up diagram.entry.numbers.now request.values (length cards.old) }
    ensures cards_after { cards.new ≡ sound_looked_up_list diagram.entry.numbers.now request.values (length cards.old) }
{
    look_up_checked(diagram, request, cards).unwrap_or_else(Answer::from)
}

// Rules on a request by a diagram: the decision, and in the list the terminal's cards, with zeros after them.
pub fn look_up(diagram: &[u16], request: Request, cards: &mut [u16]) -> Answer
    ensures value { result ≡ looked_up diagram.now request.values (length cards.old) }
    ensures cards_after { cards.new ≡ looked_up_list diagram.now request.values (length cards.old) }
{
    clear(cards);
    let Some(sound) = SoundDiagram::check(diagram) else {
        return Answer::from(Refusal::Diagram.at(0));
    };
    look_up_sound(sound, request, cards)
}
