// The library's calls for C. `include/kolfsein.h` declares them: a slice is a pointer and then its length. C has no generics and no Result,
// so each call has a name of its own, takes its values one by one, and answers by numbers.
#![tactic(auto)]

ghost use Rattle.std.specs.Prelude.{◌≡◌, [], ◌∷◌, length};
ghost use Rattle.table.specs.Reading.{reading};
ghost use Rattle.ruling.specs.Ruling.{ruling, ruled_list};
ghost use Rattle.standard.specs.Profile.{reading_standard};
ghost use Rattle.standard.specs.RulingStandard.{ruling_standard, ruled_list_standard};
ghost use Rattle.attaching.specs.Attached.{attached, attached_table};
ghost use Rattle.building.specs.Built.{built, built_diagram};
ghost use Rattle.diagram.specs.LookedUp.{looked_up, looked_up_list};

use answer::{Answer, JointRequest, Request};
use attaching::attach;
use building::build;
use lookup::look_up;
use ruling::rule;
use standard::{read_standard, rule_standard};
use table::read;

// The interface's number, which is in the name too, so that a caller of another interface does not link. Both move
// whenever a struct or a signature here changes, with `KOLFSEIN_INTERFACE` in the header and `INTERFACE` in Rust.
#[unsafe(no_mangle)]
pub extern "C" fn kolfsein_interface_1() -> u8
    ensures { result ≡ 1 }
{
    1
}

// Reads a table.
#[unsafe(no_mangle)]
pub extern "C" fn kolfsein_read(table: &[u8]) -> Answer
    ensures { result ≡ reading table.now }
{
    read(table)
}

// Rules on several subjects that ask together, by a table's groups, with the cards of all matching rules.
#[unsafe(no_mangle)]
pub extern "C" fn kolfsein_rule(
    table: &[u8],
    subjects: u64,
    resource: u16,
    action: u16,
    cards: &mut [u16],
) -> Answer
    ensures value { result ≡ ruling table.now subjects (resource ∷ action ∷ []) (length cards.old) }
    ensures cards_after { cards.new ≡ ruled_list table.now subjects (resource ∷ action ∷ []) (length cards.old) }
{
    let request = JointRequest {
        subjects,
        others: [resource, action],
    };
    rule(table, request, cards)
}

// Reads a table by the convention profile.
#[unsafe(no_mangle)]
pub extern "C" fn kolfsein_read_standard(table: &[u8]) -> Answer
    ensures { result ≡ reading_standard table.now }
{
    read_standard(table)
}

// Rules by the convention profile on several subjects that ask together, with the cards of all matching rules.
#[unsafe(no_mangle)]
pub extern "C" fn kolfsein_rule_standard(
    table: &[u8],
    subjects: u64,
    resource: u16,
    action: u16,
    cards: &mut [u16],
) -> Answer
    ensures value { result ≡ ruling_standard table.now subjects (resource ∷ action ∷ []) (length cards.old) }
    ensures cards_after { cards.new ≡ ruled_list_standard table.now subjects (resource ∷ action ∷ []) (length cards.old) }
{
    let request = JointRequest {
        subjects,
        others: [resource, action],
    };
    rule_standard(table, request, cards)
}

// Builds the diagram of a table in the room that is lent.
#[unsafe(no_mangle)]
pub extern "C" fn kolfsein_build(table: &[u8], diagram: &mut [u16]) -> Answer
    ensures value { result ≡ built table.now (length diagram.old) }
    ensures diagram_after { diagram.new ≡ built_diagram table.now (length diagram.old) }
{
    build(table, diagram)
}

// Rules on a request by a diagram, with the cards of the terminal that it reaches.
#[unsafe(no_mangle)]
pub extern "C" fn kolfsein_look_up(
    diagram: &[u16],
    subject: u16,
    resource: u16,
    action: u16,
    cards: &mut [u16],
) -> Answer
    ensures value { result ≡ looked_up diagram.now (subject ∷ resource ∷ action ∷ []) (length cards.old) }
    ensures cards_after { cards.new ≡ looked_up_list diagram.now (subject ∷ resource ∷ action ∷ []) (length cards.old) }
{
    let request = Request {
        values: [subject, resource, action],
    };
    look_up(diagram, request, cards)
}

// Fits an expansion to a base table, in the bytes that are lent.
#[unsafe(no_mangle)]
pub extern "C" fn kolfsein_attach(base: &[u8], expansion: &[u8], table: &mut [u8]) -> Answer
    ensures value { result ≡ attached base.now expansion.now (length table.old) }
    ensures table_after { table.new ≡ attached_table base.now expansion.now (length table.old) }
{
    attach(base, expansion, table)
}
