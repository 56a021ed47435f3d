// Prints what a table rules, read from standard input: a line for each path of its diagram, or the refusal.
#![tactic(auto)]

ghost use Rattle.std.specs.Prelude.{◌≡◌, length};
ghost use Rattle.std.specs.Io.{ReadsAtMost};

use answer::{Answer, FIELDS, Refusal};
use building::build;
use diagram::MOST_PLACES;
use encoding::layout::MOST_BYTES;
use listing::LINE;
use listing::lines::{fields_line, refused_line};
use listing::pages::fill;
use listing::text::Text;
use soundness::checked::SoundDiagram;
use std::io;
use std::io::Read;

// How many bytes of the listing are written at a time.
const PAGE: usize = 65536;

// More input than a table can have is refusal 1, at 0.
fn main(rt: HostRuntime) -> io::Result<()> {
    let mut input = [0u8; MOST_BYTES + 1];
    let n = read_full(&mut rt.stdin(), &mut input)?;
    if n > MOST_BYTES {
        return print_refusal(&rt, Answer::from(Refusal::Length.at(0)));
    }
    print_rulings(&rt, &input[..n])
}

// Reads until the buffer is full or the input ends, and returns how many bytes it put at the start of the buffer.
fn read_full(input: &mut impl Read, buffer: &mut [u8]) -> io::Result<usize>
    ensures { ReadsAtMost result buffer.new }
{
    let mut done = 0;
    // Not `read_exact`, which fails where the input ends early, nor `read_to_end`, which needs a heap.
    while done < buffer.len() {
        let n = input.read(&mut buffer[done..])?;
        if n == 0 {
            return Ok(done);
        }
        done += n;
    }
    Ok(done)
}

// Builds the table's diagram, and prints what it rules.
fn print_rulings(rt: &impl Print, table: &[u8]) -> io::Result<()> {
    let mut diagram = [0u16; MOST_PLACES];
    let built = build(table, &mut diagram);
    // A number, since C reads the answer.
    if built.number != 0 {
        return print_refusal(rt, built);
    }
    // What was built needs no check: it is sound.
    let sound = SoundDiagram { numbers: &diagram };
    print_listing(rt, sound)
}

fn print_refusal(rt: &impl Print, refusal: Answer) -> io::Result<()> {
    let mut bytes = [0u8; LINE];
    let mut text = Text::new(&mut bytes);
    refused_line(refusal.number, refusal.place, &mut text);
    rt.write_all(text.written())
}

// Prints every path of a sound diagram, in rising order, a text full of lines at a time.
fn print_listing(rt: &impl Print, diagram: SoundDiagram) -> io::Result<()> {
    let mut bytes = empty_page();
    let mut text = Text::new(&mut bytes);
    fields_line(diagram.numbers, &mut text);
    let mut next = Some([0u16; FIELDS]);
    while let Some(values) = next {
        next = fill(diagram, values, &mut text);
        rt.write_all(text.written())?;
        text.end = 0;
    }
    Ok(())
}

// The `ensures` gives only the length, which lending the page as a slice needs.
fn empty_page() -> [u8; PAGE]
    ensures { PAGE ≡ length result }
{
    [0; PAGE]
}
