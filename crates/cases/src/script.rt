// The lines of the input, one after another.
use crate::calls::Call;
use crate::given::{Given, PLACES};
use crate::numbers::{Fault, decimal, decimals, ended, text};
use crate::tally::{Outcome, Tally};
use answer::Answer;
use std::alloc::{AllocError, Global};
use std::io;

pub(crate) fn run(
    rt: &impl Print,
    alloc: Global,
    script: &[u8],
    tally: &mut Tally,
) -> io::Result<()> {
    let mut given = Given::new(alloc);
    for line in script.split(|byte| *byte == b'\n') {
        if !line.is_empty() && !line.starts_with(b"#") {
            take(rt, line, &mut given, tally)?;
        }
    }
    Ok(())
}

// A case, which has its name before a colon, or what the cases after it start from.
fn take(rt: &impl Print, line: &[u8], given: &mut Given, tally: &mut Tally) -> io::Result<()> {
    let mut parts = line.splitn(2, |byte| *byte == b':');
    let name = parts.next().unwrap_or(line);
    let taken = match parts.next() {
        Some(case) => outcome(case, given).map(Some),
        None => given.take(line).map(|()| None),
    };
    match taken {
        Ok(None) => Ok(()),
        Ok(Some(outcome)) => tally.count(rt, name, &outcome),
        Err(Fault::NotUnderstood) => tally.not_understood(rt, name),
        Err(Fault::OutOfMemory) => Err(io::Error::from(AllocError)),
    }
}

// A case without its name, `CALL; CHANGES; ANSWER; WRITTEN`: its call is made.
fn outcome(case: &[u8], given: &Given) -> Result<Outcome, Fault> {
    let alloc = given.alloc;
    // Where there are more than four, the fifth is all the rest, so that no more than five are kept.
    let parts: Vec<&str> = text(case)?.splitn(5, ';').map(ended).collect(alloc)?;
    let [call, changes, answer, written] = *parts.as_slice() else {
        return Err(Fault::NotUnderstood);
    };
    let (call, places) = Call::parse(alloc, call)?;
    let due: [u16; 5] = decimals(alloc, answer)?;
    if places > PLACES {
        return Err(Fault::NotUnderstood);
    }
    let mut written = decimal(alloc, written, places)?;
    written.reserve_exact(places.saturating_sub(written.len()))?;
    written.resize(places, 0)?;
    // What is lent holds a mark at each place, another number than 0 and than the one that is due there.
    let mut lent: Vec<u16> = written
        .iter()
        .map(|number| *number % 255 + 1)
        .collect(alloc)?;
    let answer = call.ask(given, changes, &mut lent)?;
    let differs = lent
        .iter()
        .zip(written.iter())
        .position(|(is, due)| is != due);
    Ok(Outcome {
        call: call.name(),
        due: due.map(usize::from),
        answer: fields(answer),
        // A number of places, which is all of them where none differs.
        place: differs.unwrap_or(places),
        places,
    })
}

// Number, place, decision, count and subjects.
fn fields(answer: Answer) -> [usize; 5] {
    [
        usize::from(answer.number),
        answer.place,
        usize::from(answer.decision),
        answer.count,
        answer.subjects,
    ]
}
