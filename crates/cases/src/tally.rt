// How many cases there are of each call, and how many differ.
use crate::calls::Call;
use std::alloc::Global;
use std::collections::BTreeMap;
use std::io;

// The numbers of a call's answers are less than this.
const NUMBERS: usize = 32;

// What a case's call answered, and up to which of the places that it was lent it wrote what is due.
#[derive(Clone, Copy)]
pub(crate) struct Outcome {
    pub call: &'static str,
    pub due: [usize; 5],
    pub answer: [usize; 5],
    pub place: usize,
    pub places: usize,
}

// How many cases of each call are due each number; and how many differ.
#[derive(Drop)]
pub(crate) struct Tally {
    due: BTreeMap<(&'static str, usize), usize>,
    differences: usize,
}

impl Tally {
    pub(crate) fn new(alloc: Global) -> Self {
        Self {
            due: BTreeMap::new(alloc),
            differences: 0,
        }
    }

    // A line that says no case that can be made.
    pub(crate) fn not_understood(&mut self, rt: &impl Print, name: &[u8]) -> io::Result<()> {
        self.differences = self.differences.wrapping_add(1);
        rt.write_all(name)?;
        println!(rt; ": not understood")
    }

    // A case, which differs if it has another answer, or another number than is due at some lent place.
    pub(crate) fn count(
        &mut self,
        rt: &impl Print,
        name: &[u8],
        outcome: &Outcome,
    ) -> io::Result<()> {
        let cases = self
            .due
            .entry((outcome.call, outcome.due[0] % NUMBERS))?
            .or_insert(0);
        *cases = cases.wrapping_add(1);
        if outcome.answer == outcome.due && outcome.place == outcome.places {
            return Ok(());
        }
        self.differences = self.differences.wrapping_add(1);
        rt.write_all(name)?;
        print!(rt; ": answered")?;
        for number in outcome.answer {
            print!(rt; " {number}")?;
        }
        println!(rt;
            ", written as due up to place {} of {}",
            outcome.place, outcome.places
        )
    }

    // A line for each call, and one for the differences.
    pub(crate) fn print(&self, rt: &impl Print) -> io::Result<()> {
        for name in Call::NAMES {
            self.print_call(rt, name)?;
        }
        println!(rt; "differences {}", self.differences)
    }

    // How many cases of a call are due each number, and how many there are in all.
    fn print_call(&self, rt: &impl Print, name: &str) -> io::Result<()> {
        let mut all = 0usize;
        print!(rt; "{name}:")?;
        for ((call, number), cases) in self.due.iter() {
            if *call == name {
                print!(rt; " {cases} due {number},")?;
                all = all.wrapping_add(*cases);
            }
        }
        println!(rt; " in all {all}")
    }
}
