// The cases of standard input, whose head describes them: what the library answers and writes, compared with what each
// case says.
#![tactic(auto)]

mod calls;
mod given;
mod numbers;
mod script;
mod tally;

use std::io;
use std::io::Read;
use tally::Tally;

// Room for more than the whole input.
const ROOM: usize = 524288;

fn main(rt: HostRuntime) -> io::Result<()> {
    let alloc = rt.alloc();
    let mut bytes = Vec::new(alloc);
    rt.stdin().take(ROOM as u64).read_to_end(&mut bytes)?;
    let mut tally = Tally::new(alloc);
    script::run(&rt, alloc, &bytes, &mut tally)?;
    if bytes.len() >= ROOM {
        tally.not_understood(&rt, b"input past the room for it")?;
    }
    tally.print(&rt)
}
