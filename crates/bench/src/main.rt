// Runs examples of document 01 that are not numbered, and of document 02, through the compiled gateway, and prints a line for each: refusals
// by one fault and by two, every refusal at its edge, the session of four records, the two-hour incident, and SYN with something odd beside
// it.
#![tactic(auto)]

mod edges;
mod flags;
mod inputs;
mod lines;
mod packets;
mod pairs;
mod session;
mod trials;

use std::io;
use std::io::{BufWriter, Write};

// A line that cannot be written ends it with that error.
fn main(rt: HostRuntime) -> io::Result<()> {
    let mut out = BufWriter::new(rt.alloc(), rt.stdout())?;
    pairs::run(&mut out)?;
    edges::run(&mut out)?;
    session::run(&mut out)?;
    out.flush()
}
