// Document 02's K1: reads a capture on standard input, and writes the records that were forwarded as a capture on standard output.
#![tactic(auto)]

use outputs::Output;

fn main(rt: HostRuntime) {
    programs::replay(&rt, Output::Forwarded);
}
