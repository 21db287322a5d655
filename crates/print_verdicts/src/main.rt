// Document 01's printing program: reads a capture on standard input, and prints a line for each record.
#![tactic(auto)]

use outputs::Output;

fn main(rt: HostRuntime) {
    programs::replay(&rt, Output::Lines);
}
