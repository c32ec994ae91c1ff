// Runs the orders of standard input, 24 bytes each, on an index of 64 nodes: crates/serving. Told anything on its command line, it says
// how it is used, and reads nothing.
#![tactic(auto)]

use std::env::FillError;
use std::io;
use std::rt::Env;

// Whether anything is told: there is an argument behind the program's own name. None of it is read.
fn is_told(rt: &impl Env) -> bool {
    !matches!(rt.arg(1, &mut []), Err(FillError::NotPresent))
}

fn main(rt: HostRuntime) -> io::Result<()> {
    if is_told(&rt) {
        return rt.write_all(
            b"usage: orders < FILE\n\
Reads orders of 24 bytes: code, key, value, each 8 bytes, the lowest first.\n\
Codes: 1 put, 2 get, 3 delete, 4 reserve. The index has 64 nodes and ends with the program.\n\
Writes a line for each order, its number and second word (docs/RULES.md, section 4),\n\
and last the number of pairs, free nodes, seen and mark.\n\
tools/text turns text into orders, and answers into text.\n",
        );
    }
    serving::serve(&rt)
}
