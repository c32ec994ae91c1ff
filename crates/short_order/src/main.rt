// The program `orders` on 25 bytes: its last order is short. docs/oracle/orders.py says how the stored input and list were made.
#![tactic(auto)]

use std::io;

fn main(rt: HostRuntime) -> io::Result<()> {
    serving::serve(&rt)
}
