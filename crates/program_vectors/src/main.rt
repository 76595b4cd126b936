// Runs vectors of numbers through the proved functions and prints one line for each. The file stdout has what the papers say of them.
#![tactic(auto)]

mod expected;
mod numbers;
mod table;
mod vectors;

use std::io;

fn main(rt: HostRuntime) -> io::Result<()> {
    expected::run();
    vectors::run(&rt)
}
