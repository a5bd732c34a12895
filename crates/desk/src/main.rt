// The program. Its stored input is case B at 14,000, where it is complete.
#![tactic(auto)]

use std::io;

fn main(rt: HostRuntime) -> io::Result<()> {
    report::run(&rt)
}
