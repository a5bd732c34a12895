// The program on case B at 0, where nothing is needed.
#![tactic(auto)]

use std::io;

fn main(rt: HostRuntime) -> io::Result<()> {
    report::run(&rt)
}
