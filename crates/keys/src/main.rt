// Prints the store in the folder that it is run in.
#![tactic(auto)]

use std::io;

fn main(rt: HostRuntime) -> io::Result<()> {
    listing::run(&rt, b"section.ph3", b"data.blk", b"blocks.u64")
}
