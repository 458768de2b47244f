// Prints further stores, each by the code of the program `keys`.
#![tactic(auto)]

use std::io;

fn main(rt: HostRuntime) -> io::Result<()> {
    // Three blocks, and an empty key.
    listing::run(
        &rt,
        b"several/section.ph3",
        b"several/data.blk",
        b"several/blocks.u64",
    )?;
    // An empty block list, and an odd one.
    listing::run(
        &rt,
        b"several/section.ph3",
        b"several/data.blk",
        b"none.u64",
    )?;
    listing::run(&rt, b"several/section.ph3", b"several/data.blk", b"odd.u64")?;
    // A missing file, one of 16,385 bytes, and a block list of 12 bytes.
    listing::run(
        &rt,
        b"missing.ph3",
        b"several/data.blk",
        b"several/blocks.u64",
    )?;
    listing::run(
        &rt,
        b"several/section.ph3",
        b"longer.blk",
        b"several/blocks.u64",
    )?;
    listing::run(&rt, b"several/section.ph3", b"several/data.blk", b"cut.u64")?;
    // A section and data of exactly 16,384 bytes, and a key of 16,285.
    listing::run(
        &rt,
        b"full/section.ph3",
        b"full/data.blk",
        b"full/blocks.u64",
    )
}
