// Asks lists of the Rust's answers again, and counts the rows that agree. tools/replay/make wrote the lists in data/,
// and tools/replay/README.md has their form. What a question may write holds a 7 at every place before it.
#![tactic(auto)]

mod leaves;
mod lookups;
mod openings;
mod records;

use list::{Kind, Row};
use std::io;
use std::rt::Files;

// Each kind has its question: a `match` on the enum says so once, where a table of functions would repeat the kinds'
// order.
fn agrees(kind: Kind, row: Row<'_>) -> bool {
    match kind {
        Kind::Crc => leaves::crc(row),
        Kind::Hash => leaves::hash(row),
        Kind::Trailer => leaves::trailer(row),
        Kind::Verify => leaves::verify(row),
        Kind::Step => leaves::step(row),
        Kind::Open => openings::open(row),
        Kind::Lookup => lookups::lookup(row),
        Kind::Value => lookups::value(row),
        Kind::Span => lookups::span(row),
        Kind::Fill => records::fill(row),
        Kind::Find => records::find(row),
        _ => false,
    }
}

// Replays the list in a file, and writes a line with the counts.
fn report(rt: &(impl Files + Print + Eprint), name: &str) -> io::Result<()> {
    list::report(rt, name, agrees)
}

fn main(rt: HostRuntime) -> io::Result<()> {
    report(&rt, "crc.bin")?;
    report(&rt, "hash.bin")?;
    report(&rt, "trailer.bin")?;
    report(&rt, "verify.bin")?;
    report(&rt, "walk.bin")?;
    report(&rt, "open.bin")?;
    report(&rt, "run.bin")?;
    report(&rt, "lookup.bin")?;
    report(&rt, "forged.bin")?;
    report(&rt, "spans.bin")?;
    report(&rt, "forged_spans.bin")?;
    report(&rt, "fills.bin")?;
    report(&rt, "finds.bin")
}
