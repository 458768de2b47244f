// Builds lists of adds again, and counts the answers that are the Rust's. tools/replay/make wrote the lists in data/,
// and tools/replay/README.md has their form. The rows of a list share one builder; size and length hold a 7 before each
// question.
#![tactic(auto)]

mod adds;

use adds::Builder;
use list::{Kind, Row};
use std::io;
use std::rt::Files;

// Each kind has its step: a `match` on the enum says so once, where a table of functions would repeat the kinds' order.
fn agrees(builder: &mut Builder, kind: Kind, row: Row<'_>) -> bool {
    match kind {
        Kind::Begin => builder.begin(row),
        Kind::Add => builder.add(row),
        Kind::AddNumbers => builder.add_numbers(row),
        Kind::Held => builder.is_as_stated(row),
        Kind::Size => builder.size(row),
        Kind::Write => builder.write(row),
        _ => false,
    }
}

// Replays the list in a file, and writes a line with the counts.
fn report(rt: &(impl Files + Print + Eprint), name: &str) -> io::Result<()> {
    let mut builder = Builder::new();
    list::report(rt, name, |kind, row| agrees(&mut builder, kind, row))
}

fn main(rt: HostRuntime) -> io::Result<()> {
    report(&rt, "builds.bin")?;
    report(&rt, "refused.bin")?;
    report(&rt, "widths.bin")?;
    report(&rt, "many.bin")
}
