// Writing a section from the builder's area: questions 35 to 40 of writing. What `write` is lent it hands to two steps,
// one by one, as the interface for C gives it: the area, the record beside it, the prefix, and where to write.
#![tactic(auto)]

ghost use Rattle.std.specs.Prelude.{◌≡◌, ◌^◌, ◌≤◌, length};
ghost use Rattle.writer.specs.Write.{scratch_enough, write_of, section_written};
ghost use Rattle.writing.specs.Wrote.{wrote_read};
ghost use Rattle.writing.specs.Internal.{Asked, section_len_asked};

use area::Keys;
use builder::Builder;
use encoding::{Encoding, Layout};
use refusal::{Refusal, ask};

// Question 38.
#[tactic(auto, unfolding(writer::specs::Write::scratch_enough, num::specs::Choice::choice_defs))]
fn scratch_enough(keys: u64, room64: usize, room32: usize) -> bool
    requires { keys ≤ 2 ^ 30 }
    ensures { result ≡ scratch_enough keys room64 room32 }
{
    keys <= room64 as u64 && 6 * keys + 8 <= room32 as u64
}

// Questions 35 to 39: the length of the section.
#[tactic(auto, unfolding(crate::specs::Internal::asking_defs))]
fn section_len_asked(
    area: &[u8],
    b: Builder,
    prefix: u64,
    room64: usize,
    room32: usize,
    room: usize,
) -> Result<u64, Refusal>
    ensures { result ≡ section_len_asked area.now b prefix room64 room32 room }
{
    ask(
        prefix <= Encoding::MAX_SCAN_PREFIX as u64,
        Refusal::PrefixLong,
    )?;
    ask(0 < b.totals.keys, Refusal::NoKey)?;
    let size = b.size(prefix)?;
    ask(readback::reads_back(area, b), Refusal::Builder)?;
    ask(
        scratch_enough(b.totals.keys, room64, room32),
        Refusal::BuildScratch,
    )?;
    ask(size <= room as u64, Refusal::SectionRoom)?;
    Ok(size)
}

// Question 40, and the section if it is answered with yes.
fn build(
    area: &[u8],
    b: Builder,
    prefix: u64,
    size: u64,
    hashes: &mut [u64],
    scratch: &mut [u32],
    output: &mut [u8],
) -> Result<u64, Refusal>
    requires { Asked area.now b prefix size (length hashes.old) (length scratch.old) (length output.old) }
    ensures value { result ≡ wrote_read
        (write_of area.now b prefix (length hashes.old) (length scratch.old) (length output.old)) }
    ensures output_after { output.new ≡ section_written
        (write_of area.now b prefix (length hashes.old) (length scratch.old) (length output.old)) output.old }
    ensures hashes_len_unchanged { (length hashes.new ≡ length hashes.old)
        × (length scratch.new ≡ length scratch.old) }
{
    let t = b.totals;
    let layout = Layout::for_builder(t);
    let keys = Keys {
        area,
        head: 0,
        count: t.keys as usize,
    };
    let Some(seed) = construct::construct(&keys, hashes, scratch) else {
        return Err(Refusal::NoSeed);
    };
    sections::write_section(
        area,
        t,
        layout,
        prefix as usize,
        seed,
        hashes,
        scratch,
        output,
    );
    Ok(size)
}

// Writes the section with a scan prefix, or leaves the output as it was.
pub fn write(
    area: &[u8],
    b: Builder,
    prefix: u64,
    hashes: &mut [u64],
    scratch: &mut [u32],
    output: &mut [u8],
) -> Result<u64, Refusal>
    ensures value { result ≡ wrote_read
        (write_of area.now b prefix (length hashes.old) (length scratch.old) (length output.old)) }
    ensures output_after { output.new ≡ section_written
        (write_of area.now b prefix (length hashes.old) (length scratch.old) (length output.old)) output.old }
    ensures hashes_len_unchanged { (length hashes.new ≡ length hashes.old)
        × (length scratch.new ≡ length scratch.old) }
{
    let size = section_len_asked(area, b, prefix, hashes.len(), scratch.len(), output.len())?;
    build(area, b, prefix, size, hashes, scratch, output)
}
