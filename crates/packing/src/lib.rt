// The packed form: pilots of three bytes, addresses without fingerprints, and no scan part. Questions 7 to 9.
#![tactic(auto)]

ghost use Rattle.std.specs.Prelude.{◌≡◌, true, ◌+◌, ◌*◌, ◌≤◌, length, Ok};
ghost use Rattle.num.specs.Choice.{each_below};
ghost use Rattle.header.specs.Header.{header_of};
ghost use Rattle.packing.specs.Packing.{pilot_packs, pack_of, open_packed_of, packed_read, packed_written};

use encoding::Encoding;
use header::Opened;
use num::LittleEndian;
use packed::Plain;
use refusal::{Refusal, ask};

// Question 8 of one pilot.
fn pilot_packs(section: &[u8], k: usize) -> bool
    requires { 64 + 4 * k + 4 ≤ length section.now }
    ensures { result ≡ pilot_packs section.now k }
{
    let pilot = u32::read(section, Encoding::HEADER + 4 * k);
    pilot % point::DIRECT < 0x80_0000
}

// Question 8: the loop of `opening::PilotTable::pilots_inside`, but of another test, which a closure would say in more
// words than the loop has. No `all`, as there.
fn pilots_pack(section: &[u8], buckets: usize) -> bool
    requires { 64 + 4 * buckets ≤ length section.now }
    ensures { result ≡ each_below buckets (pilot_packs section.now) }
{
    for k in 0..buckets {
        if !pilot_packs(section, k) {
            return false;
        }
    }
    true
}

// Questions 7 to 9, then 10 to 23, of a section whose header passed: the packed bytes are written only if all of them
// passed. The header's answer and the store's parts come one by one, as `opening::contents` takes them; a view of two
// of them, `packed::Plain`, is made behind 7 and 8.
#[tactic(auto, using(opening::proofs::Accepted::pilots_fit), unfolding(crate::specs::Packing::pack_defs))]
fn pack(
    section: &[u8],
    data: &[u8],
    blocks: &[u64],
    scratch: &mut [u8],
    output: &mut [u8],
    o: Opened,
) -> Result<(Opened, usize), Refusal>
    requires { header_of section.now ≡ Ok o }
    ensures value { result ≡ packed_read
        (pack_of section.now «data».now blocks.now (length scratch.old) (length output.old) o) }
    ensures output_after { output.new ≡ packed_written
        (pack_of section.now «data».now blocks.now (length scratch.old) (length output.old) o) output.old }
    ensures scratch_len_unchanged { length scratch.new ≡ length scratch.old }
{
    ask(header::fits_packed(o), Refusal::NotPackable)?;
    ask(pilots_pack(section, o.buckets), Refusal::PilotWide)?;
    let plain = Plain::new(section, o);
    let len = plain.packed_len();
    ask(len <= output.len(), Refusal::PackedRoom)?;
    opening::contents(section, data, blocks, scratch, o)?;
    plain.write_packed(output);
    Ok((header::packed_record(o), len))
}

// The packed opening: the packed bytes of a section beside backing data and a block list, or the first question that
// fails.
#[tactic(auto, using(opening::proofs::Accepted::checked_header), unfolding(crate::specs::Packing::open_defs))]
pub fn open_packed(
    section: &[u8],
    data: &[u8],
    blocks: &[u64],
    scratch: &mut [u8],
    output: &mut [u8],
) -> Result<(Opened, usize), Refusal>
    ensures value { result ≡ packed_read
        (open_packed_of section.now «data».now blocks.now (length scratch.old) (length output.old)) }
    ensures output_after { output.new ≡ packed_written
        (open_packed_of section.now «data».now blocks.now (length scratch.old) (length output.old)) output.old }
    ensures scratch_len_unchanged { length scratch.new ≡ length scratch.old }
{
    let o = opening::checked_header(section)?;
    pack(section, data, blocks, scratch, output, o)
}
