// Adding an entry to a builder: the bytes that it takes of the area, and the questions before them.
// `write_head` and `write_version` take the area with a place since they hand both on to the numbers' own `write`: in a
// struct the two would be taken apart again at each number. `add` and `write_entry` take the area, the record and the
// entry one by one since each comes from somewhere else: C lends the area, keeps the record, and gives the entry.
#![tactic(auto)]

ghost use Rattle.std.specs.Prelude.{◌≡◌, ◌+◌, ◌≤◌, length};
ghost use Rattle.std.proofs.lemmas.List.Edits.{sets};
ghost use Rattle.num.specs.Choice.{when◌then◌else◌};
ghost use Rattle.area.specs.Area.{area_versions};
ghost use Rattle.builder.specs.Offer.{head_bytes, version_bytes};
ghost use Rattle.builder.specs.Add.{area_after_of, add_of, added_builder, added_area};
ghost use Rattle.builder.specs.Lent.{offered};
ghost use Rattle.builder.specs.Internal.{Passed};

use builder::{Builder, Counter, Entry, Tally};
use num::LittleEndian;
use refusal::Refusal;

// Writes the head and the bytes of a new key.
fn write_head(area: &mut [u8], at: usize, key: &[u8])
    requires { (at + 8 + length key.now ≤ length area.old) × (length key.now ≤ 1048576) }
    ensures { area.new ≡ sets area.old at (head_bytes key.now) }
{
    (key.len() as u32).write(area, at);
    1u32.write(area, at + 4);
    num::put_part(area, at + area::HEAD, key);
}

fn write_version(area: &mut [u8], at: usize, offer: Entry<'_>)
    requires { (at + 25 ≤ length area.old) × (length offer.value.now ≤ 16777216) }
    ensures { area.new ≡ sets area.old at (version_bytes (offered offer.entry)) }
{
    offer.seq.write(area, at);
    u8::from(offer.kind).write(area, at + 8);
    (offer.value.len() as u32).write(area, at + 9);
    offer.offset.write(area, at + 13);
    crc32::crc32(offer.value).write(area, at + 21);
}

// Writes an entry behind the used bytes; one that is not new is counted in the last key's head.
fn write_entry(area: &mut [u8], b: Builder, offer: Entry<'_>, count: u64)
    requires passed { Passed area.old b (offered offer) }
    requires count_value { count ≡ (when offer.new_key then 1 else area_versions area.old b.last_key + 1) }
    ensures { area.new ≡ area_after_of area.old b (offered offer.entry) }
{
    let used = b.used as usize;
    if offer.new_key {
        write_head(area, used, offer.key);
        write_version(area, used + area::HEAD + offer.key.len(), offer);
        return;
    }
    (count as u32).write(area, b.last_key as usize + 4);
    write_version(area, used, offer);
}

// Adds an entry: a version of the last key, or of a new one. A refusal changes nothing.
pub fn add(area: &mut [u8], b: Builder, offer: Entry<'_>) -> Result<Builder, Refusal>
    ensures value { result ≡ added_builder (add_of area.old b (offered offer.entry)) }
    ensures area_after { area.new ≡ added_area (add_of area.old b (offered offer.entry)) area.old }
{
    b.refusal(
        area,
        offer.key.len(),
        offer.value.len(),
        offer.new_key,
        offer.offset,
    )?;
    let count = b.versions_with(area, offer.new_key);
    let counter = Counter { area, builder: b };
    let after = counter.builder_after(Tally {
        key: offer.key,
        count,
        size: offer.value.len() as u64,
        seq: offer.seq,
        offset: offer.offset,
        new_key: offer.new_key,
    });
    write_entry(area, b, offer, count);
    Ok(after)
}
