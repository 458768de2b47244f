// Exports for differential runs and benchmarks: the leaves, one by one. No part of the delivered interface.
#![tactic(auto)]

ghost use Rattle.std.specs.Prelude.{◌≡◌, ◌+◌, ◌*◌, ◌≤◌, ◌^◌, length};
ghost use Rattle.crc32.specs.V42.{crc_of, update_of};
ghost use Rattle.refusal.specs.Refusal.{answer_number};
ghost use Rattle.sstable.specs.Trailer.{trailer_of};
ghost use Rattle.block.specs.Verify.{verify_of};
ghost use Rattle.point.specs.Hash.{hash_value, fingerprint_of};
ghost use Rattle.encoding.specs.Encoding.{width_of};
ghost use Rattle.construction.specs.Construct.{construct_of};
ghost use Rattle.construction.specs.Scratch.{placement_in};
ghost use Rattle.area.specs.Area.{keys_in_of};
ghost use Rattle.construct.specs.Keys.{KeysStand};
ghost use Rattle.probe.specs.Probe.{
  bucket_probe,
  position_probe,
  slot_probe,
  meta_written,
  record_number,
  step_probe,
  probed_record_written,
  key_written,
  totals_of,
  length_probe,
  seed_written,
  PlacedAs,
};

use area::Keys;
use block::Entries;
use builder::Builder;
use encoding::Totals;
use refusal::Refusal;

#[unsafe(no_mangle)]
pub extern "C" fn probe_crc32_update(state: u32, data: &[u8]) -> u32
    ensures { result ≡ update_of state «data».now }
{
    crc32::update(state, data)
}

// The name of an older form: the table that is lent is not read.
#[unsafe(no_mangle)]
pub extern "C" fn probe_crc32_lent(table: &[[u32; 256]; 8], data: &[u8]) -> u32
    ensures { result ≡ crc_of «data».now }
{
    crc32::crc32(data)
}

#[unsafe(no_mangle)]
pub extern "C" fn probe_hash(key: &[u8], seed: u64) -> u64
    ensures { result ≡ hash_value key.now seed }
{
    point::hash(key, seed)
}

#[unsafe(no_mangle)]
pub extern "C" fn probe_fingerprint(h: u64) -> u64
    ensures { result ≡ fingerprint_of h }
{
    point::fingerprint(h) as u64
}

#[unsafe(no_mangle)]
pub extern "C" fn probe_bucket(h: u64, count: u64) -> u64
    ensures { result ≡ bucket_probe h count }
{
    if count == 0 {
        return 0;
    }
    point::bucket(h, count)
}

// This export and the next ask the same of the pilot and the number of places: C callers need both names, and a
// function of the two tests would be handed the one call in which they differ.
#[unsafe(no_mangle)]
pub extern "C" fn probe_position(h: u64, pilot: u64, n: u64) -> u64
    ensures { result ≡ position_probe h pilot n }
{
    if n == 0 {
        return 0;
    }
    if 0x1_0000_0000 <= pilot {
        return 0;
    }
    point::position(h, pilot as u32, n)
}

#[unsafe(no_mangle)]
pub extern "C" fn probe_slot(h: u64, pilot: u64, n: u64) -> u64
    ensures { result ≡ slot_probe h pilot n }
{
    if n == 0 {
        return 0;
    }
    if 0x1_0000_0000 <= pilot {
        return 0;
    }
    point::slot(h, pilot as u32, n)
}

#[unsafe(no_mangle)]
pub extern "C" fn probe_width(max: u64) -> u64
    ensures { result ≡ width_of max }
{
    encoding::width(max) as u64
}

#[unsafe(no_mangle)]
#[tactic(auto, unfolding(crate::specs::Probe::length_defs))]
pub extern "C" fn probe_section_len(totals: &[u64; 9], prefix: u64) -> u64
    ensures { result ≡ length_probe (totals_of totals.now) prefix }
{
    let t = Totals {
        keys: totals[0],
        versions: totals[1],
        suffix_bytes: totals[2],
        min_seq: totals[3],
        max_seq: totals[4],
        max_key_len: totals[5],
        max_value_len: totals[6],
        max_versions: totals[7],
        last_value_offset: totals[8],
    };
    // By name: the empty places are needed here and in `readback` alone.
    let b = Builder {
        totals: t,
        used: 0,
        last_key: 0,
        anchor: 0,
    };
    b.size(prefix).unwrap_or(0)
}

#[unsafe(no_mangle)]
#[tactic(auto, unfolding(refusal::specs::Refusal::answer_number))]
pub extern "C" fn probe_trailer(section: &[u8]) -> u64
    ensures { result ≡ answer_number (trailer_of section.now) }
{
    match sstable::verify_trailer(section) {
        Ok(()) => 0,
        Err(refusal) => refusal.number(),
    }
}

#[unsafe(no_mangle)]
#[tactic(auto, unfolding(crate::specs::Probe::meta_written, refusal::specs::Refusal::answer_number))]
pub extern "C" fn probe_verify(raw: &[u8], meta: &mut [u64; 3]) -> u64
    ensures { (result ≡ answer_number (verify_of raw.now)) × (meta.new ≡ meta_written (verify_of raw.now) meta.old) }
{
    match block::verify(raw) {
        Ok(m) => {
            *meta = [
                m.entries_end as u64,
                m.restart_start as u64,
                m.num_restarts as u64,
            ];
            0
        }
        Err(unsound) => unsound.number(),
    }
}

// The name of an older form, as `probe_crc32_lent`.
#[unsafe(no_mangle)]
pub extern "C" fn probe_verify_lent(table: &[[u32; 256]; 8], raw: &[u8], meta: &mut [u64; 3]) -> u64
    ensures { (result ≡ answer_number (verify_of raw.now)) × (meta.new ≡ meta_written (verify_of raw.now) meta.old) }
{
    probe_verify(raw, meta)
}

// One step of a block's walk: the previous key is the first `key_len` bytes of the scratch.
#[unsafe(no_mangle)]
pub extern "C" fn probe_record(
    raw: &[u8],
    entries_end: u64,
    pos: u64,
    key_len: u64,
    scratch: &mut [u8],
    fields: &mut [u64; 6],
) -> u64
    ensures { (result ≡ record_number (length scratch.old) (step_probe raw.now entries_end pos key_len))
        × (fields.new
        ≡ probed_record_written (length scratch.old) (step_probe raw.now entries_end pos key_len) fields.old)
        × (scratch.new ≡ key_written raw.now pos (step_probe raw.now entries_end pos key_len) scratch.old) }
{
    let end = entries_end as usize;
    if raw.len() < end {
        return Refusal::Entry.number();
    }
    let at = pos as usize;
    match Entries::new(raw, end).record_at(at, key_len as usize) {
        Ok(r) => {
            if scratch.len() < r.key_len {
                return Refusal::KeyRoom.number();
            }
            block::copy_key(
                raw,
                at + block::ENTRY_FIXED_LEN,
                r.key_len - r.shared,
                scratch,
                r.shared,
            );
            fields[0] = u8::from(r.kind) as u64;
            fields[1] = r.seq;
            fields[2] = r.key_len as u64;
            fields[3] = r.place as u64;
            fields[4] = r.size as u64;
            fields[5] = r.next as u64;
            0
        }
        Err(refusal) => refusal.number(),
    }
}

// Construction over the keys of an area; pilots and slots are left in the scratch. C hands over an area and a number,
// so this probe asks that the area holds the keys, and that hashes and scratch are long enough.
#[unsafe(no_mangle)]
pub extern "C" fn probe_construct(
    area: &[u8],
    count: u64,
    hashes: &mut [u64],
    scratch: &mut [u32],
    seed: &mut u64,
) -> u64
    requires le_count { (1 ≤ count) × (count ≤ 2 ^ 20) × KeysStand area.now count }
    requires count_in_bounds { (count ≤ length hashes.old) × (6 * count + 8 ≤ length scratch.old) }
    ensures { (result ≡ answer_number (construct_of (keys_in_of area.now count)))
        × (seed.new ≡ seed_written (construct_of (keys_in_of area.now count)) seed.old)
        × PlacedAs (construct_of (keys_in_of area.now count)) (placement_in count scratch.new) }
{
    let keys = Keys {
        area,
        head: 0,
        count: count as usize,
    };
    match construct::construct(&keys, hashes, scratch) {
        Some(s) => {
            *seed = s;
            0
        }
        None => Refusal::NoSeed.number(),
    }
}
