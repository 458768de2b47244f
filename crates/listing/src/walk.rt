// The records of a store, one after another, each as a line.
ghost use Rattle.std.specs.Prelude.{◌≡◌, ◌+◌, ◌*◌, ◌<◌, ◌≤◌, length, take, Ok};
ghost use Rattle.block.specs.Record.{record_at};
ghost use Rattle.block.specs.Verify.{entries_end_in};
ghost use Rattle.block.specs.Walk.{entry_of};
ghost use Rattle.opening.specs.Open.{block_bytes};
ghost use Rattle.admission.specs.Blocks.{in_data};
ghost use Rattle.lines.specs.Lines.{record_line, live_one};
ghost use Rattle.lines.specs.Wrote.{Wrote};
ghost use Rattle.listing.specs.Internal.{IsSmall, Reached, Stepping, Listed};

use block::{ENTRY_FIXED_LEN, Entries, Record};
use num::LittleEndian;

// A store that is listed: how long its section is, its data and its block list. No file of it has more than 16,384
// bytes.
#[derive(Clone, Copy)]
pub struct Store<'a> {
    pub section_len: u64,
    pub backing: &'a [u8],
    pub blocks: &'a [u64],
    ghost small: { IsSmall backing.now blocks.now },
}

// The buffers for the key before, and for a line. A key has no more bytes than a file, and two digits in its line for
// each. They stay parameters beside the store and what is left of it: in one struct, which changes as a whole, each
// clause would have to say that the store is the same afterwards.
pub type Keys = [u8; 32768];

pub type Line = [u8; 65536];

// Where a listing stands: the place of its pair in the block list, the place in that pair's block, the length of the
// key before in that block, which lies at the front of the key buffer, and how many P lines there were.
#[derive(Clone, Copy, Debug, PartialEq, Eq)]
pub struct Place {
    pub pair: usize,
    pub pos: usize,
    pub key_len: usize,
    pub live: u64,
}

// The bytes of a block, as far as the data have them; offset and length are a pair of the block list as it was read.
fn block_part(data: &[u8], offset: usize, len: usize) -> &[u8]
    ensures { result.now ≡ block_bytes «data».now offset len }
{
    let rest = data.get(offset..).unwrap_or_default();
    rest.get(..len).unwrap_or(rest)
}

// Where a block's entries end: before its restart offsets, their number, the type byte and the CRC-32.
#[tactic(auto, unfolding(block::specs::Verify::verify_defs))]
fn entries_end(raw: &[u8]) -> usize
    ensures { (result ≡ entries_end_in raw.now) × (result ≤ length raw.now) }
{
    let Some(behind) = raw.len().checked_sub(9) else {
        return 0;
    };
    behind.saturating_sub(4 * u32::read(raw, behind) as usize)
}

// The line of a record that was met at a place of a block, which starts at an offset of the data. That it was met there
// is asked of this one caller, `list_next`.
fn list_record(
    raw: &[u8],
    offset: usize,
    p: Place,
    r: Record,
    keys: &mut Keys,
    out: &mut Line,
) -> (usize, Place)
    requires key_len_value { record_at raw.now (entries_end_in raw.now) p.pos p.key_len ≡ Ok r }
    requires listed { Listed raw.now offset p r }
    ensures wrote { Wrote out.old out.new 0
        (record_line (in_data offset (entry_of raw.now p.pos (take p.key_len keys.old) r))) result.0 }
    ensures keys_after { take r.key_len keys.new ≡ (entry_of raw.now p.pos (take p.key_len keys.old) r).key }
    ensures place_value { result.1
        ≡ record { pair = p.pair; pos = r.next; key_len = r.key_len; live = p.live + live_one r.kind } }
{
    block::copy_key(
        raw,
        p.pos + ENTRY_FIXED_LEN,
        r.key_len - r.shared,
        keys,
        r.shared,
    );
    let len = lines::record_line(
        out,
        &keys[..r.key_len],
        r.seq,
        r.kind,
        (offset + r.place) as u64,
        r.size as u64,
    );
    let behind = Place {
        pair: p.pair,
        pos: r.next,
        key_len: r.key_len,
        live: p.live + lines::live_one(r.kind),
    };
    (len, behind)
}

// The next record's line; or, where a block's records end, none, and on to the next pair. A pair by its place:
// `as_chunks` gives all pairs, and a step of the listing takes one.
pub fn list_next(store: &Store<'_>, p: Place, keys: &mut Keys, out: &mut Line) -> (usize, Place)
    requires { Reached store.now.backing.now store.now.blocks.now p × (p.pair + 1 < length store.now.blocks.now) }
    ensures { Stepping store.now.backing.now store.now.blocks.now p keys.old result.1 keys.new (take result.0 out.new)
        × (result.0 ≤ length out.new) }
{
    let offset = store.blocks[p.pair] as usize;
    let len = store.blocks[p.pair + 1] as usize;
    let raw = block_part(store.backing, offset, len);
    match Entries::new(raw, entries_end(raw)).record_at(p.pos, p.key_len) {
        Ok(r) => list_record(raw, offset, p, r, keys, out),
        Err(_) => {
            let next_pair = Place {
                pair: p.pair + 2,
                pos: 0,
                key_len: 0,
                live: p.live,
            };
            (0, next_pair)
        }
    }
}
