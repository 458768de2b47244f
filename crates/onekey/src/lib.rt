// The value of one key as a pair of offset and length, read by words of eight bytes. Versions are named by their places
// in the section, as in `spans`, and a width is a number with a clause, as in `words`.
#![tactic(auto, unfolding(crate::specs::Internal::KeyPut))]

ghost use Rattle.std.specs.Prelude.{◌≡◌, true, ◌+◌, ◌^◌, ◌<◌, ◌≤◌, length};
ghost use Rattle.num.specs.Number.{le_at, is_width};
ghost use Rattle.spans.specs.Span.{first_within, values_from};
ghost use Rattle.onekey.specs.Internal.{KeyPut};

use num::LittleEndian;
use spans::Store;
use words::{Reads, Words};

// The number of a width at a place, which has eight bytes: two bytes, as most sequences have, by a load of their own.
fn seq_at(section: &[u8], at: usize, width: usize) -> u64
    requires at_in_bounds { at + 8 ≤ length section.now }
    requires width_value { is_width width ≡ true }
    ensures { result ≡ le_at section.now at width }
{
    if width == 2 {
        return u16::read(section, at) as u64;
    }
    Words::of(width).masked(section, at)
}

// Writes the value of the first of some versions within the limit, and answers how many pairs that are. `None` is left
// to the general walk: too few bytes behind what is read, and a sum beyond 64 bits. The first of all is mostly the one,
// and is asked before the others.
#[tactic(auto, using(encoding::proofs::Widths::widths_le), unfolding(crate::specs::Internal::KeyPut))]
fn put_first(
    store: &Store<'_>,
    versions: usize,
    from: usize,
    limit: u64,
    pairs: &mut [u64],
) -> Option<u64>
    requires from_bound { from < 2 ^ 39 }
    requires in_bounds { 2 ≤ length pairs.old }
    ensures { KeyPut result (first_within versions store.now.section.now store.now.opened from limit) pairs.old
        pairs.new }
{
    let section = store.section;
    let o = store.opened;
    let e = o.encoding;
    let room = e.seq + e.value + e.address + 8;
    if versions == 0 {
        return None;
    }
    if section.len() < from + room {
        return None;
    }
    let stored = seq_at(section, from, e.seq);
    if u64::MAX - o.min_seq < stored {
        return None;
    }
    if o.min_seq + stored <= limit {
        return Some(store.put_value_at::<Words>(from, pairs, 0) as u64 / 2);
    }
    let next = from + store.layout().version();
    match store.place_within::<Words>(versions - 1, next, limit, room) {
        Ok(Some(at)) => Some(store.put_value_at::<Words>(at, pairs, 0) as u64 / 2),
        Ok(None) => Some(0),
        Err(_) => None,
    }
}

// Writes the value of the key whose record stands at an address, and answers how many pairs that are; `None` writes
// nothing, and its caller reads the key another way.
#[tactic(auto, using(encoding::proofs::Widths::widths_le), unfolding(crate::specs::Internal::KeyPut))]
pub fn put_key(store: &Store<'_>, address: u32, limit: u64, pairs: &mut [u64]) -> Option<u64>
    requires { 2 ≤ length pairs.old }
    ensures { KeyPut result (values_from 1 store.now.section.now store.now.opened limit address) pairs.old pairs.new }
{
    let section = store.section;
    let o = store.opened;
    let e = o.encoding;
    let pos = o.arena + address as usize;
    let lengths = e.address + e.key;
    if section.len() < pos + lengths + e.key + 8 {
        return None;
    }
    let versions = Words::of(e.count).masked(section, pos + lengths + e.key) as usize;
    let suffix_len = Words::of(e.key).masked(section, pos + lengths) as usize;
    let from = pos + (store.layout().key_header() + suffix_len);
    put_first(store, versions, from, limit, pairs)
}
