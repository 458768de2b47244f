// Lookup: from a key and a limit to the version that the section names, and from there to the value.
#![tactic(auto)]

ghost use Rattle.std.specs.Prelude.{◌≡◌, true, ◌+◌, ◌*◌, ◌<◌, ◌≤◌, ◌^◌, leb, eqb, length};
ghost use Rattle.num.specs.Choice.{either};
ghost use Rattle.num.specs.Number.{le_at};
ghost use Rattle.point.specs.Hash.{fingerprint_of};
ghost use Rattle.encoding.specs.Encoding.{key_header_len_of};
ghost use Rattle.opened.specs.Opened.{is_record_of};
ghost use Rattle.arena.specs.Key.{key_header_at};
ghost use Rattle.arena.specs.Internal.{Narrow};
ghost use Rattle.locator.specs.Locator.{versions_from};
ghost use Rattle.lookup.specs.Value.{value_part, value_number};
ghost use Rattle.lookup.specs.Lookup.{
  unpacked,
  pilot_len,
  pilot_of,
  slot_len,
  slot_offset,
  key_record_of,
  key_record_at,
  slot_read_of,
  hash_read,
};

use arena::KeyHeader;
use encoding::{Encoding, Layout};
use header::Opened;
use locator::{ValueLocator, VersionReader};
use num::LittleEndian;
use refusal::{Refusal, ask};

// Do so many bytes, or keys, at a place end within a length? The sum may pass 2^64, the difference does not.
pub fn inside(len: usize, place: u64, bytes: u64) -> bool
    ensures { result ≡ leb (place + bytes) len }
{
    let all = len as u64;
    if all < bytes {
        return false;
    }
    place <= all - bytes
}

// The value itself, or an empty part where it does not lie in the data.
pub fn value(data: &[u8], offset: u64, len: u64) -> &[u8]
    ensures { result.now ≡ value_part «data».now offset len }
{
    if inside(data.len(), offset, len) {
        let start = offset as usize;
        let end = start + len as usize;
        &data[start..end]
    } else {
        &data[0..0]
    }
}

// Question 26, as the number that the C interface answers: `kiban_value` is this and no more.
#[tactic(auto, unfolding(crate::specs::Value::value_defs))]
pub fn value_number(data: &[u8], offset: u64, len: u64) -> u64
    ensures { result ≡ value_number «data».now offset len }
{
    if inside(data.len(), offset, len) {
        0
    } else {
        Refusal::ValuePlace.number()
    }
}

// A packed pilot, with bit 23 moved back to bit 31.
fn unpacked(p: u32) -> u32
    requires { p < 2 ^ 24 }
    ensures { result ≡ unpacked p }
{
    if p < 0x80_0000 {
        return p;
    }
    p - 0x80_0000 + point::DIRECT
}

// An opened section: its bytes and the record that they give, plain or packed.
#[derive(Clone, Copy)]
pub struct Section<'a> {
    bytes: &'a [u8],
    opened: Opened,
    ghost given: { is_record_of bytes.now opened ≡ true },
}

impl<'a> Section<'a> {
    pub fn new(bytes: &'a [u8], opened: Opened) -> Section<'a>
        requires { is_record_of bytes.now opened ≡ true }
        ensures { (result.bytes.now ≡ bytes.now) × (result.opened ≡ opened) }
    {
        Section { bytes, opened }
    }

    // Other views have a method of this name too: what their widths follow from is another fact in each.
    #[tactic(auto, using(crate::proofs::Places::given_widths))]
    fn layout(&self) -> Layout
        ensures { result.encoding ≡ self.now.opened.encoding }
    {
        Layout::new(self.opened.encoding)
    }

    // The bytes of a pilot.
    #[tactic(auto, unfolding(crate::specs::Lookup::width_defs))]
    fn pilot_len(&self) -> usize
        ensures { result ≡ pilot_len self.now.opened }
    {
        if self.opened.packed { 3 } else { 4 }
    }

    // The bytes of a slot.
    #[tactic(auto, using(crate::proofs::Places::given_address), unfolding(crate::specs::Lookup::width_defs))]
    fn slot_len(&self) -> usize
        ensures { result ≡ slot_len self.now.opened }
    {
        let address = self.opened.encoding.address;
        if self.opened.packed {
            address
        } else {
            address + 2
        }
    }

    // The bytes of a key record before its suffix.
    fn key_header_len(&self) -> usize
        ensures { result ≡ key_header_len_of self.now.opened.encoding }
    {
        self.layout().key_header()
    }

    // The key header at a place.
    fn key_header(&self, pos: usize) -> KeyHeader
        requires { pos + key_header_len_of self.now.opened.encoding ≤ length self.now.bytes.now }
        ensures { (result ≡ key_header_at self.now.bytes.now self.now.opened.encoding pos) × Narrow result }
    {
        arena::key_header_at(self.bytes, self.layout(), pos)
    }

    // The first of some versions whose sequence is not above the limit.
    #[tactic(auto, using(crate::proofs::Places::given_widths))]
    fn versions_from(
        &self,
        count: usize,
        from: usize,
        limit: u64,
    ) -> Result<Option<ValueLocator>, Refusal>
        requires { from ≤ length self.now.bytes.now }
        ensures { result ≡ versions_from count self.now.bytes.now self.now.opened from limit }
    {
        VersionReader::new(self.bytes, self.opened).versions_from(count, from, limit)
    }

    // The pilot of a hash.
    #[tactic(auto, using(crate::proofs::Places::given_packed, crate::proofs::Places::given_plain))]
    fn pilot_of(&self, h: u64) -> u32
        ensures { result ≡ pilot_of self.now.bytes.now self.now.opened h }
    {
        let section = self.bytes;
        let o = self.opened;
        let bucket = point::bucket(h, o.buckets as u64) as usize;
        if o.packed {
            let at = Encoding::HEADER + 3 * bucket;
            let low = u16::read(section, at) as u32;
            let high = section[at + 2] as u32;
            return unpacked(low + 0x1_0000 * high);
        }
        u32::read(section, Encoding::HEADER + 4 * bucket)
    }

    // The place of the slot of a hash.
    #[tactic(auto, unfolding(crate::specs::Lookup::slot_offset))]
    fn slot_at(&self, h: u64) -> usize
        ensures { result ≡ slot_offset self.now.bytes.now self.now.opened h }
    {
        let o = self.opened;
        let pilot = self.pilot_of(h);
        let slot = point::slot(h, pilot, o.count as u64) as usize;
        Encoding::HEADER + self.pilot_len() * o.buckets + slot * self.slot_len()
    }

    // The key record whose header stands at a place: its key must be the one asked for. Key and limit come down from
    // `locate`, one method to the next, and are read here alone: a struct of the two would be made there and opened
    // here.
    fn key_record(
        &self,
        key: &[u8],
        limit: u64,
        pos: usize,
        h: KeyHeader,
    ) -> Result<Option<ValueLocator>, Refusal>
        requires narrow { Narrow h }
        requires encoding_in_bounds { pos + key_header_len_of self.now.opened.encoding ≤ length self.now.bytes.now }
        ensures { result ≡ key_record_of self.now.bytes.now self.now.opened key.now limit pos h }
    {
        let section = self.bytes;
        let o = self.opened;
        let shared = h.shared;
        let suffix_len = h.suffix_len;
        if key.len() != shared + suffix_len {
            return Ok(None);
        }
        if !inside(section.len() - o.arena, h.anchor as u64, shared as u64) {
            return Err(Refusal::Read);
        }
        let anchor = o.arena + h.anchor;
        if !num::same_part(key, 0, section, anchor, shared) {
            return Ok(None);
        }
        let suffix = pos + self.key_header_len();
        if section.len() - suffix < suffix_len {
            return Err(Refusal::Read);
        }
        if !num::same_part(key, shared, section, suffix, suffix_len) {
            return Ok(None);
        }
        self.versions_from(h.versions, suffix + suffix_len, limit)
    }

    // The key record at an address.
    fn key_of_address(
        &self,
        key: &[u8],
        limit: u64,
        address: u64,
    ) -> Result<Option<ValueLocator>, Refusal>
        ensures { result ≡ key_record_at self.now.bytes.now self.now.opened key.now limit
            (self.now.opened.arena + address) }
    {
        let section = self.bytes;
        let o = self.opened;
        if !inside(
            section.len() - o.arena,
            address,
            self.key_header_len() as u64,
        ) {
            return Err(Refusal::Read);
        }
        let pos = o.arena + address as usize;
        let h = self.key_header(pos);
        self.key_record(key, limit, pos, h)
    }

    // Does the fingerprint in a slot agree? A packed slot has none.
    fn fingerprint_agrees(&self, h: u64, at: usize) -> bool
        requires { at + slot_len self.now.opened ≤ length self.now.bytes.now }
        ensures { result ≡ either self.now.opened.packed
            (eqb (le_at self.now.bytes.now (at + self.now.opened.encoding.address) 2) (fingerprint_of h)) }
    {
        let section = self.bytes;
        let o = self.opened;
        if o.packed {
            return true;
        }
        u16::read(section, at + o.encoding.address) as u64 == point::fingerprint(h) as u64
    }

    // The key record that a slot names.
    fn slot_read(
        &self,
        key: &[u8],
        limit: u64,
        h: u64,
        at: usize,
    ) -> Result<Option<ValueLocator>, Refusal>
        requires at_bound { at < 2 ^ 36 }
        ensures { result ≡ slot_read_of self.now.bytes.now self.now.opened key.now limit h at }
    {
        let section = self.bytes;
        let o = self.opened;
        if section.len() < at + self.slot_len() {
            return Err(Refusal::Read);
        }
        if !self.fingerprint_agrees(h, at) {
            return Ok(None);
        }
        let address = num::uint(section, at, o.encoding.address);
        self.key_of_address(key, limit, address)
    }

    // The version of a key, given by its hash too, that a section names within a limit.
    pub fn locate(&self, key: &[u8], limit: u64, h: u64) -> Result<Option<ValueLocator>, Refusal>
        ensures { result ≡ hash_read self.now.bytes.now self.now.opened key.now limit h }
    {
        let at = self.slot_at(h);
        self.slot_read(key, limit, h, at)
    }
}
