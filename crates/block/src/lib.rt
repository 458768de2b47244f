// Data blocks: whether a block is sound, and its records one after another.
#![tactic(auto)]

ghost use Rattle.std.specs.Prelude.{◌≡◌, true, ◌+◌, ◌*◌, ◌≤◌, length, take, drop};
ghost use Rattle.std.proofs.lemmas.List.Edits.{sets};
ghost use Rattle.num.specs.Number.{Bytes};
ghost use Rattle.block.specs.Verify.{restart_at, restart_sound, restarts_sound, restarts_verified, verify_of};
ghost use Rattle.block.specs.EntryHeader.{entry_numbers, value_allowed, entry_header_of};
ghost use Rattle.block.specs.Record.{record_at};

use num::LittleEndian;
use refusal::{Refusal, ask};
use sstable::Kind;

// Where a block's entries end, where its restart offsets start, and how many they are.
#[derive(Clone, Copy, Debug, PartialEq, Eq)]
pub struct BlockMeta {
    pub entries_end: usize,
    pub restart_start: usize,
    pub num_restarts: usize,
}

// The numbers of an entry.
#[derive(Clone, Copy, Debug, PartialEq, Eq)]
pub struct EntryHeader {
    pub kind: Kind,
    pub seq: u64,
    pub shared: usize,
    pub non_shared: usize,
    pub value_len: usize,
}

// A record of the walk: the value's place in the block and its length, and the place of the next record.
#[derive(Clone, Copy, Debug, PartialEq, Eq)]
pub struct Record {
    pub kind: Kind,
    pub seq: u64,
    pub shared: usize,
    pub key_len: usize,
    pub place: usize,
    pub size: usize,
    pub next: usize,
}

// The bytes of an entry before its key.
pub const ENTRY_FIXED_LEN: usize = 21;

// One entry, one restart offset, their number, the trailer of 5 bytes.
const MIN_BLOCK_LEN: usize = 34;

const BLOCK_TYPE_NONE: u8 = 0;

#[tactic(auto, unfolding(crate::specs::EntryHeader::entry_header_defs))]
fn value_allowed(kind: Kind, value_len: usize) -> bool
    ensures { result ≡ value_allowed kind value_len }
{
    match kind {
        Kind::Put => true,
        Kind::Tombstone => value_len == 0,
    }
}

// A block's bytes, and where its entries end in them; behind the end are its restart offsets.
#[derive(Clone, Copy)]
pub struct Entries<'a> {
    bytes: &'a [u8],
    end: usize,
    ghost within: { end ≤ length bytes.now },
    ghost octets: { Bytes bytes.now },
}

impl<'a> Entries<'a> {
    pub fn new(bytes: &'a [u8], end: usize) -> Entries<'a>
        requires { end ≤ length bytes.now }
        ensures { (result.bytes.now ≡ bytes.now) × (result.end ≡ end) }
    {
        Entries { bytes, end }
    }

    #[tactic(auto, unfolding(crate::specs::Verify::verify_defs))]
    fn restart_at(&self, i: usize) -> usize
        requires { self.now.end + 4 * i + 4 ≤ length self.now.bytes.now }
        ensures { result ≡ restart_at self.now.bytes.now self.now.end i }
    {
        u32::read(self.bytes, self.end + 4 * i) as usize
    }

    #[tactic(auto, unfolding(crate::specs::Verify::verify_defs, num::specs::Choice::choice_defs))]
    fn restart_sound(&self, i: usize) -> bool
        requires { self.now.end + 4 * i + 4 ≤ length self.now.bytes.now }
        ensures { result ≡ restart_sound self.now.bytes.now self.now.end i }
    {
        let offset = self.restart_at(i);
        offset < self.end && (i == 0 || self.restart_at(i - 1) < offset)
    }

    // A `for` over the numbers of the restart offsets, since each is asked beside the one before it.
    #[tactic(auto, using(crate::proofs::Sound::none, crate::proofs::Sound::one_more, crate::proofs::Sound::unsound))]
    fn restarts_sound(&self, count: usize) -> bool
        requires { self.now.end + 4 * count ≤ length self.now.bytes.now }
        ensures { result ≡ restarts_sound self.now.bytes.now self.now.end count }
    {
        for i in 0..count {
            if !self.restart_sound(i) {
                return false;
            }
        }
        true
    }

    #[tactic(auto, unfolding(crate::specs::EntryHeader::entry_header_defs))]
    fn entry_numbers(&self, pos: usize, kind: Kind) -> EntryHeader
        requires { pos + 21 ≤ self.now.end }
        ensures { result ≡ entry_numbers self.now.bytes.now pos kind }
    {
        EntryHeader {
            kind,
            seq: u64::read(self.bytes, pos + 13),
            shared: u32::read(self.bytes, pos + 1) as usize,
            non_shared: u32::read(self.bytes, pos + 5) as usize,
            value_len: u32::read(self.bytes, pos + 9) as usize,
        }
    }

    // Question 13 of an entry alone: its header, its kind, and its key and value before the end of the entries.
    #[tactic(auto, unfolding(crate::specs::EntryHeader::entry_header_defs, num::specs::Choice::choice_defs))]
    pub fn header_at(&self, pos: usize) -> Result<EntryHeader, Refusal>
        ensures { result ≡ entry_header_of self.now.bytes.now self.now.end pos }
    {
        ask(
            ENTRY_FIXED_LEN <= self.end && pos <= self.end - ENTRY_FIXED_LEN,
            Refusal::Entry,
        )?;
        let kind = Kind::try_from(self.bytes[pos])?;
        let h = self.entry_numbers(pos, kind);
        ask(value_allowed(h.kind, h.value_len), Refusal::Entry)?;
        let room = self.end - (pos + ENTRY_FIXED_LEN);
        ask(
            h.non_shared <= room && h.value_len <= room - h.non_shared,
            Refusal::Entry,
        )?;
        Ok(h)
    }

    // The record at a place, behind a key of the given length.
    #[tactic(auto, using(crate::proofs::Header::record_sums), unfolding(crate::specs::Record::record_at_defs))]
    pub fn record_at(&self, pos: usize, key_len: usize) -> Result<Record, Refusal>
        ensures { result ≡ record_at self.now.bytes.now self.now.end pos key_len }
    {
        let h = self.header_at(pos)?;
        ask(h.shared <= key_len, Refusal::Entry)?;
        let place = pos + ENTRY_FIXED_LEN + h.non_shared;
        Ok(Record {
            kind: h.kind,
            seq: h.seq,
            shared: h.shared,
            key_len: h.shared + h.non_shared,
            place,
            size: h.value_len,
            next: place + h.value_len,
        })
    }
}

// Question 12 from the number of restarts on.
#[tactic(auto, unfolding(crate::specs::Verify::verify_defs, num::specs::Choice::choice_defs))]
fn verify_restarts(raw: &[u8]) -> Result<BlockMeta, Refusal>
    requires { 34 ≤ length raw.now }
    ensures { result ≡ restarts_verified raw.now }
{
    let behind = raw.len() - 9;
    let num_restarts = u32::read(raw, behind) as usize;
    ask(0 < num_restarts, Refusal::Block)?;
    ask(4 * num_restarts <= behind, Refusal::Block)?;
    let entries_end = behind - 4 * num_restarts;
    ask(ENTRY_FIXED_LEN <= entries_end, Refusal::Block)?;
    let entries = Entries::new(raw, entries_end);
    ask(entries.restarts_sound(num_restarts), Refusal::Block)?;
    ask(entries.restart_at(0) == 0, Refusal::Block)?;
    Ok(BlockMeta {
        entries_end,
        restart_start: entries_end,
        num_restarts,
    })
}

// Question 12.
#[tactic(auto, unfolding(crate::specs::Verify::verify_defs, num::specs::Choice::choice_defs))]
pub fn verify(raw: &[u8]) -> Result<BlockMeta, Refusal>
    ensures { result ≡ verify_of raw.now }
{
    ask(MIN_BLOCK_LEN <= raw.len(), Refusal::Block)?;
    let body = raw.len() - 4;
    ask(raw[body - 1] == BLOCK_TYPE_NONE, Refusal::Block)?;
    ask(
        u32::read(raw, body) == crc32::crc32(&raw[..body]),
        Refusal::Block,
    )?;
    verify_restarts(raw)
}

// Copies the bytes that a key does not share behind those that it does. It takes places, which its callers have from a
// record: of parts that each of them cuts off it would be `num::put_part` alone, and each would prove this equation.
pub fn copy_key(data: &[u8], from: usize, count: usize, scratch: &mut [u8], at: usize)
    requires { (from + count ≤ length «data».now) × (at + count ≤ length scratch.old) }
    ensures { scratch.new ≡ sets scratch.old at (take count (drop from «data».now)) }
{
    num::put_part(scratch, at, &data[from..from + count]);
}
