// The header of a section, and the record of an opened one: questions 3 to 7. Section and record stand beside each
// other, and are no view: here the record is being made, and each of the views above (`packed::Plain`, `held::Fitting`,
// `lookup::Section`) holds another fact of the two.
#![tactic(auto)]

ghost use Rattle.std.specs.Prelude.{◌≡◌, ◌+◌, ◌≤◌, ◌<◌, length};
ghost use Rattle.num.specs.Choice.{one_of};
ghost use Rattle.header.specs.Header.{
  stands_at_of,
  begins,
  has_flag,
  encoding_at,
  fields_of,
  allowed_widths,
  dimensions,
  scan_part_len,
  scan_place_of,
  scan_part,
  scan_settings,
  scanned_of,
  header_of,
  fits_packed,
  packed_record,
  arena_end_of,
};
ghost use Rattle.header.specs.Internal.{usual_widths};
ghost use Rattle.header.specs.Facts.{Dimensions};

use encoding::Encoding;
use num::LittleEndian;
use refusal::{Refusal, ask};

// What opening keeps of a section: numbers alone. `scan` is the place of the scan part, 0 without one, as in
// the sixteen numbers that C callers keep: an `Option` would be opened again at each key of a span (`wholekeys`).
#[derive(Clone, Copy, Debug, PartialEq, Eq)]
pub struct Opened {
    pub seed: u64,
    pub min_seq: u64,
    pub count: usize,
    pub buckets: usize,
    pub arena: usize,
    pub encoding: Encoding,
    pub scan: usize,
    pub packed: bool,
}

// Do these eight bytes stand at a place? They are compared as numbers: the library's `==` of two slices is a call,
// which every lookup would make. A place, as in `num`.
#[tactic(auto, using(crate::proofs::Questions::stands_at))]
pub fn stands_at(section: &[u8], at: usize, bytes: &[u8]) -> bool
    requires { (length bytes.now ≡ 8) × (at + 8 ≤ length section.now) }
    ensures { result ≡ stands_at_of section.now at bytes.now }
{
    u64::read(section, at) == u64::read(bytes, 0)
}

// Question 3.
#[tactic(auto, unfolding(crate::specs::Internal::begins_defs))]
pub fn begins(section: &[u8]) -> bool
    ensures { result ≡ begins section.now }
{
    Encoding::HEADER + Encoding::TRAILER <= section.len() && stands_at(section, 0, &Encoding::MAGIC)
}

#[tactic(auto, unfolding(crate::specs::Header::header_defs, num::specs::Choice::choice_defs))]
fn has_flag(flag: u32, flags: u32) -> bool
    requires { 0 < flag }
    ensures { result ≡ has_flag flag flags }
{
    flags / flag % 2 == 1
}

#[tactic(auto, unfolding(crate::specs::Header::header_defs, num::specs::Choice::choice_defs))]
fn encoding_at(section: &[u8]) -> Encoding
    requires { 64 ≤ length section.now }
    ensures { result ≡ encoding_at section.now }
{
    Encoding {
        address: u32::read(section, 32) as usize,
        key: u32::read(section, 36) as usize,
        count: u32::read(section, 40) as usize,
        seq: u32::read(section, 44) as usize,
        value: u32::read(section, 48) as usize,
        checksum: has_flag(Encoding::CHECKSUM_FLAG, u32::read(section, 52)),
    }
}

// The header's numbers, without a scan place.
#[tactic(auto, unfolding(crate::specs::Header::header_defs, num::specs::Choice::choice_defs))]
pub fn fields(section: &[u8]) -> Opened
    requires { 64 ≤ length section.now }
    ensures { result ≡ fields_of section.now }
{
    Opened {
        seed: u64::read(section, 8),
        min_seq: u64::read(section, 56),
        count: u32::read(section, 16) as usize,
        buckets: u32::read(section, 20) as usize,
        arena: u64::read(section, 24) as usize,
        encoding: encoding_at(section),
        scan: 0,
        packed: false,
    }
}

// The widths, but for that of sequences, of most sections: addresses of four bytes, fewer than 256 bytes and versions
// to a key, values below 2^15 bytes.
#[tactic(auto, unfolding(crate::specs::Internal::usual_widths, num::specs::Choice::both))]
pub fn usual_widths(e: Encoding) -> bool
    ensures { result ≡ usual_widths e }
{
    (e.address == 4) & ((e.key == 1) & ((e.count == 1) & (e.value == 2)))
}

#[tactic(auto, using(crate::proofs::OneOf::more, crate::proofs::OneOf::found), unfolding(num::specs::Choice::one_of))]
fn is_one_of(widths: &[usize], w: usize) -> bool
    ensures { result ≡ one_of widths.now w }
{
    for &width in widths {
        if w == width {
            return true;
        }
    }
    false
}

#[tactic(auto, using(crate::proofs::Questions::usual_allowed), unfolding(crate::specs::Internal::width_defs))]
pub fn allowed_widths(e: Encoding) -> bool
    ensures { result ≡ allowed_widths e }
{
    let seq = is_one_of(&[1, 2, 4, 8], e.seq);
    if usual_widths(e) {
        return seq;
    }
    is_one_of(&[4, 8], e.address)
        && is_one_of(&[1, 2, 4], e.key)
        && is_one_of(&[1, 2, 4], e.count)
        && seq
        && is_one_of(&[2, 4], e.value)
}

// Question 4, but for the comparison with the section's length.
#[tactic(auto, unfolding(crate::specs::Internal::dimension_defs))]
pub fn dimensions(o: Opened, flags: u32) -> bool
    ensures { result ≡ dimensions o flags }
{
    1 <= o.count
        && o.count < 0x8000_0000
        && o.buckets == (o.count + 1) / 2
        && allowed_widths(o.encoding)
        && flags <= Encoding::CHECKSUM_FLAG + Encoding::SCAN_FLAG
        && o.arena == Encoding::HEADER + 4 * o.buckets + o.count * (o.encoding.address + 2)
}

// Question 5, of a part of a length that would start at a place: behind it are its length and the last five bytes. Both
// numbers come from `scanned`, which needs them too: neither is counted twice.
#[tactic(auto, unfolding(crate::specs::Internal::scan_defs))]
fn scan_part(section: &[u8], o: Opened, len: usize, scan: usize) -> bool
    requires long { 69 ≤ length section.now }
    requires part { (len ≡ scan_part_len o) × (scan ≡ scan_place_of section.now o) }
    ensures { result ≡ scan_part section.now o }
{
    let stored = u64::read(section, section.len() - (8 + Encoding::TRAILER));
    stored as usize == len && o.arena < scan && stands_at(section, scan, &Encoding::SCAN_MAGIC)
}

// Question 6.
#[tactic(auto, unfolding(crate::specs::Header::header_defs, num::specs::Choice::choice_defs))]
pub fn scan_settings(section: &[u8], scan: usize, n: usize) -> bool
    requires { scan + 24 ≤ length section.now }
    ensures { result ≡ scan_settings section.now scan n }
{
    let prefix = u32::read(section, scan + 8) as usize;
    let prefixes = u64::read(section, scan + 16) as usize;
    ((1 <= prefix) & (prefix <= Encoding::MAX_SCAN_PREFIX))
        & ((u32::read(section, scan + 12) == Encoding::STRIDE)
            & ((1 <= prefixes) & (prefixes <= n)))
}

// Questions 5 and 6.
#[tactic(auto, unfolding(crate::specs::Header::header_defs, num::specs::Choice::choice_defs))]
pub fn scanned(section: &[u8], o: Opened) -> Result<Opened, Refusal>
    requires dimensions { Dimensions o }
    requires in_bounds { 69 ≤ length section.now }
    ensures { result ≡ scanned_of section.now o }
{
    let len = Encoding::SCAN_HEADER + o.count * o.encoding.address;
    let scan = section.len().saturating_sub(len + 8 + Encoding::TRAILER);
    ask(scan_part(section, o, len, scan), Refusal::ScanPart)?;
    ask(scan_settings(section, scan, o.count), Refusal::ScanSettings)?;
    Ok(Opened { scan, ..o })
}

// Questions 3 to 6.
#[tactic(auto, unfolding(crate::specs::Header::header_defs, num::specs::Choice::choice_defs))]
pub fn header(section: &[u8]) -> Result<Opened, Refusal>
    ensures { result ≡ header_of section.now }
{
    ask(begins(section), Refusal::Magic)?;
    let o = fields(section);
    let flags = u32::read(section, 52);
    let sized = dimensions(o, flags);
    ask(
        sized && o.arena < section.len() - Encoding::TRAILER,
        Refusal::Header,
    )?;
    if has_flag(Encoding::SCAN_FLAG, flags) {
        return scanned(section, o);
    }
    Ok(o)
}

// Question 7.
#[tactic(auto, unfolding(crate::specs::Header::header_defs, num::specs::Choice::choice_defs))]
pub fn fits_packed(o: Opened) -> bool
    ensures { result ≡ fits_packed o }
{
    o.encoding.checksum && o.count < 0x80_0000
}

// The record of the packed bytes of a section with this record.
#[tactic(auto, using(crate::proofs::Bounds::start_small), unfolding(crate::specs::Header::packed_record))]
pub fn packed_record(o: Opened) -> Opened
    requires { Dimensions o }
    ensures { result ≡ packed_record o }
{
    let n = o.count;
    let b = o.buckets;
    let e = o.encoding;
    let address = e.address;
    let mut packed = o;
    packed.arena = Encoding::HEADER + 3 * b + n * address;
    packed.scan = 0;
    packed.packed = true;
    packed
}

// Where the arena ends.
#[tactic(auto, unfolding(crate::specs::Header::header_defs, num::specs::Choice::choice_defs))]
pub fn arena_end(section: &[u8], o: Opened) -> usize
    requires { 5 ≤ length section.now }
    ensures { result ≡ arena_end_of section.now o }
{
    if o.scan == 0 {
        section.len() - Encoding::TRAILER
    } else {
        o.scan
    }
}
