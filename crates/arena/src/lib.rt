// The arena beside the records of the blocks: what a key's first record must agree with, questions 16 to 19.
#![tactic(auto)]

ghost use Rattle.std.specs.Prelude.{◌≡◌, true, not, ◌+◌, ◌*◌, ◌^◌, ◌<◌, ◌≤◌, eqb, length, take};
ghost use Rattle.num.specs.Choice.{when◌then◌else◌, either};
ghost use Rattle.encoding.specs.Encoding.{key_header_len_of};
ghost use Rattle.arena.specs.Internal.{Readable, Inside, Narrow};
ghost use Rattle.arena.specs.Key.{
  key_header_at,
  at_anchor,
  anchor_of,
  anchor_len_of,
  key_inside_of,
  key_fits_of,
  key_rises,
  scan_names,
  slot_place,
  slot_names,
  prefix_changes,
  entered,
  key_of,
};

use encoding::{Encoding, Layout};
use header::Opened;
use num::LittleEndian;
use refusal::{Refusal, ask};

// Where the walk of the arena stands.
#[derive(Clone, Copy)]
pub struct Cursor {
    // The place of the next version, or of the next key record.
    pub pos: usize,
    // The keys met so far.
    pub groups: usize,
    // The versions of the current key that are still to come.
    pub remaining: usize,
    // The address of the latest anchor's suffix, and its length.
    pub anchor: usize,
    pub anchor_len: usize,
    // The current key: so many bytes of the anchor, then those at a place of the section.
    pub shared: usize,
    pub suffix: usize,
    pub suffix_len: usize,
    // How often the scan prefix has changed, the first key counted.
    pub prefixes: usize,
    // The sequence of the last version of the current key, unless the next one is its first. `last_seq` and `first` are
    // no `Option`: the definitions take this record as their cursor, and question 20 as they put it asks `first` alone
    // and then `last_seq`.
    pub last_seq: u64,
    pub first: bool,
}

// A key header: where its anchor's suffix is, and the lengths and the number of versions.
#[derive(Clone, Copy)]
pub struct KeyHeader {
    pub anchor: usize,
    pub shared: usize,
    pub suffix_len: usize,
    pub versions: usize,
}

// The numbers of the key header at a place; lengths and number of versions have four bytes at most. Section and place
// stay two parameters here and below, since the numbers are read as they are stored, at a place and of a width:
// `num::uint` takes them so. That the header lies in the section stays a clause too, of this function and of those in
// `lookup` and `spans` that read on from it: each has it from another test, and a type of a place in the section would
// be made for the one read behind each.
#[tactic(auto, using(crate::proofs::Reading::widths_read, crate::proofs::Reading::key_width, crate::proofs::Reading::count_width, crate::proofs::Reading::narrow_for), unfolding(crate::specs::Key::key_header_at, encoding::specs::Encoding::key_header_len_of))]
pub fn key_header_at(section: &[u8], layout: Layout, pos: usize) -> KeyHeader
    requires in_bounds { pos + key_header_len_of layout.encoding ≤ length section.now }
    ensures { (result ≡ key_header_at section.now layout.encoding pos) × Narrow result }
{
    let e = layout.encoding;
    let lengths = pos + e.address;
    KeyHeader {
        anchor: num::uint(section, pos, e.address) as usize,
        shared: num::uint(section, lengths, e.key) as usize,
        suffix_len: num::uint(section, lengths + e.key, e.key) as usize,
        versions: num::uint(section, lengths + 2 * e.key, e.count) as usize,
    }
}

// The last key and this one stay two parameters of `key_rises`, `prefix_changes` and `key_record`: a struct of them
// would be filled for one call and taken apart in the next.
impl Cursor {
    // Is the next key an anchor?
    #[tactic(auto, unfolding(crate::specs::Key::at_anchor))]
    fn at_anchor(self) -> bool
        ensures { result ≡ at_anchor self }
    {
        self.groups % Encoding::GROUP == 0
    }

    // The length of the latest anchor's suffix, the next key included.
    #[tactic(auto, unfolding(crate::specs::Key::anchor_len_of, num::specs::Choice::choice_defs))]
    fn anchor_len_of(self, h: KeyHeader) -> usize
        ensures { result ≡ anchor_len_of self h }
    {
        if self.at_anchor() {
            h.suffix_len
        } else {
            self.anchor_len
        }
    }

    // Question 17.
    #[tactic(auto, unfolding(crate::specs::Key::key_rises, num::specs::Choice::choice_defs))]
    fn key_rises(self, previous: &[u8], key: &[u8]) -> bool
        ensures { result ≡ key_rises self previous.now key.now }
    {
        self.groups == 0 || sstable::key_less(previous, key)
    }

    // The prefixes counted so far, with this key's if it changes.
    #[tactic(auto, unfolding(num::specs::Choice::choice_defs))]
    fn counted(self, changes: bool) -> usize
        requires { self.prefixes < 2 ^ 31 }
        ensures { result ≡ (when changes then self.prefixes + 1 else self.prefixes) }
    {
        self.prefixes + usize::from(changes)
    }
}

// The first bytes of a key, at most as many as the count says: `prefix_changes` takes them of two keys, which have the
// count from one number, and of each it is this equation that its proof needs.
fn cut(key: &[u8], count: usize) -> &[u8]
    ensures { result.now ≡ take count key.now }
{
    key.get(..count).unwrap_or(key)
}

// The arena of a section whose header passed questions 3 to 6 and whose pilots passed question 10, and where the walk
// of it stands.
#[derive(Clone, Copy)]
pub struct Arena<'a> {
    pub section: &'a [u8],
    pub opened: Opened,
    // The place where it ends.
    pub end: usize,
    pub cursor: Cursor,
    pub ghost readable: { Readable section.now opened },
    pub ghost inside: { Inside section.now opened end cursor },
}

impl<'a> Arena<'a> {
    // Other views have a method of this name too: what their widths follow from is another fact in each.
    fn layout(&self) -> Layout
        ensures { result.encoding ≡ self.now.opened.encoding }
    {
        Layout::new(self.opened.encoding)
    }

    // The address of the latest anchor's suffix, if the next key's stands at a place.
    #[tactic(auto, unfolding(crate::specs::Key::key_defs, num::specs::Choice::choice_defs))]
    fn anchor_of(&self, suffix: usize) -> usize
        requires { suffix ≡ self.now.cursor.pos + key_header_len_of self.now.opened.encoding }
        ensures { result ≡ anchor_of self.now.opened self.now.cursor }
    {
        if self.cursor.at_anchor() {
            suffix - self.opened.arena
        } else {
            self.cursor.anchor
        }
    }

    // Question 16 before the key header is read.
    #[tactic(auto, using(crate::proofs::Reading::room_le), unfolding(crate::specs::Internal::inside_defs))]
    fn key_inside(&self) -> bool
        ensures { result ≡ key_inside_of self.now.opened self.now.end self.now.cursor }
    {
        let c = self.cursor;
        c.groups < self.opened.count && self.layout().key_header() <= self.end - c.pos
    }

    // Question 16 of the key header.
    #[tactic(auto, using(encoding::proofs::Lengths::version_le, crate::proofs::Reading::room_le), unfolding(crate::specs::Key::key_fits_of, sstable::specs::Limits::max_key_bytes, num::specs::Choice::choice_defs))]
    fn key_fits(&self, h: KeyHeader) -> bool
        requires narrow { Narrow h }
        requires header { self.now.cursor.pos + key_header_len_of self.now.opened.encoding ≤ self.now.end }
        ensures { result ≡ key_fits_of self.now.opened self.now.end self.now.cursor h }
    {
        let c = self.cursor;
        let layout = self.layout();
        let suffix = c.pos + layout.key_header();
        let room = self.end - suffix;
        (!c.at_anchor() || h.shared == 0)
            && h.anchor == self.anchor_of(suffix)
            && h.shared <= c.anchor_len_of(h)
            && h.suffix_len <= room
            && 0 < h.versions
            && h.versions * layout.version() <= room - h.suffix_len
            && h.shared + h.suffix_len <= sstable::MAX_KEY_BYTES
    }

    // Question 18.
    #[tactic(auto, using(crate::proofs::Reading::scan_header_inside, crate::proofs::Reading::scan_address_inside, crate::proofs::Reading::widths_read), unfolding(crate::specs::Key::scan_names, num::specs::Choice::choice_defs))]
    fn scan_names(&self) -> bool
        requires { self.now.cursor.groups < self.now.opened.count }
        ensures { result ≡ scan_names self.now.section.now self.now.opened self.now.cursor }
    {
        let o = self.opened;
        let c = self.cursor;
        if o.scan == 0 {
            return true;
        }
        let address = o.encoding.address;
        let at = o.scan + Encoding::SCAN_HEADER + c.groups * address;
        num::uint(self.section, at, address) == (c.pos - o.arena) as u64
    }

    // The place of the slot of a hash. `lookup` finds it for packed sections too, by an opened record, which there is
    // none of before the questions have passed.
    #[tactic(auto, using(crate::proofs::Reading::some_bucket, crate::proofs::Reading::pilot_read))]
    fn slot_place(&self, h: u64) -> usize
        ensures { result ≡ slot_place self.now.section.now self.now.opened h }
    {
        let o = self.opened;
        let bucket = point::bucket(h, o.buckets as u64) as usize;
        let pilot = u32::read(self.section, Encoding::HEADER + 4 * bucket);
        let slot = point::slot(h, pilot, o.count as u64) as usize;
        Encoding::HEADER + 4 * o.buckets + slot * (o.encoding.address + 2)
    }

    // Question 19, by the key's hash.
    #[tactic(auto, using(crate::proofs::Reading::slot_inside, crate::proofs::Reading::widths_read), unfolding(crate::specs::Key::slot_names, num::specs::Choice::choice_defs))]
    fn slot_names(&self, h: u64) -> bool
        ensures { result ≡ slot_names self.now.section.now self.now.opened self.now.cursor h }
    {
        let o = self.opened;
        let address = o.encoding.address;
        let at = self.slot_place(h);
        num::uint(self.section, at, address) == (self.cursor.pos - o.arena) as u64
            && u16::read(self.section, at + address) == point::fingerprint(h)
    }

    // Does question 23 count a prefix at this key?
    #[tactic(auto, using(crate::proofs::Reading::scan_header_inside, num::proofs::Order::pointwise_bytes), unfolding(crate::specs::Key::prefix_changes, num::specs::Choice::choice_defs))]
    fn prefix_changes(&self, previous: &[u8], key: &[u8]) -> bool
        ensures { result ≡ prefix_changes self.now.section.now self.now.opened self.now.cursor previous.now key.now }
    {
        let o = self.opened;
        if o.scan == 0 {
            return false;
        }
        if self.cursor.groups == 0 {
            return true;
        }
        let count = u32::read(self.section, o.scan + 8) as usize;
        cut(key, count) != cut(previous, count)
    }

    // The cursor behind a key header and its suffix.
    #[tactic(auto, unfolding(crate::specs::Key::entered))]
    fn entered(&self, h: KeyHeader, changes: bool) -> Cursor
        requires fewer { self.now.cursor.groups < self.now.opened.count }
        requires suffix { self.now.cursor.pos + key_header_len_of self.now.opened.encoding + h.suffix_len
            ≤ self.now.end }
        ensures { result ≡ entered self.now.opened self.now.cursor h changes }
    {
        let c = self.cursor;
        let suffix = c.pos + self.layout().key_header();
        Cursor {
            pos: suffix + h.suffix_len,
            groups: c.groups + 1,
            remaining: h.versions,
            anchor: self.anchor_of(suffix),
            anchor_len: c.anchor_len_of(h),
            shared: h.shared,
            suffix,
            suffix_len: h.suffix_len,
            prefixes: c.counted(changes),
            last_seq: 0,
            first: true,
        }
    }

    // Questions 16 to 19 at a key's first record.
    #[tactic(auto, using(crate::proofs::Entering::inside_asked, crate::proofs::Questions::fitting), unfolding(crate::specs::Key::key_of, crate::specs::Key::key_for, num::specs::Choice::choice_defs))]
    pub fn key_record(&self, previous: &[u8], key: &[u8]) -> Result<Cursor, Refusal>
        ensures { result
            ≡ key_of self.now.section.now self.now.opened self.now.end self.now.cursor previous.now key.now }
    {
        let c = self.cursor;
        ask(self.key_inside(), Refusal::KeyRecord)?;
        let h = key_header_at(self.section, self.layout(), c.pos);
        ask(self.key_fits(h), Refusal::KeyRecord)?;
        ask(c.key_rises(previous, key), Refusal::KeyOrder)?;
        ask(self.scan_names(), Refusal::ScanAddress)?;
        ask(
            self.slot_names(point::hash(key, self.opened.seed)),
            Refusal::Slot,
        )?;
        let changes = self.prefix_changes(previous, key);
        Ok(self.entered(h, changes))
    }
}
