// A record of the blocks beside the version at the cursor: questions 20 and 21, and behind a key's end 16 to 19 first.
#![tactic(auto)]

ghost use Rattle.std.specs.Prelude.{◌≡◌, ◌+◌, ◌*◌, ◌<◌, ◌≤◌, eqb, ltb, length, Ok, IfOk};
ghost use Rattle.num.specs.Choice.{when◌then◌else◌, both, either};
ghost use Rattle.num.specs.Order.{equal_bytes};
ghost use Rattle.num.specs.Number.{le_at};
ghost use Rattle.encoding.specs.Encoding.{Widths, tombstone_of};
ghost use Rattle.arena.specs.Internal.{Standing};
ghost use Rattle.arena.specs.Key.{key_of};
ghost use Rattle.versions.specs.Version.{
  stored_key,
  stored_value,
  kind_in,
  length_in,
  same_kind,
  seq_agrees,
  version_agrees,
  checksum_agrees,
  advanced,
  version_for,
  visit_of,
};
ghost use Rattle.versions.specs.Lent.{entry_lent};

use arena::{Arena, Cursor};
use encoding::Layout;
use header::Opened;
use num::LittleEndian;
use refusal::{Refusal, ask};
use sstable::Kind;

// A record of a block: its key and its value's bytes, sequence, kind, and the place of the value in the data.
#[derive(Clone, Copy)]
pub struct RecordInfo<'a> {
    pub key: &'a [u8],
    pub value: &'a [u8],
    pub seq: u64,
    pub kind: Kind,
    pub place: usize,
}

// The stored value length at a place, which has no bit above the tombstone's. The section is a parameter beside the
// place, and no field: of a parameter's bytes it is known that they are bytes, and from there the bound follows; for it
// alone `Version` would carry a ghost field more.
#[tactic(auto, using(crate::proofs::VersionReading::value_lt, arena::proofs::Reading::value_width))]
fn value_at(section: &[u8], layout: Layout, at: usize) -> u64
    requires { at + layout.encoding.value ≤ length section.now }
    ensures { (result ≡ le_at section.now at layout.encoding.value) × (result < 2 * tombstone_of layout.encoding) }
{
    num::uint(section, at, layout.encoding.value)
}

// The version at a cursor: it and its key lie in the section.
#[derive(Clone, Copy)]
struct Version<'a> {
    section: &'a [u8],
    opened: Opened,
    cursor: Cursor,
    ghost widths: { Widths opened.encoding },
    ghost standing: { Standing section.now opened cursor },
}

impl<'a> Version<'a> {
    // Other views have a method of this name too: what their widths follow from is another fact in each.
    fn layout(&self) -> Layout
        ensures { result.encoding ≡ self.now.opened.encoding }
    {
        Layout::new(self.opened.encoding)
    }

    // Is the key the anchor's shared part and the suffix? By `num::same_part`: `==` of two slices is a call, which each
    // record would make twice.
    fn stored_key_equal(&self, key: &[u8]) -> bool
        ensures { result ≡ equal_bytes key.now (stored_key self.now.section.now self.now.opened self.now.cursor) }
    {
        let section = self.section;
        let c = self.cursor;
        let shared = c.shared;
        if key.len() < shared {
            return false;
        }
        if key.len() - shared != c.suffix_len {
            return false;
        }
        if !num::same_part(key, 0, section, self.opened.arena + c.anchor, shared) {
            return false;
        }
        num::same_part(key, shared, section, c.suffix, c.suffix_len)
    }

    // A key's versions have falling sequences.
    #[tactic(auto, unfolding(num::specs::Choice::choice_defs))]
    fn seq_falls(&self, seq: u64) -> bool
        ensures { result ≡ either self.now.cursor.first (ltb seq self.now.cursor.last_seq) }
    {
        self.cursor.first || seq < self.cursor.last_seq
    }

    // Is it the least sequence plus the stored number? The sum may pass 2^64, the difference does not; a sequence is
    // below 2^64.
    #[tactic(auto, using(crate::proofs::VersionReading::seq_below, crate::proofs::VersionReading::seq_less))]
    fn seq_agrees(&self, seq: u64) -> bool
        ensures { result ≡ seq_agrees self.now.section.now self.now.opened self.now.cursor.pos seq }
    {
        let o = self.opened;
        if seq < o.min_seq {
            return false;
        }
        num::uint(self.section, self.cursor.pos, o.encoding.seq) == seq - o.min_seq
    }

    // Do kind and length agree with the stored value length, whose top bit marks a tombstone?
    fn value_agrees(&self, kind: Kind, size: usize) -> bool
        ensures { result
            ≡ both
            (same_kind (kind_in self.now.opened
            (stored_value self.now.section.now self.now.opened self.now.cursor.pos)) kind)
            (eqb (length_in self.now.opened
            (stored_value self.now.section.now self.now.opened self.now.cursor.pos)) size) }
    {
        let e = self.opened.encoding;
        let layout = self.layout();
        let stored = value_at(self.section, layout, self.cursor.pos + e.seq);
        let tombstone = layout.tombstone();
        match kind {
            Kind::Put => stored < tombstone && stored == size as u64,
            Kind::Tombstone => tombstone <= stored && stored - tombstone == size as u64,
        }
    }

    // Question 20.
    #[tactic(auto, using(crate::proofs::VersionReading::version_inside), unfolding(crate::specs::Version::version_agrees, crate::specs::Version::stored_offset, num::specs::Choice::choice_defs))]
    fn version_agrees(&self, found: RecordInfo<'_>) -> bool
        ensures { result
            ≡ version_agrees self.now.section.now self.now.opened self.now.cursor (entry_lent found.entry) }
    {
        let e = self.opened.encoding;
        let address = self.cursor.pos + e.seq + e.value;
        self.stored_key_equal(found.key)
            && self.seq_falls(found.seq)
            && self.seq_agrees(found.seq)
            && self.value_agrees(found.kind, found.value.len())
            && num::uint(self.section, address, e.address) == found.place as u64
    }

    // Question 21.
    #[tactic(auto, using(crate::proofs::VersionReading::checksum_inside), unfolding(crate::specs::Version::checksum_agrees, crate::specs::Version::stored_checksum, num::specs::Choice::choice_defs))]
    fn checksum_agrees(&self, value: &[u8]) -> bool
        ensures { result ≡ checksum_agrees self.now.section.now self.now.opened self.now.cursor value.now }
    {
        let e = self.opened.encoding;
        if !e.checksum {
            return true;
        }
        let at = self.cursor.pos + e.seq + e.value + e.address;
        u32::read(self.section, at) == crc32::crc32(value)
    }

    // The cursor behind it.
    #[tactic(auto, unfolding(crate::specs::Version::advanced))]
    fn advanced(&self, seq: u64) -> Cursor
        ensures { result ≡ advanced self.now.opened self.now.cursor seq }
    {
        let c = self.cursor;
        Cursor {
            pos: c.pos + self.layout().version(),
            remaining: c.remaining - 1,
            last_seq: seq,
            first: false,
            ..c
        }
    }

    // Questions 20 and 21 of a record whose key the cursor stands in.
    #[tactic(auto, unfolding(crate::specs::Version::version_for, num::specs::Choice::choice_defs))]
    fn record_asked(&self, found: RecordInfo<'_>) -> Result<Cursor, Refusal>
        ensures { result
            ≡ version_for self.now.section.now self.now.opened (entry_lent found.entry) found.entry.value.now
            (Ok self.now.cursor) }
    {
        ask(self.version_agrees(found), Refusal::Version)?;
        ask(self.checksum_agrees(found.value), Refusal::ValueCrc)?;
        Ok(self.advanced(found.seq))
    }
}

// The key that a record is a version of: the one that the cursor stands in, or, behind the last key, the next one, of
// which questions 16 to 19 are asked.
#[tactic(auto, using(arena::proofs::Reading::inside_standing), unfolding(num::specs::Choice::choice_defs))]
fn entered(arena: &Arena<'_>, previous: &[u8], key: &[u8]) -> Result<Cursor, Refusal>
    ensures value { result
        ≡ (when eqb arena.now.cursor.remaining 0
        then key_of arena.now.section.now arena.now.opened arena.now.end arena.now.cursor previous.now key.now
        else Ok arena.now.cursor) }
    ensures stands { IfOk result (λ cursor. Standing arena.now.section.now arena.now.opened cursor) }
{
    if arena.cursor.remaining == 0 {
        arena.key_record(previous, key)
    } else {
        Ok(arena.cursor)
    }
}

// Questions 16 to 21 of a record behind the last key. A version is made in one place: in two, the compiler would lay it
// out in memory for each record.
#[tactic(auto, unfolding(crate::specs::Version::visit_of, crate::specs::Version::version_for, num::specs::Choice::choice_defs))]
pub fn visit(arena: &Arena<'_>, previous: &[u8], found: RecordInfo<'_>) -> Result<Cursor, Refusal>
    ensures { result
        ≡ visit_of arena.now.section.now arena.now.opened arena.now.end arena.now.cursor previous.now
        (entry_lent found.entry) found.entry.value.now }
{
    let entered = entered(arena, previous, found.key)?;
    let version = Version {
        section: arena.section,
        opened: arena.opened,
        cursor: entered,
    };
    version.record_asked(found)
}
