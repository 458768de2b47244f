// The first version of a key record that is not above a limit.
#![tactic(auto)]

ghost use Rattle.std.specs.Prelude.{◌≡◌, ◌+◌, ◌*◌, ◌<◌, ◌≤◌, Some, Ok, Err, length};
ghost use Rattle.num.specs.Choice.{when◌then◌else◌, ask◌otherwise◌then◌};
ghost use Rattle.encoding.specs.Encoding.{Widths, version_len_of, tombstone_of};
ghost use Rattle.versions.specs.Version.{stored_seq, kind_in, length_in, stored_checksum};
ghost use Rattle.locator.specs.Locator.{locator_at, readable, versions_from};

use encoding::Layout;
use header::Opened;
use num::LittleEndian;
use refusal::{Refusal, ask};
use sstable::Kind;

// A version of a key: kind, sequence, the place and length of its value in the data, and its CRC-32, 0 without
// checksums: 0 and no `Option`, as in the six numbers of an answer, which C callers get.
#[derive(Clone, Copy)]
pub struct ValueLocator {
    pub kind: Kind,
    pub seq: u64,
    pub offset: u64,
    pub len: u64,
    pub checksum: u64,
}

// The versions of a section: its bytes, and its record, whose widths are allowed.
#[derive(Clone, Copy)]
pub struct VersionReader<'a> {
    section: &'a [u8],
    opened: Opened,
    ghost allowed: { Widths opened.encoding },
}

impl<'a> VersionReader<'a> {
    pub fn new(section: &'a [u8], opened: Opened) -> VersionReader<'a>
        requires { Widths opened.encoding }
        ensures { (result.section.now ≡ section.now) × (result.opened ≡ opened) }
    {
        VersionReader { section, opened }
    }

    // The bit of a stored length that marks a tombstone. The layout is made in this method and in the next one alone.
    fn tombstone(&self) -> u64
        ensures { result ≡ tombstone_of self.now.opened.encoding }
    {
        Layout::new(self.opened.encoding).tombstone()
    }

    // The bytes of a version.
    fn version_len(&self) -> usize
        ensures { result ≡ version_len_of self.now.opened.encoding }
    {
        Layout::new(self.opened.encoding).version()
    }

    #[tactic(auto, unfolding(crate::specs::Locator::read_defs))]
    fn kind_in(&self, stored: u64) -> Kind
        ensures { result ≡ kind_in self.now.opened stored }
    {
        if self.tombstone() <= stored {
            return Kind::Tombstone;
        }
        Kind::Put
    }

    // The stored length without that bit.
    #[tactic(auto, using(std::proofs::lemmas::Nat::and_mask), unfolding(crate::specs::Locator::length_defs))]
    fn length_in(&self, stored: u64) -> u64
        ensures { result ≡ length_in self.now.opened stored }
    {
        stored & (self.tombstone() - 1)
    }

    #[tactic(auto, unfolding(crate::specs::Locator::read_defs))]
    fn checksum_at(&self, pos: usize) -> u64
        requires { pos + version_len_of self.now.opened.encoding ≤ length self.now.section.now }
        ensures { result ≡ (when self.now.opened.encoding.checksum
            then stored_checksum self.now.section.now self.now.opened pos else 0) }
    {
        let e = self.opened.encoding;
        if !e.checksum {
            return 0;
        }
        u32::read(self.section, pos + e.seq + e.value + e.address) as u64
    }

    // The version at a place, whose sequence is known.
    #[tactic(auto, using(arena::proofs::Reading::widths_read), unfolding(crate::specs::Locator::read_defs))]
    fn locator_at(&self, pos: usize, seq: u64) -> ValueLocator
        requires in_bounds { pos + version_len_of self.now.opened.encoding ≤ length self.now.section.now }
        requires seq_value { seq ≡ stored_seq self.now.section.now self.now.opened pos }
        ensures { result ≡ locator_at self.now.section.now self.now.opened pos }
    {
        let e = self.opened.encoding;
        let value_at = pos + e.seq;
        let stored = num::uint(self.section, value_at, e.value);
        ValueLocator {
            kind: self.kind_in(stored),
            seq,
            offset: num::uint(self.section, value_at + e.value, e.address),
            len: self.length_in(stored),
            checksum: self.checksum_at(pos),
        }
    }

    // The version at a place, if all of it lies in the section.
    #[tactic(auto, unfolding(num::specs::Choice::choice_defs, crate::specs::Locator::readable))]
    fn version_at(&self, pos: usize, seq: u64) -> Result<Option<ValueLocator>, Refusal>
        requires pos_in_bounds { pos ≤ length self.now.section.now }
        requires seq_value { seq ≡ stored_seq self.now.section.now self.now.opened pos }
        ensures { result ≡ (ask readable self.now.section.now pos (version_len_of self.now.opened.encoding)
            otherwise Err Refusal.Read then Ok (Some (locator_at self.now.section.now self.now.opened pos))) }
    {
        ask(
            self.version_len() <= self.section.len() - pos,
            Refusal::Read,
        )?;
        Ok(Some(self.locator_at(pos, seq)))
    }

    // The first of some versions whose sequence is not above the limit. A stored number above `most` has a sum beyond
    // 64 bits. No iterator: a version has no list, and the place of the next one follows from the size of one.
    pub fn versions_from(
        &self,
        count: usize,
        from: usize,
        limit: u64,
    ) -> Result<Option<ValueLocator>, Refusal>
        requires { from ≤ length self.now.section.now }
        ensures { result ≡ versions_from count self.now.section.now self.now.opened from limit }
    {
        let width = self.opened.encoding.seq;
        let size = self.version_len();
        let least = self.opened.min_seq;
        let most = u64::MAX - least;
        let mut pos = from;
        for _ in 0..count {
            if self.section.len() < pos + width {
                return Err(Refusal::Read);
            }
            let stored = num::uint(self.section, pos, width);
            if most < stored {
                return Err(Refusal::Read);
            }
            let seq = least + stored;
            if seq <= limit {
                return self.version_at(pos, seq);
            }
            pos += size;
        }
        Ok(None)
    }
}
