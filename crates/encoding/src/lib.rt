// The widths of a section's numbers, and the lengths and constants that follow from its format.
#![tactic(auto)]

ghost use Rattle.std.specs.Prelude.{◌≡◌};
ghost use Rattle.encoding.specs.Encoding.{
  Bounded,
  Widths,
  width_of,
  value_width_of,
  address_width_of,
  encoding_with,
  encoding_of,
  key_header_len_of,
  version_len_of,
  arena_len_of,
  scan_len_of,
  section_len_of,
  tombstone_of,
};

// What a builder has counted of its entries.
#[derive(Clone, Copy, Debug, PartialEq, Eq)]
pub struct Totals {
    pub keys: u64,
    pub versions: u64,
    pub suffix_bytes: u64,
    pub min_seq: u64,
    pub max_seq: u64,
    pub max_key_len: u64,
    pub max_value_len: u64,
    pub max_versions: u64,
    pub last_value_offset: u64,
}

// The least width of 1, 2, 4 and 8 bytes that holds every number up to `max`.
#[tactic(auto, unfolding(crate::specs::Encoding::width_of, num::specs::Choice::choice_defs))]
pub fn width(max: u64) -> usize
    ensures { result ≡ width_of max }
{
    if max <= 0xFF {
        1
    } else if max <= 0xFFFF {
        2
    } else if max <= 0xFFFF_FFFF {
        4
    } else {
        8
    }
}

// The width of value lengths, whose top bit marks a tombstone.
#[tactic(auto, unfolding(crate::specs::Encoding::value_width_of, num::specs::Choice::choice_defs))]
fn value_width(max: u64) -> usize
    ensures { result ≡ value_width_of max }
{
    if max < 0x8000 { 2 } else { 4 }
}

// The width of addresses and value offsets.
#[tactic(auto, unfolding(crate::specs::Encoding::address_width_of, num::specs::Choice::choice_defs))]
fn address_width(arena: usize, last_value_offset: u64) -> usize
    ensures { result ≡ address_width_of arena last_value_offset }
{
    if arena > 0xFFFF_FFFF {
        return 8;
    }
    if last_value_offset > 0xFFFF_FFFF {
        return 8;
    }
    4
}

// The widths in which a section stores its numbers, and whether each version has its value's CRC-32. Their rule,
// `Widths`, is a clause and no part of this type, but of `Layout`: C callers keep an opened record's numbers and hand
// them back.
#[derive(Clone, Copy, Debug, PartialEq, Eq)]
pub struct Encoding {
    pub address: usize,
    pub key: usize,
    pub count: usize,
    pub seq: usize,
    pub value: usize,
    pub checksum: bool,
}

impl Encoding {
    pub const MAGIC: [u8; 8] = *b"KIBANPH3";

    pub const HEADER: usize = 64;

    pub const CHECKSUM_FLAG: u32 = 1;

    pub const SCAN_FLAG: u32 = 2;

    pub const SCAN_MAGIC: [u8; 8] = *b"KIBANSC1";

    pub const SCAN_HEADER: usize = 24;

    pub const MAX_SCAN_PREFIX: usize = 24;

    pub const STRIDE: u32 = 32;

    pub const GROUP: usize = 1024;

    pub const TRAILER: usize = 5;

    // The encoding of a builder's totals with addresses of a width.
    #[tactic(auto, unfolding(crate::specs::Encoding::encoding_with))]
    fn with_address(address: usize, t: Totals) -> Self
        requires { Bounded t }
        ensures { result ≡ encoding_with address t }
    {
        Self {
            address,
            key: width(t.max_key_len),
            count: width(t.max_versions),
            seq: width(t.max_seq - t.min_seq),
            value: value_width(t.max_value_len),
            checksum: true,
        }
    }
}

// An encoding whose widths are allowed. That totals are bounded stays a clause of its lengths, of `for_builder` and of
// `with_address`: a type of bounded totals would be made in `Builder::size`, `writing::build` and `write_section`, each
// just behind question 37 and for one or two calls: three clauses and a type in place of these five.
#[derive(Clone, Copy)]
pub struct Layout {
    pub encoding: Encoding,
    ghost allowed: { Widths encoding },
}

impl Layout {
    pub fn new(encoding: Encoding) -> Layout
        requires { Widths encoding }
        ensures { result.encoding ≡ encoding }
    {
        Layout { encoding }
    }

    // The layout that a builder's totals ask for.
    #[tactic(auto, unfolding(crate::specs::Encoding::encoding_of))]
    pub fn for_builder(t: Totals) -> Layout
        requires { Bounded t }
        ensures { result.encoding ≡ encoding_of t }
    {
        let short = Layout::new(Encoding::with_address(4, t));
        let address = address_width(short.arena_len(t), t.last_value_offset);
        Layout::new(Encoding::with_address(address, t))
    }

    // The bytes of a key record before its suffix.
    #[tactic(auto, unfolding(crate::specs::Encoding::key_header_len_of), using(crate::proofs::Widths::widths_le))]
    pub fn key_header(self) -> usize
        ensures { result ≡ key_header_len_of self.encoding }
    {
        let e = self.encoding;
        e.address + 2 * e.key + e.count
    }

    // The bytes of a version.
    #[tactic(auto, unfolding(crate::specs::Encoding::encoding_defs), using(crate::proofs::Widths::widths_le))]
    pub fn version(self) -> usize
        ensures { result ≡ version_len_of self.encoding }
    {
        let e = self.encoding;
        if e.checksum {
            e.seq + e.value + e.address + 4
        } else {
            e.seq + e.value + e.address
        }
    }

    #[tactic(auto, unfolding(crate::specs::Encoding::arena_len_of), using(crate::proofs::Lengths::arena_len_le))]
    pub fn arena_len(self, t: Totals) -> usize
        requires { Bounded t }
        ensures { result ≡ arena_len_of self.encoding t }
    {
        t.keys as usize * self.key_header()
            + t.suffix_bytes as usize
            + t.versions as usize * self.version()
    }

    // The bytes of the scan part with its length, none without a prefix: 0 and no `Option`, as callers say it.
    #[tactic(auto, using(crate::proofs::Lengths::parts_le), unfolding(crate::specs::Encoding::length_defs))]
    fn scan_len(self, t: Totals, prefix: usize) -> usize
        requires { Bounded t }
        ensures { result ≡ scan_len_of self.encoding t prefix }
    {
        if prefix > 0 {
            Encoding::SCAN_HEADER + t.keys as usize * self.encoding.address + 8
        } else {
            0
        }
    }

    #[tactic(auto, using(crate::proofs::Lengths::parts_le, crate::proofs::Lengths::scan_len_le), unfolding(crate::specs::Encoding::length_defs))]
    pub fn section_len(self, t: Totals, prefix: usize) -> usize
        requires { Bounded t }
        ensures { result ≡ section_len_of self.encoding t prefix }
    {
        let keys = t.keys as usize;
        let buckets = (keys + 1) / 2;
        Encoding::HEADER
            + 4 * buckets
            + keys * (self.encoding.address + 2)
            + self.arena_len(t)
            + self.scan_len(t, prefix)
            + Encoding::TRAILER
    }

    // The bit of a stored value length that marks a tombstone.
    #[tactic(auto, unfolding(crate::specs::Encoding::tombstone_of), using(crate::proofs::Widths::widths_le))]
    pub fn tombstone(self) -> u64
        ensures { result ≡ tombstone_of self.encoding }
    {
        1 << (8 * self.encoding.value - 1)
    }
}
