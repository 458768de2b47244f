// What sorted tables share: kinds of records, limits, the order of keys, trailers.
#![tactic(auto)]

ghost use Rattle.std.specs.Prelude.{◌≡◌, true, ◌+◌, ◌≤◌, min, length, drop};
ghost use Rattle.num.specs.Order.{less_than, common_prefix_len};
ghost use Rattle.sstable.specs.Kind.{kind_number, kind_of};
ghost use Rattle.sstable.specs.Limits.{within_limits};
ghost use Rattle.sstable.specs.Trailer.{trailer_of};

use num::LittleEndian;
use refusal::{Refusal, ask};

// What a record says of its key: that it has a value, or that it has none any more. The numbers are those in blocks.
#[derive(Clone, Copy, Debug, PartialEq, Eq, Hash)]
pub enum Kind {
    Put = 1,
    Tombstone = 2,
}

impl From<Kind> for u8 {
    ghost from_gives = { λ kind number. number ≡ kind_number kind };

    fn from(kind: Kind) -> u8 {
        kind as u8
    }
}

// An entry whose kind is not known does not stand (question 13).
impl TryFrom<u8> for Kind {
    type Error = Refusal;

    ghost try_from_gives = { λ number read. read ≡ kind_of number };

    #[tactic(auto, unfolding(crate::specs::Kind::kind_of, num::specs::Choice::choice_defs))]
    fn try_from(number: u8) -> Result<Kind, Refusal> {
        match number {
            1 => Ok(Kind::Put),
            2 => Ok(Kind::Tombstone),
            _ => Err(Refusal::Entry),
        }
    }
}

pub const MAX_KEY_BYTES: usize = 1_048_576;

pub const MAX_VALUE_BYTES: usize = 16_777_216;

// Questions 14 and 30: are a key and a value of these lengths within the limits?
#[tactic(auto, unfolding(crate::specs::Limits::limit_defs, num::specs::Choice::choice_defs))]
pub fn mutation(key_len: usize, value_len: usize) -> bool
    ensures { result ≡ within_limits key_len value_len }
{
    key_len <= MAX_KEY_BYTES && value_len <= MAX_VALUE_BYTES
}

// How much two keys share stays two loops over indices: `zip` and `take_while`, of bytes or chunks of eight, take 1.4
// to 15 times as long. The two keys, the place and the end are handed on from one loop to the other: with slices cut
// for the second it takes up to 1.6 times as long.

// A place to which two keys agree, such that less than eight bytes are left or the next eight differ.
fn shared_words(a: &[u8], b: &[u8], end: usize) -> usize
    requires { end ≡ min (length a.now) (length b.now) }
    ensures { (result ≤ end)
        × (result + common_prefix_len (drop result a.now) (drop result b.now) ≡ common_prefix_len a.now b.now) }
{
    for word in 0..end / 8 {
        let at = 8 * word;
        if u64::read(a, at) != u64::read(b, at) {
            return at;
        }
    }
    8 * (end / 8)
}

// The end of what two keys share, from a place to which they agree.
fn shared_bytes(a: &[u8], b: &[u8], from: usize, end: usize) -> usize
    requires { (from ≤ end) × (end ≡ min (length a.now) (length b.now)) }
    ensures { result ≡ from + common_prefix_len (drop from a.now) (drop from b.now) }
{
    for i in from..end {
        if a[i] != b[i] {
            return i;
        }
    }
    end
}

// How many leading bytes two keys share: eight at a time while both have eight more.
pub fn common_prefix_len(a: &[u8], b: &[u8]) -> usize
    ensures { result ≡ common_prefix_len a.now b.now }
{
    let end = a.len().min(b.len());
    let from = shared_words(a, b, end);
    shared_bytes(a, b, from, end)
}

// Does the first key come before the second? A key comes after its beginnings. By what they share: the library's `cmp`
// takes up to 1.5 times as long for keys of 20 bytes.
pub fn key_less(a: &[u8], b: &[u8]) -> bool
    ensures { result ≡ less_than a.now b.now }
{
    let n = common_prefix_len(a, b);
    if n == b.len() {
        return false;
    }
    if n == a.len() {
        return true;
    }
    a[n] < b[n]
}

// Questions 1 and 2, of the last five bytes of a section.
#[tactic(auto, unfolding(crate::specs::Trailer::trailer_defs, num::specs::Choice::choice_defs))]
pub fn verify_trailer(raw: &[u8]) -> Result<(), Refusal>
    ensures { result ≡ trailer_of raw.now }
{
    ask(6 <= raw.len() && raw[raw.len() - 5] == 0, Refusal::Trailer)?;
    let body = raw.len() - 4;
    ask(
        crc32::crc32(&raw[..body]) == u32::read(raw, body),
        Refusal::SectionCrc,
    )
}
