// Spans: the values of some keys, one behind the other, as pairs of offset and length.
// A version is at a place of the section: readers take the place, since a slice would be one bounds check more.
// `pairs` and the place `to` of the next one stay apart, and what room they need stays a clause, here and in `scans`
// and `wholepairs`: the pairs are lent for the whole span, and a writer would hold the same two. `count`, `address` and
// `limit` go on together, but each call of `key_read` has another address. The four private functions of the walk take
// an address as a `usize` with a bound: as a `u32` it costs the walk four instructions more a key.
// Every loop here is `for _ in 0..count`: what is counted are versions or keys, and the place of the next one follows
// from what was read of the last, so there is nothing for an iterator to run over. `put_values` answers how many pairs
// there are, no refusal: all refusals were met by `keys_read`.
#![tactic(auto)]

ghost use Rattle.std.specs.Prelude.{◌≡◌, true, ◌+◌, ◌*◌, ◌^◌, ◌<◌, ◌≤◌, length};
ghost use Rattle.std.proofs.lemmas.List.Edits.{sets};
ghost use Rattle.num.specs.Number.{Bytes};
ghost use Rattle.encoding.specs.Encoding.{key_header_len_of};
ghost use Rattle.arena.specs.Key.{key_header_at};
ghost use Rattle.spans.specs.Span.{
  value_end,
  value_at,
  first_within,
  key_value,
  next_address_of,
  values_from,
  pair_numbers,
  pairs_written,
  spanned_read,
};
ghost use Rattle.spans.specs.Internal.{Spannable, placed_of, Inside, value_read, refused_of, is_given, pairs_of};

use arena::KeyHeader;
use encoding::Layout;
use header::Opened;
use num::LittleEndian;
use refusal::Refusal;
use words::{Exact, Reads};

// A section, and a record of it that spans may be asked of.
#[derive(Clone, Copy)]
pub struct Store<'a> {
    pub section: &'a [u8],
    pub opened: Opened,
    pub ghost bytes: { Bytes section.now },
    pub ghost fits: { length section.now < 2 ^ 63 },
    pub ghost spannable: { Spannable opened },
}

impl<'a> Store<'a> {
    // Other views have a `layout` of their own: the widths follow from another fact in each.
    pub fn layout(&self) -> Layout
        ensures { result.encoding ≡ self.now.opened.encoding }
    {
        Layout::new(self.opened.encoding)
    }

    // The place of the first of some versions within a limit, each of which is asked for `room` bytes. A stored number
    // above `most` has a sum beyond 64 bits.
    pub fn place_within<R: Reads>(
        &self,
        count: usize,
        from: usize,
        limit: u64,
        room: usize,
    ) -> Result<Option<usize>, Refusal>
        requires from_bound { from < 2 ^ 40 }
        requires room_bound { (self.now.opened.encoding.seq + R.BEHIND ≤ room) × (room < 2 ^ 10) }
        ensures { result ≡ placed_of count self.now.section.now self.now.opened room from limit }
    {
        let section = self.section;
        let o = self.opened;
        let seqs = R::of(o.encoding.seq);
        let size = self.layout().version();
        let most = u64::MAX - o.min_seq;
        let mut pos = from;
        for _ in 0..count {
            if section.len() < pos + room {
                return Err(Refusal::Read);
            }
            let stored = seqs.number(section, pos);
            if most < stored {
                return Err(Refusal::Read);
            }
            if o.min_seq + stored <= limit {
                return Ok(Some(pos));
            }
            pos += size;
        }
        Ok(None)
    }

    // The first of some versions within a limit: `place_within`, and the question whether all that a span reads of that
    // version is inside. Of those before it the sequence alone is read. `put_newest` of `wholepairs` says why it is
    // apart.
    fn newest(&self, count: usize, from: usize, limit: u64) -> Result<Option<usize>, Refusal>
        requires { from < 2 ^ 40 }
        ensures { (value_read self.now.section.now self.now.opened result
            ≡ first_within count self.now.section.now self.now.opened from limit)
            × Inside self.now.section.now self.now.opened result }
    {
        let section = self.section;
        let e = self.opened.encoding;
        let end = e.seq + e.value + e.address;
        match self.place_within::<Exact>(count, from, limit, e.seq)? {
            Some(pos) => {
                if section.len() < pos + end {
                    return Err(Refusal::Read);
                }
                Ok(Some(pos))
            }
            None => Ok(None),
        }
    }

    // The numbers of the key header at an address.
    fn header_at(&self, address: usize) -> KeyHeader
        requires { self.now.opened.arena + address + key_header_len_of self.now.opened.encoding
            ≤ length self.now.section.now }
        ensures { result
            ≡ key_header_at self.now.section.now self.now.opened.encoding (self.now.opened.arena + address) }
    {
        arena::key_header_at(self.section, self.layout(), self.opened.arena + address)
    }

    // The key whose record stands at an address.
    fn key_read(&self, address: usize, limit: u64) -> Result<Option<usize>, Refusal>
        requires { address < 2 ^ 32 }
        ensures { (value_read self.now.section.now self.now.opened result
            ≡ key_value self.now.section.now self.now.opened limit address
            (key_header_at self.now.section.now self.now.opened.encoding (self.now.opened.arena + address)))
            × Inside self.now.section.now self.now.opened result }
    {
        let section = self.section;
        let o = self.opened;
        let pos = o.arena + address;
        let header = self.layout().key_header();
        if section.len() < pos + header {
            return Err(Refusal::Read);
        }
        let h = self.header_at(address);
        self.newest(h.versions, pos + (header + h.suffix_len), limit)
    }

    // The address behind that record, modulo 2^32.
    fn next_address(&self, address: usize) -> usize
        requires address_bound { address < 2 ^ 32 }
        requires encoding_in_bounds { self.now.opened.arena + address + key_header_len_of self.now.opened.encoding ≤
            length self.now.section.now }
        ensures { (result ≡ next_address_of self.now.opened address
            (key_header_at self.now.section.now self.now.opened.encoding (self.now.opened.arena + address)))
            × (result < 2 ^ 32) }
    {
        let o = self.opened;
        let layout = self.layout();
        let h = self.header_at(address);
        let start = layout.key_header() + h.suffix_len;
        (address + start + h.versions * layout.version()) % 0x1_0000_0000
    }

    // Writes the value of the version at a place, unless it is a tombstone, and answers where the next pair goes.
    pub fn put_value_at<R: Reads>(&self, pos: usize, pairs: &mut [u64], to: usize) -> usize
        requires encoding_in_bounds { pos + value_end self.now.opened.encoding + R.BEHIND ≤ length
            self.now.section.now }
        requires to_in_bounds { to + 2 ≤ length pairs.old }
        ensures { (result ≡ to + 2 * length (value_at self.now.section.now self.now.opened pos))
            × (pairs.new ≡ sets pairs.old to (pair_numbers (value_at self.now.section.now self.now.opened pos))) }
    {
        let section = self.section;
        let e = self.opened.encoding;
        let value = pos + e.seq;
        let stored = R::of(e.value).number(section, value);
        if self.layout().tombstone() <= stored {
            return to;
        }
        pairs[to] = u32::read(section, value + e.value) as u64;
        pairs[to + 1] = stored;
        to + 2
    }

    // Writes the value of the version that was read, unless it is a tombstone or there is none, and answers where the
    // next pair goes.
    #[tactic(auto, unfolding(crate::specs::Internal::read_defs, crate::specs::Span::pair_numbers))]
    fn put_value(&self, read: Result<Option<usize>, Refusal>, pairs: &mut [u64], to: usize) -> usize
        requires inside { Inside self.now.section.now self.now.opened read }
        requires to_in_bounds { to + 2 ≤ length pairs.old }
        ensures { (result ≡ to + 2 * length (pairs_of (value_read self.now.section.now self.now.opened read)))
            × (pairs.new ≡ sets pairs.old to (pair_numbers (pairs_of
            (value_read self.now.section.now self.now.opened read)))) }
    {
        match read {
            Ok(Some(pos)) => self.put_value_at::<Exact>(pos, pairs, to),
            Ok(None) | Err(_) => to,
        }
    }

    // Question 25 of some keys under a limit, one key record behind the other from an address on.
    fn keys_read(&self, count: u64, address: usize, limit: u64) -> Result<(), Refusal>
        requires { address < 2 ^ 32 }
        ensures { result ≡ refused_of (values_from count self.now.section.now self.now.opened limit address) }
    {
        let mut at = address;
        for _ in 0..count {
            self.key_read(at, limit)?;
            at = self.next_address(at);
        }
        Ok(())
    }

    // Writes the values of some keys, all of which were read before, and answers how many there are.
    fn put_values(&self, count: u64, address: usize, limit: u64, pairs: &mut [u64]) -> u64
        requires address_bound { address < 2 ^ 32 }
        requires address_value { is_given (values_from count self.now.section.now self.now.opened limit address)
            ≡ true }
        requires count_in_bounds { 2 * count ≤ length pairs.old }
        ensures { (result ≡ length (pairs_of (values_from count self.now.section.now self.now.opened limit address)))
            × (pairs.new ≡ sets pairs.old 0 (pair_numbers (pairs_of
            (values_from count self.now.section.now self.now.opened limit address)))) }
    {
        let mut at = address;
        let mut to = 0;
        for _ in 0..count {
            let read = self.key_read(at, limit);
            to = self.put_value(read, pairs, to);
            at = self.next_address(at);
        }
        to as u64 / 2
    }

    // The values of some keys, one key record behind the other from an address on. All is read before a pair is
    // written.
    pub fn values_from(
        &self,
        count: u64,
        address: u32,
        limit: u64,
        pairs: &mut [u64],
    ) -> Result<u64, Refusal>
        requires { 2 * count ≤ length pairs.old }
        ensures { (result ≡ spanned_read (values_from count self.now.section.now self.now.opened limit address))
            × (pairs.new ≡ pairs_written (values_from count self.now.section.now self.now.opened limit address)
            pairs.old) }
    {
        let at = address as usize;
        self.keys_read(count, at, limit)?;
        Ok(self.put_values(count, at, limit, pairs))
    }
}
