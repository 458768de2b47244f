// Values of keys whose records are whole, each at its scan address, as pairs of offset and length, read by words of
// eight bytes. `put_whole` answers how many pairs there are: nothing of these keys is refused. Versions and pairs are
// named by places, as in `spans`.
#![tactic(auto)]

ghost use Rattle.std.specs.Prelude.{◌≡◌, ℕ, ◌+◌, ◌*◌, ◌^◌, ◌<◌, ◌≤◌, length};
ghost use Rattle.std.proofs.lemmas.List.Edits.{sets};
ghost use Rattle.encoding.specs.Encoding.{version_len_of};
ghost use Rattle.versions.specs.Version.{stored_seq};
ghost use Rattle.spans.specs.Span.{scan_address, first_within, values_from, pair_numbers};
ghost use Rattle.spans.specs.Internal.{pairs_of};
ghost use Rattle.wholekeys.specs.Internal.{WholeKeys};

use spans::Store;
use wholekeys::Keys;
use words::{Reads, Words};

// Writes the value of the first of some versions whose stored number is at most `within`, the limit less the least
// sequence, if there is one, and answers where the next pair goes.
// It stays beside `Store::place_within`, which asks of each version that it is inside and its sum: records that are
// whole need neither, and the loop is only made twice while it is this short (docs/PERFORMANCE.md, "Spans"). It counts
// versions with `_`: the place of the next one follows from the size of one.
fn put_newest(
    store: &Store<'_>,
    versions: usize,
    from: usize,
    within: u64,
    pairs: &mut [u64],
    to: usize,
) -> usize
    requires by_index { (pos : ℕ) → stored_seq store.now.section.now store.now.opened pos < 2 ^ 64 }
    requires encoding_in_bounds { from + versions * version_len_of store.now.opened.encoding + 8 ≤ length
        store.now.section.now }
    requires to_in_bounds { to + 2 ≤ length pairs.old }
    ensures { (result ≡ to + 2 * length (pairs_of (first_within versions store.now.section.now store.now.opened from
        (store.now.opened.min_seq + within))))
        × (pairs.new ≡ sets pairs.old to (pair_numbers (pairs_of
        (first_within versions store.now.section.now store.now.opened from
        (store.now.opened.min_seq + within))))) }
{
    let section = store.section;
    let seqs = Words::of(store.opened.encoding.seq);
    let size = store.layout().version();
    let mut pos = from;
    for _ in 0..versions {
        if seqs.masked(section, pos) <= within {
            return store.put_value_at::<Words>(pos, pairs, to);
        }
        pos += size;
    }
    to
}

// Writes the values of some keys whose records are whole, with `within` as above, and answers how many places they
// take. The hint makes the loop twice, for usual widths and others: without it 1,000 keys take 6.2 ns each in place of
// 4.3.
#[inline]
#[tactic(auto, using(encoding::proofs::Widths::widths_le))]
fn put_records(keys: &Keys<'_>, within: u64, pairs: &mut [u64]) -> usize
    requires whole_keys { WholeKeys keys.now.store.section.now keys.now.store.opened keys.now.first keys.now.count }
    requires count_in_bounds { 2 * keys.now.count ≤ length pairs.old }
    ensures { (result ≡ 2 * length (pairs_of (values_from keys.now.count keys.now.store.section.now
        keys.now.store.opened (keys.now.store.opened.min_seq + within)
        (scan_address keys.now.store.section.now keys.now.store.opened keys.now.first))))
        × (pairs.new ≡ sets pairs.old 0 (pair_numbers (pairs_of
        (values_from keys.now.count keys.now.store.section.now keys.now.store.opened
        (keys.now.store.opened.min_seq + within)
        (scan_address keys.now.store.section.now keys.now.store.opened keys.now.first))))) }
{
    let store = keys.store;
    let section = store.section;
    let o = store.opened;
    let e = o.encoding;
    let key_lens = Words::of(e.key);
    let counts = Words::of(e.count);
    let lengths = e.address + e.key;
    // Not `key_header`: with it the compiler takes the loop for too long to make it twice (docs/PERFORMANCE.md).
    let header = lengths + e.key + e.count;
    let mut to = 0;
    // By index: the number of the key is its place in the table of scan addresses.
    for i in 0..keys.count {
        let pos = o.arena + keys.address(i) as usize;
        let suffix_len = key_lens.masked(section, pos + lengths) as usize;
        let versions = counts.masked(section, pos + lengths + e.key) as usize;
        let start = header + suffix_len;
        to = put_newest(&store, versions, pos + start, within, pairs, to);
    }
    to
}

// Writes the values of some keys whose records are whole, and answers how many there are. Under a limit below the least
// sequence there are none. The widths that most sections have get loops of their own.
pub fn put_whole(keys: &Keys<'_>, limit: u64, pairs: &mut [u64]) -> u64
    requires whole_keys { WholeKeys keys.now.store.section.now keys.now.store.opened keys.now.first keys.now.count }
    requires count_in_bounds { 2 * keys.now.count ≤ length pairs.old }
    ensures { (result ≡ length (pairs_of (values_from keys.now.count keys.now.store.section.now keys.now.store.opened
        limit (scan_address keys.now.store.section.now keys.now.store.opened keys.now.first))))
        × (pairs.new ≡ sets pairs.old 0 (pair_numbers (pairs_of
        (values_from keys.now.count keys.now.store.section.now keys.now.store.opened limit
        (scan_address keys.now.store.section.now keys.now.store.opened keys.now.first))))) }
{
    let o = keys.store.opened;
    if limit < o.min_seq {
        return 0;
    }
    let within = limit - o.min_seq;
    if header::usual_widths(o.encoding) {
        return put_records(&keys.with_usual_widths(), within, pairs) as u64 / 2;
    }
    put_records(keys, within, pairs) as u64 / 2
}
