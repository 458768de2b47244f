// Judges whether the key records of a span are whole: then nothing of them is refused, and each key stands at its scan
// address.
#![tactic(auto)]

ghost use Rattle.std.specs.Prelude.{◌≡◌, true, ◌+◌, ◌*◌, ◌^◌, ◌<◌, ◌≤◌, length};
ghost use Rattle.header.specs.Internal.{usual_widths};
ghost use Rattle.spans.specs.Span.{scan_address};
ghost use Rattle.wholekeys.specs.Internal.{WholeKeys};

use encoding::Encoding;
use header::Opened;
use num::LittleEndian;
use spans::Store;
use words::{Reads, Words};

// The same record, with the widths that most sections have, but for that of sequences, as constants: the compiler then
// makes loops for them alone.
pub fn with_usual_widths(o: Opened) -> Opened
    requires { usual_widths o.encoding ≡ true }
    ensures { result ≡ o }
{
    let e = o.encoding;
    Opened {
        encoding: Encoding {
            address: 4,
            key: 1,
            count: 1,
            value: 2,
            ..e
        },
        ..o
    }
}

// Is every sequence sum below 2^64, whatever is stored?
fn sums_fit(o: Opened) -> bool
    ensures { result ≡ true → (o.encoding.seq ≤ 4) × (o.min_seq < 2 ^ 63) }
{
    (o.encoding.seq <= 4) & (o.min_seq < 0x8000_0000_0000_0000)
}

// The address behind a key record, whose versions begin `start` bytes behind its own.
fn record_end(at: usize, start: usize, versions: usize, size: usize) -> usize
    requires { at + start + versions * size < 2 ^ 40 }
    ensures { result ≡ at + start + versions * size }
{
    at + start + versions * size
}

// Some keys of a store, from one on: their scan addresses are inside the section, and so are four bytes behind the
// last.
#[derive(Clone, Copy)]
pub struct Keys<'a> {
    pub store: Store<'a>,
    pub first: u64,
    pub count: u64,
    pub ghost addressed: { store.opened.scan + 24 + 4 * (first + count) + 4 ≤ length store.section.now },
}

impl<'a> Keys<'a> {
    // The same keys, of a record whose widths are constants.
    pub fn with_usual_widths(&self) -> Keys<'a>
        requires { usual_widths self.now.store.opened.encoding ≡ true }
        ensures { (result.store.section.now ≡ self.now.store.section.now)
            × (result.store.opened ≡ self.now.store.opened)
            × (result.first ≡ self.now.first)
            × (result.count ≡ self.now.count) }
    {
        let store = Store {
            section: self.store.section,
            opened: with_usual_widths(self.store.opened),
        };
        Keys {
            store,
            first: self.first,
            count: self.count,
        }
    }

    // The scan address of the key so many places behind the first.
    pub fn address(&self, i: u64) -> u32
        requires { i ≤ self.now.count }
        ensures { result ≡ scan_address self.now.store.section.now self.now.store.opened (self.now.first + i) }
    {
        let place = self.store.opened.scan + Encoding::SCAN_HEADER + 4 * (self.first + i) as usize;
        u32::read(self.store.section, place)
    }

    // Are the records of the keys whole, one behind the other, as their scan addresses say? Sums that might pass 2^64
    // are left to the walk from record to record.
    #[tactic(auto, using(num::proofs::Choice::false_true, encoding::proofs::Widths::widths_le))]
    fn records_whole(&self) -> bool
        ensures { result ≡ true → WholeKeys self.now.store.section.now self.now.store.opened self.now.first
            self.now.count }
    {
        let section = self.store.section;
        let o = self.store.opened;
        let layout = self.store.layout();
        let e = o.encoding;
        if !sums_fit(o) {
            return false;
        }
        let key_lens = Words::of(e.key);
        let counts = Words::of(e.count);
        let header = layout.key_header();
        let size = layout.version();
        let lengths = e.address + e.key;
        let read = o.arena + lengths + e.key + 8;
        if section.len() < read {
            return false;
        }
        let most = section.len() - read;
        let mut next = self.address(0) as usize;
        let mut sound = true;
        // By index: the number of the key is its place in the table of scan addresses.
        for i in 0..self.count {
            let at = self.address(i) as usize;
            if most < at {
                return false;
            }
            let pos = o.arena + at + lengths;
            let suffix_len = key_lens.masked(section, pos) as usize;
            let versions = counts.masked(section, pos + e.key) as usize;
            // No branch here: behind one on `at == next` the compiler takes `next` for `at`, and each load needs the
            // one before.
            sound = sound & (at == next);
            next = record_end(at, header + suffix_len, versions, size);
        }
        sound & (next <= most)
    }

    // The same question; the widths that most sections have get a loop of their own.
    pub fn are_whole(&self) -> bool
        ensures { result ≡ true → WholeKeys self.now.store.section.now self.now.store.opened self.now.first
            self.now.count }
    {
        if header::usual_widths(self.store.opened.encoding) {
            return self.with_usual_widths().records_whole();
        }
        self.records_whole()
    }
}
