// The builder: what an add asks and keeps, and the size of the section that will be written.
#![tactic(auto)]

ghost use Rattle.std.specs.Prelude.{◌≡◌, true, ◌+◌, ◌≤◌, ltb, leb, length};
ghost use Rattle.num.specs.Choice.{when◌then◌else◌, either};
ghost use Rattle.area.specs.Area.{area_versions};
ghost use Rattle.builder.specs.Record.{totals_small, key_lies, standing, sizeable, size_of_section};
ghost use Rattle.builder.specs.Add.{RefusedWith};
ghost use Rattle.builder.specs.Internal.{questions_of};

mod counter;
mod entry;

pub use counter::Counter;
use encoding::{Layout, Totals};
pub use entry::{Entry, Tally};
use num::LittleEndian;
use refusal::{Refusal, ask};

// What a builder keeps beside its area: the totals of its entries, how many bytes of the area are used, and the places
// of the last key and of the latest anchor in it. All zero is the empty builder. The area is no part of it: C callers
// keep the record's numbers, and lend the area anew for each call.
#[derive(Clone, Copy, Debug, PartialEq, Eq)]
pub struct Builder {
    pub totals: Totals,
    pub used: u64,
    pub last_key: u64,
    pub anchor: u64,
}

// The most keys (question 33).
pub const MAX_KEYS: u64 = 1_048_576;

// No total is above this.
const MOST: u64 = 0x4000_0000;

// How many bytes of the area an entry takes, if its key is this long.
#[tactic(auto, unfolding(num::specs::Choice::choice_defs))]
fn entry_len(key_len: usize, new_key: bool) -> u64
    requires { key_len ≤ 1048576 }
    ensures { result ≡ 25 + (when new_key then 8 + key_len else 0) }
{
    let version = area::VERSION as u64;
    if new_key {
        version + area::HEAD as u64 + key_len as u64
    } else {
        version
    }
}

// Question 33.
#[tactic(auto, unfolding(num::specs::Choice::choice_defs))]
pub fn few_keys(keys: u64, new_key: bool) -> bool
    ensures { result ≡ leb (keys + (when new_key then 1 else 0)) 1048576 }
{
    if new_key {
        keys < MAX_KEYS
    } else {
        keys <= MAX_KEYS
    }
}

impl Builder {
    // Question 37 of the totals.
    #[tactic(auto, unfolding(crate::specs::Record::totals_small, num::specs::Choice::choice_defs))]
    fn totals_small(self) -> bool
        ensures { result ≡ totals_small self }
    {
        let t = self.totals;
        t.keys <= MOST
            && t.versions <= MOST
            && t.suffix_bytes <= MOST
            && self.used <= MOST
            && t.max_key_len <= MOST
            && t.max_value_len <= MOST
            && t.max_versions <= MOST
    }

    // Question 37 of size.
    #[tactic(auto, unfolding(crate::specs::Record::sizeable, num::specs::Choice::choice_defs))]
    fn sizeable(self) -> bool
        ensures { result ≡ sizeable self }
    {
        let t = self.totals;
        self.totals_small() && t.min_seq <= t.max_seq
    }

    // The size of the section that is written with a scan prefix, or 37.
    #[tactic(auto, unfolding(crate::specs::Record::size_of_section, num::specs::Choice::choice_defs))]
    pub fn size(self, prefix: u64) -> Result<u64, Refusal>
        ensures { result ≡ size_of_section self prefix }
    {
        ask(self.sizeable(), Refusal::Builder)?;
        let t = self.totals;
        let layout = Layout::for_builder(t);
        Ok(layout.section_len(t, prefix as usize) as u64)
    }

    // Question 37 of a key's place. Compared by differences: the sums may pass 2^64.
    #[tactic(auto, unfolding(crate::specs::Internal::standing_defs))]
    fn key_lies(self, area: &[u8], head: u64) -> bool
        requires { self.used ≤ length area.now }
        ensures { result ≡ key_lies area.now self head }
    {
        let size = area::HEAD as u64;
        if self.used < size {
            return false;
        }
        let end = self.used - size;
        if end < head {
            return false;
        }
        u32::read(area, head as usize) as u64 <= end - head
    }

    // Question 37 of `add`.
    #[tactic(auto, unfolding(crate::specs::Internal::standing_defs))]
    fn stands(self, area: &[u8]) -> bool
        ensures { result ≡ standing area.now self }
    {
        if (area.len() as u64) < self.used || !self.totals_small() {
            return false;
        }
        self.totals.keys == 0
            || (self.key_lies(area, self.last_key)
                && self.key_lies(area, self.anchor)
                && u32::read(area, self.last_key as usize + 4) as u64 <= MOST)
    }

    // The questions of an add, which ask for the lengths of its key and its value alone.
    #[tactic(auto, unfolding(crate::specs::Internal::question_defs))]
    fn questions(
        self,
        area: &[u8],
        key_len: usize,
        value_len: usize,
        new_key: bool,
        offset: u64,
    ) -> Result<(), Refusal>
        ensures { result ≡ questions_of area.now self key_len value_len new_key offset }
    {
        let t = self.totals;
        ask(sstable::mutation(key_len, value_len), Refusal::AddLimits)?;
        ask(new_key || 0 < t.keys, Refusal::FirstNotNew)?;
        ask(t.last_value_offset <= offset, Refusal::OffsetFalls)?;
        ask(few_keys(t.keys, new_key), Refusal::TooManyKeys)?;
        ask(self.stands(area), Refusal::Builder)?;
        let end = self.used + entry_len(key_len, new_key);
        ask(end <= area.len() as u64 && end <= MOST, Refusal::AreaRoom)
    }

    // The first question that an add fails, whatever bytes its key and its value have. Lengths, mark and offset come
    // one by one, here and in `questions`, and not as an `Entry`: the answer is promised of them alone, to a caller
    // that has no bytes yet. `entry_len` takes two of them, `versions_with` the mark.
    #[tactic(auto, using(crate::proofs::Asked::refused_with))]
    pub fn refusal(
        self,
        area: &[u8],
        key_len: usize,
        value_len: usize,
        new_key: bool,
        offset: u64,
    ) -> Result<(), Refusal>
        ensures { RefusedWith area.now self key_len value_len new_key offset result }
    {
        self.questions(area, key_len, value_len, new_key, offset)
    }

    // The number of versions of an entry's key, with this one.
    #[tactic(auto, unfolding(crate::specs::Add::add_defs, num::specs::Choice::choice_defs))]
    pub fn versions_with(self, area: &[u8], new_key: bool) -> u64
        requires { (standing area.now self ≡ true) × (either new_key (ltb 0 self.totals.keys) ≡ true) }
        ensures { result ≡ (when new_key then 1 else area_versions area.now self.last_key + 1) }
    {
        if new_key {
            return 1;
        }
        u32::read(area, self.last_key as usize + 4) as u64 + 1
    }
}
