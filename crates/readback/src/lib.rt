// Reading the builder's area back: question 37 of writing.
#![tactic(auto)]

ghost use Rattle.std.specs.Prelude.{◌≡◌, true, [], ◌∷◌, ◌+◌, ◌-◌, ◌≤◌, ◌<◌, length};
ghost use Rattle.num.specs.Choice.{one_of};
ghost use Rattle.area.specs.Area.{area_key_len};
ghost use Rattle.builder.specs.Record.{sizeable};
ghost use Rattle.readback.specs.ReadBack.{version_read, versions_read, key_read, area_read, reads_back_of};
ghost use Rattle.readback.specs.Internal.{LentArea, Running, version_passes};

use area::{Key, Version};
use builder::{Builder, Counter, Tally};
use encoding::Totals;
use num::LittleEndian;
use sstable::Kind;

// Is a byte the number of a kind?
#[tactic(auto, using(crate::proofs::Known::kind_known))]
fn is_kind(number: u8) -> bool
    ensures { result ≡ one_of (1 ∷ 2 ∷ []) number }
{
    Kind::try_from(number).is_ok()
}

// Is the kind of a version known, and are 30, 32 and 33 answered with yes?
#[tactic(auto, unfolding(crate::specs::Internal::passing_defs))]
fn version_passes(version: &Version<'_>, r: Builder, key_len: usize, new_key: bool) -> bool
    ensures { result ≡ version_passes version.now.area.now r key_len version.now.place new_key }
{
    let t = r.totals;
    is_kind(version.kind())
        && sstable::mutation(key_len, version.size() as usize)
        && t.last_value_offset <= version.offset()
        && builder::few_keys(t.keys, new_key)
}

// What was read of the area before an end, which stays beside it: the definitions read the lent area up to an end.
#[derive(Clone, Copy)]
struct Progress<'a> {
    area: &'a [u8],
    end: u64,
    read: Builder,
    ghost lent: { LentArea area.now end },
    ghost running: { Running area.now end read },
}

impl<'a> Progress<'a> {
    // The version at a place, of the key whose head stands at another.
    #[tactic(auto, unfolding(crate::specs::Internal::version_defs))]
    fn version(self, head: u64, place: u64, count: u64, new_key: bool) -> Option<Builder>
        requires { (head + 8 + area_key_len self.area.now head ≤ self.end) × (place ≤ self.end) }
        ensures { result ≡ version_read self.entry.area.now self.entry.end self.entry.read head place count new_key }
    {
        let area = self.area;
        if self.end < place + area::VERSION as u64 {
            return None;
        }
        let key = Key {
            area,
            head: head as usize,
        };
        let version = Version {
            area,
            place: place as usize,
        };
        if !version_passes(&version, self.read, key.len(), new_key) {
            return None;
        }
        let counter = Counter {
            area,
            builder: self.read,
        };
        Some(counter.builder_after(Tally {
            key: key.bytes(),
            count,
            size: version.size() as u64,
            seq: version.seq(),
            offset: version.offset(),
            new_key,
        }))
    }

    // The versions of the last key behind its first. The number of each is what is counted, and no index.
    fn versions(self, versions: u64) -> Option<Builder>
        requires { (0 < self.read.totals.keys) × (0 < versions) }
        ensures { result ≡ versions_read (versions - 1) self.entry.area.now self.entry.end self.entry.read 1 }
    {
        let (area, end) = (self.area, self.end);
        let mut read = self.read;
        for count in 1..versions {
            let progress = Progress { area, end, read };
            read = progress.version(read.last_key, read.used, count + 1, false)?;
        }
        Some(read)
    }

    // The key whose head stands behind the used bytes, with its versions.
    #[tactic(auto, unfolding(crate::specs::Internal::key_defs))]
    fn key(self) -> Option<Builder>
        ensures { result ≡ key_read self.entry.area.now self.entry.end self.entry.read }
    {
        let (area, end) = (self.area, self.end);
        let head = self.read.used;
        if end < head + area::HEAD as u64 {
            return None;
        }
        let place = head + area::HEAD as u64 + u32::read(area, head as usize) as u64;
        if end < place {
            return None;
        }
        let versions = u32::read(area, head as usize + 4) as u64;
        if versions == 0 {
            return None;
        }
        let read = self.version(head, place, 1, true)?;
        Progress { area, end, read }.versions(versions)
    }
}

// The keys from the empty record on, by name: `Default` would be derived in two crates for this one place.
fn area_read(area: &[u8], end: u64) -> Option<Builder>
    requires { LentArea area.now end }
    ensures { result ≡ area_read area.now end }
{
    let mut read = Builder {
        totals: Totals {
            keys: 0,
            versions: 0,
            suffix_bytes: 0,
            min_seq: 0,
            max_seq: 0,
            max_key_len: 0,
            max_value_len: 0,
            max_versions: 0,
            last_value_offset: 0,
        },
        used: 0,
        last_key: 0,
        anchor: 0,
    };
    // No `for`: where a key ends, and so how many there are, is known only behind it.
    while read.used < end {
        read = Progress { area, end, read }.key()?;
    }
    Some(read)
}

// Does the used area lie in the lent one, and does it read back to the record?
#[tactic(auto, unfolding(crate::specs::Internal::back_defs))]
pub fn reads_back(area: &[u8], b: Builder) -> bool
    requires { sizeable b ≡ true }
    ensures { result ≡ reads_back_of area.now b }
{
    if (area.len() as u64) < b.used {
        return false;
    }
    match area_read(area, b.used) {
        Some(read) => read.totals == b.totals,
        None => false,
    }
}
