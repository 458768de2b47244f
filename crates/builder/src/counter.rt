// What an entry adds to the record.
ghost use Rattle.std.specs.Prelude.{◌≡◌, ◌-◌, length};
ghost use Rattle.num.specs.Choice.{when◌then◌else◌};
ghost use Rattle.builder.specs.Record.{shared_with, totals_after, builder_after};
ghost use Rattle.builder.specs.Lent.{counted};
ghost use Rattle.builder.specs.Internal.{Countable};

use crate::entry::Tally;
use crate::{Builder, entry_len};
use area::Key;
use encoding::{Encoding, Totals};

// A record beside its area, which can count one more entry.
#[derive(Clone, Copy)]
pub struct Counter<'a> {
    pub area: &'a [u8],
    pub builder: Builder,
    pub ghost countable: { Countable area.now builder },
}

impl<'a> Counter<'a> {
    // How many bytes a new key shares with the latest anchor.
    #[tactic(auto, unfolding(crate::specs::Internal::shared_defs))]
    fn shared_with(&self, key: &[u8]) -> usize
        ensures { result ≡ shared_with self.now.area.now self.now.builder key.now }
    {
        let b = self.builder;
        if b.totals.keys % Encoding::GROUP as u64 == 0 {
            return 0;
        }
        let anchor = Key {
            area: self.area,
            head: b.anchor as usize,
        };
        sstable::common_prefix_len(anchor.bytes(), key)
    }

    // How many bytes an entry adds to the suffixes.
    #[tactic(auto, using(crate::proofs::Standing::shared_le), unfolding(crate::specs::Internal::shared_defs))]
    fn suffix_len(&self, key: &[u8], new_key: bool) -> u64
        ensures { result ≡ (when new_key then length key.now - shared_with self.now.area.now self.now.builder key.now
            else 0) }
    {
        if !new_key {
            return 0;
        }
        (key.len() - self.shared_with(key)) as u64
    }

    // The totals with an entry.
    #[tactic(auto, using(crate::proofs::Standing::shared_le), unfolding(crate::specs::Internal::after_defs))]
    fn totals_after(&self, tally: Tally<'_>) -> Totals
        ensures { result ≡ totals_after self.now.area.now self.now.builder (counted tally.entry) }
    {
        let t = self.builder.totals;
        let key_len = tally.key.len() as u64;
        Totals {
            keys: t.keys + tally.new_key as u64,
            versions: t.versions + 1,
            suffix_bytes: t.suffix_bytes + self.suffix_len(tally.key, tally.new_key),
            min_seq: if t.versions == 0 {
                tally.seq
            } else {
                t.min_seq.min(tally.seq)
            },
            max_seq: t.max_seq.max(tally.seq),
            max_key_len: if tally.new_key {
                t.max_key_len.max(key_len)
            } else {
                t.max_key_len
            },
            max_value_len: t.max_value_len.max(tally.size),
            max_versions: t.max_versions.max(tally.count),
            last_value_offset: tally.offset,
        }
    }

    // The record with an entry, which stands behind the used bytes.
    #[tactic(auto, unfolding(crate::specs::Internal::after_defs))]
    pub fn builder_after(&self, tally: Tally<'_>) -> Builder
        ensures { result ≡ builder_after self.now.area.now self.now.builder (counted tally.entry) }
    {
        let b = self.builder;
        let anchors = tally.new_key & (b.totals.keys % Encoding::GROUP as u64 == 0);
        Builder {
            totals: self.totals_after(tally),
            used: b.used + entry_len(tally.key.len(), tally.new_key),
            last_key: if tally.new_key { b.used } else { b.last_key },
            anchor: if anchors { b.used } else { b.anchor },
        }
    }
}
