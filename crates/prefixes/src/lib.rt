// How many scan prefixes the keys of the builder's area begin with.
#![tactic(auto)]

ghost use Rattle.std.specs.Prelude.{◌≡◌, not, ◌≤◌, take};
ghost use Rattle.num.specs.Choice.{when◌then◌else◌};
ghost use Rattle.num.specs.Order.{equal_bytes};
ghost use Rattle.area.specs.Area.{area_key};
ghost use Rattle.written.specs.Section.{group_prefixes};
ghost use Rattle.writer.specs.Write.{groups_from};

use area::{Key, Keys};

// 1 if two keys of the area begin with different prefixes.
#[tactic(auto, using(crate::proofs::Two::other, crate::proofs::Two::same), unfolding(num::specs::Choice::choice_defs))]
fn prefix_change(last: Key<'_>, key: Key<'_>, prefix: usize) -> u64
    ensures { result ≡ (when not (equal_bytes (take prefix (area_key key.entry.area.now key.entry.head))
        (take prefix (area_key last.entry.area.now last.entry.head))) then 1 else 0) }
{
    let (a, b) = (key.bytes(), last.bytes());
    let n = prefix.min(a.len());
    let same = n == prefix.min(b.len()) && num::same_part(a, 0, b, 0, n);
    u64::from(!same)
}

// How many prefixes the keys begin with: the first one's, and each that differs from the one before.
#[tactic(auto, using(crate::proofs::Counting::counts_all, construct::proofs::Hashing::keys_length))]
pub fn count_prefixes(keys: &Keys<'_>, prefix: usize) -> u64
    requires { 1 ≤ keys.now.count }
    ensures { result
        ≡ group_prefixes prefix (groups_from keys.now.count keys.now.area.now keys.now.head) keys.now.count }
{
    let mut prefixes: u64 = 1;
    let mut last = keys.first();
    for key in keys.rest() {
        prefixes += prefix_change(last, key, prefix);
        last = key;
    }
    prefixes
}
