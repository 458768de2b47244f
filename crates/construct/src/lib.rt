// Construction: from the keys of a builder's area to a seed, a pilot for each bucket and a key for each slot.
#![tactic(auto)]

ghost use Rattle.std.specs.Prelude.{◌≡◌, ◌+◌, ◌*◌, ◌≤◌, ◌^◌, length};
ghost use Rattle.classes.specs.Internal.{SortedParts};
ghost use Rattle.construction.specs.Construct.{bucket_count, key_buckets, order_of, empty_placement};
ghost use Rattle.construction.specs.Construct.{hashes_of, placement_of, construct_of};
ghost use Rattle.construction.specs.Scratch.{placement_in};
ghost use Rattle.construction.specs.Internal.{Room, served_as};
ghost use Rattle.area.specs.Walk.{keys_of};
ghost use Rattle.construct.specs.Built.{built_as, Hashed};

use area::Keys;
use construction::{Arranged, Regions};

// The hash of each key. By `first` and `rest`: of a loop over `iter_mut().zip(*keys)` the check reads no invariant, as
// `Keys` has a ghost field.
fn hash_keys(keys: &Keys<'_>, seed: u64, hashes: &mut [u64])
    requires { length hashes.old ≡ keys.now.count }
    ensures { hashes.new ≡ hashes_of (keys_of keys.now) seed }
{
    let mut left = *keys;
    for hash in hashes.iter_mut() {
        *hash = point::hash(left.first().bytes(), seed);
        left = left.rest();
    }
}

// Places all keys, unless a bucket finds no pilot. The slices come one by one: of a scratch whose parts stand in a
// struct where they were split off, nothing would be known afterwards but its length.
fn place(
    hashes: &[u64],
    starts: &[u32],
    members: &[u32],
    order: &[u32],
    candidates: &mut [u32],
    indices: &mut [u32],
    pilots: &mut [u32],
    slots: &mut [u32],
) -> bool
    requires keys { (1 ≤ length hashes.now) × (length hashes.now ≤ 2 ^ 20) }
    requires lengths { (length starts.now ≡ bucket_count hashes.now + 2) × (length members.now ≡ length hashes.now) }
    requires sorted { SortedParts (key_buckets hashes.now) (bucket_count hashes.now) starts.now members.now }
    requires ordered { order.now ≡ order_of hashes.now }
    requires room { (length hashes.now ≤ length candidates.old) × (length hashes.now ≤ length indices.old) }
    requires empty { record { pilots = pilots.old; slots = slots.old } ≡ empty_placement hashes.now }
    requires places { (length pilots.old ≡ bucket_count hashes.now) × (length slots.old ≡ length hashes.now) }
    ensures room_unchanged { (length candidates.new ≡ length candidates.old)
        × (length indices.new ≡ length indices.old) }
    ensures places_unchanged { (length pilots.new ≡ length pilots.old) × (length slots.new ≡ length slots.old) }
    ensures placed { served_as result (record { pilots = pilots.new; slots = slots.new }) ≡ placement_of hashes.now }
{
    let arranged = Arranged {
        hashes,
        starts,
        members,
        order,
    };
    if !pilots::place_buckets(&arranged, candidates, indices, pilots, slots) {
        return false;
    }
    singles::place_singles(&arranged, pilots, slots);
    true
}

// Places all keys by the hashes of a seed, unless a bucket finds no pilot. Equal hashes are not asked for: they share
// every position, so that their bucket finds none. Pilots and slots are the way's before they are the placement's.
#[tactic(auto, unfolding(construction::specs::Internal::place_defs))]
fn with_seed(hashes: &[u64], scratch: &mut [u32]) -> bool
    requires { Room hashes.now scratch.old }
    ensures scratch_len_unchanged { length scratch.new ≡ length scratch.old }
    ensures scratch_after { served_as result (placement_in (length hashes.now) scratch.new) ≡ placement_of hashes.now }
{
    let keys = hashes.len();
    let at = Regions::of(keys);
    let (starts, rest) = scratch.split_at_mut(at.members);
    let (members, rest) = rest.split_at_mut(keys);
    let (candidates, rest) = rest.split_at_mut(keys + 3);
    let (order, rest) = rest.split_at_mut(at.buckets);
    let (pilots, rest) = rest.split_at_mut(at.buckets);
    let (slots, indices) = rest.split_at_mut(keys);
    arrange::sort_members(hashes, starts, members, slots);
    arrange::sort_buckets(hashes, starts, candidates, order, pilots);
    pilots.fill(0);
    // A free slot holds the number of keys: the scratch is 32-bit numbers that C lends.
    slots.fill(keys as u32);
    place(
        hashes, starts, members, order, candidates, indices, pilots, slots,
    )
}

// The first of the eight seeds under which every key finds its slot, or none. With a seed pilots and slots stand in the
// scratch, and the hashes beside them. The seeds are made of their numbers 1 to 8: no index, so a range.
pub fn construct(keys: &Keys<'_>, hashes: &mut [u64], scratch: &mut [u32]) -> Option<u64>
    requires le_count { (1 ≤ keys.now.count) × (keys.now.count ≤ 2 ^ 20) }
    requires count_in_bounds { (keys.now.count ≤ length hashes.old) × (6 * keys.now.count + 8 ≤ length scratch.old) }
    ensures scratch_after { built_as result keys.now.count scratch.new ≡ construct_of (keys_of keys.now) }
    ensures hashed { Hashed result (keys_of keys.now) hashes.new }
    ensures hashes_len_unchanged { (length hashes.new ≡ length hashes.old) × (length scratch.new ≡ length scratch.old) }
{
    for k in 1..=8 {
        let seed = point::mix(point::STEP.wrapping_mul(k));
        hash_keys(keys, seed, &mut hashes[..keys.count]);
        if with_seed(&hashes[..keys.count], scratch) {
            return Some(seed);
        }
    }
    None
}
