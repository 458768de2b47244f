// Pilots for the buckets of two and more keys, in their order: the least pilot under which a bucket's slots are free
// and different. A free slot holds the number of keys, and is no `Option`: the slots stand in the scratch, which is
// 32-bit numbers that C lends.
#![tactic(auto)]

ghost use Rattle.std.specs.Prelude.{◌≡◌, true, ℕ, ◌<◌, ◌≤◌, length, get_or, take};
ghost use Rattle.num.specs.Choice.{one_of};
ghost use Rattle.construction.specs.Construct.{bucket_count, order_of, filled, placeable, positions_of, place_buckets};
ghost use Rattle.construction.specs.Internal.{served_as};
ghost use Rattle.pilots.specs.Internal.{Fits, Indexed, Searched, few};

use construction::Arranged;

// Pilots are below this.
const LIMIT: u32 = 100_000;

// Up to so many candidates it is faster to look at each: they lie together, their indices do not.
const FEW: usize = 8;

// Is the slot one of the candidates? Of many its index says which, if it is one; what other slots have there has no
// say.
#[tactic(auto, using(crate::proofs::Candidates::which_yes, crate::proofs::Candidates::which_no))]
fn is_candidate(candidates: &[u32], indices: &[u32], at: u32) -> bool
    requires { (at < length indices.now) × (few < length candidates.now → Indexed candidates.now indices.now) }
    ensures { result ≡ one_of candidates.now at }
{
    if candidates.len() <= FEW {
        return candidates.contains(&at);
    }
    let which = indices[at as usize] as usize;
    which < candidates.len() && candidates[which] == at
}

// Are the members' slots under a pilot free and different? If so, they are the first candidates. The five slices stay
// parameters: a struct over them would want a clause for each `&mut` in it, in both functions and the loops. So would
// one over candidates and indices, or over pilots and slots, in all that place buckets.
fn try_pilot(
    hashes: &[u64],
    members: &[u32],
    slots: &[u32],
    candidates: &mut [u32],
    indices: &mut [u32],
    pilot: u32,
) -> bool
    requires { Fits hashes.now members.now slots.now candidates.old indices.old }
    ensures answer { result ≡ placeable slots.now (positions_of hashes.now members.now pilot) }
    ensures chosen { result ≡ true
        → take (length members.now) candidates.new ≡ positions_of hashes.now members.now pilot }
    ensures lengths { (length candidates.new ≡ length candidates.old) × (length indices.new ≡ length indices.old) }
{
    for (j, member) in members.iter().enumerate() {
        let at = point::position(hashes[*member as usize], pilot, slots.len() as u64) as u32;
        if slots[at as usize] as usize != slots.len()
            || is_candidate(&candidates[..j], indices, at)
        {
            return false;
        }
        candidates[j] = at;
        if FEW < members.len() {
            indices[at as usize] = j as u32;
        }
    }
    true
}

// The least pilot that serves the members, if there is one. It is a number that is sought, no index: a range.
fn find_pilot(
    hashes: &[u64],
    members: &[u32],
    slots: &[u32],
    candidates: &mut [u32],
    indices: &mut [u32],
) -> Option<u32>
    requires { Fits hashes.now members.now slots.now candidates.old indices.old }
    ensures searched { Searched hashes.now slots.now members.now result candidates.new }
    ensures lengths { (length candidates.new ≡ length candidates.old) × (length indices.new ≡ length indices.old) }
{
    for pilot in 0..LIMIT {
        if try_pilot(hashes, members, slots, candidates, indices, pilot) {
            return Some(pilot);
        }
    }
    None
}

// Stores each member in its candidate. By index: the definition drops as many of both lists, and one number says it of
// both.
fn fill_slots(members: &[u32], candidates: &[u32], slots: &mut [u32])
    requires length { length candidates.now ≡ length members.now }
    requires slots { (j : ℕ) → j < length candidates.now → get_or candidates.now j 0 < length slots.old }
    ensures { slots.new ≡ filled slots.old candidates.now members.now }
{
    for (j, at) in candidates.iter().enumerate() {
        slots[*at as usize] = members[j];
    }
}

// Places all buckets of two members and more, in their order, as long as each finds a pilot.
#[tactic(auto, using(construction::proofs::Order::read_below, crate::proofs::Placing::found_length))]
pub fn place_buckets(
    arranged: &Arranged<'_>,
    candidates: &mut [u32],
    indices: &mut [u32],
    pilots: &mut [u32],
    slots: &mut [u32],
) -> bool
    requires room { (length arranged.now.hashes.now ≤ length candidates.old)
        × (length arranged.now.hashes.now ≤ length indices.old) }
    requires places { (length pilots.old ≡ bucket_count arranged.now.hashes.now)
        × (length slots.old ≡ length arranged.now.hashes.now) }
    ensures room_unchanged { (length candidates.new ≡ length candidates.old)
        × (length indices.new ≡ length indices.old) }
    ensures places_unchanged { (length pilots.new ≡ length pilots.old) × (length slots.new ≡ length slots.old) }
    ensures placed { served_as result (record { pilots = pilots.new; slots = slots.new })
        ≡ place_buckets arranged.now.hashes.now (record { pilots = pilots.old; slots = slots.old })
        (order_of arranged.now.hashes.now) }
{
    for x in arranged.order {
        let x = *x as usize;
        let members = arranged.members_of(x);
        if members.len() < 2 {
            continue;
        }
        let Some(pilot) = find_pilot(arranged.hashes, members, slots, candidates, indices) else {
            return false;
        };
        fill_slots(members, &candidates[..members.len()], slots);
        pilots[x] = pilot;
    }
    true
}
