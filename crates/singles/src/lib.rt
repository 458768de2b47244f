// Buckets of one key: each takes the least free slot, which its pilot names. A free slot holds the number of keys, as
// in `pilots`.
#![tactic(auto)]

ghost use Rattle.std.specs.Prelude.{◌≡◌, ◌<◌, ◌≤◌, length};
ghost use Rattle.construction.specs.Construct.{bucket_count, order_of, least_free, place_singles};
ghost use Rattle.construction.specs.Internal.{free_count, singles_in};
ghost use Rattle.singles.specs.Internal.{HasFree};

use construction::Arranged;

// The least free slot, which is `from` or later. There is one, so nothing is answered for none, and the search is no
// `for` over the slots, which would end behind them. `from` stays beside the slots: it is one of their numbers, as the
// answer is.
fn next_free(slots: &[u32], from: usize) -> usize
    requires has_free { HasFree slots.now }
    requires passed { from ≤ least_free slots.now }
    ensures { (result ≡ least_free slots.now) × (result < length slots.now) }
{
    let mut at = from;
    while slots[at] as usize != slots.len() {
        at += 1;
    }
    at
}

// The buckets of one key, in the order of the buckets.
#[tactic(auto, using(construction::proofs::Order::read_below))]
pub fn place_singles(arranged: &Arranged<'_>, pilots: &mut [u32], slots: &mut [u32])
    requires places { (length pilots.old ≡ bucket_count arranged.now.hashes.now)
        × (length slots.old ≡ length arranged.now.hashes.now) }
    requires free { free_count slots.old ≡ singles_in arranged.now.hashes.now (order_of arranged.now.hashes.now) }
    ensures places_unchanged { (length pilots.new ≡ length pilots.old) × (length slots.new ≡ length slots.old) }
    ensures placed { record { pilots = pilots.new; slots = slots.new }
        ≡ place_singles arranged.now.hashes.now (record { pilots = pilots.old; slots = slots.old })
        (order_of arranged.now.hashes.now) }
{
    let mut from = 0;
    for x in arranged.order {
        let x = *x as usize;
        let members = arranged.members_of(x);
        if members.len() == 1 {
            let free = next_free(slots, from);
            pilots[x] = point::DIRECT + free as u32;
            slots[free] = members[0];
            from = free + 1;
        }
    }
}
