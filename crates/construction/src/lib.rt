// Construction of the pilots and slots of a list of keys: definitions and theorems, and where the regions of its
// scratch are.
#![tactic(auto)]

ghost use Rattle.std.specs.Prelude.{◌≡◌, ◌+◌, ◌<◌, ◌≤◌, ◌^◌, length};
ghost use Rattle.encoding.specs.Encoding.{buckets_of};
ghost use Rattle.classes.specs.Internal.{SortedParts};
ghost use Rattle.construction.specs.Construct.{bucket_count, key_buckets, members_of, order_of};
ghost use Rattle.construction.specs.Scratch.{members_at, candidates_at, order_at, pilots_at, slots_at, indices_at};

// Where the regions of the scratch are: C lends one slice for all. The first one, of `buckets + 2` places, is at 0.
#[derive(Clone, Copy)]
pub struct Regions {
    pub buckets: usize,
    pub members: usize,
    pub candidates: usize,
    pub order: usize,
    pub pilots: usize,
    pub slots: usize,
    pub indices: usize,
}

impl Regions {
    // The regions for so many keys.
    #[tactic(auto, unfolding(crate::specs::Internal::place_defs))]
    pub fn of(keys: usize) -> Regions
        requires { keys ≤ 2 ^ 20 }
        ensures buckets { result.buckets ≡ buckets_of keys }
        ensures members { result.members ≡ members_at keys }
        ensures candidates { result.candidates ≡ candidates_at keys }
        ensures order { result.order ≡ order_at keys }
        ensures pilots { result.pilots ≡ pilots_at keys }
        ensures slots { result.slots ≡ slots_at keys }
        ensures indices { result.indices ≡ indices_at keys }
    {
        let buckets = (keys + 1) / 2;
        let members = buckets + 2;
        let candidates = members + keys;
        let order = candidates + keys + 3;
        let pilots = order + buckets;
        let slots = pilots + buckets;
        let indices = slots + keys;
        Regions {
            buckets,
            members,
            candidates,
            order,
            pilots,
            slots,
            indices,
        }
    }
}

// What a seed's placing reads: the hashes, the members of all buckets, bucket behind bucket, with where each bucket's
// start, and the buckets by falling size, equal sizes by lower number.
#[derive(Clone, Copy)]
pub struct Arranged<'a> {
    pub hashes: &'a [u64],
    pub starts: &'a [u32],
    pub members: &'a [u32],
    pub order: &'a [u32],
    pub ghost keys: { (1 ≤ length hashes.now) × (length hashes.now ≤ 2 ^ 20) },
    pub ghost places: { (length starts.now ≡ bucket_count hashes.now + 2) × (length members.now ≡ length hashes.now) },
    pub ghost sorted: { SortedParts (key_buckets hashes.now) (bucket_count hashes.now) starts.now members.now },
    pub ghost ordered: { order.now ≡ order_of hashes.now },
}

impl<'a> Arranged<'a> {
    // The members of a bucket.
    #[tactic(auto, using(crate::proofs::Buckets::members_end, crate::proofs::Buckets::members_part))]
    pub fn members_of(&self, bucket: usize) -> &'a [u32]
        requires { bucket < bucket_count self.now.hashes.now }
        ensures { result.now ≡ members_of self.now.hashes.now bucket }
    {
        &self.members[self.starts[bucket] as usize..self.starts[bucket + 1] as usize]
    }
}
