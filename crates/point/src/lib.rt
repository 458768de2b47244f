// From a key to its slot: hash, fingerprint, bucket, and what a pilot names.
#![tactic(auto)]

ghost use Rattle.std.specs.Prelude.{◌≡◌, ◌/◌, ◌%◌, ◌<◌, ◌≤◌, fold, length};
ghost use Rattle.std.specs.Int.Bits.{bit_xor};
ghost use Rattle.num.specs.Number.{le_at};
ghost use Rattle.point.specs.Hash.{
  mix_of,
  hash_chunk,
  chunks_of,
  tail_of,
  hash_value,
  fingerprint_of,
  bucket_of,
  position_of,
  slot_of,
};

use num::LittleEndian;

// Bit 31. A pilot, of 32 bits, has it exactly if it is at least this number, and then names its slot.
pub const DIRECT: u32 = 1 << 31;

pub const STEP: u64 = 0x9e37_79b9_7f4a_7c15;

#[tactic(auto, unfolding(crate::specs::Hash::mix_of, crate::specs::Hash::xor_shift))]
pub fn mix(h: u64) -> u64
    ensures { result ≡ mix_of h }
{
    let a = (h ^ (h >> 30)).wrapping_mul(0xbf58_476d_1ce4_e5b9);
    let b = (a ^ (a >> 27)).wrapping_mul(0x94d0_49bb_1331_11eb);
    b ^ (b >> 31)
}

// The hash after one more chunk.
fn next_chunk(h: u64, chunk: &[u8; 8]) -> u64
    ensures { result ≡ hash_chunk h (le_at chunk.now 0 8) }
{
    (h ^ u64::read(chunk, 0)).rotate_left(27).wrapping_mul(STEP)
}

// The number in the bytes of a short key, from the last to the first. By index: what is summed is the number that
// stands from `left` on (`le_at`), and the loop's rule says it by that place.
fn few(key: &[u8]) -> u64
    requires { length key.now < 8 }
    ensures { result ≡ le_at key.now 0 (length key.now) }
{
    let mut sum = 0;
    for left in (0..key.len()).rev() {
        sum = sum * 256 + u64::from(key[left]);
    }
    sum
}

fn all_chunks(chunks: &[[u8; 8]], first: u64) -> u64
    ensures { result ≡ fold (λ h chunk. hash_chunk h (le_at chunk 0 8)) first chunks.now }
{
    chunks.iter().fold(first, next_chunk)
}

// The hash after the last odd bytes behind the chunks, which are the top ones of a key's last eight.
fn odd_bytes(h: u64, key: &[u8], odd: usize) -> u64
    requires { (8 ≤ length key.now) × (odd ≡ length key.now % 8) }
    ensures { result ≡ bit_xor h (tail_of key.now) }
{
    if odd == 0 {
        return h;
    }
    h ^ (u64::read(key, key.len() - 8) >> (64 - 8 * odd))
}

// The hash after all chunks and the odd bytes. Most keys have one chunk or two, which take no loop.
fn all_bytes(key: &[u8], first: u64) -> u64
    ensures { result ≡ bit_xor (chunks_of (length key.now / 8) key.now 0 first) (tail_of key.now) }
{
    let (chunks, odd) = key.as_chunks::<8>();
    let h = match chunks {
        [] => return first ^ few(key),
        [one] => next_chunk(first, one),
        [one, two] => next_chunk(next_chunk(first, one), two),
        _ => all_chunks(chunks, first),
    };
    odd_bytes(h, key, odd.len())
}

// Always inlined: a lookup works on the hash while it asks whether the section gives its record.
#[inline(always)]
#[tactic(auto, unfolding(crate::specs::Hash::hash_value))]
pub fn hash(key: &[u8], seed: u64) -> u64
    ensures { result ≡ hash_value key.now seed }
{
    let first = mix(seed ^ (key.len() as u64));
    mix(all_bytes(key, first))
}

#[tactic(auto, unfolding(crate::specs::Hash::fingerprint_of))]
pub fn fingerprint(h: u64) -> u16
    ensures { result ≡ fingerprint_of h }
{
    (mix(h ^ 0xd6e8_feb8_6659_fd93) >> 48) as u16
}

#[tactic(auto, unfolding(crate::specs::Hash::bucket_of))]
pub fn bucket(h: u64, count: u64) -> u64
    requires { 0 < count }
    ensures { result ≡ bucket_of h count }
{
    h % count
}

#[tactic(auto, unfolding(crate::specs::Hash::position_of))]
pub fn position(h: u64, pilot: u32, n: u64) -> u64
    requires { 0 < n }
    ensures { result ≡ position_of h pilot n }
{
    mix(h ^ u64::from(pilot).wrapping_mul(STEP)) % n
}

#[tactic(auto, unfolding(crate::specs::Hash::slot_defs))]
pub fn slot(h: u64, pilot: u32, n: u64) -> u64
    requires { 0 < n }
    ensures { result ≡ slot_of h pilot n }
{
    if pilot >= DIRECT {
        return u64::from(pilot % DIRECT);
    }
    position(h, pilot, n)
}
