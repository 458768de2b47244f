// Questions 24 and 27 of the records that most sections with a scan part give, in few instructions: widths as
// `usual_widths` has them, and sequences of at most four bytes. A span asks them so first, and after a no one by one.
// It stays beside `held` for speed alone: some 105 instructions of the 167 of a span of one key (docs/PERFORMANCE.md,
// "Spans"). The section and the sixteen numbers are handed on as C callers lend them: a view of both would take two
// clauses of two functions, and be made for the one expression of `is_scan_record`.
#![tactic(auto)]

ghost use Rattle.std.specs.Prelude.{◌≡◌, true, ◌+◌, ◌*◌, ◌^◌, ◌≤◌, ◌<◌, length};
ghost use Rattle.usual.specs.Internal.{
  usual_numbers,
  fields_match,
  start_matches,
  scan_matches,
  header_inside_of,
  ScanRecord,
};

use encoding::Encoding;
use num::LittleEndian;

// The numbers alone: how many keys, the widths, the checksum flag, and not packed.
fn usual_numbers(numbers: &[u64; 16]) -> bool
    ensures { result ≡ usual_numbers numbers.now }
{
    let o = numbers::read_record(numbers);
    let e = o.encoding;
    let n = numbers[2];
    let w = numbers[8];
    ((0 < n) & (n < 0x8000_0000))
        & (header::usual_widths(e)
            & (((0 < w) & ((w <= 4) & (w != 3))) & ((numbers[10] <= 1) & (numbers[12] == 0))))
}

// The header's widths, seed, least sequence and counts. The widths of addresses and key lengths are read as one number.
fn fields_match(section: &[u8], numbers: &[u64; 16], buckets: u64) -> bool
    requires in_bounds { 64 ≤ length section.now }
    requires numbers_value { usual_numbers numbers.now ≡ true }
    requires buckets_bound { buckets < 2 ^ 31 }
    ensures { result ≡ fields_match section.now numbers.now buckets }
{
    ((u64::read(section, 32) == 0x1_0000_0004)
        & (held::says(section, 40, 1)
            & (held::says(section, 48, 2) & held::says(section, 44, numbers[8]))))
        & ((u64::read(section, 8) == numbers[0])
            & ((u64::read(section, 56) == numbers[1])
                & (held::says(section, 16, numbers[2])
                    & (held::says(section, 20, buckets) & (numbers[3] == buckets)))))
}

// The arena start, the flags, the scan place, and nothing in the last three places.
fn start_matches(section: &[u8], numbers: &[u64; 16], arena: u64, scan: u64) -> bool
    requires in_bounds { 64 ≤ length section.now }
    requires numbers_value { usual_numbers numbers.now ≡ true }
    ensures { result ≡ start_matches section.now numbers.now arena scan }
{
    ((numbers[13] == 0) & ((numbers[14] == 0) & (numbers[15] == 0)))
        & ((numbers[4] == arena)
            & ((u64::read(section, 24) == arena)
                & (held::says(section, 52, numbers[10] + 2)
                    & ((numbers[11] == scan) & (arena < scan)))))
}

// The scan part at a place that leaves room for it: 24 bytes of its header, four for each key, eight for its length,
// and the last five.
fn scan_matches(section: &[u8], n: u64, scan: usize) -> bool
    requires { scan + (37 + 4 * n) ≡ length section.now }
    ensures { result ≡ scan_matches section.now n scan }
{
    (u64::read(section, section.len() - 13) == 24 + 4 * n)
        & (header::stands_at(section, scan, &Encoding::SCAN_MAGIC)
            & header::scan_settings(section, scan, n as usize))
}

// Does the section reach as far as a span reads of a key header: four bytes, two lengths, and the word that begins with
// the number of versions? The load of the key's address, the first that may have to wait for memory, is made here,
// before the tests of 24.
fn header_inside(section: &[u8], numbers: &[u64; 16], first: u64, scan: u64) -> bool
    requires { scan + 24 + 4 * first + 4 ≤ length section.now }
    ensures { result ≡ header_inside_of section.now numbers.now first scan }
{
    let all = section.len() as u64;
    let arena = numbers[4];
    if all < arena {
        return false;
    }
    let address = u32::read(section, (scan + 24 + 4 * first) as usize) as u64;
    arena + address + 14 <= all
}

// Are these numbers a record that the section gives, plain and with a scan part, and is the key one of those that it
// counts? A no says nothing: it is also the answer to other widths, and to a key whose header is not inside the
// section.
#[tactic(auto, using(num::proofs::Choice::false_true))]
pub fn is_scan_record(section: &[u8], numbers: &[u64; 16], first: u64) -> bool
    ensures { result ≡ true → ScanRecord section.now numbers.now first }
{
    let n = numbers[2];
    if n <= first {
        return false;
    }
    if 0x8000_0000 <= n {
        return false;
    }
    let all = section.len() as u64;
    let behind = 37 + 4 * n;
    if all < behind {
        return false;
    }
    let scan = all - behind;
    if !header_inside(section, numbers, first, scan) {
        return false;
    }
    if !header::begins(section) {
        return false;
    }
    if !usual_numbers(numbers) {
        return false;
    }
    let buckets = (n + 1) / 2;
    let arena = 64 + 4 * buckets + 6 * n;
    fields_match(section, numbers, buckets)
        & (start_matches(section, numbers, arena, scan) & scan_matches(section, n, scan as usize))
}
