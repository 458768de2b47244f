// An opened record and a builder's as sixteen numbers, and an answer as six: written, and read back. Functions and no
// `From`: records and arrays are of other crates, where no impl may stand here, and those of the records know nothing
// of the C interface, whose places these are.
#![tactic(auto)]

ghost use Rattle.std.specs.Prelude.{◌≡◌};
ghost use Rattle.std.proofs.lemmas.List.Edits.{sets};
ghost use Rattle.numbers.specs.Numbers.{record_numbers, opened_of, is_record_numbers, answer_numbers, none_numbers};
ghost use Rattle.numbers.specs.BuilderNumbers.{builder_numbers, is_builder_numbers, used_in, builder_in};

use builder::Builder;
use encoding::{Encoding, Totals};
use header::Opened;
use locator::ValueLocator;

// Writes an opened record as its sixteen numbers.
pub fn write_record(o: Opened, out: &mut [u64; 16])
    ensures { out.new ≡ sets out.old 0 (record_numbers o) }
{
    let e = o.encoding;
    *out = [
        o.seed,
        o.min_seq,
        o.count as u64,
        o.buckets as u64,
        o.arena as u64,
        e.address as u64,
        e.key as u64,
        e.count as u64,
        e.seq as u64,
        e.value as u64,
        e.checksum as u64,
        o.scan as u64,
        o.packed as u64,
        0,
        0,
        0,
    ];
}

// Could these sixteen numbers be a record that an opening wrote?
#[tactic(auto, unfolding(crate::specs::Numbers::is_record_numbers, num::specs::Choice::choice_defs))]
pub fn is_record_numbers(numbers: &[u64; 16]) -> bool
    ensures { result ≡ is_record_numbers numbers.now }
{
    (numbers[10] <= 1)
        & ((numbers[12] <= 1) & ((numbers[13] == 0) & ((numbers[14] == 0) & (numbers[15] == 0))))
}

// The record that sixteen numbers are.
#[tactic(auto, unfolding(crate::specs::Numbers::opened_of))]
pub fn read_record(numbers: &[u64; 16]) -> Opened
    ensures { result ≡ opened_of numbers.now }
{
    Opened {
        seed: numbers[0],
        min_seq: numbers[1],
        count: numbers[2] as usize,
        buckets: numbers[3] as usize,
        arena: numbers[4] as usize,
        encoding: Encoding {
            address: numbers[5] as usize,
            key: numbers[6] as usize,
            count: numbers[7] as usize,
            seq: numbers[8] as usize,
            value: numbers[9] as usize,
            checksum: numbers[10] == 1,
        },
        scan: numbers[11] as usize,
        packed: numbers[12] == 1,
    }
}

// Writes the version that was found as its six numbers.
#[tactic(auto, unfolding(crate::specs::Numbers::answer_numbers))]
pub fn write_answer(l: ValueLocator, answer: &mut [u64; 6])
    ensures { answer.new ≡ sets answer.old 0 (answer_numbers l) }
{
    *answer = [
        1,
        u8::from(l.kind) as u64,
        l.seq,
        l.offset,
        l.len,
        l.checksum,
    ];
}

// Writes that there is none.
pub fn write_missing(answer: &mut [u64; 6])
    ensures { answer.new ≡ sets answer.old 0 none_numbers }
{
    *answer = [0; 6];
}

// Writes a builder's record as its sixteen numbers.
pub fn write_builder(b: Builder, out: &mut [u64; 16])
    ensures { out.new ≡ sets out.old 0 (builder_numbers b) }
{
    let t = b.totals;
    *out = [
        t.keys,
        t.versions,
        t.suffix_bytes,
        b.used,
        t.min_seq,
        t.max_seq,
        t.max_key_len,
        t.max_value_len,
        t.max_versions,
        t.last_value_offset,
        b.last_key,
        b.anchor,
        0,
        0,
        0,
        0,
    ];
}

// Are the last four places 0, as in every record that an add wrote?
#[tactic(auto, unfolding(crate::specs::BuilderNumbers::is_builder_numbers, num::specs::Choice::choice_defs))]
fn is_builder(numbers: &[u64; 16]) -> bool
    ensures { result ≡ is_builder_numbers numbers.now }
{
    (numbers[12] == 0) & ((numbers[13] == 0) & ((numbers[14] == 0) & (numbers[15] == 0)))
}

// The used bytes; more than any area has, if the numbers are no record: no `Option`, since question 37
// refuses such a record in its turn, and no entry asks twice.
#[tactic(auto, unfolding(crate::specs::BuilderNumbers::used_in, num::specs::Choice::choice_defs))]
fn used_in(numbers: &[u64; 16]) -> u64
    ensures { result ≡ used_in numbers.now }
{
    if is_builder(numbers) {
        numbers[3]
    } else {
        u64::MAX
    }
}

// The builder's record that sixteen numbers are.
#[tactic(auto, unfolding(crate::specs::BuilderNumbers::builder_in))]
pub fn read_builder(numbers: &[u64; 16]) -> Builder
    ensures { result ≡ builder_in numbers.now }
{
    Builder {
        totals: Totals {
            keys: numbers[0],
            versions: numbers[1],
            suffix_bytes: numbers[2],
            min_seq: numbers[4],
            max_seq: numbers[5],
            max_key_len: numbers[6],
            max_value_len: numbers[7],
            max_versions: numbers[8],
            last_value_offset: numbers[9],
        },
        used: used_in(numbers),
        last_key: numbers[10],
        anchor: numbers[11],
    }
}
