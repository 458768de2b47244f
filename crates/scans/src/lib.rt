// Spans over an opened section: their questions in order, and how the keys are read.
// `span` answers a number, since C callers get it so. Its parameters are those of the C function, and three private
// functions hand them on: no two of the three ask the same of them, so a struct of them would save no clause, and be
// made and taken apart. `walk_keys` and `scan_values` take the limit and the pairs one by one: a bound, and a slice
// lent to be written.
#![tactic(auto, unfolding(onekey::specs::Internal::KeyPut))]

ghost use Rattle.std.specs.Prelude.{◌≡◌, true, ◌+◌, ◌*◌, ◌≤◌, length};
ghost use Rattle.opened.specs.Opened.{is_record_of};
ghost use Rattle.spans.specs.Span.{scannable, scan_address, values_from, span_of, pairs_written, spanned_read};
ghost use Rattle.refusal.specs.Refusal.{answer_number};
ghost use Rattle.numbers.specs.Numbers.{opened_of};
ghost use Rattle.onekey.specs.Internal.{KeyPut};
ghost use Rattle.usual.specs.Internal.{ScanRecord};
ghost use Rattle.scans.specs.Spans.{span_of_numbers, found_written};

use header::Opened;
use refusal::{Refusal, answered};
use spans::Store;
use wholekeys::Keys;

// Question 27.
fn scannable(o: Opened) -> bool
    ensures { result ≡ scannable o }
{
    if o.packed {
        return false;
    }
    if o.scan == 0 {
        return false;
    }
    o.encoding.address == 4
}

// The values of some keys under a limit, one key record behind the other.
fn walk_keys(keys: &Keys<'_>, limit: u64, pairs: &mut [u64]) -> Result<u64, Refusal>
    requires { 2 * keys.now.count ≤ length pairs.old }
    ensures { (result ≡ spanned_read (values_from keys.now.count keys.now.store.section.now keys.now.store.opened
        limit (scan_address keys.now.store.section.now keys.now.store.opened keys.now.first)))
        × (pairs.new ≡ pairs_written (values_from keys.now.count keys.now.store.section.now keys.now.store.opened
        limit (scan_address keys.now.store.section.now keys.now.store.opened keys.now.first)) pairs.old) }
{
    keys.store
        .values_from(keys.count, keys.address(0), limit, pairs)
}

// The same, by the scan addresses where the key records are whole.
fn scan_values(keys: &Keys<'_>, limit: u64, pairs: &mut [u64]) -> Result<u64, Refusal>
    requires { 2 * keys.now.count ≤ length pairs.old }
    ensures { (result ≡ spanned_read (values_from keys.now.count keys.now.store.section.now keys.now.store.opened
        limit (scan_address keys.now.store.section.now keys.now.store.opened keys.now.first)))
        × (pairs.new ≡ pairs_written (values_from keys.now.count keys.now.store.section.now keys.now.store.opened
        limit (scan_address keys.now.store.section.now keys.now.store.opened keys.now.first)) pairs.old) }
{
    if keys.are_whole() {
        return Ok(wholepairs::put_whole(keys, limit, pairs));
    }
    walk_keys(keys, limit, pairs)
}

// Questions 28, 29 and 25, of a record that 24 and 27 hold of.
fn record_span(
    section: &[u8],
    numbers: &[u64; 16],
    first: u64,
    count: u64,
    limit: u64,
    pairs: &mut [u64],
) -> Result<u64, Refusal>
    requires numbers_value { is_record_of section.now (opened_of numbers.now) ≡ true }
    requires numbers_value_2 { scannable (opened_of numbers.now) ≡ true }
    ensures { (result ≡ spanned_read (span_of section.now (opened_of numbers.now) first count limit (length pairs.old)))
        × (pairs.new ≡ pairs_written (span_of section.now (opened_of numbers.now) first count limit
        (length pairs.old)) pairs.old) }
{
    let opened = numbers::read_record(numbers);
    if !lookup::inside(opened.count, first, count) {
        return Err(Refusal::SpanKeys);
    }
    if pairs.len() as u64 / 2 < count {
        return Err(Refusal::SpanRoom);
    }
    let store = Store { section, opened };
    let keys = Keys {
        store,
        first,
        count,
    };
    scan_values(&keys, limit, pairs)
}

// All questions, of any record.
fn general_span(
    section: &[u8],
    numbers: &[u64; 16],
    first: u64,
    count: u64,
    limit: u64,
    pairs: &mut [u64],
) -> Result<u64, Refusal>
    ensures { (result ≡ spanned_read (span_of_numbers section.now numbers.now first count limit (length pairs.old)))
        × (pairs.new ≡ pairs_written (span_of_numbers section.now numbers.now first count limit
        (length pairs.old)) pairs.old) }
{
    let o = numbers::read_record(numbers);
    if !numbers::is_record_numbers(numbers) {
        return Err(Refusal::RecordGiven);
    }
    if !opened::is_record(section, o) {
        return Err(Refusal::RecordGiven);
    }
    if !scannable(o) {
        return Err(Refusal::NoSpans);
    }
    record_span(section, numbers, first, count, limit, pairs)
}

// One key of a record that 24, 27 and 28 hold of. What 29 or 25 refuses is left.
fn one_key(
    section: &[u8],
    numbers: &[u64; 16],
    first: u64,
    limit: u64,
    pairs: &mut [u64],
) -> Option<u64>
    requires { ScanRecord section.now numbers.now first }
    ensures { KeyPut result (span_of_numbers section.now numbers.now first 1 limit
        (length pairs.old)) pairs.old pairs.new }
{
    if pairs.len() < 2 {
        return None;
    }
    let opened = numbers::read_record(numbers);
    let store = Store { section, opened };
    let keys = Keys {
        store,
        first,
        count: 1,
    };
    onekey::put_key(&store, keys.address(0), limit, pairs)
}

// The span over sixteen numbers. The result is 0, or the number of the question that failed; how many pairs there are
// goes to `found`.
pub fn span(
    section: &[u8],
    numbers: &[u64; 16],
    first: u64,
    count: u64,
    limit: u64,
    pairs: &mut [u64],
    found: &mut u64,
) -> u64
    ensures { (result ≡ answer_number (spanned_read (span_of_numbers section.now numbers.now first count limit
        (length pairs.old))))
        × (pairs.new ≡ pairs_written (span_of_numbers section.now numbers.now first count limit
        (length pairs.old)) pairs.old)
        × (found.new ≡ found_written (span_of_numbers section.now numbers.now first count limit
        (length pairs.old)) found.old) }
{
    if !usual::is_scan_record(section, numbers, first) {
        return answered(
            general_span(section, numbers, first, count, limit, pairs),
            found,
        );
    }
    let is_one = count == 1;
    if !is_one {
        return answered(
            record_span(section, numbers, first, count, limit, pairs),
            found,
        );
    }
    match one_key(section, numbers, first, limit, pairs) {
        Some(n) => answered(Ok(n), found),
        None => answered(record_span(section, numbers, first, 1, limit, pairs), found),
    }
}
