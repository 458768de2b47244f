// Lookups, the places of values, and spans.

ghost use Rattle.std.specs.Prelude.{◌≡◌};
ghost use Rattle.replay.specs.Agree.{lookup_agrees, value_agrees, span_agrees};

use list::Row;

// No row of the lists lends more places for pairs.
const MOST_PLACES: usize = 64;

#[tactic(auto, unfolding(crate::specs::Agree::agree_defs, list::specs::Rows::row_field_defs))]
pub fn lookup(mut row: Row<'_>) -> bool
    ensures { result ≡ lookup_agrees row.entry.list.now row.entry.place }
{
    let section = row.bytes();
    let key = row.bytes();
    let limit = row.number();
    let record = row.named().numbers::<16>();
    let mut answer = [7; 6];
    let number = kiban::kiban_lookup(section, &record, key, limit, &mut answer);
    row.has(&[number]) && row.named().has(&answer)
}

#[tactic(auto, unfolding(crate::specs::Agree::agree_defs, list::specs::Rows::field_defs))]
pub fn value(mut row: Row<'_>) -> bool
    ensures { result ≡ value_agrees row.entry.list.now row.entry.place }
{
    let data = row.bytes();
    let [offset, length] = row.numbers::<2>();
    row.has(&[kiban::kiban_value(data, offset, length)])
}

#[tactic(auto, unfolding(crate::specs::Agree::agree_defs, list::specs::Rows::row_field_defs))]
pub fn span(mut row: Row<'_>) -> bool
    ensures { result ≡ span_agrees row.entry.list.now row.entry.place }
{
    let section = row.bytes();
    let record = row.named().numbers::<16>();
    // One by one: a proof that takes an array of them apart would do so with the record's sixteen numbers too.
    let first = row.number();
    let count = row.number();
    let limit = row.number();
    let mut places = [7; MOST_PLACES];
    let pairs = &mut places[..row.room(MOST_PLACES)];
    let mut found = 7;
    let number = kiban::kiban_span(section, &record, first, count, limit, pairs, &mut found);
    row.has(&[number]) && row.named().has(pairs) && row.has(&[found])
}
