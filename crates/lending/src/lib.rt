// Block records, of which a part is lent to the entries that take records. Both answer numbers, as those entries do for
// C: the lists that are replayed hold these.
#![tactic(auto)]

ghost use Rattle.std.specs.Prelude.{◌≡◌, ◌++◌, ◌≤◌, ◌-◌, length, take, drop};
ghost use Rattle.blocks.specs.Blocks.{fill_of, filled_read, filled_count, filled_places, find_of, found_place};
ghost use Rattle.refusal.specs.Refusal.{answer_number};

use blocks::BlockRecord;

// Fills the first places, and leaves the others as they are. The result is the entry's number.
pub fn fill(
    data: &[u8],
    blocks: &[u64],
    records: &mut [BlockRecord],
    places: usize,
    count: &mut u64,
) -> u64
    requires { places ≤ length records.old }
    ensures { (result ≡ answer_number (filled_read (fill_of «data».now blocks.now places)))
        × (records.new ≡ filled_places (fill_of «data».now blocks.now places)
        (take places records.old) ++ drop places records.old)
        × (count.new ≡ filled_count (filled_read (fill_of «data».now blocks.now places)) count.old) }
{
    kiban::kiban_fill_blocks(data, blocks, &mut records[..places], count)
}

// The place of an offset in a part of the records.
pub fn find(records: &[BlockRecord], from: usize, to: usize, offset: u64) -> u64
    requires { (from ≤ to) × (to ≤ length records.now) }
    ensures { result ≡ found_place (to - from) (find_of (take (to - from) (drop from records.now)) offset) }
{
    kiban::kiban_find_block(&records[from..to], offset)
}
