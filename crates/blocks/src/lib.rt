// A lent list of block records: filled from the pairs of a block list, and searched by offset.
#![tactic(auto)]

ghost use Rattle.std.specs.Prelude.{◌≡◌, ◌%◌, ◌≤◌, length};
ghost use Rattle.refusal.specs.Refusal.{answer_number};
ghost use Rattle.blocks.specs.Blocks.{
  pair_record,
  records_from,
  fill_of,
  filled_read,
  filled_count,
  filled_places,
  find_of,
  found_place,
};
ghost use Rattle.blocks.specs.Internal.{verdict_of, record_at, Passed};

use num::LittleEndian;
use refusal::{Refusal, ask};

// A block's pair of the list, and where its entries end, where its restart offsets start, and how many they are.
#[repr(C)]
#[derive(Clone, Copy, Debug, PartialEq, Eq)]
pub struct BlockRecord {
    pub offset: u64,
    pub len: u64,
    pub entries_end: u64,
    pub restart_start: u64,
    pub num_restarts: u64,
}

// A block list beside the data that it divides.
#[derive(Clone, Copy)]
struct BlockList<'a> {
    data: &'a [u8],
    blocks: &'a [u64],
}

// The numbers of a pair, and the place behind the last one, stay numbers: the list is the C interface's.
impl<'a> BlockList<'a> {
    // Questions 11 and 12 of a pair behind a place of the data. Its two numbers are places, as the list has them.
    #[tactic(auto, using(opening::proofs::Pairs::fits_inside), unfolding(crate::specs::Internal::pair_defs))]
    fn pair_asked(&self, at: usize, offset: usize, len: usize) -> Result<(), Refusal>
        requires { at ≤ length self.now.«data».now }
        ensures { result ≡ verdict_of (pair_record self.now.«data».now at offset len) }
    {
        ask(
            opening::pair_fits(self.data.len(), at, offset, len),
            Refusal::BlockList,
        )?;
        let end = offset + len;
        block::verify(&self.data[offset..end])?;
        Ok(())
    }

    // Questions 11 and 12 of the pairs, of which the list is made.
    fn pairs_asked(&self) -> Result<(), Refusal>
        requires { length self.now.blocks.now % 2 ≡ 0 }
        ensures { result ≡ verdict_of (records_from self.now.«data».now self.now.blocks.now 0) }
    {
        let (pairs, _) = self.blocks.as_chunks::<2>();
        let mut at = 0;
        for pair in pairs {
            let [offset, len] = *pair;
            let (offset, len) = (offset as usize, len as usize);
            self.pair_asked(at, offset, len)?;
            at = offset + len;
        }
        Ok(())
    }

    // Evenness, 11 and 12 of all pairs, then 41: how many records there are to write.
    #[tactic(auto, unfolding(crate::specs::Internal::fill_defs))]
    fn asked(&self, places: usize) -> Result<usize, Refusal>
        ensures { result ≡ filled_read (fill_of self.now.«data».now self.now.blocks.now places) }
    {
        ask(self.blocks.len() % 2 == 0, Refusal::BlockList)?;
        self.pairs_asked()?;
        let pairs = self.blocks.len() / 2;
        ask(pairs <= places, Refusal::BlocksRoom)?;
        Ok(pairs)
    }

    // The record of a pair whose block passed 12: its three numbers follow from the one before the trailer, so nothing
    // is verified again.
    fn record_of(&self, i: usize) -> BlockRecord
        requires { Passed self.now.«data».now self.now.blocks.now i }
        ensures { result ≡ record_at self.now.«data».now self.now.blocks.now i }
    {
        let offset = self.blocks[2 * i];
        let len = self.blocks[2 * i + 1];
        let behind = len - 9;
        let num_restarts = u32::read(self.data, (offset + behind) as usize) as u64;
        let entries_end = behind - 4 * num_restarts;
        BlockRecord {
            offset,
            len,
            entries_end,
            restart_start: entries_end,
            num_restarts,
        }
    }
}

// Asks 11 and 12 of all pairs, then 41, and writes a record per pair. The records behind them stay as they were, and on
// a refusal all do.
pub fn fill(data: &[u8], blocks: &[u64], records: &mut [BlockRecord]) -> Result<usize, Refusal>
    ensures { (result ≡ filled_read (fill_of «data».now blocks.now (length records.old)))
        × (records.new ≡ filled_places (fill_of «data».now blocks.now (length records.old)) records.old) }
{
    let list = BlockList { data, blocks };
    let count = list.asked(records.len())?;
    // The index is the pair's in the list and the record's alike: over `records.iter_mut()` the pair's would be counted
    // all the same.
    for i in 0..count {
        records[i] = list.record_of(i);
    }
    Ok(count)
}

// The number of an answer, as the C interface hands it out. How many records were written goes to `count`, which a
// refusal leaves as it was.
pub fn filled_number(filled: Result<usize, Refusal>, count: &mut u64) -> u64
    ensures { (result ≡ answer_number filled) × (count.new ≡ filled_count filled count.old) }
{
    refusal::answered(filled.map(|n| n as u64), count)
}

// The lowest place with that offset in the part lent, counted from its start.
pub fn find(records: &[BlockRecord], offset: u64) -> Option<usize>
    ensures { result ≡ find_of records.now offset }
{
    records.iter().position(|r| r.offset == offset)
}

// The place as a number, as the C interface hands it out: the list's length for none.
pub fn found_place(found: Option<usize>, size: usize) -> u64
    ensures { result ≡ found_place size found }
{
    found.unwrap_or(size) as u64
}
