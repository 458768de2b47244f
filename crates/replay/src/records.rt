// Block records, filled and found in an array of eight that is lent in part.
use blocks::BlockRecord;
use list::Row;

// No row of the lists has more numbers in its block list.
const MOST_BLOCKS: usize = 64;

const RECORDS: usize = 8;

fn record(row: &mut Row<'_>) -> BlockRecord {
    let [offset, len, entries_end, restart_start, num_restarts] = row.numbers::<5>();
    BlockRecord {
        offset,
        len,
        entries_end,
        restart_start,
        num_restarts,
    }
}

pub fn fill(mut row: Row<'_>) -> bool {
    let data = row.bytes();
    let mut blocks = [0; MOST_BLOCKS];
    let mut listed = row.named();
    let blocks = &mut blocks[..row.room(MOST_BLOCKS)];
    listed.read(blocks);
    let held = BlockRecord {
        offset: 7,
        len: 7,
        entries_end: 7,
        restart_start: 7,
        num_restarts: 7,
    };
    let mut records = [held; RECORDS];
    let places = row.room(RECORDS);
    let mut count = 7;
    let number = lending::fill(data, blocks, &mut records, places, &mut count);
    row.has(&[number]) && records == eight(row.named()) && row.has(&[count])
}

// The records that the next numbers are.
fn eight(mut row: Row<'_>) -> [BlockRecord; RECORDS] {
    std::array::from_fn(|_| record(&mut row))
}

pub fn find(mut row: Row<'_>) -> bool {
    let records = eight(row.named());
    let from = row.room(RECORDS);
    let len = row.room(RECORDS - from);
    let offset = row.number();
    lending::find(&records, from, from + len, offset) == row.number()
}
