// The builder that the rows of a list share, and what they ask of it.

use list::Row;

const AREA: usize = 65536;

const MOST_OUTPUT: usize = 65536;

// No row of the lists lends more scratch: enough for 1,025 keys.
const MOST_WORDS: usize = 1026;

const MOST_HALVES: usize = 6159;

// No method: part of one field and the whole of another are lent at once, which the check does not take of a struct
// that is lent itself.
fn add_to(area: &mut [u8], record: &mut [u64; 16], mut row: Row<'_>) -> bool {
    let room = row.room(area.len());
    let tombstone = row.number();
    let key = row.bytes();
    let value = row.bytes();
    let [sequence, new, offset] = row.numbers::<3>();
    let number = kiban::kiban_add(
        &mut area[..room],
        record,
        tombstone,
        key,
        value,
        sequence,
        new,
        offset,
    );
    row.has(&[number])
}

#[derive(Drop)]
pub struct Builder {
    area: [u8; AREA],
    record: [u64; 16],
}

impl Builder {
    pub fn new() -> Builder {
        Builder {
            area: [0; AREA],
            record: [0; 16],
        }
    }

    // A builder as a row states it: a record, and bytes at the area's beginning.
    pub fn begin(&mut self, mut row: Row<'_>) -> bool {
        row.named().read(&mut self.record);
        list::put(row.bytes(), &mut self.area, 0);
        true
    }

    pub fn add(&mut self, row: Row<'_>) -> bool {
        add_to(&mut self.area, &mut self.record, row)
    }

    // Adds the numbers below one: each is a new key of four bytes, its greatest first, with an empty value. All are
    // taken. The `for` is over the numbers that are added.
    pub fn add_numbers(&mut self, mut row: Row<'_>) -> bool {
        let mut taken = true;
        for n in 0..row.number() {
            let key = &n.to_be_bytes()[4..];
            taken &= kiban::kiban_add(&mut self.area, &mut self.record, 0, key, b"", n, 1, n) == 0;
        }
        taken
    }

    // Are these the record, and the CRC-32 of the used area?
    pub fn is_as_stated(&self, mut row: Row<'_>) -> bool {
        let used = self
            .area
            .get(..self.record[3] as usize)
            .unwrap_or(&self.area);
        row.named().has(&self.record) && row.has(&[u64::from(kiban::kiban_crc32(used))])
    }

    pub fn size(&self, mut row: Row<'_>) -> bool {
        let mut size = 7;
        let number = kiban::kiban_size(&self.record, row.number(), &mut size);
        row.has(&[number, size])
    }

    // Number, length, and the CRC-32 of the output, which holds zeros before.
    pub fn write(&self, mut row: Row<'_>) -> bool {
        let prefix = row.number();
        let mut words = [5; MOST_WORDS];
        let words = &mut words[..row.room(MOST_WORDS)];
        let mut halves = [6; MOST_HALVES];
        let halves = &mut halves[..row.room(MOST_HALVES)];
        let mut output = [0; MOST_OUTPUT];
        let output = &mut output[..row.room(MOST_OUTPUT)];
        let mut length = 7;
        let number = kiban::kiban_write(
            &self.area,
            &self.record,
            prefix,
            words,
            halves,
            output,
            &mut length,
        );
        row.has(&[number, length, u64::from(kiban::kiban_crc32(output))])
    }
}
