// What an add is given, and what is counted of it.
ghost use Rattle.std.specs.Prelude.{◌≤◌, length};

use sstable::Kind;

// What one add is given, beside the area and the record.
#[derive(Clone, Copy)]
pub struct Entry<'a> {
    pub kind: Kind,
    pub key: &'a [u8],
    pub value: &'a [u8],
    pub seq: u64,
    // Is it marked a new key?
    pub new_key: bool,
    // Where the value stands in the data.
    pub offset: u64,
}

// What the record counts of an entry.
#[derive(Clone, Copy)]
pub struct Tally<'a> {
    pub key: &'a [u8],
    // The number of versions of the key, with this one.
    pub count: u64,
    pub size: u64,
    pub seq: u64,
    pub offset: u64,
    pub new_key: bool,
    pub ghost limit: { length key.now ≤ 1048576 },
}
