//! Why an entry refuses what it was given: the first question that is answered with no.
#![tactic(auto)]

ghost use Rattle.std.specs.Prelude.{◌≡◌};
ghost use Rattle.refusal.specs.Refusal.{answer_left, answer_number, ask_of, refusal_number};

/// The questions by their numbers; docs/REFUSALS.md says of each what it is often due to, and what to do.
#[derive(Clone, Copy, Debug, PartialEq, Eq, Hash)]
pub enum Refusal {
    /// Has the section at least 6 bytes, and is its fifth byte from the end 0?
    Trailer = 1,
    /// Are its last 4 bytes the CRC-32 of all before?
    SectionCrc = 2,
    /// Has it at least 69 bytes, and does it begin with `KIBANPH3`?
    Magic = 3,
    /// Do the header's numbers fit each other: keys, buckets, widths, flags, arena start?
    Header = 4,
    /// With the scan flag: do the 8 bytes before the last five hold 24 + n * address width, and does a part of that
    /// length before them start behind the arena start and with `KIBANSC1`?
    ScanPart = 5,
    /// With the scan flag: are its prefix length 1 to 24, its stride 32, its prefix count 1 to n?
    ScanSettings = 6,
    /// Has the section checksums, and fewer than 2^23 keys?
    NotPackable = 7,
    /// Is each pilot, without bit 31, below 2^23?
    PilotWide = 8,
    /// Does the output hold the packed bytes?
    PackedRoom = 9,
    /// Is the slot of each direct pilot below n?
    PilotSlot = 10,
    /// Is the list even, does each pair begin at the last one's end (the first at 0) and finish within the data?
    BlockList = 11,
    /// Is each block sound: 34 bytes or more, type 0, its CRC-32, its restarts, 21 entry bytes?
    Block = 12,
    /// Does each entry of each block stand as the block format says (docs/FORMAT.md)?
    Entry = 13,
    /// Is each key at most 1,048,576 bytes long and each value at most 16,777,216?
    Limits = 14,
    /// Is each key at most half the key scratch?
    KeyRoom = 15,
    /// At a key's first record: is there a key record for it, inside the arena, with its anchor, lengths and versions
    /// right?
    KeyRecord = 16,
    /// Is each key greater than the last?
    KeyOrder = 17,
    /// With a scan part: does the key's scan address name its record?
    ScanAddress = 18,
    /// Do the key's slot's address and fingerprint name it?
    Slot = 19,
    /// Do key bytes, strictly falling sequences, kind, length and value offset agree with the section?
    Version = 20,
    /// With checksums: is the value's CRC-32 the stored one?
    ValueCrc = 21,
    /// Do data, arena, versions and keys all end together?
    Ends = 22,
    /// With a scan part: is the number of prefixes the stored one?
    PrefixCount = 23,
    /// Do these bytes give this record?
    RecordGiven = 24,
    /// Does each read stay inside the section, and each sequence sum below 2^64?
    Read = 25,
    /// Do offset and length lie in the data?
    ValuePlace = 26,
    /// Is the record plain, with a scan part and 4-byte addresses?
    NoSpans = 27,
    /// Is first + count at most n?
    SpanKeys = 28,
    /// Are there 2 * count places for pairs?
    SpanRoom = 29,
    /// Is the key at most 1,048,576 bytes long and the value at most 16,777,216?
    AddLimits = 30,
    /// Is the first entry marked a new key?
    FirstNotNew = 31,
    /// Is the offset not below the last one's?
    OffsetFalls = 32,
    /// Are there at most 1,048,576 keys, this one counted?
    TooManyKeys = 33,
    /// Is there room for the entry in the area, and within 2^30 bytes?
    AreaRoom = 34,
    /// Is the scan prefix at most 24?
    PrefixLong = 35,
    /// Is there a key?
    NoKey = 36,
    /// Does the builder's record fit itself and the area?
    Builder = 37,
    /// Is there scratch of n 64-bit and 6n + 8 32-bit numbers?
    BuildScratch = 38,
    /// Is the output as long as the section?
    SectionRoom = 39,
    /// Does one of eight seeds serve?
    NoSeed = 40,
    /// Is there a place for each pair?
    BlocksRoom = 41,
}

// A method and no `From`: `refusal.number()` says which number it is, and `u64::from(refusal)` would leave it open.
impl Refusal {
    /// The number of the question, which C and Rust callers get; 0 is left for no refusal.
    pub fn number(self) -> u64
        ensures { result ≡ refusal_number self }
    {
        self as u64
    }
}

/// Nothing, or the refusal of a question that is answered with no.
#[tactic(auto, unfolding(num::specs::Choice::choice_defs))]
pub fn ask(holds: bool, refusal: Refusal) -> Result<(), Refusal>
    ensures { result ≡ ask_of holds refusal }
{
    if holds { Ok(()) } else { Err(refusal) }
}

/// The number of an answer, as the C interface hands it out. What was asked for goes to `out`, which a refusal leaves
/// as it was.
#[tactic(auto, unfolding(crate::specs::Refusal::answer_number))]
pub fn answered(answer: Result<u64, Refusal>, out: &mut u64) -> u64
    ensures { (result ≡ answer_number answer) × (out.new ≡ answer_left answer out.old) }
{
    match answer {
        Ok(n) => {
            *out = n;
            0
        }
        Err(refusal) => refusal.number(),
    }
}
