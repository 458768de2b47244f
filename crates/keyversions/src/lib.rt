// The versions of a key written from the builder's area. The output has a place beside it, as in `num::put_uint` and in
// the numbers' own `write`, to which each step hands both on: in a struct they would be taken apart again each time.
#![tactic(auto)]

ghost use Rattle.std.specs.Prelude.{◌≡◌, ◌+◌, ◌*◌, ◌≤◌, length};
ghost use Rattle.std.proofs.lemmas.List.Edits.{sets};
ghost use Rattle.num.specs.Choice.{when◌then◌else◌};
ghost use Rattle.num.specs.Number.{le_at};
ghost use Rattle.encoding.specs.Encoding.{version_len_of};
ghost use Rattle.area.specs.Area.{area_size};
ghost use Rattle.written.specs.Joined.{fields_bytes};
ghost use Rattle.written.specs.Arena.{marked_size, checksum_fields, stored_fields, stored_bytes};
ghost use Rattle.writer.specs.Write.{stored_at, stored_from};
ghost use Rattle.keyversions.specs.Internal.{VersionsStand};

use area::{VERSION, Version};
use encoding::Layout;
use num::LittleEndian;
use sstable::Kind;

// What a section is written from: the builder's area and how many keys it has, and in which widths and less which
// least sequence their numbers are stored.
#[derive(Clone, Copy)]
pub struct Source<'a> {
    pub area: &'a [u8],
    pub keys: usize,
    pub layout: Layout,
    pub least: u64,
}

// A value's length with the top bit set for a tombstone.
fn marked_size(version: &Version<'_>, layout: Layout) -> u64
    ensures { result ≡ marked_size layout.encoding (stored_at version.now.area.now version.now.place).kind
        (area_size version.now.area.now version.now.place) }
{
    let size = version.size() as u64;
    if version.kind() == u8::from(Kind::Tombstone) {
        layout.tombstone() + size
    } else {
        size
    }
}

// Writes the CRC-32 of a value, with checksums.
fn put_checksum(output: &mut [u8], at: usize, present: bool, checksum: u32)
    requires { at + (when present then 4 else 0) ≤ length output.old }
    ensures { output.new ≡ sets output.old at (fields_bytes (checksum_fields present checksum)) }
{
    if present {
        checksum.write(output, at);
    }
}

impl Source<'_> {
    // Writes the numbers of a version.
    #[tactic(auto, unfolding(encoding::specs::Encoding::version_len_of))]
    fn put_stored(&self, version: &Version<'_>, output: &mut [u8], at: usize)
        requires least_first { self.now.least ≤ le_at version.now.area.now version.now.place 8 }
        requires room { at + version_len_of self.now.layout.encoding ≤ length output.old }
        ensures { output.new ≡ sets output.old at
            (fields_bytes (stored_fields self.now.layout.encoding self.now.least
            (stored_at version.now.area.now version.now.place))) }
    {
        let e = self.layout.encoding;
        let value = at + e.seq;
        let offset = value + e.value;
        let checksum = offset + e.address;
        num::put_uint(output, at, e.seq, version.seq() - self.least);
        num::put_uint(output, value, e.value, marked_size(version, self.layout));
        num::put_uint(output, offset, e.address, version.offset());
        put_checksum(output, checksum, e.checksum, version.checksum());
    }

    // Writes so many versions from a place of the area on, and answers the place behind them.
    pub fn put_versions(&self, first: usize, count: usize, output: &mut [u8], at: usize) -> usize
        requires stand { VersionsStand self.now.area.now first count self.now.least }
        requires room { at + count * version_len_of self.now.layout.encoding ≤ length output.old }
        ensures output_after { output.new ≡ sets output.old at
            (stored_bytes self.now.layout.encoding self.now.least (stored_from count self.now.area.now first)) }
        ensures value { result ≡ at + count * version_len_of self.now.layout.encoding }
    {
        let size = self.layout.version();
        let area = self.area;
        let mut end = at;
        // A version's number gives its place: there is no list to go over.
        for j in 0..count {
            let version = Version {
                area,
                place: first + VERSION * j,
            };
            self.put_stored(&version, output, end);
            end += size;
        }
        end
    }
}
