// The parts of a section beside its arena, each written into a part of the output that is lent: header, pilots, slots,
// scan part, type byte and CRC-32.
#![tactic(auto)]

ghost use Rattle.std.specs.Prelude.{◌≡◌, [], ◌∷◌, ◌++◌, ◌+◌, ◌*◌, ◌≤◌, length, get_or, take};
ghost use Rattle.std.proofs.lemmas.List.Edits.{sets};
ghost use Rattle.num.specs.Number.{le_bytes};
ghost use Rattle.crc32.specs.V42.{crc_of};
ghost use Rattle.encoding.specs.Encoding.{magic, scan_magic};
ghost use Rattle.written.specs.Joined.{fields_bytes};
ghost use Rattle.written.specs.Section.{flags_for, prologue_fields, pilots_bytes};
ghost use Rattle.tables.specs.Internal.{
  count_fields,
  width_fields,
  numbers_bytes,
  listed_slots,
  listed_scan_fields,
  listed_scan,
  HeaderRoom,
  SlotsRoom,
};

use encoding::{Encoding, Layout};
use num::LittleEndian;

// What a section's header says, but for what follows from it: `prefix` is the scan prefix, 0 for no scan part, as C
// callers say it.
#[derive(Clone, Copy)]
pub struct Prologue {
    pub layout: Layout,
    pub seed: u64,
    pub least: u64,
    pub keys: usize,
    pub prefix: usize,
}

impl Prologue {
    // The flags of the header.
    #[tactic(auto, using(crate::proofs::Parts::flags_sum), unfolding(crate::specs::Internal::flag_defs))]
    fn flags(self) -> u32
        ensures { result ≡ flags_for self.layout.encoding self.prefix }
    {
        u32::from(self.layout.encoding.checksum) * Encoding::CHECKSUM_FLAG
            + u32::from(0 < self.prefix) * Encoding::SCAN_FLAG
    }

    // The first half of the header: magic, seed, number of keys, number of buckets, place of the arena.
    #[tactic(auto, using(crate::proofs::Parts::slots_few, encoding::proofs::Widths::widths_le))]
    fn put_counts(self, output: &mut [u8])
        requires { HeaderRoom self.keys output.old }
        ensures { output.new ≡ sets output.old 0
            (magic ++ fields_bytes (count_fields self.layout.encoding self.seed self.keys)) }
    {
        let count = self.keys;
        let buckets = (count + 1) / 2;
        let arena = Encoding::HEADER + 4 * buckets + count * (self.layout.encoding.address + 2);
        output[0..8].copy_from_slice(&Encoding::MAGIC);
        self.seed.write(output, 8);
        (count as u32).write(output, 16);
        (buckets as u32).write(output, 20);
        (arena as u64).write(output, 24);
    }

    // The second half: the widths, the flags, the least sequence.
    #[tactic(auto, using(encoding::proofs::Widths::widths_le))]
    fn put_widths(self, output: &mut [u8])
        requires { 64 ≤ length output.old }
        ensures { output.new ≡ sets output.old 32
            (fields_bytes (width_fields self.layout.encoding self.least self.prefix)) }
    {
        let e = self.layout.encoding;
        (e.address as u32).write(output, 32);
        (e.key as u32).write(output, 36);
        (e.count as u32).write(output, 40);
        (e.seq as u32).write(output, 44);
        (e.value as u32).write(output, 48);
        self.flags().write(output, 52);
        self.least.write(output, 56);
    }

    pub fn write(self, output: &mut [u8])
        requires { HeaderRoom self.keys output.old }
        ensures { output.new ≡ sets output.old 0
            (magic ++ fields_bytes (prologue_fields self.layout.encoding self.seed self.least self.keys self.prefix)) }
    {
        self.put_counts(output);
        self.put_widths(output);
    }
}

// Numbers of one width, one behind the other.
#[tactic(auto, using(num::proofs::Parts::entry_inside))]
fn put_numbers(numbers: &[u32], width: usize, output: &mut [u8])
    requires { length numbers.now * width ≤ length output.old }
    ensures { output.new ≡ sets output.old 0 (numbers_bytes width numbers.now) }
{
    for (i, number) in numbers.iter().enumerate() {
        num::put_uint(output, i * width, width, *number as u64);
    }
}

pub fn write_pilots(pilots: &[u32], output: &mut [u8])
    requires { length pilots.now * 4 ≤ length output.old }
    ensures { output.new ≡ sets output.old 0 (pilots_bytes (λ b. get_or pilots.now b 0) (length pilots.now)) }
{
    put_numbers(pilots, 4, output);
}

// For each slot the address and the fingerprint of its key. The two lists stay parallel: C lends 32-bit and 64-bit
// scratch apart.
#[tactic(auto, using(num::proofs::Parts::entry_inside))]
pub fn write_slots(slots: &[u32], addresses: &[u32], hashes: &[u64], e: Encoding, output: &mut [u8])
    requires { SlotsRoom e.address slots.now addresses.now hashes.now output.old }
    ensures { output.new ≡ sets output.old 0 (listed_slots e.address slots.now addresses.now hashes.now) }
{
    let address = e.address;
    for (m, slot) in slots.iter().enumerate() {
        let at = m * (address + 2);
        let key = *slot as usize;
        num::put_uint(output, at, address, addresses[key] as u64);
        point::fingerprint(hashes[key]).write(output, at + address);
    }
}

// The scan part's magic and the numbers behind it.
fn put_scan_head(prefix: usize, prefixes: u64, output: &mut [u8])
    requires { 24 ≤ length output.old }
    ensures { output.new ≡ sets output.old 0 (scan_magic ++ fields_bytes (listed_scan_fields prefix prefixes)) }
{
    output[0..8].copy_from_slice(&Encoding::SCAN_MAGIC);
    // Not a `u32`: no caller has to show that its prefix fits one.
    num::put_uint(output, 8, 4, prefix as u64);
    Encoding::STRIDE.write(output, 12);
    prefixes.write(output, 16);
}

// The scan part, with an address per key, and its length behind it.
pub fn write_scan(addresses: &[u32], e: Encoding, prefix: usize, prefixes: u64, output: &mut [u8])
    requires { 24 + length addresses.now * e.address + 8 ≤ length output.old }
    ensures { output.new ≡ sets output.old 0 (listed_scan e.address addresses.now prefix prefixes) }
{
    let len = Encoding::SCAN_HEADER + addresses.len() * e.address;
    put_scan_head(prefix, prefixes, output);
    put_numbers(addresses, e.address, &mut output[Encoding::SCAN_HEADER..]);
    (len as u64).write(output, len);
}

// Ends a section whose first bytes stand: type byte 0, and the CRC-32 of all before. `body` says where they end: what
// is before is read too, so that no part can be lent alone.
pub fn seal(output: &mut [u8], body: usize)
    requires { body + 5 ≤ length output.old }
    ensures { output.new ≡ sets output.old body (0 ∷ le_bytes 4 (crc_of (take body output.old ++ (0 ∷ [])))) }
{
    output[body] = 0;
    let end = body + 1;
    let crc = crc32::crc32(&output[0..end]);
    crc.write(output, end);
}
