// The packed bytes of a section: pilots of three bytes, addresses without fingerprints, and no scan part.
#![tactic(auto)]

ghost use Rattle.std.specs.Prelude.{◌≡◌, ◌++◌, ◌+◌, ◌*◌, ◌≤◌, length, take, Ok};
ghost use Rattle.std.proofs.lemmas.List.Edits.{sets};
ghost use Rattle.num.specs.Number.{le_bytes};
ghost use Rattle.header.specs.Header.{header_of};
ghost use Rattle.packed.specs.Packed.{pack_pilot, packed_pilots, packed_addresses, packed_bytes};

use encoding::Encoding;
use header::Opened;
use num::LittleEndian;

// A pilot with its bit 31 moved to bit 23.
#[tactic(auto, unfolding(crate::specs::Packed::pilot_defs))]
fn pack_pilot(pilot: u32) -> u32
    ensures { result ≡ pack_pilot pilot }
{
    if pilot < point::DIRECT {
        return pilot;
    }
    pilot % point::DIRECT + 0x80_0000
}

// A plain section whose header passed, and its record.
#[derive(Clone, Copy)]
pub struct Plain<'a> {
    section: &'a [u8],
    opened: Opened,
    ghost accepted: { header_of section.now ≡ Ok opened },
}

impl<'a> Plain<'a> {
    pub fn new(section: &'a [u8], opened: Opened) -> Plain<'a>
        requires { header_of section.now ≡ Ok opened }
        ensures { (result.section.now ≡ section.now) × (result.opened ≡ opened) }
    {
        Plain { section, opened }
    }

    // The length of its packed bytes.
    pub fn packed_len(&self) -> usize
        ensures { result ≡ length (packed_bytes self.now.section.now self.now.opened) }
    {
        let o = self.opened;
        let packed = header::packed_record(o);
        let arena_len = header::arena_end(self.section, o) - o.arena;
        packed.arena + arena_len + Encoding::TRAILER
    }

    // Writes the pilots to the front of the output, 3 bytes each. By number: it names the bucket's pilot in the section
    // and its place in the output alike.
    #[tactic(auto, using(crate::proofs::Lengths::accepted_slots))]
    fn put_pilots(&self, out: &mut [u8])
        requires { 3 * self.now.opened.buckets ≤ length out.old }
        ensures { out.new ≡ sets out.old 0 (packed_pilots self.now.section.now 0 self.now.opened.buckets) }
    {
        for k in 0..self.opened.buckets {
            let pilot = u32::read(self.section, Encoding::HEADER + 4 * k);
            num::put_uint(out, 3 * k, 3, u64::from(pack_pilot(pilot)));
        }
    }

    // Writes the addresses of all slots to the front of the output, without their fingerprints. By number, as above.
    #[tactic(auto, using(crate::proofs::Lengths::slot_inside))]
    fn put_addresses(&self, out: &mut [u8])
        requires { self.now.opened.count * self.now.opened.encoding.address ≤ length out.old }
        ensures { out.new ≡ sets out.old 0
            (packed_addresses self.now.section.now self.now.opened 0 self.now.opened.count) }
    {
        let o = self.opened;
        let address = o.encoding.address;
        let slots = Encoding::HEADER + 4 * o.buckets;
        for i in 0..o.count {
            let from = slots + i * (address + 2);
            num::put_part(out, i * address, &self.section[from..from + address]);
        }
    }

    // Writes the header, the pilots behind it, and the addresses behind them.
    #[tactic(auto, using(crate::proofs::Lengths::accepted_slots))]
    fn write_tables(&self, output: &mut [u8])
        requires { 64 + 3 * self.now.opened.buckets + self.now.opened.count * self.now.opened.encoding.address
            ≤ length output.old }
        ensures { output.new ≡ sets output.old 0 (take 64 self.now.section.now
            ++ (packed_pilots self.now.section.now 0 self.now.opened.buckets
            ++ packed_addresses self.now.section.now self.now.opened 0 self.now.opened.count)) }
    {
        let pilots = Encoding::HEADER;
        let addresses = pilots + 3 * self.opened.buckets;
        num::put_part(output, 0, &self.section[..pilots]);
        self.put_pilots(&mut output[pilots..]);
        self.put_addresses(&mut output[addresses..]);
    }

    // Writes its packed bytes.
    #[tactic(auto, using(crate::proofs::Lengths::accepted_places, crate::proofs::Lengths::accepted_end))]
    pub fn write_packed(&self, output: &mut [u8])
        requires { length (packed_bytes self.now.section.now self.now.opened) ≤ length output.old }
        ensures { output.new ≡ sets output.old 0 (packed_bytes self.now.section.now self.now.opened) }
    {
        let section = self.section;
        let o = self.opened;
        let arena = header::packed_record(o).arena;
        let end = header::arena_end(section, o);
        let last = arena + (end - o.arena);
        self.write_tables(output);
        num::put_part(output, arena, &section[o.arena..end]);
        num::put_part(output, last, &section[section.len() - Encoding::TRAILER..]);
    }
}
