// The section written into the lent output, from pilots and slots that stand in the scratch.
#![tactic(auto)]

ghost use Rattle.std.specs.Prelude.{◌≡◌, ◌^◌, ◌≤◌, length, get_or};
ghost use Rattle.std.proofs.lemmas.List.Edits.{sets};
ghost use Rattle.construction.specs.Scratch.{indices_at, placement_in};
ghost use Rattle.written.specs.Arena.{group_address, arena_written};
ghost use Rattle.written.specs.Section.{scan_part_bytes, section_bytes};
ghost use Rattle.writer.specs.Write.{groups_in};
ghost use Rattle.sections.specs.Internal.{ArenaLent, Noted, TablesAsked, tables_bytes, ScanAsked, SectionAsked};

use area::Keys;
use construction::Regions;
use encoding::{Encoding, Layout, Totals};
use keyversions::Source;
use tables::Prologue;

// Where the addresses of the keys are kept in the scratch, behind the pilots and the slots.
fn indices_at(count: usize) -> usize
    requires { count ≤ 2 ^ 20 }
    ensures { result ≡ indices_at count }
{
    Regions::of(count).indices
}

// Writes the arena at its place, and notes the addresses of the keys at a place of the scratch. Whole slices and
// places: that all else stays in the scratch, pilots and slots too, is said of the whole.
fn put_arena(
    source: &Source<'_>,
    indices: usize,
    scratch: &mut [u32],
    arena: usize,
    output: &mut [u8],
)
    requires { ArenaLent source.now.area.now source.now.keys source.now.layout.encoding source.now.least
        indices scratch.old arena output.old }
    ensures output_after { output.new ≡ sets output.old arena
        (arena_written source.now.layout.encoding source.now.least (groups_in source.now.area.now source.now.keys)) }
    ensures noted { Noted indices source.now.keys
        (group_address source.now.layout.encoding (groups_in source.now.area.now source.now.keys))
        scratch.old scratch.new }
{
    keyrecords::write_arena(source, &mut scratch[indices..], &mut output[arena..]);
}

// Writes the header, and behind it the pilots and the slots, from what stands in the scratch.
#[tactic(auto, unfolding(crate::specs::Internal::place_defs))]
fn put_tables(prologue: Prologue, hashes: &[u64], scratch: &[u32], output: &mut [u8])
    requires { TablesAsked prologue.layout.encoding prologue.keys hashes.now scratch.now output.old }
    ensures { output.new ≡ sets output.old 0
        (tables_bytes prologue.layout.encoding prologue.seed prologue.least prologue.keys prologue.prefix
        hashes.now scratch.now) }
{
    let count = prologue.keys;
    let buckets = (count + 1) / 2;
    let indices = indices_at(count);
    let slots = indices - count;
    let pilots = slots - buckets;
    let end = indices + count;
    let header = Encoding::HEADER;
    let table = header + 4 * buckets;
    prologue.write(output);
    tables::write_pilots(&scratch[pilots..slots], &mut output[header..]);
    tables::write_slots(
        &scratch[slots..indices],
        &scratch[indices..end],
        hashes,
        prologue.layout.encoding,
        &mut output[table..],
    );
}

// Writes the scan part, if there is a prefix: it is 0 for none, as in `Prologue`.
fn put_scan(source: &Source<'_>, prefix: usize, addresses: &[u32], output: &mut [u8])
    requires { ScanAsked source.now.area.now source.now.keys source.now.layout.encoding prefix
        addresses.now output.old }
    ensures { output.new ≡ sets output.old 0
        (scan_part_bytes source.now.layout.encoding (groups_in source.now.area.now source.now.keys) prefix) }
{
    if 0 < prefix {
        let keys = Keys {
            area: source.area,
            head: 0,
            count: source.keys,
        };
        let prefixes = prefixes::count_prefixes(&keys, prefix);
        tables::write_scan(addresses, source.layout.encoding, prefix, prefixes, output);
    }
}

// Writes the section of the pilots and slots that stand in the scratch. The arena is first, as it gives the addresses.
#[tactic(auto, using(crate::proofs::Section::arena_inside, encoding::proofs::Widths::widths_le))]
pub fn write_section(
    area: &[u8],
    t: Totals,
    layout: Layout,
    prefix: usize,
    seed: u64,
    hashes: &[u64],
    scratch: &mut [u32],
    output: &mut [u8],
)
    requires { SectionAsked area.now t layout.encoding prefix seed hashes.now scratch.old output.old }
    ensures output_after { output.new ≡ sets output.old 0
        (section_bytes layout.encoding seed t.min_seq (groups_in area.now t.keys)
        (λ x. get_or (placement_in t.keys scratch.old).pilots x 0)
        (λ m. get_or (placement_in t.keys scratch.old).slots m 0) prefix) }
    ensures scratch_len_unchanged { length scratch.new ≡ length scratch.old }
{
    let keys = t.keys as usize;
    let least = t.min_seq;
    let source = Source {
        area,
        keys,
        layout,
        least,
    };
    let prologue = Prologue {
        layout,
        seed,
        least,
        keys,
        prefix,
    };
    let indices = indices_at(keys);
    let end = indices + keys;
    let arena = Encoding::HEADER + 4 * ((keys + 1) / 2) + keys * (layout.encoding.address + 2);
    let scan = arena + layout.arena_len(t);
    let body = layout.section_len(t, prefix) - Encoding::TRAILER;
    put_arena(&source, indices, scratch, arena, output);
    put_tables(prologue, hashes, scratch, output);
    put_scan(&source, prefix, &scratch[indices..end], &mut output[scan..]);
    tables::seal(output, body);
}
