// The arena written from the builder's area: a key record for each key, and the address of each. The output has a place
// beside it where a step hands both on to `num::put_uint` and to `put_versions`.
#![tactic(auto)]

ghost use Rattle.std.specs.Prelude.{◌≡◌, ◌+◌, ◌%◌, ◌≤◌, eqb, length};
ghost use Rattle.std.proofs.lemmas.List.Edits.{sets};
ghost use Rattle.num.specs.Choice.{when◌then◌else◌};
ghost use Rattle.num.specs.Internal.{RegionHolds, Frame};
ghost use Rattle.num.specs.Order.{common_prefix_len};
ghost use Rattle.encoding.specs.Encoding.{group, key_header_len_of};
ghost use Rattle.area.specs.Area.{area_key_len, area_key};
ghost use Rattle.written.specs.Joined.{fields_bytes};
ghost use Rattle.written.specs.Arena.{key_header_fields, group_address, arena_written};
ghost use Rattle.writer.specs.Write.{groups_in};
ghost use Rattle.keyrecords.specs.Internal.{KeyVersionsStand, key_record_bytes, key_record_size, ArenaAsked};

use area::Key;
use arena::KeyHeader;
use encoding::{Encoding, Layout};
use keyversions::Source;

#[tactic(auto, unfolding(encoding::specs::Encoding::key_header_len_of))]
fn put_key_header(output: &mut [u8], at: usize, layout: Layout, h: KeyHeader)
    requires { at + key_header_len_of layout.encoding ≤ length output.old }
    ensures { output.new ≡ sets output.old at (fields_bytes (key_header_fields layout.encoding h)) }
{
    let e = layout.encoding;
    let shared = at + e.address;
    let suffix_len = shared + e.key;
    let versions = suffix_len + e.key;
    num::put_uint(output, at, e.address, h.anchor as u64);
    num::put_uint(output, shared, e.key, h.shared as u64);
    num::put_uint(output, suffix_len, e.key, h.suffix_len as u64);
    num::put_uint(output, versions, e.count, h.versions as u64);
}

// Writes the record of the key at a head, and answers the place behind it.
#[tactic(auto, unfolding(crate::specs::Internal::key_record_size, area::specs::Area::area_defs))]
fn put_key(
    source: &Source<'_>,
    head: usize,
    anchor: usize,
    shared: usize,
    output: &mut [u8],
    at: usize,
) -> usize
    requires stand { KeyVersionsStand source.now.area.now head source.now.least }
    requires shared_inside { shared ≤ area_key_len source.now.area.now head }
    requires room { at + key_record_size source.now.layout.encoding source.now.area.now head shared
        ≤ length output.old }
    ensures output_after { output.new ≡ sets output.old at
        (key_record_bytes source.now.layout.encoding source.now.least source.now.area.now head anchor shared) }
    ensures value { result ≡ at + key_record_size source.now.layout.encoding source.now.area.now head shared }
{
    let key = Key {
        area: source.area,
        head,
    };
    let suffix_len = key.len() - shared;
    let versions = key.versions();
    let place = at + source.layout.key_header();
    let end = place + suffix_len;
    put_key_header(
        output,
        at,
        source.layout,
        KeyHeader {
            anchor,
            shared,
            suffix_len,
            versions,
        },
    );
    num::put_part(output, place, &key.bytes()[shared..]);
    source.put_versions(key.first(), versions, output, end)
}

// Every 1,024th key from key 0 on is an anchor.
fn is_anchor(i: usize) -> bool
    ensures { result ≡ eqb (i % group) 0 }
{
    i % Encoding::GROUP == 0
}

// How many bytes key i shares with its anchor; none if it is one itself.
#[tactic(auto, unfolding(num::specs::Choice::choice_defs))]
fn shared_len(i: usize, anchor: Key<'_>, key: Key<'_>) -> usize
    ensures { result ≡ (when eqb (i % group) 0 then 0
        else common_prefix_len (area_key anchor.entry.area.now anchor.entry.head)
        (area_key key.entry.area.now key.entry.head)) }
{
    if is_anchor(i) {
        return 0;
    }
    sstable::common_prefix_len(anchor.bytes(), key.bytes())
}

// What is kept of an anchor: the new number at an anchor, else the one before.
#[tactic(auto, unfolding(num::specs::Choice::choice_defs))]
fn anchored(i: usize, new: usize, before: usize) -> usize
    ensures { result ≡ (when eqb (i % group) 0 then new else before) }
{
    if is_anchor(i) { new } else { before }
}

// Writes the arena of the first keys of the area, and notes the address of each.
pub fn write_arena(source: &Source<'_>, addresses: &mut [u32], output: &mut [u8])
    requires { ArenaAsked source.now.area.now source.now.keys source.now.layout.encoding source.now.least
        addresses.old output.old }
    ensures output_after { output.new ≡ sets output.old 0
        (arena_written source.now.layout.encoding source.now.least (groups_in source.now.area.now source.now.keys)) }
    ensures region_holds { RegionHolds addresses.new 0 0 source.now.keys
        (group_address source.now.layout.encoding (groups_in source.now.area.now source.now.keys)) }
    ensures frame { Frame source.now.keys addresses.old addresses.new }
{
    let area = source.area;
    let header = source.layout.key_header();
    let mut anchor = 0;
    let mut anchor_address = 0;
    let mut head = 0;
    let mut at = 0;
    // A key's number says whether it is an anchor; where it stands, only the key before it says.
    for i in 0..source.keys {
        anchor = anchored(i, head, anchor);
        anchor_address = anchored(i, at + header, anchor_address);
        let key = Key { area, head };
        let shared = shared_len(i, Key { area, head: anchor }, key);
        addresses[i] = at as u32;
        at = put_key(source, head, anchor_address, shared, output, at);
        head = key.end();
    }
}
