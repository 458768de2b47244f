// The delivered interface, for Rattle, C and Rust. No entry has a `requires`. `tombstone` and `new_key` of `kiban_add`
// are numbers, since C may pass any number, and a `bool` or an enum takes only some; refusals are numbers for C too.
// The bodies stand below, each in its crate, and the clauses here again: an edit of one costs its crate's check alone.
#![tactic(auto)]

ghost use Rattle.std.specs.Prelude.{◌≡◌, length};
ghost use Rattle.crc32.specs.V42.{crc_of};
ghost use Rattle.builder.specs.Record.{size_of_section};
ghost use Rattle.builder.specs.Add.{add_of, added_area};
ghost use Rattle.refusal.specs.Refusal.{answer_number};
ghost use Rattle.opening.specs.Open.{open_of};
ghost use Rattle.packing.specs.Packing.{open_packed_of, packed_read, packed_written};
ghost use Rattle.lookup.specs.Value.{value_number, value_part};
ghost use Rattle.writer.specs.Write.{write_of, section_written};
ghost use Rattle.numbers.specs.BuilderNumbers.{builder_in};
ghost use Rattle.opens.specs.Written.{record_written, packed_record_written, packed_len_written};
ghost use Rattle.looks.specs.Looked.{lookup_of, answer_written};
ghost use Rattle.builds.specs.Built.{offer_from, builder_written, size_written, section_len_written};
ghost use Rattle.blocks.specs.Blocks.{fill_of, filled_read, filled_count, filled_places, find_of, found_place};
ghost use Rattle.spans.specs.Span.{pairs_written, spanned_read};
ghost use Rattle.scans.specs.Spans.{span_of_numbers, found_written};

use blocks::BlockRecord;

// The CRC-32 of the bytes: the 32-bit frame check sequence of ITU-T V.42.
#[unsafe(no_mangle)]
pub extern "C" fn kiban_crc32(data: &[u8]) -> u32
    ensures { result ≡ crc_of «data».now }
{
    crc32::crc32(data)
}

// Opens a section beside its backing data and its block list, and writes the opened record: 0, or the number of the
// first question that is answered with no, which leaves the record as it was. The key scratch holds two keys, and keeps
// its length.
#[unsafe(no_mangle)]
pub extern "C" fn kiban_open(
    section: &[u8],
    data: &[u8],
    blocks: &[u64],
    scratch: &mut [u8],
    out: &mut [u64; 16],
) -> u64
    ensures { (result ≡ answer_number (open_of section.now «data».now blocks.now (length scratch.old)))
        × (out.new ≡ record_written (open_of section.now «data».now blocks.now (length scratch.old)) out.old)
        × (length scratch.new ≡ length scratch.old) }
{
    opens::open(section, data, blocks, scratch, out)
}

// Opens a section as kiban_open does, and writes its packed form, the packed record, and how many bytes the packed form
// has: 0, or the number of the first question that is answered with no, which leaves all three as they were. The key
// scratch keeps its length.
#[unsafe(no_mangle)]
pub extern "C" fn kiban_open_packed(
    section: &[u8],
    data: &[u8],
    blocks: &[u64],
    scratch: &mut [u8],
    output: &mut [u8],
    out: &mut [u64; 16],
    len: &mut u64,
) -> u64
    ensures { (result ≡ answer_number (packed_read
        (open_packed_of section.now «data».now blocks.now (length scratch.old) (length output.old))))
        × (output.new ≡ packed_written (open_packed_of section.now «data».now blocks.now (length scratch.old)
        (length output.old)) output.old)
        × (out.new ≡ packed_record_written (open_packed_of section.now «data».now blocks.now (length scratch.old)
        (length output.old)) out.old)
        × (len.new ≡ packed_len_written (open_packed_of section.now «data».now blocks.now (length scratch.old)
        (length output.old)) len.old)
        × (length scratch.new ≡ length scratch.old) }
{
    opens::open_packed(section, data, blocks, scratch, output, out, len)
}

// Looks a key up under a limit in an opened section, plain or packed, and writes the answer, six zeros for none. The
// result is 0, or the number of the question that failed (24, 25), which leaves the answer as it was.
#[unsafe(no_mangle)]
pub extern "C" fn kiban_lookup(
    section: &[u8],
    numbers: &[u64; 16],
    key: &[u8],
    limit: u64,
    answer: &mut [u64; 6],
) -> u64
    ensures { (result ≡ answer_number (lookup_of section.now numbers.now key.now limit))
        × (answer.new ≡ answer_written (lookup_of section.now numbers.now key.now limit) answer.old) }
{
    looks::lookup(section, numbers, key, limit, answer)
}

// The values of `count` keys from key `first` on under a limit, in an opened plain section with a scan part: writes a
// pair of offset and length for each value found, in key order, and how many pairs there are. The result is 0, or the
// number of the question that failed (24, 27, 28, 29, 25), which leaves both as they were.
#[unsafe(no_mangle)]
pub extern "C" fn kiban_span(
    section: &[u8],
    numbers: &[u64; 16],
    first: u64,
    count: u64,
    limit: u64,
    pairs: &mut [u64],
    found: &mut u64,
) -> u64
    ensures { (result ≡ answer_number (spanned_read
        (span_of_numbers section.now numbers.now first count limit (length pairs.old))))
        × (pairs.new ≡ pairs_written (span_of_numbers section.now numbers.now first count limit (length pairs.old))
        pairs.old)
        × (found.new ≡ found_written (span_of_numbers section.now numbers.now first count limit (length pairs.old))
        found.old) }
{
    scans::span(section, numbers, first, count, limit, pairs, found)
}

// 26 where a value's offset and length do not lie in the data, else 0.
#[unsafe(no_mangle)]
pub extern "C" fn kiban_value(data: &[u8], offset: u64, length: u64) -> u64
    ensures { result ≡ value_number «data».now offset length }
{
    lookup::value_number(data, offset, length)
}

// A value's part of the data itself, empty where `kiban_value` gives 26.
pub fn value(data: &[u8], offset: u64, length: u64) -> &[u8]
    ensures { result.now ≡ value_part «data».now offset length }
{
    lookup::value(data, offset, length)
}

// Adds an entry to the area and to the builder's record beside it: a Put or a tombstone, of the last key or of a new
// one, whose value stands at an offset of the data. 0, or the number of the first question that is answered with no,
// which leaves both as they were.
#[unsafe(no_mangle)]
pub extern "C" fn kiban_add(
    area: &mut [u8],
    builder: &mut [u64; 16],
    tombstone: u64,
    key: &[u8],
    value: &[u8],
    sequence: u64,
    new_key: u64,
    offset: u64,
) -> u64
    ensures { (result ≡ answer_number (add_of area.old (builder_in builder.old)
        (offer_from tombstone key.now value.now sequence new_key offset)))
        × (area.new ≡ added_area (add_of area.old (builder_in builder.old)
        (offer_from tombstone key.now value.now sequence new_key offset)) area.old)
        × (builder.new ≡ builder_written (add_of area.old (builder_in builder.old)
        (offer_from tombstone key.now value.now sequence new_key offset)) builder.old) }
{
    builds::add(
        area, builder, tombstone, key, value, sequence, new_key, offset,
    )
}

// Tells how many bytes the section of a builder will have with a scan prefix: 0, or 37, which leaves the size as it
// was.
#[unsafe(no_mangle)]
pub extern "C" fn kiban_size(builder: &[u64; 16], prefix: u64, size: &mut u64) -> u64
    ensures { (result ≡ answer_number (size_of_section (builder_in builder.now) prefix))
        × (size.new ≡ size_written (size_of_section (builder_in builder.now) prefix) size.old) }
{
    builds::size(builder, prefix, size)
}

// Writes the section of a builder with a scan prefix, and how many bytes it has: 0, or the number of the first question
// that is answered with no, which leaves both as they were. The scratches keep their lengths.
#[unsafe(no_mangle)]
pub extern "C" fn kiban_write(
    area: &[u8],
    builder: &[u64; 16],
    prefix: u64,
    scratch64: &mut [u64],
    scratch32: &mut [u32],
    output: &mut [u8],
    len: &mut u64,
) -> u64
    ensures { (result ≡ answer_number (write_of area.now (builder_in builder.now) prefix (length scratch64.old)
        (length scratch32.old) (length output.old)))
        × (output.new ≡ section_written (write_of area.now (builder_in builder.now) prefix (length scratch64.old)
        (length scratch32.old) (length output.old)) output.old)
        × (len.new ≡ section_len_written (write_of area.now (builder_in builder.now) prefix (length scratch64.old)
        (length scratch32.old) (length output.old)) len.old)
        × (length scratch64.new ≡ length scratch64.old)
        × (length scratch32.new ≡ length scratch32.old) }
{
    builds::write(area, builder, prefix, scratch64, scratch32, output, len)
}

// Fills the block records of a list's pairs, in their order, and writes how many they are. The result is 0, or the
// number of the first question that is answered with no (11, 12, 41), which leaves records and count as they were.
// Further records stay as they were.
#[unsafe(no_mangle)]
pub extern "C" fn kiban_fill_blocks(
    data: &[u8],
    blocks: &[u64],
    records: &mut [BlockRecord],
    count: &mut u64,
) -> u64
    ensures { (result ≡ answer_number (filled_read (fill_of «data».now blocks.now (length records.old))))
        × (records.new ≡ filled_places (fill_of «data».now blocks.now (length records.old)) records.old)
        × (count.new ≡ filled_count (filled_read (fill_of «data».now blocks.now (length records.old))) count.old) }
{
    let filled = blocks::fill(data, blocks, records);
    blocks::filled_number(filled, count)
}

// The lowest place with that offset in the records lent, or their number if there is none.
#[unsafe(no_mangle)]
pub extern "C" fn kiban_find_block(records: &[BlockRecord], offset: u64) -> u64
    ensures { result ≡ found_place (length records.now) (find_of records.now offset) }
{
    let found = blocks::find(records, offset);
    blocks::found_place(found, records.len())
}
