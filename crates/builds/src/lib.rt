// The entries of building, over sixteen numbers as the builder's record. C calls them: `add`, `size` and `write` answer
// the number of a refusal and 0 for none, and take each thing by itself, since its interface has no enums and structs.
#![tactic(auto)]

ghost use Rattle.std.specs.Prelude.{◌≡◌, true, false, eqb, length};
ghost use Rattle.num.specs.Choice.{when◌then◌else◌};
ghost use Rattle.sstable.specs.declared.Kind.TheVariants.{Put, Tombstone};
ghost use Rattle.refusal.specs.Refusal.{answer_number};
ghost use Rattle.builder.specs.Record.{size_of_section};
ghost use Rattle.builder.specs.Add.{add_of, added_area};
ghost use Rattle.writer.specs.Write.{write_of, section_written};
ghost use Rattle.numbers.specs.BuilderNumbers.{builder_in};
ghost use Rattle.builds.specs.Built.{offer_from, builder_written, size_written, section_len_written};

use builder::Entry;
use sstable::Kind;

// Kinds and marks are numbers here since the interface for C has no enums. It is no `From` of a kind: any number but 0
// is a tombstone for a caller, and in a block each kind has a number of its own.
#[tactic(auto, unfolding(num::specs::Choice::choice_defs))]
fn kind_from(tombstone: u64) -> Kind
    ensures { result ≡ (when eqb tombstone 0 then Put else Tombstone) }
{
    if tombstone == 0 {
        Kind::Put
    } else {
        Kind::Tombstone
    }
}

// Adds an entry to the area and to the builder's record beside it: a Put or a tombstone, of the last key or of a new
// one, whose value stands at an offset of the data. 0, or the number of the first question that is answered with no,
// which leaves both as they were.
pub fn add(
    area: &mut [u8],
    builder: &mut [u64; 16],
    tombstone: u64,
    key: &[u8],
    value: &[u8],
    sequence: u64,
    new_key: u64,
    offset: u64,
) -> u64
    ensures { (result ≡ answer_number (add_of area.old (builder_in builder.old)
        (offer_from tombstone key.now value.now sequence new_key offset)))
        × (area.new ≡ added_area (add_of area.old (builder_in builder.old)
        (offer_from tombstone key.now value.now sequence new_key offset)) area.old)
        × (builder.new ≡ builder_written (add_of area.old (builder_in builder.old)
        (offer_from tombstone key.now value.now sequence new_key offset)) builder.old) }
{
    let b = numbers::read_builder(builder);
    let offer = Entry {
        kind: kind_from(tombstone),
        key,
        value,
        seq: sequence,
        new_key: new_key != 0,
        offset,
    };
    match adding::add(area, b, offer) {
        Ok(after) => {
            numbers::write_builder(after, builder);
            0
        }
        Err(refusal) => refusal.number(),
    }
}

// Tells how many bytes the section of a builder will have with a scan prefix: 0, or 37, which leaves the size as it
// was.
#[tactic(auto, unfolding(crate::specs::Built::size_written))]
pub fn size(builder: &[u64; 16], prefix: u64, size: &mut u64) -> u64
    ensures { (result ≡ answer_number (size_of_section (builder_in builder.now) prefix))
        × (size.new ≡ size_written (size_of_section (builder_in builder.now) prefix) size.old) }
{
    let b = numbers::read_builder(builder);
    refusal::answered(b.size(prefix), size)
}

// Writes the section of a builder with a scan prefix, and how many bytes it has: 0, or the number of the first question
// that is answered with no, which leaves both as they were. The scratches keep their lengths.
pub fn write(
    area: &[u8],
    builder: &[u64; 16],
    prefix: u64,
    scratch64: &mut [u64],
    scratch32: &mut [u32],
    output: &mut [u8],
    len: &mut u64,
) -> u64
    ensures { (result ≡ answer_number (write_of area.now (builder_in builder.now) prefix
        (length scratch64.old) (length scratch32.old) (length output.old)))
        × (output.new ≡ section_written (write_of area.now (builder_in builder.now) prefix
        (length scratch64.old) (length scratch32.old) (length output.old)) output.old)
        × (len.new ≡ section_len_written (write_of area.now (builder_in builder.now) prefix
        (length scratch64.old) (length scratch32.old) (length output.old)) len.old)
        × (length scratch64.new ≡ length scratch64.old)
        × (length scratch32.new ≡ length scratch32.old) }
{
    let b = numbers::read_builder(builder);
    let written = writing::write(area, b, prefix, scratch64, scratch32, output);
    refusal::answered(written, len)
}
