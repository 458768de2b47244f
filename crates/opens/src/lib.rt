// The two openings as C callers have them: they answer a question's number and write the record as sixteen numbers,
// which the C interface asks for. Crates `opening` and `packing` answer a `Result`.
#![tactic(auto)]

ghost use Rattle.std.specs.Prelude.{◌≡◌, length};
ghost use Rattle.refusal.specs.Refusal.{answer_number};
ghost use Rattle.opening.specs.Open.{open_of};
ghost use Rattle.packing.specs.Packing.{open_packed_of, packed_read, packed_written};
ghost use Rattle.opens.specs.Written.{record_written, packed_record_written, packed_len_written};

// Opens a section beside its backing data and its block list, and writes the opened record: 0, or the number of the
// first question that is answered with no, which leaves the record as it was. The key scratch holds two keys, and keeps
// its length.
#[tactic(auto, unfolding(refusal::specs::Refusal::answer_number, crate::specs::Written::record_written))]
pub fn open(
    section: &[u8],
    data: &[u8],
    blocks: &[u64],
    scratch: &mut [u8],
    out: &mut [u64; 16],
) -> u64
    ensures { (result ≡ answer_number (open_of section.now «data».now blocks.now (length scratch.old)))
        × (out.new ≡ record_written (open_of section.now «data».now blocks.now (length scratch.old)) out.old)
        × (length scratch.new ≡ length scratch.old) }
{
    match opening::open(section, data, blocks, scratch) {
        Ok(o) => {
            numbers::write_record(o, out);
            0
        }
        Err(refusal) => refusal.number(),
    }
}

// Opens a section as `open` does, and writes its packed form, the packed record, and how many bytes the packed form
// has: 0, or the number of the first question that is answered with no, which leaves all three as they were. The key
// scratch keeps its length.
#[tactic(auto, unfolding(crate::specs::Written::packed_defs))]
pub fn open_packed(
    section: &[u8],
    data: &[u8],
    blocks: &[u64],
    scratch: &mut [u8],
    output: &mut [u8],
    out: &mut [u64; 16],
    len: &mut u64,
) -> u64
    ensures { (result ≡ answer_number (packed_read
        (open_packed_of section.now «data».now blocks.now (length scratch.old) (length output.old))))
        × (output.new ≡ packed_written
        (open_packed_of section.now «data».now blocks.now (length scratch.old) (length output.old)) output.old)
        × (out.new ≡ packed_record_written
        (open_packed_of section.now «data».now blocks.now (length scratch.old) (length output.old)) out.old)
        × (len.new ≡ packed_len_written
        (open_packed_of section.now «data».now blocks.now (length scratch.old) (length output.old)) len.old)
        × (length scratch.new ≡ length scratch.old) }
{
    match packing::open_packed(section, data, blocks, scratch, output) {
        Ok((o, n)) => {
            numbers::write_record(o, out);
            *len = n as u64;
            0
        }
        Err(refused) => refused.number(),
    }
}
