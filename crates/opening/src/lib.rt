// Opening: whether a section, its backing data and its block list belong together, question by question.
#![tactic(auto)]

ghost use Rattle.std.specs.Prelude.{◌≡◌, [], ◌+◌, ◌*◌, ◌%◌, ◌<◌, ◌≤◌, length, Ok};
ghost use Rattle.header.specs.Header.{header_of};
ghost use Rattle.opening.specs.Open.{
  pilot_inside_of,
  pilots_inside,
  start_at,
  block_asked,
  pair_fits,
  pairs_from,
  ends_together,
  prefixes_counted,
  end_for,
  contents_of,
  checked_header_of,
  open_of,
};
ghost use Rattle.validate.specs.Internal.{progress_in, BlockHeld, answer_for};
ghost use Rattle.validate.specs.Lent.{inputs_lent, ReadyFor};
ghost use Rattle.opening.specs.Internal.{ended_for};

use arena::Cursor;
use encoding::Encoding;
use header::Opened;
use num::LittleEndian;
use refusal::{Refusal, ask};
use validate::{Block, Carried, Inputs};

// The pilots of a section whose header passed.
#[derive(Clone, Copy)]
struct PilotTable<'a> {
    section: &'a [u8],
    opened: Opened,
    ghost within: { 64 + 4 * opened.buckets ≤ length section.now },
}

impl<'a> PilotTable<'a> {
    // Question 10 of one pilot.
    #[tactic(auto, unfolding(crate::specs::Internal::pilot_defs))]
    fn pilot_inside(&self, k: usize) -> bool
        requires { k < self.now.opened.buckets }
        ensures { result ≡ pilot_inside_of self.now.section.now self.now.opened k }
    {
        let pilot = u32::read(self.section, Encoding::HEADER + 4 * k);
        pilot < point::DIRECT || ((pilot % point::DIRECT) as usize) < self.opened.count
    }

    // Question 10.
    fn pilots_inside(&self) -> bool
        ensures { result ≡ pilots_inside self.now.section.now self.now.opened }
    {
        // No `all`: what it promises of a range is a list of the numbers that it met, and no proof from there closed.
        for k in 0..self.opened.buckets {
            if !self.pilot_inside(k) {
                return false;
            }
        }
        true
    }
}

// Questions 12 to 21 of the block at an offset of the data, which with its length is a pair of the list. That scratch
// and state fit stays a clause here and in `open_blocks` (`ReadyFor`): `validate` says why.
fn open_pair(
    inputs: &Inputs<'_>,
    offset: usize,
    len: usize,
    scratch: &mut [u8],
    w: Carried,
) -> Result<Carried, Refusal>
    requires ready { ReadyFor inputs.now scratch.old w }
    requires len_in_bounds { offset + len ≤ length inputs.now.«data».now }
    ensures result_after { answer_for inputs.now.half scratch.new result
        ≡ block_asked (inputs_lent inputs.now) offset len (progress_in inputs.now.half scratch.old w) }
    ensures block_held { BlockHeld inputs.now.half result }
{
    let pair_end = offset + len;
    let raw = &inputs.data[offset..pair_end];
    let meta = block::verify(raw)?;
    let block = Block {
        inputs: *inputs,
        offset,
        raw,
        entries_end: meta.entries_end,
    };
    block.open(scratch, w)
}

// Question 11 of a pair behind a place of the data.
#[tactic(auto, unfolding(crate::specs::Open::pair_fits, num::specs::Choice::choice_defs))]
pub fn pair_fits(data_len: usize, at: usize, offset: usize, len: usize) -> bool
    requires { at ≤ data_len }
    ensures { result ≡ pair_fits data_len at offset len }
{
    offset == at && len <= data_len - at
}

// Questions 11 to 21 of the pairs, of which the list is made. List and scratch come one by one, as in `contents`: one
// is read, the other is written.
fn open_blocks(
    inputs: &Inputs<'_>,
    blocks: &[u64],
    scratch: &mut [u8],
    w: Carried,
) -> Result<(usize, Carried), Refusal>
    requires ready { ReadyFor inputs.now scratch.old w }
    requires blocks_len { length blocks.now % 2 ≡ 0 }
    ensures { ended_for inputs.now.half scratch.new result
        ≡ pairs_from (inputs_lent inputs.now) blocks.now 0 (progress_in inputs.now.half scratch.old w) }
{
    let mut carried = w;
    let mut at = 0;
    let (pairs, _) = blocks.as_chunks::<2>();
    for pair in pairs {
        let [offset, len] = *pair;
        let (offset, len) = (offset as usize, len as usize);
        ask(
            pair_fits(inputs.data.len(), at, offset, len),
            Refusal::BlockList,
        )?;
        carried = open_pair(inputs, offset, len, scratch, carried)?;
        at = offset + len;
    }
    Ok((at, carried))
}

// Where the pairs end in the data, and where the walk then stands.
#[derive(Clone, Copy)]
struct End<'a> {
    inputs: Inputs<'a>,
    at: usize,
    cursor: Cursor,
}

impl<'a> End<'a> {
    // Question 22.
    #[tactic(auto, unfolding(crate::specs::Open::ends_together, num::specs::Choice::both))]
    fn ends_together(&self) -> bool
        ensures { result ≡ ends_together (inputs_lent self.now.inputs) self.now.at self.now.cursor }
    {
        let c = self.cursor;
        self.at == self.inputs.data.len()
            && c.pos == self.inputs.end
            && c.remaining == 0
            && c.groups == self.inputs.opened.count
    }

    // Question 23.
    #[tactic(auto, using(arena::proofs::Reading::scan_header_inside), unfolding(crate::specs::Internal::prefix_defs))]
    fn prefixes_counted(&self) -> bool
        ensures { result ≡ prefixes_counted (inputs_lent self.now.inputs) self.now.cursor }
    {
        let scan = self.inputs.opened.scan;
        scan == 0 || u64::read(self.inputs.section, scan + 16) == self.cursor.prefixes as u64
    }

    // Questions 22 and 23.
    #[tactic(auto, unfolding(crate::specs::Open::end_for, num::specs::Choice::choice_defs))]
    fn finish(&self) -> Result<Opened, Refusal>
        ensures { result
            ≡ end_for (inputs_lent self.now.inputs)
            (Ok (record { at = self.now.at; progress = record { previous = []; cursor = self.now.cursor } })) }
    {
        ask(self.ends_together(), Refusal::Ends)?;
        ask(self.prefixes_counted(), Refusal::PrefixCount)?;
        Ok(self.inputs.opened)
    }
}

// The walk's start: no keys, and the arena's start.
#[tactic(auto, unfolding(crate::specs::Open::start_at))]
fn start(o: Opened) -> Carried
    ensures { result ≡ record { key_len = 0; previous_len = 0; cursor = start_at o } }
{
    Carried {
        key_len: 0,
        previous_len: 0,
        cursor: Cursor {
            pos: o.arena,
            groups: 0,
            remaining: 0,
            anchor: 0,
            anchor_len: 0,
            shared: 0,
            suffix: 0,
            suffix_len: 0,
            prefixes: 0,
            last_seq: 0,
            first: true,
        },
    }
}

// Questions 10 to 23 of a section whose header passed. Here and in `open` a store is lent in its parts, as the C
// entries lend it: a struct of them would be filled by each caller for this one call. That the header passed stays a
// clause too: callers have it from `checked_header`, whose promise it is.
#[tactic(auto, unfolding(crate::specs::Open::contents_of, num::specs::Choice::choice_defs))]
pub fn contents(
    section: &[u8],
    data: &[u8],
    blocks: &[u64],
    scratch: &mut [u8],
    o: Opened,
) -> Result<Opened, Refusal>
    requires { header_of section.now ≡ Ok o }
    ensures value { result ≡ contents_of section.now «data».now blocks.now (length scratch.old) o }
    ensures scratch_len_unchanged { length scratch.new ≡ length scratch.old }
{
    let pilots = PilotTable { section, opened: o };
    ask(pilots.pilots_inside(), Refusal::PilotSlot)?;
    ask(blocks.len() % 2 == 0, Refusal::BlockList)?;
    let inputs = Inputs {
        section,
        opened: o,
        end: header::arena_end(section, o),
        data,
        half: scratch.len() / 2,
    };
    let (at, w) = open_blocks(&inputs, blocks, scratch, start(o))?;
    let end = End {
        inputs,
        at,
        cursor: w.cursor,
    };
    end.finish()
}

// Questions 1 to 6: the trailer, then the header.
#[tactic(auto, unfolding(crate::specs::Open::checked_header_of, crate::specs::Open::trailed_header))]
pub fn checked_header(section: &[u8]) -> Result<Opened, Refusal>
    ensures { result ≡ checked_header_of section.now }
{
    sstable::verify_trailer(section)?;
    header::header(section)
}

// The plain opening: the record of a section beside backing data and a block list, or the first question that fails.
#[tactic(auto, using(crate::proofs::Accepted::checked_header), unfolding(crate::specs::Internal::open_defs))]
pub fn open(
    section: &[u8],
    data: &[u8],
    blocks: &[u64],
    scratch: &mut [u8],
) -> Result<Opened, Refusal>
    ensures value { result ≡ open_of section.now «data».now blocks.now (length scratch.old) }
    ensures scratch_len_unchanged { length scratch.new ≡ length scratch.old }
{
    let o = checked_header(section)?;
    contents(section, data, blocks, scratch, o)
}
