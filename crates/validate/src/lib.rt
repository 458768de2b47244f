// The records of a block in turn: questions 13 to 21.
#![tactic(auto)]

ghost use Rattle.std.specs.Prelude.{◌≡◌, true, [], ◌+◌, ◌≤◌, length, take, drop, eqb};
ghost use Rattle.std.proofs.lemmas.List.Edits.{sets};
ghost use Rattle.arena.specs.Internal.{Inside};
ghost use Rattle.versions.specs.Version.{visit_of};
ghost use Rattle.num.specs.Choice.{when◌then◌else◌};
ghost use Rattle.block.specs.Walk.{walk_at};
ghost use Rattle.validate.specs.Walk.{placed, records_asked};
ghost use Rattle.validate.specs.Internal.{
  record_asked,
  asked_at,
  state_in,
  progress_in,
  Held,
  Ready,
  RecordHeld,
  Lies,
  entry_in,
  asked_for,
  BlockHeld,
  answer_for,
};
ghost use Rattle.validate.specs.Lent.{inputs_lent, ReadyFor};

mod inputs;

use arena::{Arena, Cursor};
use block::{Entries, Record};
pub use inputs::Inputs;
use refusal::{Refusal, ask};
use versions::RecordInfo;

// What the walk carries beside the keys in the scratch: their lengths, and where it stands in the arena.
#[derive(Clone, Copy)]
pub struct Carried {
    pub key_len: usize,
    pub previous_len: usize,
    pub cursor: Cursor,
}

// `ReadyFor` stays a clause of `visit_record`, `open_record` and `open` here and of `open_pair` and `open_blocks` in
// `opening`, and the scratch and `w` stay their parameters: it ties the lent scratch to the rest. A type that holds
// the scratch must promise behind each method that the scratch is the same one, and that the inputs are, for every
// caller and every loop: two clauses and two lines of an invariant for this one.

// Copies the key at the scratch's front behind its half. It takes the scratch whole, with the number at which it is
// divided, as `move_on` does: both contracts speak of the one list, as the definitions do.
fn keep_key(scratch: &mut [u8], half: usize, count: usize)
    requires { (count ≤ half) × (half + half ≤ length scratch.old) }
    ensures { scratch.new ≡ sets scratch.old half (take count scratch.old) }
{
    let (key, last) = scratch.split_at_mut(half);
    num::put_part(last, 0, &key[..count]);
}

// Behind a record that was visited: a key's first record leaves its key as the last one.
fn move_on(scratch: &mut [u8], half: usize, w: Carried, key_len: usize, c: Cursor) -> Carried
    requires { (key_len ≤ half) × (half + half ≤ length scratch.old) × Held half w }
    ensures state_after { state_in half scratch.new result
        ≡ record {
          key = take key_len scratch.old;
          previous = (when eqb w.cursor.remaining 0 then take key_len scratch.old
              else take w.previous_len (drop half scratch.old));
          cursor = c;
        } }
    ensures keys_held { Held half result }
{
    let before = w.cursor;
    if before.remaining == 0 {
        keep_key(scratch, half, key_len);
        return Carried {
            key_len,
            previous_len: key_len,
            cursor: c,
        };
    }
    Carried {
        key_len,
        previous_len: w.previous_len,
        cursor: c,
    }
}

// A block of the data: its bytes, where they start in the data, and where its entries end.
#[derive(Clone, Copy)]
pub struct Block<'a> {
    pub inputs: Inputs<'a>,
    pub offset: usize,
    pub raw: &'a [u8],
    pub entries_end: usize,
    pub ghost entries: { entries_end ≤ length raw.now },
    pub ghost inside: { offset + length raw.now ≤ length inputs.«data».now },
}

impl<'a> Block<'a> {
    // Questions 16 to 21 of a record whose key, and the last one, lie in the scratch.
    fn visit_keys(&self, scratch: &[u8], w: Carried, r: Record) -> Result<Cursor, Refusal>
        requires inside { Inside self.now.inputs.section.now self.now.inputs.opened self.now.inputs.end w.cursor }
        requires keys { (r.key_len ≤ length scratch.now)
            × (self.now.inputs.half + w.previous_len ≤ length scratch.now) }
        requires value { r.place + r.size ≤ length self.now.raw.now }
        ensures { result
            ≡ visit_of self.now.inputs.section.now self.now.inputs.opened self.now.inputs.end w.cursor
            (take w.previous_len (drop self.now.inputs.half scratch.now))
            (record {
              key = take r.key_len scratch.now;
              seq = r.seq;
              kind = r.kind;
              place = self.now.offset + r.place;
              size = r.size;
            })
            (take r.size (drop (self.now.offset + r.place) self.now.inputs.«data».now)) }
    {
        let t = self.inputs;
        let previous_end = t.half + w.previous_len;
        let place = self.offset + r.place;
        let value_end = place + r.size;
        let arena = Arena {
            section: t.section,
            opened: t.opened,
            end: t.end,
            cursor: w.cursor,
        };
        let found = RecordInfo {
            key: &scratch[..r.key_len],
            value: &t.data[place..value_end],
            seq: r.seq,
            kind: r.kind,
            place,
        };
        versions::visit(&arena, &scratch[t.half..previous_end], found)
    }

    // Questions 14 to 21 of a record.
    fn visit_record(
        &self,
        scratch: &mut [u8],
        w: Carried,
        r: Record,
    ) -> Result<(usize, Carried), Refusal>
        requires ready { ReadyFor self.now.inputs scratch.old w }
        requires lies { Lies (length self.now.raw.now) w.key_len r }
        ensures result_after { asked_for self.now.inputs.half scratch.new result
            ≡ record_asked (inputs_lent self.now.inputs) (state_in self.now.inputs.half scratch.old w) r.next
            (placed self.now.offset (entry_in self.now.raw.now (take w.key_len scratch.old) r)) }
        ensures record_held { RecordHeld self.now.inputs.half result }
    {
        let half = self.inputs.half;
        ask(sstable::mutation(r.key_len, r.size), Refusal::Limits)?;
        ask(r.key_len <= half, Refusal::KeyRoom)?;
        let own = r.key_len - r.shared;
        block::copy_key(self.raw, r.place - own, own, scratch, r.shared);
        let cursor = self.visit_keys(scratch, w, r)?;
        Ok((r.next, move_on(scratch, half, w, r.key_len, cursor)))
    }

    // Questions 13 to 21 of the record at a place of the block, which the record before it said.
    fn open_record(
        &self,
        pos: usize,
        scratch: &mut [u8],
        w: Carried,
    ) -> Result<(usize, Carried), Refusal>
        requires ready { ReadyFor self.now.inputs scratch.old w }
        ensures result_after { asked_for self.now.inputs.half scratch.new result
            ≡ asked_at (inputs_lent self.now.inputs) self.now.offset self.now.raw.now self.now.entries_end pos
            (state_in self.now.inputs.half scratch.old w) }
        ensures record_held { RecordHeld self.now.inputs.half result }
    {
        let r = Entries::new(self.raw, self.entries_end).record_at(pos, w.key_len)?;
        self.visit_record(scratch, w, r)
    }

    // Questions 13 to 21 of its records.
    pub fn open(&self, scratch: &mut [u8], w: Carried) -> Result<Carried, Refusal>
        requires ready { ReadyFor self.now.inputs scratch.old w }
        ensures result_after { answer_for self.now.inputs.half scratch.new result
            ≡ records_asked (inputs_lent self.now.inputs) self.now.offset
            (progress_in self.now.inputs.half scratch.old w) (walk_at self.now.raw.now self.now.entries_end 0 []) }
        ensures block_held { BlockHeld self.now.inputs.half result }
    {
        let mut carried = Carried { key_len: 0, ..w };
        let mut pos = 0;
        // No `for`: a record says where the next one begins, so no index is counted.
        while pos < self.entries_end {
            (pos, carried) = self.open_record(pos, scratch, carried)?;
        }
        Ok(carried)
    }
}
