// The output line by line: what is left to print at each step.
ghost use Rattle.std.specs.Prelude.{◌≡◌, ◌+◌, ◌*◌, ◌/◌, ◌<◌, ◌≤◌, length, take, Some};
ghost use Rattle.std.proofs.lemmas.List.Edits.{sets};
ghost use Rattle.opening.specs.Open.{open_of};
ghost use Rattle.listing.specs.Listing.{store_text, numbers_in, key_scratch, output_of};
ghost use Rattle.listing.specs.Internal.{Sound, Continues, text_left};
ghost use Rattle.listing.specs.declared.text.Left.TheVariants.{Records};

use crate::walk;
use crate::walk::{Keys, Line, Place, Store};
use num::LittleEndian;
use refusal::Refusal;

// Three files as they were read: were all there, and what the section, its data and its block list have. `whole` stands
// beside the bytes, as in `output_of`: each clause would take an option of the three apart again.
#[derive(Clone, Copy)]
pub struct Loaded<'a> {
    pub whole: bool,
    pub section: &'a [u8],
    pub backing: &'a [u8],
    pub list: &'a [u8],
    ghost small: { (length backing.now ≤ 16384) × (length list.now ≤ 16384) },
}

// What is left to print: four cases, where an `Option` or a `Result` has two. The number of keys goes with the names
// and the records. That its place was reached stays a clause, `Sound (Some ..)`, since it speaks of the store beside
// it.
#[derive(Clone, Copy, Debug, PartialEq, Eq)]
pub enum Left {
    Unreadable,
    Refused(Refusal),
    Names(u64),
    Records(u64, Place),
}

// The numbers of a file, as many as it has whole. By index, which gives a number's place in both: `to` may be longer,
// and a loop over its front alone would have to say what becomes of the rest.
fn read_numbers(file: &[u8], to: &mut [u64])
    requires { length file.now ≤ 8 * length to.old }
    ensures { to.new ≡ sets to.old 0 (numbers_in file.now) }
{
    for i in 0..file.len() / 8 {
        to[i] = u64::read(file, 8 * i);
    }
}

// All that is to be printed of a section, its data and its block list.
fn opened(section: &[u8], data: &[u8], blocks: &[u64], keys: &mut Keys) -> Left
    ensures keys_after { text_left (length section.now) «data».now blocks.now (Some result) keys.new
        ≡ store_text section.now «data».now blocks.now (open_of section.now «data».now blocks.now key_scratch) }
    ensures sound { Sound «data».now blocks.now (Some result) }
{
    match opening::open(section, data, blocks, keys) {
        Ok(o) => Left::Names(o.count as u64),
        Err(refusal) => Left::Refused(refusal),
    }
}

// All that is to be printed of three files; the numbers of the third are left at the front of `blocks`.
pub fn start(files: &Loaded<'_>, blocks: &mut [u64; 2048], keys: &mut Keys) -> Left
    ensures keys_after { text_left (length files.now.section.now) files.now.backing.now
        (numbers_in files.now.list.now) (Some result) keys.new
        ≡ output_of files.now.whole files.now.section.now files.now.backing.now files.now.list.now }
    ensures sound { Sound files.now.backing.now (numbers_in files.now.list.now) (Some result) }
    ensures blocks_after { take (length files.now.list.now / 8) blocks.new ≡ numbers_in files.now.list.now }
{
    read_numbers(files.list, blocks);
    if !files.whole || files.list.len() % 8 != 0 {
        return Left::Unreadable;
    }
    opened(
        files.section,
        files.backing,
        &blocks[..files.list.len() / 8],
        keys,
    )
}

// The next record's line, or the totals behind the last.
fn record_or_totals(
    store: &Store<'_>,
    keys: &mut Keys,
    out: &mut Line,
    count: u64,
    p: Place,
) -> (usize, Option<Left>)
    requires { Sound store.now.backing.now store.now.blocks.now (Some (Records count p)) }
    ensures { Continues store.now.section_len store.now.backing.now store.now.blocks.now
        (Records count p) keys.old result.1 keys.new (take result.0 out.new)
        × (result.0 ≤ length out.new) }
{
    if store.blocks.len() - p.pair < 2 {
        return (
            lines::totals_line(out, store.section_len, count, p.live),
            None,
        );
    }
    let (len, place) = walk::list_next(store, p, keys, out);
    (len, Some(Left::Records(count, place)))
}

// Writes the next line at the front of `out`; at a block's end there is none.
pub fn next_line(
    store: &Store<'_>,
    keys: &mut Keys,
    out: &mut Line,
    left: Left,
) -> (usize, Option<Left>)
    requires { Sound store.now.backing.now store.now.blocks.now (Some left) }
    ensures { Continues store.now.section_len store.now.backing.now store.now.blocks.now
        left keys.old result.1 keys.new (take result.0 out.new)
        × (result.0 ≤ length out.new) }
{
    match left {
        Left::Unreadable => (lines::unreadable_line(out), None),
        Left::Refused(refusal) => (lines::refused_line(out, refusal.number()), None),
        Left::Names(count) => {
            // By name: a `Default` would be derived for this one place.
            let first = Place {
                pair: 0,
                pos: 0,
                key_len: 0,
                live: 0,
            };
            (lines::names_line(out), Some(Left::Records(count, first)))
        }
        Left::Records(count, p) => record_or_totals(store, keys, out, count, p),
    }
}
