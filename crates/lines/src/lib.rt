// The lines that the program `keys` prints, each written at the front of a lent buffer. Not as `Display`: of what
// `println!` writes to the standard output no contract speaks, and a line in a buffer is proved, and printed by one
// call.
#![tactic(auto)]

ghost use Rattle.std.specs.Prelude.{◌≡◌, ◌+◌, ◌*◌, ◌<◌, ◌≤◌, false, length};
ghost use Rattle.std.specs.Fmt.{digit_glyph};
ghost use Rattle.lines.specs.Lines.{
  key_text,
  labelled,
  kind_text,
  names_line,
  record_line,
  live_one,
  mean_of,
  totals_line,
  refused_line,
  unreadable_line,
};
ghost use Rattle.lines.specs.Wrote.{Wrote};

use itoa::Buffer;
use sstable::Kind;

// Buffer and place stay two parameters of `put`, `put_key`, `put_labelled` and `put_kind`: of a struct over a buffer
// each clause would have to say that it is still the same buffer.
#[tactic(auto, using(crate::proofs::Parts::wrote_copied))]
fn put(out: &mut [u8], at: usize, text: &[u8]) -> usize
    requires { at + length text.now ≤ length out.old }
    ensures { Wrote out.old out.new at text.now result }
{
    let end = at + text.len();
    out[at..end].copy_from_slice(text);
    end
}

fn hex_digit(digit: u8) -> u8
    requires { digit < 16 }
    ensures { result ≡ digit_glyph false digit }
{
    if digit < 10 {
        b'0' + digit
    } else {
        b'a' + (digit - 10)
    }
}

#[tactic(auto, using(crate::proofs::Parts::wrote_nothing))]
fn put_key(out: &mut [u8], at: usize, key: &[u8]) -> usize
    requires { at + 2 * length key.now + 1 ≤ length out.old }
    ensures written { Wrote out.old out.new at (key_text key.now) result }
    ensures short { result ≤ at + 2 * length key.now + 1 }
{
    if key.is_empty() {
        return put(out, at, b"-");
    }
    let mut end = at;
    for &byte in key {
        end = put(out, end, &[hex_digit(byte / 16), hex_digit(byte % 16)]);
    }
    end
}

fn put_labelled(out: &mut [u8], at: usize, label: &[u8], n: u64) -> usize
    requires { at + length label.now + 20 ≤ length out.old }
    ensures written { Wrote out.old out.new at (labelled label.now n) result }
    ensures short { result ≤ at + length label.now + 20 }
{
    let number_at = put(out, at, label);
    put(out, number_at, Buffer::new().format(n).as_bytes())
}

fn put_kind(out: &mut [u8], at: usize, kind: Kind) -> usize
    requires { at + 2 ≤ length out.old }
    ensures written { Wrote out.old out.new at (kind_text kind) result }
    ensures short { result ≡ at + 2 }
{
    match kind {
        Kind::Put => put(out, at, b" P"),
        Kind::Tombstone => put(out, at, b" T"),
    }
}

// The line of names, written at the front. Each line says how much room it asks for, from 64 bytes on: the buffer is
// the caller's, and may have any length.
#[tactic(auto, unfolding(crate::specs::Lines::line_defs))]
pub fn names_line(out: &mut [u8]) -> usize
    requires { 64 ≤ length out.old }
    ensures { Wrote out.old out.new 0 names_line result }
{
    put(out, 0, b"key seq kind offset length\n")
}

// The line of a record, written at the front.
pub fn record_line(
    out: &mut [u8],
    key: &[u8],
    seq: u64,
    kind: Kind,
    offset: u64,
    size: u64,
) -> usize
    requires { 2 * length key.now + 67 ≤ length out.old }
    ensures { Wrote out.old out.new 0
        (record_line (record { key = key.now; seq = seq; kind = kind; place = offset; size = size })) result }
{
    let seq_at = put_key(out, 0, key);
    let kind_at = put_labelled(out, seq_at, b" ", seq);
    let offset_at = put_kind(out, kind_at, kind);
    let size_at = put_labelled(out, offset_at, b" ", offset);
    let end = put_labelled(out, size_at, b" ", size);
    put(out, end, b"\n")
}

// What a record of this kind adds to the total `live`.
#[tactic(auto, unfolding(crate::specs::Lines::line_defs))]
pub fn live_one(kind: Kind) -> u64
    ensures { (result ≡ live_one kind) × (result ≤ 1) }
{
    match kind {
        Kind::Put => 1,
        Kind::Tombstone => 0,
    }
}

// The total `mean`.
fn mean(section_len: u64, keys: u64) -> u64
    requires { 0 < keys }
    ensures { result ≡ mean_of section_len keys }
{
    section_len / keys
}

// The line of totals of a section of a length, written at the front.
pub fn totals_line(out: &mut [u8], section_len: u64, keys: u64, live: u64) -> usize
    requires { (128 ≤ length out.old) × (0 < keys) }
    ensures { Wrote out.old out.new 0 (totals_line keys live (mean_of section_len keys)) result }
{
    let live_at = put_labelled(out, 0, b"keys ", keys);
    let mean_at = put_labelled(out, live_at, b" live ", live);
    let end = put_labelled(out, mean_at, b" mean ", mean(section_len, keys));
    put(out, end, b"\n")
}

// The line of a refusal, written at the front.
pub fn refused_line(out: &mut [u8], number: u64) -> usize
    requires { 64 ≤ length out.old }
    ensures { Wrote out.old out.new 0 (refused_line number) result }
{
    let end = put_labelled(out, 0, b"refused ", number);
    put(out, end, b"\n")
}

// The line of files that cannot be read, written at the front.
#[tactic(auto, unfolding(crate::specs::Lines::line_defs))]
pub fn unreadable_line(out: &mut [u8]) -> usize
    requires { 64 ≤ length out.old }
    ensures { Wrote out.old out.new 0 unreadable_line result }
{
    put(out, 0, b"unreadable\n")
}
