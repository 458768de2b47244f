// Little-endian numbers in byte slices, and parts that are compared.
// The functions take whole slices and places in them, and no parts cut out: the definitions name places of a section
// (`le_at section at width`), and each part would be a test of bounds more where most of the library's time goes.
#![tactic(auto)]

ghost use Rattle.std.specs.Prelude.{◌≡◌, ◌+◌, ◌*◌, ◌<◌, ◌≤◌, true, length, take, drop};
ghost use Rattle.std.proofs.lemmas.List.Edits.{sets};
ghost use Rattle.num.specs.Number.{le_at, le_bytes, is_width};
ghost use Rattle.num.specs.Order.{equal_bytes};

mod little_endian;

pub use little_endian::LittleEndian;

// The number in the `width` bytes at `at`. The width is no type of its own: each caller has it from the widths of an
// encoding, which are numbers.
pub fn uint(raw: &[u8], at: usize, width: usize) -> u64
    requires { (at + width ≤ length raw.now) × (is_width width ≡ true) }
    ensures { result ≡ le_at raw.now at width }
{
    match width {
        1 => u64::from(u8::read(raw, at)),
        2 => u64::from(u16::read(raw, at)),
        4 => u64::from(u32::read(raw, at)),
        _ => u64::read(raw, at),
    }
}

// Writes the low bytes of `value`, `width` of them, at `at`: at once where a type has that width.
pub fn put_uint(out: &mut [u8], at: usize, width: usize, value: u64)
    requires { at + width ≤ length out.old }
    ensures { out.new ≡ sets out.old at (le_bytes width value) }
{
    match width {
        1 => ((value % 0x100) as u8).write(out, at),
        2 => ((value % 0x1_0000) as u16).write(out, at),
        4 => ((value % 0x1_0000_0000) as u32).write(out, at),
        8 => value.write(out, at),
        _ => put_bytes(out, at, width, value),
    }
}

// Writes a part at a place, byte by byte: by `copy_from_slice` the archive for C would ask for `memmove` from outside,
// which a caller without a C library need not have. All copies of the archive whose length is not constant go through
// here. By index, for the reason that `put_bytes` has.
pub fn put_part(out: &mut [u8], at: usize, part: &[u8])
    requires { at + length part.now ≤ length out.old }
    ensures { out.new ≡ sets out.old at part.now }
{
    for i in 0..part.len() {
        out[at + i] = part[i];
    }
}

// For widths that no type has: the contract of `put_uint` takes any. By index: the loop's rule says how many bytes
// stand in `out`, and a part lent for an iterator would have to be put back into it.
fn put_bytes(out: &mut [u8], at: usize, width: usize, value: u64)
    requires { at + width ≤ length out.old }
    ensures { out.new ≡ sets out.old at (le_bytes width value) }
{
    let mut rest = value;
    for i in 0..width {
        out[at + i] = (rest % 256) as u8;
        rest /= 256;
    }
}

// A step of `same_part`. Are the first `width` of some bytes at two places the same, and the last `width` of them,
// which may overlap those?
fn same_ends(a: &[u8], i: usize, b: &[u8], j: usize, n: usize, width: usize) -> bool
    requires within { (i + n ≤ length a.now) × (j + n ≤ length b.now) }
    requires met { (width ≤ n) × (n ≤ 2 * width) × (is_width width ≡ true) }
    ensures { result ≡ equal_bytes (take n (drop i a.now)) (take n (drop j b.now)) }
{
    let last = n - width;
    uint(a, i, width) == uint(b, j, width) && uint(a, i + last, width) == uint(b, j + last, width)
}

// A step of `same_part`. Are so few bytes at two places the same?
#[tactic(auto, unfolding(crate::specs::Internal::few_defs))]
fn same_few(a: &[u8], i: usize, b: &[u8], j: usize, n: usize) -> bool
    requires { (i + n ≤ length a.now) × (j + n ≤ length b.now) × (n < 8) }
    ensures { result ≡ equal_bytes (take n (drop i a.now)) (take n (drop j b.now)) }
{
    if 4 <= n {
        return same_ends(a, i, b, j, n, 4);
    }
    if 2 <= n {
        return same_ends(a, i, b, j, n, 2);
    }
    n == 0 || same_ends(a, i, b, j, n, 1)
}

// Are the bytes at two places the same? Eight at a time by index, and the last eight, which overlap those before, once
// more: 39 to 57 instructions for keys of 5 to 32 bytes, where `==` of slices takes 48 to 66.
pub fn same_part(a: &[u8], i: usize, b: &[u8], j: usize, n: usize) -> bool
    requires { (i + n ≤ length a.now) × (j + n ≤ length b.now) }
    ensures { result ≡ equal_bytes (take n (drop i a.now)) (take n (drop j b.now)) }
{
    if n < 8 {
        return same_few(a, i, b, j, n);
    }
    for k in 0..(n - 1) / 8 {
        if u64::read(a, i + 8 * k) != u64::read(b, j + 8 * k) {
            return false;
        }
    }
    let last = n - 8;
    u64::read(a, i + last) == u64::read(b, j + last)
}
