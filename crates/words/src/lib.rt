// Numbers of a width that is known at run time.
// A reader takes the whole section and a place, not the bytes of the number: places are sums of widths, and a slice for
// each number would be one bounds check more. A width is no type of its own: it is one of an `Encoding`'s numbers, and
// each caller has `is_width` from `Widths`.
#![tactic(auto)]

ghost use Rattle.std.specs.Prelude.{◌≡◌, ℕ, true, ◌+◌, ◌≤◌, length};
ghost use Rattle.num.specs.Number.{le_at, is_width};
ghost use Rattle.words.specs.Mask.{mask_of};

use num::LittleEndian;

// A reader of numbers of one width, and how many bytes have to stand behind a number for it.
pub trait Reads: Copy {
    ghost BEHIND: { ℕ };

    ghost width_of: { Self → ℕ };

    fn of(width: usize) -> Self
        requires { is_width width ≡ true }
        ensures { width_of result ≡ width };

    fn number(self, section: &[u8], at: usize) -> u64
        requires { at + width_of self + BEHIND ≤ length section.now }
        ensures { result ≡ le_at section.now at (width_of self) };
}

// Its own bytes alone.
#[derive(Clone, Copy)]
pub struct Exact {
    pub width: usize,
    pub ghost allowed: { is_width width ≡ true },
}

impl Reads for Exact {
    ghost BEHIND = { 0 };

    ghost width_of = { λ self. self.width };

    fn of(width: usize) -> Self {
        Exact { width }
    }

    fn number(self, section: &[u8], at: usize) -> u64 {
        num::uint(section, at, self.width)
    }
}

// A number by the word of eight bytes at its place: one load and one mask, where `num::uint` asks for the width each
// time (3.6 ns a number against 4.5 to 5.2).
#[derive(Clone, Copy)]
pub struct Words {
    pub width: usize,
    mask: u64,
    pub ghost allowed: { is_width width ≡ true },
    ghost low: { mask ≡ mask_of width },
}

// The greatest number of a width.
fn mask(width: usize) -> u64
    requires { is_width width ≡ true }
    ensures { result ≡ mask_of width }
{
    0xFFFF_FFFF_FFFF_FFFF >> ((64 - 8 * width) as u32)
}

impl Words {
    // The number at a place that has eight bytes, whatever the width.
    pub fn masked(self, raw: &[u8], at: usize) -> u64
        requires { at + 8 ≤ length raw.now }
        ensures { result ≡ le_at raw.now at self.width }
    {
        u64::read(raw, at) & self.mask
    }
}

impl Reads for Words {
    ghost BEHIND = { 8 };

    ghost width_of = { λ self. self.width };

    fn of(width: usize) -> Self {
        Words {
            width,
            mask: mask(width),
        }
    }

    fn number(self, section: &[u8], at: usize) -> u64 {
        self.masked(section, at)
    }
}
