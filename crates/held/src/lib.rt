// Question 24 of sixteen numbers, before a record is made of them: every lookup asks it. Tests that need no other are
// joined by `&`, which leaves few branches. It stays beside `opened::is_record`, which asks the same of a record, for
// speed alone: a lookup that finds nothing takes 224 instructions, many of them these (docs/PERFORMANCE.md).
#![tactic(auto)]

ghost use Rattle.std.specs.Prelude.{◌≡◌, true, ◌+◌, ◌^◌, ◌≤◌, ◌<◌, length, get_or};
ghost use Rattle.num.specs.Choice.{both};
ghost use Rattle.header.specs.Header.{allowed_widths, scanned_of};
ghost use Rattle.header.specs.Facts.{Dimensions};
ghost use Rattle.opened.specs.Opened.{is_record_of};
ghost use Rattle.numbers.specs.Numbers.{opened_of, is_record_numbers};
ghost use Rattle.held.specs.Held.{
  says,
  widths_say,
  widths_hold,
  header_says,
  counts_fit,
  plain_arena,
  packed_arena,
  starts_at,
  scan_holds,
  plain_holds,
  packed_holds,
};

use encoding::Encoding;
use num::LittleEndian;

// Has the header this number in the four bytes at a place? The number is known to be so short: it is compared without
// widening the bytes. Spans ask it too, by code of their own, and the places are those of the header: no view would say
// it more plainly.
#[tactic(auto, unfolding(crate::specs::Held::says))]
pub fn says(section: &[u8], place: usize, number: u64) -> bool
    requires place_in_bounds { place + 4 ≤ length section.now }
    requires number_bound { number < 2 ^ 32 }
    ensures { result ≡ says section.now place number }
{
    u32::read(section, place) == number as u32
}

#[tactic(auto, using(crate::proofs::Exactly::few_keys), unfolding(crate::specs::Held::held_defs))]
fn counts_fit(numbers: &[u64; 16]) -> bool
    ensures { result ≡ counts_fit numbers.now }
{
    let n = numbers[2];
    if !((0 < n) & (n < 0x8000_0000)) {
        return false;
    }
    numbers[3] == (n + 1) / 2
}

// Sixteen numbers beside a section that has room for a header.
#[derive(Clone, Copy)]
struct Asked<'a> {
    section: &'a [u8],
    numbers: &'a [u64; 16],
    ghost long: { 69 ≤ length section.now },
}

impl<'a> Asked<'a> {
    #[tactic(auto, using(crate::proofs::Exactly::widths_short), unfolding(crate::specs::Held::held_defs))]
    fn widths_say(&self) -> bool
        requires { allowed_widths (opened_of self.now.numbers.now).encoding ≡ true }
        ensures { result ≡ widths_say self.now.section.now self.now.numbers.now }
    {
        let section = self.section;
        let numbers = self.numbers;
        says(section, 32, numbers[5])
            & (says(section, 36, numbers[6])
                & (says(section, 40, numbers[7])
                    & (says(section, 44, numbers[8]) & says(section, 48, numbers[9]))))
    }

    // Are the widths allowed, and the header's?
    #[tactic(auto, unfolding(crate::specs::Held::held_defs))]
    fn widths_hold(&self) -> bool
        ensures { result ≡ widths_hold self.now.section.now self.now.numbers.now }
    {
        let o = numbers::read_record(self.numbers);
        if !header::allowed_widths(o.encoding) {
            return false;
        }
        self.widths_say()
    }

    // The header's seed, least sequence and counts.
    #[tactic(auto, using(crate::proofs::Exactly::counts_short), unfolding(crate::specs::Held::held_defs))]
    fn header_says(&self) -> bool
        requires { counts_fit self.now.numbers.now ≡ true }
        ensures { result ≡ header_says self.now.section.now self.now.numbers.now }
    {
        let section = self.section;
        let numbers = self.numbers;
        (u64::read(section, 8) == numbers[0])
            & ((u64::read(section, 56) == numbers[1])
                & (says(section, 16, numbers[2]) & says(section, 20, numbers[3])))
    }

    // Has the record its own arena start, the header the stored one, and does the record's lie in the section?
    #[tactic(auto, unfolding(crate::specs::Held::starts_at, num::specs::Choice::both))]
    fn starts_at(&self, own: u64, stored: u64) -> bool
        ensures { result ≡ starts_at self.now.section.now self.now.numbers.now own stored }
    {
        (self.numbers[4] == own)
            & ((u64::read(self.section, 24) == stored)
                & (own < (self.section.len() - Encoding::TRAILER) as u64))
    }
}

// Those whose counts and widths have passed.
#[derive(Clone, Copy)]
struct Fitting<'a> {
    asked: Asked<'a>,
    ghost dimensions: { Dimensions (opened_of asked.numbers.now) },
}

impl<'a> Fitting<'a> {
    // The arena start that question 4 asks for.
    #[tactic(auto, using(crate::proofs::Exactly::arena_bounds), unfolding(crate::specs::Held::plain_arena))]
    fn plain_arena(&self) -> u64
        ensures { result ≡ plain_arena self.now.asked.numbers.now }
    {
        let numbers = self.asked.numbers;
        64 + 4 * numbers[3] + numbers[2] * (numbers[5] + 2)
    }

    // And that of the packed bytes.
    #[tactic(auto, using(crate::proofs::Exactly::arena_bounds), unfolding(crate::specs::Held::packed_arena))]
    fn packed_arena(&self) -> u64
        ensures { result ≡ packed_arena self.now.asked.numbers.now }
    {
        let numbers = self.asked.numbers;
        64 + 3 * numbers[3] + numbers[2] * numbers[5]
    }

    // Questions 5 and 6, and the scan place that the section gives.
    #[tactic(auto, unfolding(crate::specs::Held::held_defs))]
    fn scan_holds(&self) -> bool
        ensures { result ≡ scan_holds (scanned_of self.now.asked.section.now (opened_of self.now.asked.numbers.now))
            (get_or self.now.asked.numbers.now 11 0) }
    {
        let o = numbers::read_record(self.asked.numbers);
        match header::scanned(self.asked.section, o) {
            Ok(whole) => whole.scan as u64 == self.asked.numbers[11],
            Err(_) => false,
        }
    }

    // 24 of a record that is not packed, behind the tests above. Here its number 12 is known, so the test for a record
    // is short.
    #[tactic(auto, using(crate::proofs::Exactly::flags_are), unfolding(crate::specs::Held::held_defs))]
    fn plain_holds(&self) -> bool
        ensures { result ≡ both (is_record_numbers self.now.asked.numbers.now)
            (plain_holds self.now.asked.section.now self.now.asked.numbers.now) }
    {
        let section = self.asked.section;
        let numbers = self.asked.numbers;
        if !numbers::is_record_numbers(numbers) {
            return false;
        }
        let arena = self.plain_arena();
        if !self.asked.starts_at(arena, arena) {
            return false;
        }
        if numbers[11] == 0 {
            return says(section, 52, numbers[10]);
        }
        if !says(section, 52, numbers[10] + 2) {
            return false;
        }
        self.scan_holds()
    }

    // 24 of a packed record, behind the same tests.
    #[tactic(auto, unfolding(crate::specs::Held::held_defs))]
    fn packed_holds(&self) -> bool
        ensures { result ≡ both (is_record_numbers self.now.asked.numbers.now)
            (packed_holds self.now.asked.section.now self.now.asked.numbers.now) }
    {
        let section = self.asked.section;
        let numbers = self.asked.numbers;
        numbers::is_record_numbers(numbers)
            & (self
                .asked
                .starts_at(self.packed_arena(), self.plain_arena())
                & (((numbers[2] < 0x80_0000) & ((numbers[10] == 1) & (numbers[11] == 0)))
                    & (says(section, 52, 1) | says(section, 52, 3))))
    }
}

// Question 24: are these numbers a record, and one that the section gives?
pub fn holds(section: &[u8], numbers: &[u64; 16]) -> bool
    ensures { result ≡ both (is_record_numbers numbers.now) (is_record_of section.now (opened_of numbers.now)) }
{
    if !header::begins(section) {
        return false;
    }
    let asked = Asked { section, numbers };
    if !asked.widths_hold() {
        return false;
    }
    if !counts_fit(numbers) {
        return false;
    }
    if !asked.header_says() {
        return false;
    }
    let fitting = Fitting { asked };
    if numbers[12] == 0 {
        return fitting.plain_holds();
    }
    fitting.packed_holds()
}
