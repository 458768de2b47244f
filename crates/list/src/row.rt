//! The numbers and the bytes of a row, read in their order.
ghost use Rattle.std.specs.Prelude.{◌≡◌, length, min};
ghost use Rattle.list.specs.Rows.{number_at, behind, behind_all, numbers_at, stand_at, bytes_at};

use num::LittleEndian;

/// What is left of a row of a list.
#[derive(Clone, Copy)]
pub struct Row<'a> {
    list: &'a [u8],
    place: u64,
}

impl<'a> Row<'a> {
    /// The numbers from a place of a list on.
    pub fn new(list: &'a [u8], place: u64) -> Row<'a>
        ensures { (result.list.now ≡ list.now) × (result.place ≡ place) }
    {
        Row { list, place }
    }

    #[tactic(auto, unfolding(crate::specs::Rows::row_defs))]
    pub fn number(&mut self) -> u64
        ensures value { result ≡ number_at self.old.list.now self.old.place }
        ensures moved { self.new.place ≡ behind self.old.place }
        ensures list_kept { self.new.list.now ≡ self.old.list.now }
    {
        let place = self.place as usize;
        self.place = self.place.wrapping_add(8);
        if self.list.len() < 8 || self.list.len() - 8 < place {
            return 0;
        }
        u64::read(self.list, place)
    }

    pub fn numbers<const N: usize>(&mut self) -> [u64; N]
        ensures values { result ≡ numbers_at self.old.list.now self.old.place N }
        ensures moved { self.new.place ≡ behind_all N self.old.place }
        ensures list_kept { self.new.list.now ≡ self.old.list.now }
    {
        let mut numbers = [0; N];
        self.read(&mut numbers);
        numbers
    }

    /// Reads as many numbers as there are places for.
    pub fn read(&mut self, to: &mut [u64])
        ensures values { to.new ≡ numbers_at self.old.list.now self.old.place (length to.old) }
        ensures moved { self.new.place ≡ behind_all (length to.old) self.old.place }
        ensures list_kept { self.new.list.now ≡ self.old.list.now }
    {
        for number in to {
            *number = self.number();
        }
    }

    /// Are these the next numbers?
    pub fn has(&mut self, numbers: &[u64]) -> bool
        ensures value { result ≡ stand_at self.old.list.now self.old.place numbers.now }
        ensures moved { self.new.place ≡ behind_all (length numbers.now) self.old.place }
        ensures list_kept { self.new.list.now ≡ self.old.list.now }
    {
        let mut same = true;
        for &number in numbers {
            same &= self.number() == number;
        }
        same
    }

    /// The bytes whose place and length are the next two numbers, cut off at the list's end.
    #[tactic(auto, unfolding(crate::specs::Rows::row_defs))]
    pub fn bytes(&mut self) -> &'a [u8]
        ensures value { result.now ≡ bytes_at self.old.list.now self.old.place }
        ensures moved { self.new.place ≡ behind_all 2 self.old.place }
        ensures list_kept { self.new.list.now ≡ self.old.list.now }
    {
        let place = self.number();
        let len = self.number();
        let rest = self.list.get(place as usize..).unwrap_or_default();
        rest.get(..len as usize).unwrap_or(rest)
    }

    /// How much is lent for the next bytes: their length as the row says it, or the most there is. The bytes themselves
    /// may be fewer, cut off at the list's end.
    pub fn bytes_room(mut self, most: usize) -> usize
        ensures { result ≡ min (number_at self.entry.list.now (behind self.entry.place)) most }
    {
        self.number();
        self.room(most)
    }

    /// The numbers whose place is the next number.
    pub fn named(&mut self) -> Row<'a>
        ensures place { result.place ≡ number_at self.old.list.now self.old.place }
        ensures same_list { result.list.now ≡ self.old.list.now }
        ensures moved { self.new.place ≡ behind self.old.place }
        ensures list_kept { self.new.list.now ≡ self.old.list.now }
    {
        Row::new(self.list, self.number())
    }

    /// How much is lent: the next number, or the most there is.
    pub fn room(&mut self, most: usize) -> usize
        ensures value { result ≡ min (number_at self.old.list.now self.old.place) most }
        ensures moved { self.new.place ≡ behind self.old.place }
        ensures list_kept { self.new.list.now ≡ self.old.list.now }
    {
        self.number().min(most as u64) as usize
    }
}
