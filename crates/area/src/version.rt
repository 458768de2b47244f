// A version in the area.
ghost use Rattle.std.specs.Prelude.{◌≡◌, ◌+◌, ◌≤◌, length};
ghost use Rattle.num.specs.Number.{le_at};
ghost use Rattle.area.specs.Area.{area_version_len, area_kind, area_size, area_offset, area_checksum};

use num::LittleEndian;

// The version at a place: its bytes lie in the area.
#[derive(Clone, Copy)]
pub struct Version<'a> {
    pub area: &'a [u8],
    pub place: usize,
    pub ghost inside: { place + area_version_len ≤ length area.now },
}

impl<'a> Version<'a> {
    pub fn seq(&self) -> u64
        ensures { result ≡ le_at self.now.area.now self.now.place 8 }
    {
        u64::read(self.area, self.place)
    }

    // The byte of its kind. The area may be anyone's: it is a number until it is asked whether it is a kind.
    pub fn kind(&self) -> u8
        ensures { result ≡ area_kind self.now.area.now self.now.place }
    {
        self.area[self.place + 8]
    }

    // How many bytes its value has.
    pub fn size(&self) -> u32
        ensures { result ≡ area_size self.now.area.now self.now.place }
    {
        u32::read(self.area, self.place + 9)
    }

    // Where its value stands in the data.
    pub fn offset(&self) -> u64
        ensures { result ≡ area_offset self.now.area.now self.now.place }
    {
        u64::read(self.area, self.place + 13)
    }

    // The CRC-32 of its value.
    pub fn checksum(&self) -> u32
        ensures { result ≡ area_checksum self.now.area.now self.now.place }
    {
        u32::read(self.area, self.place + 21)
    }
}
