// Question 24: whether the bytes of a section, plain or packed, give an opened record. Crate `held` asks the same in
// fewer instructions. Section and record are no view here: that they belong together is what is asked.
#![tactic(auto)]

ghost use Rattle.std.specs.Prelude.{◌≡◌};
ghost use Rattle.header.specs.Header.{header_of};
ghost use Rattle.opened.specs.Opened.{packed_of, plain_for, is_record_of};

use encoding::Encoding;
use header::Opened;
use num::LittleEndian;

// Question 24 of a packed record.
#[tactic(auto, using(header::proofs::Questions::begins_long, header::proofs::Questions::dimensions_hold, crate::proofs::Same::eq_same), unfolding(crate::specs::Opened::flag_defs))]
fn is_packed(section: &[u8], o: Opened) -> bool
    ensures { result ≡ packed_of section.now o }
{
    if !header::begins(section) {
        return false;
    }
    let found = header::fields(section);
    if !header::dimensions(found, u32::read(section, 52)) {
        return false;
    }
    if !header::fits_packed(found) {
        return false;
    }
    let packed = header::packed_record(found);
    // Its own start, and not the header's: by a name, so that a must-fail edit changes the value alone.
    let arena = packed.arena;
    arena < section.len() - Encoding::TRAILER && packed == o
}

// Question 24 of a plain record.
#[tactic(auto, using(crate::proofs::Same::is_ok))]
fn is_plain(section: &[u8], o: Opened) -> bool
    ensures { result ≡ plain_for (header_of section.now) o }
{
    header::header(section) == Ok(o)
}

// Question 24.
#[tactic(auto, unfolding(crate::specs::Opened::is_record_of, num::specs::Choice::choice_defs))]
pub fn is_record(section: &[u8], o: Opened) -> bool
    ensures { result ≡ is_record_of section.now o }
{
    if o.packed {
        is_packed(section, o)
    } else {
        is_plain(section, o)
    }
}
