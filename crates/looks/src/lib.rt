// A lookup over sixteen numbers as the opened record. It answers a question's number and writes six numbers, which the
// C interface asks for; `lookup::Section::locate` answers a `Result`.
#![tactic(auto)]

ghost use Rattle.std.specs.Prelude.{◌≡◌};
ghost use Rattle.refusal.specs.Refusal.{answer_number};
ghost use Rattle.looks.specs.Looked.{lookup_of, answer_written};

use lookup::Section;
use refusal::Refusal;

// Looks a key up under a limit in an opened section, plain or packed, and writes the answer, six zeros for none. The
// result is 0, or the number of the question that failed (24, 25), which leaves the answer as it was.
pub fn lookup(
    section: &[u8],
    numbers: &[u64; 16],
    key: &[u8],
    limit: u64,
    answer: &mut [u64; 6],
) -> u64
    ensures { (result ≡ answer_number (lookup_of section.now numbers.now key.now limit))
        × (answer.new ≡ answer_written (lookup_of section.now numbers.now key.now limit) answer.old) }
{
    // Each step of the hash needs the one before; the tests of 24 need none of them, and run beside it.
    let h = point::hash(key, numbers[0]);
    // By a name, so that a must-fail edit changes the value alone.
    let is_held = held::holds(section, numbers);
    if !is_held {
        return Refusal::RecordGiven.number();
    }
    let o = numbers::read_record(numbers);
    match Section::new(section, o).locate(key, limit, h) {
        Ok(Some(l)) => {
            numbers::write_answer(l, answer);
            0
        }
        Ok(None) => {
            numbers::write_missing(answer);
            0
        }
        Err(refusal) => refusal.number(),
    }
}
