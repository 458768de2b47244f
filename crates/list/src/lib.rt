//! Lists of rows of numbers, as tools/replay/README.md has them, and the counts of the rows that agree. Outside a list
//! all is 0 or empty, so that nothing is asked of a caller.
#![tactic(auto)]

ghost use Rattle.std.specs.Prelude.{◌≡◌, ◌+◌, ◌-◌, ◌≤◌, ◌%◌, ◌^◌, length, min, take, cond};
ghost use Rattle.std.proofs.lemmas.List.Edits.{sets};

mod kind;
mod row;

pub use kind::{Kind, UnknownKind};
pub use row::Row;
use std::io::Read;
use std::rt::Files;
use std::{fs, io};

/// The longest list.
const LONGEST: usize = 65536;

/// How many rows agree and how many differ.
#[derive(Clone, Copy)]
pub struct Tally {
    pub agree: u64,
    pub differ: u64,
}

impl Tally {
    fn add(&mut self, agrees: bool)
        ensures agree { self.new.agree ≡ cond agrees ((self.old.agree + 1) % 2 ^ 64) self.old.agree }
        ensures differ { self.new.differ ≡ cond agrees self.old.differ ((self.old.differ + 1) % 2 ^ 64) }
    {
        if agrees {
            self.agree = self.agree.wrapping_add(1);
        } else {
            self.differ = self.differ.wrapping_add(1);
        }
    }
}

/// Goes over as many rows as the list says, which cannot be more than its bytes. A row of an unknown kind differs. Each
/// row says where the next one stands, so that a `for` over a count is what there is.
fn replay<F: FnMut(Kind, Row<'_>) -> bool>(list: &[u8], mut agrees: F) -> Tally
    requires { F.IsAlwaysCallable agrees }
{
    let mut tally = Tally {
        agree: 0,
        differ: 0,
    };
    let [count, mut place] = Row::new(list, 0).numbers::<2>();
    for _ in 0..count.min(list.len() as u64) {
        let mut row = Row::new(list, place);
        let [kind, next] = row.numbers::<2>();
        tally.add(match Kind::try_from(kind) {
            Ok(kind) => agrees(kind, row),
            Err(UnknownKind) => false,
        });
        place = next;
    }
    tally
}

/// The list in a file, cut off at the buffer's end.
fn load<'a>(rt: &impl Files, name: &str, buffer: &'a mut [u8]) -> io::Result<&'a [u8]> {
    let mut file = fs::open(rt, name)?.take(buffer.len() as u64);
    let mut rest = &mut *buffer;
    let len = io::copy(&mut file, &mut rest)?;
    Ok(&buffer[..buffer.len().min(len as usize)])
}

/// Asks the rows of the list in a file, and writes a line with the counts. What a file holds, and what is written to
/// the standard output, no contract can say.
pub fn report<F: FnMut(Kind, Row<'_>) -> bool>(
    rt: &(impl Files + Print + Eprint),
    name: &str,
    agrees: F,
) -> io::Result<()>
    requires { F.IsAlwaysCallable agrees }
{
    let mut bytes = [0; LONGEST];
    match load(rt, name, &mut bytes) {
        Ok(list) => {
            let tally = replay(list, agrees);
            println!(rt; "{name} agree {} differ {}", tally.agree, tally.differ)
        }
        Err(error) => eprintln!(rt; "{name}: {error}"),
    }
}

/// Copies bytes to a place, as many as there is room for.
pub fn put(from: &[u8], to: &mut [u8], at: u64)
    ensures { to.new ≡ sets to.old (min (length to.old) at) (take (length to.old - at) from.now) }
{
    let start = to.len().min(at as usize);
    let len = from.len().min(to.len() - start);
    num::put_part(to, start, &from[..len]);
}
