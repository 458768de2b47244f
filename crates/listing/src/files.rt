// Three files, read into buffers, and what is printed of them.
ghost use Rattle.std.specs.Prelude.{◌≤◌, length, IfSome, Some};
ghost use Rattle.listing.specs.Internal.{Sound};

use crate::text;
use crate::text::{Left, Loaded};
use crate::walk::{Keys, Line, Store};
use std::rt::Files;
use std::{fs, io, str};

// The bytes of a file, read into a buffer. None of one that is missing or longer, cannot be read to its end, or whose
// name is not text.
fn load<'a>(rt: &impl Files, name: &[u8], buffer: &'a mut [u8]) -> Option<&'a [u8]>
    ensures { IfSome result (λ bytes. length bytes.now ≤ length buffer.old) }
{
    let mut file = fs::open(rt, str::from_utf8(name).ok()?).ok()?;
    let mut rest = &mut *buffer;
    let len = io::copy(&mut file, &mut rest).ok()?;
    buffer.get(..len as usize)
}

// Prints what is left, line by line. It asks for each line: an iterator could not lend the buffer in which it writes.
fn print(
    rt: &impl Print,
    store: &Store<'_>,
    keys: &mut Keys,
    out: &mut Line,
    from: Left,
) -> io::Result<()>
    requires { Sound store.now.backing.now store.now.blocks.now (Some from) }
{
    let mut left = Some(from);
    while let Some(now) = left {
        let (len, next) = text::next_line(store, keys, out, now);
        rt.write_all(&out[..len])?;
        left = next;
    }
    Ok(())
}

fn print_files(rt: &impl Print, files: &Loaded<'_>) -> io::Result<()> {
    let mut blocks = [0u64; 2048];
    let mut keys = [0u8; 32768];
    let mut out = [0u8; 65536];
    let left = text::start(files, &mut blocks, &mut keys);
    let store = Store {
        section_len: files.section.len() as u64,
        backing: files.backing,
        blocks: &blocks[..files.list.len() / 8],
    };
    print(rt, &store, &mut keys, &mut out, left)
}

// Prints what there is to print of a store whose section, data and block list are the files of these names.
pub fn run(
    rt: &(impl Files + Print),
    section_name: &[u8],
    data_name: &[u8],
    list_name: &[u8],
) -> io::Result<()> {
    let mut section = [0u8; 16384];
    let mut data = [0u8; 16384];
    let mut list = [0u8; 16384];
    let section = load(rt, section_name, &mut section);
    let data = load(rt, data_name, &mut data);
    let list = load(rt, list_name, &mut list);
    let files = Loaded {
        whole: section.is_some() && data.is_some() && list.is_some(),
        section: section.unwrap_or_default(),
        backing: data.unwrap_or_default(),
        list: list.unwrap_or_default(),
    };
    print_files(rt, &files)
}
