// What the questions of the blocks are about: what the definitions' record of the same name is lent (`inputs_lent`).
ghost use Rattle.arena.specs.Internal.{Readable};

use header::Opened;

// A section whose header passed questions 3 to 6 and whose pilots passed question 10, the record that the header gives,
// the place where the arena ends, the backing data, and half the key scratch.
#[derive(Clone, Copy)]
pub struct Inputs<'a> {
    pub section: &'a [u8],
    pub opened: Opened,
    pub end: usize,
    pub data: &'a [u8],
    pub half: usize,
    pub ghost readable: { Readable section.now opened },
}
