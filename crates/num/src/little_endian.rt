// A number as bytes, the lowest first, at a place of a slice (lib.rt says why no part is cut out).

ghost use Rattle.std.specs.Prelude.{◌≡◌, ℕ, ◌+◌, ◌≤◌, length};
ghost use Rattle.std.proofs.lemmas.List.Edits.{sets};
ghost use Rattle.num.specs.Number.{le_at, le_bytes};

// A type whose numbers stand in bytes.
pub trait LittleEndian: Copy {
    // how many bytes, beside the constant, and which number a value is
    ghost WIDTH: { ℕ };

    ghost value: { Self → ℕ };

    const WIDTH: usize;

    fn read(raw: &[u8], at: usize) -> Self
        requires { at + WIDTH ≤ length raw.now }
        ensures { value result ≡ le_at raw.now at WIDTH };

    fn write(self, out: &mut [u8], at: usize)
        requires { at + WIDTH ≤ length out.old }
        ensures { out.new ≡ sets out.old at (le_bytes WIDTH (value self)) };
}

// The impls are written out: a macro of the repository's own may not write one.
impl LittleEndian for u8 {
    ghost WIDTH = { 1 };

    ghost value = { λ n. n };

    const WIDTH: usize = 1;

    #[tactic(auto, unfolding(crate::specs::Number::le_at))]
    fn read(raw: &[u8], at: usize) -> u8 {
        raw[at]
    }

    #[tactic(auto, unfolding(crate::specs::Number::le_bytes))]
    fn write(self, out: &mut [u8], at: usize) {
        out[at] = self;
    }
}

impl LittleEndian for u16 {
    ghost WIDTH = { 2 };

    ghost value = { λ n. n };

    const WIDTH: usize = 2;

    #[tactic(auto, unfolding(crate::specs::Number::le_at))]
    fn read(raw: &[u8], at: usize) -> u16 {
        u16::from_le_bytes(raw[at..at + 2].try_into().unwrap())
    }

    #[tactic(auto, unfolding(crate::specs::Number::le_bytes))]
    fn write(self, out: &mut [u8], at: usize) {
        out[at..at + 2].copy_from_slice(&self.to_le_bytes());
    }
}

impl LittleEndian for u32 {
    ghost WIDTH = { 4 };

    ghost value = { λ n. n };

    const WIDTH: usize = 4;

    #[tactic(auto, unfolding(crate::specs::Number::le_at))]
    fn read(raw: &[u8], at: usize) -> u32 {
        u32::from_le_bytes(raw[at..at + 4].try_into().unwrap())
    }

    #[tactic(auto, unfolding(crate::specs::Number::le_bytes))]
    fn write(self, out: &mut [u8], at: usize) {
        out[at..at + 4].copy_from_slice(&self.to_le_bytes());
    }
}

impl LittleEndian for u64 {
    ghost WIDTH = { 8 };

    ghost value = { λ n. n };

    const WIDTH: usize = 8;

    #[tactic(auto, unfolding(crate::specs::Number::le_at))]
    fn read(raw: &[u8], at: usize) -> u64 {
        u64::from_le_bytes(raw[at..at + 8].try_into().unwrap())
    }

    #[tactic(auto, unfolding(crate::specs::Number::le_bytes))]
    fn write(self, out: &mut [u8], at: usize) {
        out[at..at + 8].copy_from_slice(&self.to_le_bytes());
    }
}
