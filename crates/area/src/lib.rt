// The builder's area: its layout, and the key at a head.
#![tactic(auto, unfolding(crate::specs::Area::area_defs))]

ghost use Rattle.std.specs.Prelude.{◌≡◌, ◌-◌, ◌<◌, ◌≤◌, length};
ghost use Rattle.area.specs.Area.{area_key_len, area_versions, area_key, first_version_at, next_head, keys_end};

mod version;
mod walk;

use num::LittleEndian;
pub use version::Version;

// The bytes of a head: the key's length and its number of versions.
pub const HEAD: usize = 8;

// The bytes of a version.
pub const VERSION: usize = 25;

// The key whose head stands at a place: head and key lie in the area.
#[derive(Clone, Copy)]
pub struct Key<'a> {
    pub area: &'a [u8],
    pub head: usize,
    pub ghost inside: { first_version_at area.now head ≤ length area.now },
}

impl<'a> Key<'a> {
    // How many bytes the key has.
    pub fn len(&self) -> usize
        ensures { result ≡ area_key_len self.now.area.now self.now.head }
    {
        u32::read(self.area, self.head) as usize
    }

    pub fn bytes(&self) -> &'a [u8]
        ensures { result.now ≡ area_key self.now.area.now self.now.head }
    {
        let from = self.head + HEAD;
        let end = from + self.len();
        &self.area[from..end]
    }

    // How many versions it has.
    pub fn versions(&self) -> usize
        ensures { result ≡ area_versions self.now.area.now self.now.head }
    {
        u32::read(self.area, self.head + 4) as usize
    }

    // The place of its first version.
    pub fn first(&self) -> usize
        ensures { result ≡ first_version_at self.now.area.now self.now.head }
    {
        self.head + HEAD + self.len()
    }

    // The place behind its last one.
    pub fn end(&self) -> usize
        requires { next_head self.now.area.now self.now.head ≤ length self.now.area.now }
        ensures { result ≡ next_head self.now.area.now self.now.head }
    {
        self.first() + VERSION * self.versions()
    }
}

// So many keys, the first of whose heads stands at a place: they lie in the area with their versions.
#[derive(Clone, Copy)]
pub struct Keys<'a> {
    pub area: &'a [u8],
    pub head: usize,
    pub count: usize,
    pub ghost stand: { keys_end count area.now head ≤ length area.now },
}

impl<'a> Keys<'a> {
    #[tactic(auto, using(crate::proofs::Heads::first_inside))]
    pub fn first(&self) -> Key<'a>
        requires { 0 < self.now.count }
        ensures { (result.area.now ≡ self.now.area.now) × (result.head ≡ self.now.head) }
    {
        Key {
            area: self.area,
            head: self.head,
        }
    }

    // The keys behind the first one.
    #[tactic(auto, using(crate::proofs::Heads::keys_first, crate::proofs::Heads::keys_others))]
    pub fn rest(&self) -> Keys<'a>
        requires { 0 < self.now.count }
        ensures area { result.area.now ≡ self.now.area.now }
        ensures head { result.head ≡ next_head self.now.area.now self.now.head }
        ensures count { result.count ≡ self.now.count - 1 }
    {
        Keys {
            area: self.area,
            head: self.first().end(),
            count: self.count - 1,
        }
    }
}
