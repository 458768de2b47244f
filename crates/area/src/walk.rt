// The keys one after another.

ghost use Rattle.std.specs.Iterator.{YieldsFirstBy, item_count};
ghost use Rattle.area.specs.Walk.{key_of, keys_of};

use crate::{Key, Keys};

impl<'a> Iterator for Keys<'a> {
    type Item = Key<'a>;

    ghost next_gives = { YieldsFirstBy key_of keys_of };

    ghost remaining = { item_count keys_of };

    fn next(&mut self) -> Option<Key<'a>> {
        if self.count == 0 {
            return None;
        }
        let key = self.first();
        *self = self.rest();
        Some(key)
    }
}
