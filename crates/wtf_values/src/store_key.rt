//! Keys in the store.

use crate::Key;
use std::alloc::Global;
use wtf_base::OutOfMemory;
use wtf_kv::StoreKey;

impl StoreKey for Key {
    ghost use Rattle.wtf_values.specs.Keys.{same_key};

    fn copy(&self, alloc: Global) -> Result<Key, OutOfMemory> {
        match self {
            Key::Path(path) => Ok(Key::Path(path.copy(alloc)?)),
            Key::Dir(path) => Ok(Key::Dir(path.copy(alloc)?)),
            Key::Inode(inode) => Ok(Key::Inode(*inode)),
            Key::Region(inode, region) => Ok(Key::Region(*inode, *region)),
            Key::Links(inode) => Ok(Key::Links(*inode)),
        }
    }

    ghost exact = { same_key };
}
