//! The places and the lists that calls remember.

ghost use Rattle.std.specs.Prelude.{◌≡◌, ◌↔◌, [], IfOk, OnOk, OnErr, IsTrue, option_map, slice_get};
ghost use Rattle.std.specs.Borrow.{sem};
ghost use Rattle.std.specs.Map.Iter.{deref_pair};
ghost use Rattle.wtf_region.specs.Cached.{AreFrom, BeginsAt, IsPlaceOf, cached, list_fact, looked_up, recalled_one};
ghost use Rattle.wtf_region.specs.Lending.{LendsPlace};

use lru::LruCache;
use std::alloc::Global;
use std::marker::Model;
use std::num::NonZeroUsize;
use wtf_base::{InodeId, OutOfMemory, Slice};
use wtf_overlay::Overlay;
use wtf_ring::{Place, Ring};

// How many lists are remembered, and how many places.
const LISTS: usize = 64;

const PLACES: usize = 4_096;

/// A region of a file.
#[derive(Clone, Copy, Debug, PartialEq, Eq, Hash)]
pub struct RegionKey {
    /// The file.
    pub inode: InodeId,
    /// The region's number.
    pub region: u16,
}

/// What calls remember: where the regions go that were looked up last, so that a place is computed once and not with
/// each call; and the lists that were read last of slices, so that they are not read again. Contracts see the regions
/// with their places and the slices with their lists, the one that was asked for last first.
#[derive(Drop)]
pub struct RegionCache {
    // The region that was looked up last, where there was no memory for it among the others.
    spare: Option<(RegionKey, Place)>,
    // The others, from the one that was looked up last to the one longest ago.
    places: LruCache<RegionKey, Place>,
    // The lists of bases, whole, by the slices in which they lie.
    lists: LruCache<Slice, Overlay>,
}

impl Model for RegionCache {
    ghost use Rattle.std.specs.Prelude.{◌++◌, option_to_list};
    ghost use Rattle.wtf_region.specs.Cached.{CacheView};

    ghost Value = { CacheView };

    ghost use Rattle.std.specs.Coded.{codes};
    ghost use Rattle.wtf_base.specs.contracts.slice.Slice as slice;
    ghost use Rattle.wtf_overlay.specs.contracts.part.Entry as entry;

    ghost coded = { Prim.hlevel (codes, slice.the_row.coded, entry.the_row.coded) };

    ghost view = { λ c. record {
      places = option_to_list c.spare ++ c.places.entries;
      lists = c.lists.entries;
    } };

    ghost use Rattle.std.specs.Prelude.{◌≡◌, ◌≤◌, length};

    ghost invariant = { λ c. (c.lists.cap ≡ 64) × (length c.lists.entries ≤ 64) };
}

impl RegionCache {
    /// A cache of nothing.
    pub fn new(alloc: Global) -> Result<RegionCache, OutOfMemory>
        ensures places { IfOk result (λ c. c.places ≡ []) }
        ensures lists { IfOk result (λ c. c.lists ≡ []) }
    {
        let (Some(lists), Some(places)) = (NonZeroUsize::new(LISTS), NonZeroUsize::new(PLACES))
        else {
            return Err(OutOfMemory);
        };
        let places = match LruCache::sparse(alloc, places) {
            Ok(places) => places,
            Err(_) => return Err(OutOfMemory),
        };
        match LruCache::new(alloc, lists) {
            Ok(lists) => Ok(RegionCache {
                spare: None,
                places,
                lists,
            }),
            Err(_) => Err(OutOfMemory),
        }
    }

    /// The region that was looked up last, with its place. No key is hashed.
    fn first(&self) -> Option<(&RegionKey, &Place)>
        ensures { option_map deref_pair result ≡ slice_get self.now.places 0 }
    {
        match &self.spare {
            Some((key, place)) => Some((key, place)),
            None => self.places.peek_mru(),
        }
    }

    /// Whether a region was looked up last.
    fn is_first(&self, key: RegionKey) -> bool
        ensures { IsTrue result ↔ BeginsAt key self.now.places }
    {
        match self.first() {
            Some((first, _)) => *first == key,
            None => false,
        }
    }

    /// Remembers where a region goes, in place of what was looked up longest ago. Where there is no
    /// memory for it, it is remembered up to the next look-up of another region.
    fn learn(&mut self, ring: &Ring, key: RegionKey)
        requires { AreFrom ring.now self.old.places }
        ensures from { AreFrom ring.now self.new.places }
        ensures first { BeginsAt key self.new.places }
        ensures lists { self.new.lists ≡ self.old.lists }
    {
        let place = ring.order(key.inode, key.region);
        self.spare = match self.places.put(key, place) {
            Ok(_) => None,
            Err(failed) => Some(failed.value),
        };
    }

    /// Makes a region the one that was looked up last.
    fn turn_to(&mut self, ring: &Ring, key: RegionKey)
        requires { AreFrom ring.now self.old.places }
        ensures from { AreFrom ring.now self.new.places }
        ensures first { BeginsAt key self.new.places }
        ensures lists { self.new.lists ≡ self.old.lists }
    {
        if self.is_first(key) {
            return;
        }
        self.spare = None;
        if !self.places.promote(&key) {
            self.learn(ring, key);
        }
    }

    /// The place of a region. It is computed where it is not remembered, and no key is hashed where
    /// the look-up before was of the same region.
    pub(crate) fn place(&mut self, ring: &Ring, key: RegionKey) -> &Place
        requires { AreFrom ring.now self.old.places }
        ensures* from { sem 𝓛 (LendsPlace ring.now self.entry) }
        ensures value { IsPlaceOf ring.now key result.now }
    {
        self.turn_to(ring, key);
        let (_, place) = self.first().unwrap();
        place
    }

    /// The list that is remembered of a slice, if one is. It is the last one to be forgotten then. After an error
    /// all is as before.
    pub(crate) fn look_up(&mut self, slice: &Slice) -> Result<Option<Overlay>, OutOfMemory>
        ensures value { IfOk result (λ o. o ≡ cached self.old.lists slice.now) }
        ensures ok { IfOk result (λ o. self.new.lists ≡ looked_up slice.now o self.old.lists) }
        ensures err { OnErr result (self.new.lists ≡ self.old.lists) }
        ensures places { self.new.places ≡ self.old.places }
    {
        let Some(list) = self.lists.peek(slice) else {
            return Ok(None);
        };
        let own = list.share()?;
        self.lists.promote(slice);
        Ok(Some(own))
    }

    /// Remembers the list of a slice, in place of the one that was asked for longest ago. After an error
    /// all is as before.
    pub(crate) fn keep(&mut self, slice: Slice, list: &Overlay) -> Result<(), OutOfMemory>
        ensures ok { OnOk result
            (self.new.lists ≡ recalled_one (list_fact slice list.now) self.old.lists) }
        ensures err { OnErr result (self.new.lists ≡ self.old.lists) }
        ensures places { self.new.places ≡ self.old.places }
    {
        let own = list.share()?;
        match self.lists.put(slice, own) {
            Ok(_) => Ok(()),
            Err(_) => Err(OutOfMemory),
        }
    }
}
