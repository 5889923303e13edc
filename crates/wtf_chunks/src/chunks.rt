//! The list in chunks.

ghost use Rattle.std.specs.Prelude.{◌≡◌, ◌<◌, ◌≤◌, ◌++◌, [], ◌∷◌, length, slice_get, take, vec_len, Some, IfOk, OnOk, OnErr, IsTrue, ◌↔◌};
ghost use Rattle.std.specs.List.{flat_map};
ghost use Rattle.std.specs.Rc.{rc_slice_items};
ghost use Rattle.std.specs.Vec.{vec_capacity};

use std::alloc::{AllocError, Global};
use std::marker::Model;
use std::rc::RcSlice;

/// The number of items at which the open chunk is sealed.
pub const CHUNK: usize = 16;

/// A sealed chunk, which holders share.
type Sealed<T> = RcSlice<T, Global>;

/// A list whose holders share what is sealed. A version of a file's metadata that is pushed to keeps all
/// but the last few entries of the version before it (NSDI 2016, section 2.1: entries are appended).
/// The sealed chunks get longer towards the front, so that a list of n items has about log n of them,
/// and each item is copied about log n times. It keeps its allocator.
#[derive(Debug, Drop)]
pub struct Chunks<T: Copy + Drop> {
    alloc: Global,
    sealed: Vec<Sealed<T>>,
    last: Vec<T>,
    count: usize,
}

impl<T: Copy + Drop> Model for Chunks<T> {
    ghost use Rattle.std.specs.Prelude.{List, ◌≡◌, ◌++◌, length};
    ghost use Rattle.std.specs.List.{flat_map};
    ghost use Rattle.std.specs.Rc.{rc_slice_items};

    ghost Value = { List T };

    ghost view = { λ a. flat_map rc_slice_items a.sealed.items ++ a.last.items };

    ghost invariant = { λ a. a.count ≡
        length (flat_map rc_slice_items a.sealed.items ++ a.last.items) };
}

impl<T: Copy + Drop> Chunks<T> {
    /// A list with no item. It takes no memory yet.
    pub fn new(alloc: Global) -> Result<Chunks<T>, AllocError>
        ensures { IfOk result (λ c. c ≡ []) }
    {
        Ok(Chunks {
            alloc,
            sealed: Vec::new(alloc),
            last: Vec::new(alloc),
            count: 0,
        })
    }

    /// The number of items.
    pub fn len(&self) -> usize
        ensures { result ≡ length self.now }
    {
        self.count
    }

    /// Whether there is no item.
    pub fn is_empty(&self) -> bool
        ensures { IsTrue result ↔ (self.now ≡ []) }
    {
        self.count == 0
    }

    /// The item at `i`, counted from 0. It costs a step for each sealed chunk before it.
    pub fn get(&self, i: usize) -> T
        requires { i < length self.now }
        ensures { slice_get self.now i ≡ Some result }
    {
        let mut at = i;
        for chunk in &self.sealed {
            let items = chunk.as_slice();
            if at < items.len() {
                return items[at];
            }
            at -= items.len();
        }
        self.last[at]
    }

    /// Puts `item` at the end. After an error the list is as before. Other holders see nothing of it.
    pub fn push(&mut self, item: T) -> Result<(), AllocError>
        ensures ok { OnOk result (self.new ≡ self.old ++ item ∷ []) }
        ensures err { OnErr result (self.new ≡ self.old) }
    {
        let count = self.count.checked_add(1).ok_or(AllocError)?;
        if self.last.len() >= CHUNK {
            seal(self.alloc, &mut self.sealed, &mut self.last, &[])?;
        }
        if self.last.is_empty() {
            // Many lists keep one item.
            self.last.reserve_exact(1)?;
        }
        self.last.push(item)?;
        self.count = count;
        Ok(())
    }

    /// Puts `more` at the end, in order. After an error the list is as before. Where the open chunk has no
    /// room for it, all of it is sealed at once, so that its items are copied fewer times than by pushes.
    pub fn extend(&mut self, more: &[T]) -> Result<(), AllocError>
        ensures ok { OnOk result (self.new ≡ self.old ++ more.now) }
        ensures err { OnErr result (self.new ≡ self.old) }
    {
        let count = self.count.checked_add(more.len()).ok_or(AllocError)?;
        put_all(self.alloc, &mut self.sealed, &mut self.last, more)?;
        self.count = count;
        Ok(())
    }

    /// The same list for a second holder. It costs a step for each sealed chunk, of which there are
    /// about log n, and copies the items of the open one alone.
    pub fn share(&self) -> Result<Chunks<T>, AllocError>
        ensures { IfOk result (λ c. c ≡ self.now) }
    {
        let sealed = self.sealed.clone()?;
        let last = Vec::from_slice(self.alloc, self.last.as_slice())?;
        Ok(Chunks {
            alloc: self.alloc,
            sealed,
            last,
            count: self.count,
        })
    }

    /// Whether two lists are sure to be the same, where `==` of items tells that. It costs a look at
    /// each item. `false` says nothing.
    pub fn is_same(&self, other: &Chunks<T>) -> bool
    where
        T: PartialEq,
        requires exact { (x y : T) → IsTrue (T.eq x y) → x ≡ y }
        ensures { IsTrue result → self.now ≡ other.now }
    {
        self.sealed == other.sealed && self.last == other.last
    }
}

/// Puts `more` into the open chunk where that has room, and else into a sealed one with it. After an error
/// all is as before.
fn put_all<T: Copy + Drop>(
    alloc: Global,
    sealed: &mut Vec<Sealed<T>>,
    last: &mut Vec<T>,
    more: &[T],
) -> Result<(), AllocError>
    ensures ok { OnOk result (flat_map rc_slice_items sealed.new.items ++ last.new.items ≡
        (flat_map rc_slice_items sealed.old.items ++ last.old.items) ++ more.now) }
    ensures err { OnErr result (flat_map rc_slice_items sealed.new.items ++ last.new.items ≡
        flat_map rc_slice_items sealed.old.items ++ last.old.items) }
{
    if more.len() > CHUNK.saturating_sub(last.len()) {
        return seal(alloc, sealed, last, more);
    }
    last.extend_from_slice(more)?;
    Ok(())
}

/// Seals the open chunk, and `more` behind it, together with the last sealed ones. After an error all is as
/// before.
fn seal<T: Copy + Drop>(
    alloc: Global,
    sealed: &mut Vec<Sealed<T>>,
    last: &mut Vec<T>,
    more: &[T],
) -> Result<(), AllocError>
    ensures ok { OnOk result (flat_map rc_slice_items sealed.new.items ++ last.new.items ≡
        (flat_map rc_slice_items sealed.old.items ++ last.old.items) ++ more.now) }
    ensures err { OnErr result (flat_map rc_slice_items sealed.new.items ++ last.new.items ≡
        flat_map rc_slice_items sealed.old.items ++ last.old.items) }
{
    let from = joined_from(sealed.as_slice(), last.len().saturating_add(more.len()));
    let (_kept, joined) = sealed.as_slice().split_at(from);
    let mut items = together(alloc, joined, last.as_slice())?;
    items.extend_from_slice(more)?;
    let chunk = RcSlice::from_vec(items)?;
    sealed.reserve(1)?;
    replace_top(sealed, from, chunk);
    last.clear();
    Ok(())
}

/// Where the chunks begin that are joined with a further one of `len` items. Four or more that are about
/// as long become one, so that an item is copied once for each time that its chunk gets four times as long.
fn joined_from<T>(sealed: &[Sealed<T>], len: usize) -> usize
    ensures { result ≤ length sealed.now }
{
    let mut from = sealed.len();
    let mut sum = len;
    loop {
        let at = alike_from(sealed, from, sum);
        if from - at < 3 {
            return from;
        }
        sum = sum.saturating_add(items_in(&sealed[at..from]));
        from = at;
    }
}

/// Where the last of the chunks before `to` begin that are shorter than twice `len` items.
fn alike_from<T>(sealed: &[Sealed<T>], to: usize, len: usize) -> usize
    requires { to ≤ length sealed.now }
    ensures { result ≤ to }
{
    let most = len.saturating_mul(2);
    let mut at = to;
    while at > 0 && sealed[at - 1].len() < most {
        at -= 1;
    }
    at
}

/// How many items the chunks hold.
fn items_in<T>(chunks: &[Sealed<T>]) -> usize {
    let mut sum = 0usize;
    for chunk in chunks {
        sum = sum.saturating_add(chunk.len());
    }
    sum
}

/// The items of some chunks, and then further ones.
fn together<T: Copy + Drop>(
    alloc: Global,
    chunks: &[Sealed<T>],
    more: &[T],
) -> Result<Vec<T>, AllocError>
    ensures { IfOk result (λ v. v.items ≡ flat_map rc_slice_items chunks.now ++ more.now) }
{
    let mut items = Vec::new(alloc);
    for chunk in chunks {
        items.extend_from_slice(chunk.as_slice())?;
    }
    items.extend_from_slice(more)?;
    Ok(items)
}

/// Puts a chunk in place of those from `from` on.
fn replace_top<T: Drop>(sealed: &mut Vec<Sealed<T>>, from: usize, chunk: Sealed<T>)
    requires within { from ≤ length sealed.old.items }
    requires room { vec_len sealed.old < vec_capacity sealed.old }
    ensures { sealed.new.items ≡ take from sealed.old.items ++ chunk ∷ [] }
{
    sealed.truncate(from);
    let _room = sealed.push(chunk);
}
