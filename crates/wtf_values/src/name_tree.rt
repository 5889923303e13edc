//! Names one after another, in a tree whose parts versions share.
//!
//! Of two parts of a node neither has more than three times as many names as the other, and two
//! more. So a path has about 2.4 log n nodes at most, where n is the number of names, and less than
//! 1.2 log n where names come at random. A change makes the nodes of one path anew, and a few
//! beside it, and shares the rest with the tree that it started from. No contract rests on this.

ghost use Rattle.std.specs.Prelude.{◌≡◌, ◌<◌, ◌≤◌, ◌++◌, ◌∷◌, length, slice_get, Some, IfOk, IfErr, IsTrue};
ghost use Rattle.std.specs.List.{insert, remove};
ghost use Rattle.wtf_values.specs.Names.{Rise, IsAt, IsGap};
ghost use Rattle.wtf_values.specs.Trees.{listed};

use crate::Name;
use std::alloc::Global;
use std::cmp::Ordering;
use std::marker::Model;
use std::rc::Rc;
use wtf_base::OutOfMemory;

/// Names one after another.
pub(crate) type Tree = Option<Rc<Node>>;

/// A name, with the names before and after it.
#[derive(Debug, Drop)]
pub(crate) struct Node {
    before: Tree,
    name: Name,
    after: Tree,
    count: usize,
}

impl Model for Node {
    ghost use Rattle.std.specs.Prelude.{◌≡◌, List, ℕ, length, ◌++◌, ◌∷◌};

    ghost Value = { List (List ℕ) };

    ghost use Rattle.wtf_values.specs.Trees.{listed};

    ghost view = { λ n. listed n.before ++ n.name ∷ listed n.after };

    ghost invariant = { λ n. n.count ≡ length (listed n.before ++ n.name ∷ listed n.after) };

    ghost size = { length };

    ghost use Rattle.std.proofs.Common.{arith, length-append};

    ghost size_decreases = { λ n h. Prim.grind (arith, length-append) };
}

impl Node {
    /// How many names it has.
    fn count(&self) -> usize
        ensures { result ≡ length self.now }
    {
        self.count
    }
}

/// How many names a tree has.
pub(crate) fn count(tree: &Tree) -> usize
    ensures { result ≡ length (listed tree.now) }
{
    match tree {
        None => 0,
        Some(node) => node.count(),
    }
}

/// The same names for another holder.
pub(crate) fn share(tree: &Tree) -> Result<Tree, OutOfMemory>
    ensures { IfOk result (λ same. listed same ≡ listed tree.now) }
{
    match tree {
        None => Ok(None),
        Some(node) => Ok(Some(node.clone()?)),
    }
}

/// The name at `i`, counted from 0.
pub(crate) fn name_at(tree: &Tree, i: usize) -> &[u8]
    requires { i < length (listed tree.now) }
    ensures { slice_get (listed tree.now) i ≡ Some result.now }
{
    let Some(node) = tree else { unreachable!() };
    let node: &Node = node.as_ref();
    let before = count(&node.before);
    if i < before {
        name_at(&node.before, i)
    } else if i == before {
        node.name.as_bytes()
    } else {
        name_at(&node.after, i - before - 1)
    }
}

/// Where a name stands among names that rise, or where it would go.
pub(crate) fn place(tree: &Tree, name: &[u8]) -> Result<usize, usize>
    requires { Rise (listed tree.now) }
    ensures found { IfOk result (IsAt (listed tree.now) name.now) }
    ensures absent { IfErr result (IsGap (listed tree.now) name.now) }
{
    let Some(node) = tree else { return Err(0) };
    let node: &Node = node.as_ref();
    match node.name.compare(name) {
        Ordering::Greater => place(&node.before, name),
        Ordering::Equal => Ok(count(&node.before)),
        Ordering::Less => {
            let upto = node.count - count(&node.after);
            match place(&node.after, name) {
                Ok(at) => Ok(upto + at),
                Err(at) => Err(upto + at),
            }
        }
    }
}

/// Names with one more, which stands at `at` then.
pub(crate) fn with(alloc: Global, tree: &Tree, at: usize, name: Name) -> Result<Tree, OutOfMemory>
    requires { at ≤ length (listed tree.now) }
    ensures { IfOk result (λ new. listed new ≡ insert (listed tree.now) at name) }
{
    let Some(node) = tree else {
        return join(alloc, None, name, None);
    };
    let node: &Node = node.as_ref();
    let before = count(&node.before);
    if at <= before {
        let more = with(alloc, &node.before, at, name)?;
        balance(alloc, more, node.name.share()?, share(&node.after)?)
    } else {
        let more = with(alloc, &node.after, at - before - 1, name)?;
        balance(alloc, share(&node.before)?, node.name.share()?, more)
    }
}

/// Names without the one at `at`.
pub(crate) fn without(alloc: Global, tree: &Tree, at: usize) -> Result<Tree, OutOfMemory>
    requires { at < length (listed tree.now) }
    ensures { IfOk result (λ new. listed new ≡ remove (listed tree.now) at) }
{
    let Some(node) = tree else { unreachable!() };
    let node: &Node = node.as_ref();
    let before = count(&node.before);
    if at < before {
        let less = without(alloc, &node.before, at)?;
        balance(alloc, less, node.name.share()?, share(&node.after)?)
    } else if at == before {
        append(alloc, &node.before, &node.after)
    } else {
        let less = without(alloc, &node.after, at - before - 1)?;
        balance(alloc, share(&node.before)?, node.name.share()?, less)
    }
}

/// The names of two parts of a node.
fn append(alloc: Global, before: &Tree, after: &Tree) -> Result<Tree, OutOfMemory>
    ensures { IfOk result (λ new. listed new ≡ listed before.now ++ listed after.now) }
{
    let Some(node) = after else {
        return share(before);
    };
    let (first, rest) = part(alloc, node.as_ref())?;
    balance(alloc, share(before)?, first, rest)
}

/// The first name, and the others.
fn part(alloc: Global, node: &Node) -> Result<(Name, Tree), OutOfMemory>
    ensures { IfOk result (λ new. node.now ≡ new.0 ∷ listed new.1) }
{
    let Some(before) = &node.before else {
        return Ok((node.name.share()?, share(&node.after)?));
    };
    let (first, rest) = part(alloc, before.as_ref())?;
    let rest = balance(alloc, rest, node.name.share()?, share(&node.after)?)?;
    Ok((first, rest))
}

/// A name, with names before and after it, which may be out of balance by a name.
fn balance(alloc: Global, before: Tree, name: Name, after: Tree) -> Result<Tree, OutOfMemory>
    ensures { IfOk result (λ new. listed new ≡ listed before ++ name ∷ listed after) }
{
    if is_heavy(count(&before), count(&after)) {
        return lean_after(alloc, &before, name, after);
    }
    if is_heavy(count(&after), count(&before)) {
        return lean_before(alloc, before, name, &after);
    }
    join(alloc, before, name, after)
}

/// Whether a part with `count` names has too many beside one with `other`.
fn is_heavy(count: usize, other: usize) -> bool {
    count / 3 > other
}

/// Whether the inner part of a heavy part may stay whole, where the outer has `outer` names.
fn may_stay(inner: usize, outer: usize) -> bool {
    inner.saturating_sub(outer) <= outer
}

/// A name, with names before and after it, where there are too many before it.
fn lean_after(alloc: Global, before: &Tree, name: Name, after: Tree) -> Result<Tree, OutOfMemory>
    ensures { IfOk result (λ new. listed new ≡ listed before.now ++ name ∷ listed after) }
{
    let Some(node) = before else {
        return join(alloc, None, name, after);
    };
    let node: &Node = node.as_ref();
    let outer = share(&node.before)?;
    let top = node.name.share()?;
    if may_stay(count(&node.after), count(&outer)) {
        let inner = join(alloc, share(&node.after)?, name, after)?;
        return join(alloc, outer, top, inner);
    }
    join_inner(alloc, outer, top, &node.after, name, after)
}

/// A name, with names before and after it, where there are too many after it.
fn lean_before(alloc: Global, before: Tree, name: Name, after: &Tree) -> Result<Tree, OutOfMemory>
    ensures { IfOk result (λ new. listed new ≡ listed before ++ name ∷ listed after.now) }
{
    let Some(node) = after else {
        return join(alloc, before, name, None);
    };
    let node: &Node = node.as_ref();
    let outer = share(&node.after)?;
    let top = node.name.share()?;
    if may_stay(count(&node.before), count(&outer)) {
        let inner = join(alloc, before, name, share(&node.before)?)?;
        return join(alloc, inner, top, outer);
    }
    join_inner(alloc, before, name, &node.before, top, outer)
}

/// Names with `first` and `second` among them, where those between the two are parted.
fn join_inner(
    alloc: Global,
    before: Tree,
    first: Name,
    between: &Tree,
    second: Name,
    after: Tree,
) -> Result<Tree, OutOfMemory>
    ensures { IfOk result (λ new.
        listed new ≡ listed before ++ first ∷ (listed between.now ++ second ∷ listed after)) }
{
    let Some(node) = between else {
        let second = join(alloc, None, second, after)?;
        return join(alloc, before, first, second);
    };
    let node: &Node = node.as_ref();
    let first = join(alloc, before, first, share(&node.before)?)?;
    let second = join(alloc, share(&node.after)?, second, after)?;
    join(alloc, first, node.name.share()?, second)
}

/// A name, with names before and after it. More than can be counted are want of memory.
fn join(alloc: Global, before: Tree, name: Name, after: Tree) -> Result<Tree, OutOfMemory>
    ensures { IfOk result (λ new. listed new ≡ listed before ++ name ∷ listed after) }
{
    let Some(others) = count(&before).checked_add(count(&after)) else {
        return Err(OutOfMemory);
    };
    let Some(count) = others.checked_add(1) else {
        return Err(OutOfMemory);
    };
    let node = Node {
        before,
        name,
        after,
        count,
    };
    Ok(Some(Rc::new(alloc, node)?))
}

/// Whether two trees have the same names.
pub(crate) fn are_same(tree: &Tree, other: &Tree) -> bool
    ensures { IsTrue result → listed tree.now ≡ listed other.now }
{
    let n = count(tree);
    if n != count(other) {
        return false;
    }
    for i in 0..n {
        if name_at(tree, i) != name_at(other, i) {
            return false;
        }
    }
    true
}
