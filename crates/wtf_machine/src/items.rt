//! Items of a tree that calls read and change: when they are the same, and when lists of them meet.

ghost use Rattle.std.specs.Prelude.{◌≡◌, ◌++◌, ◌∷◌, [], IfOk};
ghost use Rattle.wtf_model.specs.declared.item.Item.TheVariants as item;
ghost use Rattle.wtf_model.specs.Items.{same_item, is_among, meets};

use std::alloc::Global;
use wtf_base::OutOfMemory;
use wtf_model::Item;
use wtf_path::Path;

/// Whether an item is what stands at a path.
fn is_node(p: &Path, it: &Item) -> bool
    ensures { result ≡ same_item (item.NodeOf p.now) it.now }
{
    match it {
        Item::NodeOf(q) => *p == *q,
        Item::NamesOf(_) => false,
        Item::BodyOf(_) => false,
        Item::LinksOf(_) => false,
    }
}

/// Whether an item is the names in a directory.
fn is_names(p: &Path, it: &Item) -> bool
    ensures { result ≡ same_item (item.NamesOf p.now) it.now }
{
    match it {
        Item::NodeOf(_) => false,
        Item::NamesOf(q) => *p == *q,
        Item::BodyOf(_) => false,
        Item::LinksOf(_) => false,
    }
}

/// Whether an item is the bytes of a file.
fn is_body(p: &Path, it: &Item) -> bool
    ensures { result ≡ same_item (item.BodyOf p.now) it.now }
{
    match it {
        Item::NodeOf(_) => false,
        Item::NamesOf(_) => false,
        Item::BodyOf(q) => *p == *q,
        Item::LinksOf(_) => false,
    }
}

/// Whether an item is how many paths a file has.
fn is_links(p: &Path, it: &Item) -> bool
    ensures { result ≡ same_item (item.LinksOf p.now) it.now }
{
    match it {
        Item::NodeOf(_) => false,
        Item::NamesOf(_) => false,
        Item::BodyOf(_) => false,
        Item::LinksOf(q) => *p == *q,
    }
}

/// Whether two items are the same.
fn is_same(one: &Item, other: &Item) -> bool
    ensures { result ≡ same_item one.now other.now }
{
    match one {
        Item::NodeOf(p) => is_node(p, other),
        Item::NamesOf(p) => is_names(p, other),
        Item::BodyOf(p) => is_body(p, other),
        Item::LinksOf(p) => is_links(p, other),
    }
}

/// Whether an item is one of these.
fn is_among(items: &[Item], it: &Item) -> bool
    ensures { result ≡ is_among items.now it.now }
{
    for item in items {
        if is_same(it, item) {
            return true;
        }
    }
    false
}

/// Whether some item is one of both.
pub(crate) fn meets(items: &[Item], others: &[Item]) -> bool
    ensures { result ≡ meets items.now others.now }
{
    for other in others {
        if is_among(items, other) {
            return true;
        }
    }
    false
}

/// The same items in memory of their own.
pub(crate) fn copy_items(alloc: Global, items: &[Item]) -> Result<Vec<Item>, OutOfMemory>
    ensures { IfOk result (λ made. made.items ≡ items.now) }
{
    let mut copied: Vec<Item> = Vec::new(alloc);
    for item in items {
        let item = item.copy(alloc)?;
        copied.push(item)?;
    }
    Ok(copied)
}

/// A list of one item.
pub(crate) fn only(alloc: Global, it: Item) -> Result<Vec<Item>, OutOfMemory>
    ensures { IfOk result (λ made. made.items ≡ it ∷ []) }
{
    let mut made = Vec::new(alloc);
    made.push(it)?;
    Ok(made)
}

/// A list of two items.
pub(crate) fn both(alloc: Global, one: Item, other: Item) -> Result<Vec<Item>, OutOfMemory>
    ensures { IfOk result (λ made. made.items ≡ one ∷ other ∷ []) }
{
    let mut made = Vec::new(alloc);
    made.push(one)?;
    made.push(other)?;
    Ok(made)
}

/// Items, and others behind them.
pub(crate) fn joined_items(front: Vec<Item>, back: Vec<Item>) -> Result<Vec<Item>, OutOfMemory>
    ensures { IfOk result (λ made. made.items ≡ front.items ++ back.items) }
{
    let mut made = front;
    let mut more = back;
    made.append(&mut more)?;
    Ok(made)
}
