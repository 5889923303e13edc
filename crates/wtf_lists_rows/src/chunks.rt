//! A list, its shares, and each call once.

use std::alloc::{AllocError, Global};
use std::test::Fail;
use wtf_chunks::Chunks;

fn push_all(list: &mut Chunks<u64>, count: u64) -> Result<(), AllocError> {
    for i in 0..count {
        list.push(i)?;
    }
    Ok(())
}

/// A list of the numbers below `count`, in order.
fn counting(alloc: Global, count: u64) -> Result<Chunks<u64>, AllocError> {
    let mut list = Chunks::new(alloc)?;
    push_all(&mut list, count)?;
    Ok(list)
}

/// The same, of which the numbers from `from` on are put in at once.
fn counting_on(alloc: Global, from: u64, count: u64) -> Result<Chunks<u64>, AllocError> {
    let mut list = counting(alloc, from)?;
    let mut more = Vec::new(alloc);
    for i in from..count {
        more.push(i)?;
    }
    list.extend(more.as_slice())?;
    Ok(list)
}

/// Whether a list is of the numbers below `count`, in order.
fn is_counting(list: &Chunks<u64>, count: u64) -> bool {
    for i in 0..list.len() {
        if list.get(i) != i as u64 {
            return false;
        }
    }
    list.len() as u64 == count
}

/// Whether a share of a list of the numbers below `count` stays as it was where the list is pushed to.
fn is_apart(list: &mut Chunks<u64>, shared: &Chunks<u64>, count: u64) -> Result<bool, AllocError> {
    let same = list.is_same(shared);
    list.push(count)?;
    let other = !list.is_same(shared);
    Ok(same && other && is_counting(shared, count) && is_counting(list, count.saturating_add(1)))
}

/// Whether a list of the numbers below `count` stays as it was where it is shared and then pushed to.
fn stays(alloc: Global, count: u64) -> Result<bool, AllocError> {
    let mut list = counting(alloc, count)?;
    let shared = list.share()?;
    is_apart(&mut list, &shared, count)
}

/// Whether it is, where those from `from` on were put in at once.
fn counts_on(alloc: Global, from: u64, count: u64) -> Result<bool, AllocError> {
    Ok(is_counting(&counting_on(alloc, from, count)?, count))
}

fn is_empty(alloc: Global, count: u64) -> Result<bool, AllocError> {
    Ok(counting(alloc, count)?.is_empty())
}

#[test]
fn a_share_stays_as_it_was(rt: HostRuntime) -> Result<(), Fail> {
    let alloc = rt.alloc();
    assert!(rt; stays(alloc, 1)? && stays(alloc, 65)? && stays(alloc, 1000)?);
    Ok(())
}

#[test]
fn items_are_put_in_at_once(rt: HostRuntime) -> Result<(), Fail> {
    let alloc = rt.alloc();
    assert!(rt;
        counts_on(alloc, 0, 0)? && counts_on(alloc, 15, 16)? && counts_on(alloc, 65, 1000)?
    );
    Ok(())
}

#[test]
fn a_new_list_is_empty(rt: HostRuntime) -> Result<(), Fail> {
    assert!(rt; is_empty(rt.alloc(), 0)? && !is_empty(rt.alloc(), 1)?);
    Ok(())
}
