//! Tests of lists in chunks.

use nc_chunks::Chunks;
use std::alloc::{AllocError, Global};
use std::test::Fail;

/// The numbers below n.
fn numbers(alloc: Global, n: u64) -> Result<Chunks<u64>, AllocError> {
    let mut list = Chunks::empty(alloc);
    for k in 0..n {
        list.push(k)?;
    }
    Ok(list)
}

/// The item at this place, if there is one.
fn at(list: &Chunks<u64>, index: usize) -> Option<u64> {
    if index < list.len() {
        Some(*list.get(index))
    } else {
        None
    }
}

/// Whether the numbers below 600 stand where they were pushed.
fn has_numbers(alloc: Global) -> Result<bool, Fail> {
    let list = numbers(alloc, 600)?;
    let found = (at(&list, 255), at(&list, 256), at(&list, 600));
    Ok(list.len() == 600 && found == (Some(255), Some(256), None))
}

/// The last items of a list of this many and of its share, after each got an item of its own.
fn grow_apart(alloc: Global, n: u64) -> Result<(Option<u64>, Option<u64>), Fail> {
    let mut left = numbers(alloc, n)?;
    let mut right = left.share()?;
    left.push(1000)?;
    right.push(2000)?;
    Ok((left.last().copied(), right.last().copied()))
}

#[test]
fn lists_grow(rt: HostRuntime) -> Result<(), Fail> {
    assert!(rt; has_numbers(rt.alloc())?);
    assert_eq!(rt; grow_apart(rt.alloc(), 255)?, (Some(1000), Some(2000)));
    assert_eq!(rt; grow_apart(rt.alloc(), 256)?, (Some(1000), Some(2000)));
    Ok(())
}
