//! What is pushed or set after a copy is not seen in the copy.
use shared_vector::SharedVector;
use std::alloc::{AllocError, Global};
use std::test::Fail;

// The numbers that a byte holds, over and over.
fn bytes(alloc: Global, many: usize) -> Result<SharedVector<u8>, AllocError> {
    let mut list = SharedVector::new(alloc);
    for number in 0..many {
        list.push((number % 256) as u8)?;
    }
    Ok(list)
}

// Whether there are so many items, each what `bytes` has put there.
fn are_bytes(list: &SharedVector<u8>, many: usize) -> bool {
    let mut seen = 0usize;
    for item in list.iter() {
        if *item != (seen % 256) as u8 {
            return false;
        }
        seen = seen.saturating_add(1);
    }
    seen == many && list.len() == many
}

#[test]
fn a_copy_keeps_its_items(rt: HostRuntime) -> Result<(), Fail> {
    let mut list = bytes(rt.alloc(), 500)?;
    let kept = list.copy()?;
    for number in 500..1_200usize {
        list.push((number % 256) as u8)?;
    }
    assert!(rt; are_bytes(&list, 1_200));
    assert!(rt; are_bytes(&kept, 500));
    Ok(())
}

#[test]
fn an_item_is_set_in_one_of_two(rt: HostRuntime) -> Result<(), Fail> {
    let list = bytes(rt.alloc(), 1_200)?;
    for place in [0, 31, 32, 1_023, 1_024, 1_055, 1_056, 1_199] {
        let mut other = list.copy()?;
        assert_eq!(rt; other.len(), 1_200);
        if place < other.len() {
            other.set(place, 77)?;
        }
        assert_eq!(rt; other.get(place).copied(), Some(77), "at {place}");
        assert!(rt; are_bytes(&list, 1_200), "at {place}");
    }
    Ok(())
}

#[test]
fn parts_and_more(rt: HostRuntime) -> Result<(), Fail> {
    let mut list = SharedVector::from_slice(rt.alloc(), b"abc".as_slice())?;
    let more = bytes(rt.alloc(), 100)?;
    list.append(&more)?;
    assert_eq!(rt; list.len(), 103);
    assert_eq!(rt; list.last().copied(), Some(99));
    if list.len() >= 70 {
        let part = list.part(2, 70)?;
        assert_eq!(rt; part.get(0).copied(), Some(b'c'));
        assert_eq!(rt; part.chunk_from(40).len(), 24);
    }
    assert!(rt; SharedVector::<u8>::new(rt.alloc()).is_empty());
    Ok(())
}
