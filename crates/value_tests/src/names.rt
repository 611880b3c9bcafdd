use std::alloc::{AllocError, Global};
use std::cmp::Ordering;
use std::test::Fail;
use value_core::{Name, NameNo};

// The name that is made below main by these numbers.
pub(crate) fn name_of(alloc: Global, parts: &[u32]) -> Result<Name, AllocError> {
    let mut name = Name::main(alloc)?;
    for number in parts {
        name = name.child(alloc, *number)?;
    }
    Ok(name)
}

fn is_written_so(alloc: Global, name: &Name, text: &[u8]) -> Result<bool, AllocError> {
    Ok(name.text(alloc)?.items() == text)
}

fn is_read_from(alloc: Global, name: &Name, text: &[u8]) -> bool {
    match Name::read(alloc, text) {
        Ok(read) => read.parts() == name.parts(),
        Err(_) => false,
    }
}

#[test]
fn names_are_written_and_read(rt: HostRuntime) -> Result<(), Fail> {
    let table: [(&[u8], &[u32]); 4] = [
        (b"0", &[]),
        (b"0.0", &[0]),
        (b"0.12.4294967295", &[12, 4294967295]),
        (b"0.1.0.10", &[1, 0, 10]),
    ];
    for (text, below_main) in table {
        let name = name_of(rt.alloc(), below_main)?;
        assert!(rt; is_written_so(rt.alloc(), &name, text)?);
        assert!(rt; is_read_from(rt.alloc(), &name, text));
    }
    Ok(())
}

#[test]
fn what_is_no_name_is_refused(rt: HostRuntime) {
    let table: [&[u8]; 14] = [
        b"",
        b".",
        b"0.",
        b".0",
        b"0..1",
        b"00",
        b"01",
        b"0.01",
        b"-1",
        b"+1",
        b" 0",
        b"0x1",
        b"4294967296",
        b"99999999999999999999999",
    ];
    for text in table {
        match Name::read(rt.alloc(), text) {
            Ok(_) => assert!(rt; false, "no name is read"),
            Err(refusal) => assert_eq!(rt; refusal, NameNo::BadName),
        }
    }
}

#[test]
fn after_order_is_post_order(rt: HostRuntime) -> Result<(), Fail> {
    // A depth-first walk of the tree of names that leaves a node after its children.
    let walk: [&[u32]; 8] = [&[0, 0], &[0, 1, 5], &[0, 1], &[0], &[1], &[2, 7], &[2], &[]];
    for i in 0..walk.len() {
        let earlier = name_of(rt.alloc(), walk[i])?;
        let again = name_of(rt.alloc(), walk[i])?.copy(rt.alloc())?;
        assert!(rt; earlier.cmp_after(&again) == Ordering::Equal);
        for j in i + 1..walk.len() {
            let later = name_of(rt.alloc(), walk[j])?;
            assert!(rt; earlier.cmp_after(&later) == Ordering::Less);
            assert!(rt; later.cmp_after(&earlier) == Ordering::Greater);
        }
    }
    Ok(())
}
