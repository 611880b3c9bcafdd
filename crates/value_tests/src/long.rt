//! Long lists are let go item by item, and long texts are shared.
use shared_chain::{Chain, SharedStack};
use std::alloc::{AllocError, Global};
use std::test::Fail;
use value_core::{Text, Value, Values};

const MANY: i64 = 1_000_000;

fn chain_of(alloc: Global, many: i64) -> Result<Chain<Value>, AllocError> {
    let mut chain = Chain::new(alloc);
    for number in 0..many {
        chain.push(Value::Int(number)).map_err(|_| AllocError)?;
    }
    Ok(chain)
}

fn stack_of(alloc: Global, many: i64) -> Result<SharedStack<Value>, AllocError> {
    let mut stack = SharedStack::new(alloc);
    for number in 0..many {
        stack.push(Value::Int(number))?;
    }
    Ok(stack)
}

fn vector_of(alloc: Global, many: i64) -> Result<Values, AllocError> {
    let mut items = Values::new(alloc);
    for number in 0..many {
        items.push(Value::Int(number))?;
    }
    Ok(items)
}

fn is_there(item: Option<&Value>) -> bool {
    matches!(item, Some(Value::Int(_)))
}

#[test]
fn long_lists_are_let_go(rt: HostRuntime) -> Result<(), Fail> {
    let chain = chain_of(rt.alloc(), MANY)?;
    assert!(rt; chain.top().is_some());
    drop(chain);
    let stack = stack_of(rt.alloc(), MANY)?;
    assert!(rt; is_there(stack.item(999_999)));
    drop(stack);
    let items = vector_of(rt.alloc(), MANY)?;
    assert_eq!(rt; items.len(), 1_000_000);
    Ok(())
}

// What is appended to a text is not seen in its copy.
fn a_copy_stays(alloc: Global, bytes: &[u8], more: &[u8], both: &[u8]) -> Result<bool, AllocError> {
    let mut text = Text::from_bytes(alloc, bytes)?;
    let kept = text.copy(alloc)?;
    text.extend(more)?;
    Ok(kept.items() == bytes && text.items() == both)
}

#[test]
fn texts_that_grow_long(rt: HostRuntime) -> Result<(), Fail> {
    let table: [(&[u8], &[u8], &[u8]); 4] = [
        (b"", b"a", b"a"),
        (b"fifteen bytes..", b"!", b"fifteen bytes..!"),
        (b"sixteen bytes...", b"!", b"sixteen bytes...!"),
        (
            b"more than sixteen bytes",
            b"!",
            b"more than sixteen bytes!",
        ),
    ];
    for (bytes, more, both) in table {
        assert!(rt; a_copy_stays(rt.alloc(), bytes, more, both)?);
    }
    Ok(())
}
