//! Primitives on arguments that are given away. The table of all of them is `tests/tables/primitives`.

use crate::words::values_of;
use std::alloc::{AllocError, Global};
use std::test::Fail;
use value_core::{Op, Value};
use value_ops::{OpFault, apply_to_own, takes};
use value_print::readable;

fn name_of(fault: OpFault) -> &'static [u8] {
    match fault {
        OpFault::WrongType => b"WrongType",
        OpFault::DivideByZero => b"DivideByZero",
        OpFault::Overflow => b"Overflow",
        OpFault::Index => b"Index",
        OpFault::TooDeep => b"TooDeep",
        OpFault::Memory => b"Memory",
    }
}

// The values in a list of its own.
fn own_values_of(alloc: Global, words: &[u8]) -> Result<Vec<Value>, AllocError> {
    let values = values_of(alloc, words)?;
    let mut own = Vec::new(alloc);
    for value in values.iter() {
        own.push(value.copy(alloc)?).map_err(|_| AllocError)?;
    }
    Ok(own)
}

fn gives_to_own(alloc: Global, op: Op, args: &[u8], expected: &[u8]) -> Result<bool, AllocError> {
    let args = own_values_of(alloc, args)?;
    if !takes(op, args.len()) {
        return Ok(false);
    }
    match apply_to_own(alloc, op, args, false) {
        Ok(value) => Ok(readable(alloc, &value)?.items() == expected),
        Err(fault) => Ok(name_of(fault) == expected),
    }
}

#[test]
fn arguments_that_are_given_away(rt: HostRuntime) -> Result<(), Fail> {
    let table: [(Op, &[u8], &[u8]); 6] = [
        (Op::Conj, b"[1 2 3", b"[1 2 3]"),
        (Op::Into, b"[1 [2,3", b"[1 2 3]"),
        (Op::Assoc, b"map :a 7 :a 8", b"{:a 8, \"b\" 2}"),
        (Op::Assoc, b"[1,2 3 9", b"Index"),
        (Op::Dissoc, b"map :a 4 nil", b"{\"b\" 2}"),
        (Op::Add, b"1 2 -4", b"-1"),
    ];
    for (op, args, expected) in table {
        assert!(rt; gives_to_own(rt.alloc(), op, args, expected)?, "{:?}", args);
    }
    Ok(())
}
