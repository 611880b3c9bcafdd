use captured_values::Captured;
use std::alloc::{AllocError, Global};
use std::test::Fail;
use value_core::{Name, Value, Values};

// So many refs that main made one after the other.
fn refs(alloc: Global, many: u32) -> Result<Values, AllocError> {
    let main = Name::main(alloc)?;
    let mut refs = Values::new(alloc);
    for number in 0..many {
        refs.push(Value::Ref(main.child(alloc, number)?))?;
    }
    Ok(refs)
}

// A number and a vector of so many refs, which were used so often.
fn captured(alloc: Global, many: u32, uses: u32) -> Result<Captured, AllocError> {
    let mut values = Values::new(alloc);
    values.push(Value::Int(1))?;
    values.push(Value::Vector(refs(alloc, many)?))?;
    let mut captured = Captured::of(values);
    for _ in 0..uses {
        captured.note_use(alloc);
    }
    Ok(captured)
}

#[test]
fn values_that_are_used_often(rt: HostRuntime) -> Result<(), Fail> {
    let alloc = rt.alloc();
    let often = captured(alloc, 100, 20)?;
    assert!(rt; often.same(&captured(alloc, 100, 20)?));
    assert!(rt; often.same(&captured(alloc, 100, 0)?));
    assert!(rt; often.same(&often.copy()?));
    assert!(rt; !often.same(&captured(alloc, 101, 20)?));
    assert!(rt; !often.same(&captured(alloc, 101, 0)?));
    assert!(rt; often.values().len() == 2);
    Ok(())
}
