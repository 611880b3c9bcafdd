use std::test::Fail;
use value_core::{Name, Places, Value};

#[test]
fn a_place_gives_back_what_it_holds(rt: HostRuntime) -> Result<(), Fail> {
    let alloc = rt.alloc();
    let main = Name::main(alloc)?;
    let first = main.child(alloc, 1)?;
    let second = main.child(alloc, 2)?;
    let mut places = Places::new(alloc);
    places.prepare(first.copy(alloc)?)?;
    places.prepare(second.copy(alloc)?)?;
    assert!(rt; places.take(&first).is_none());
    places.fill(&first, Value::Int(7));
    places.fill(&second, Value::Int(8));
    assert!(rt; matches!(places.take(&first), Some(Value::Int(7))));
    assert!(rt; places.get(&first).is_none());
    assert!(rt; places.take(&first).is_none());
    assert!(rt; matches!(places.get(&second), Some(Value::Int(8))));
    Ok(())
}
