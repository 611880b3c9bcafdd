use serial_model::{Entry, History, Limits};
use std::alloc::{AllocError, Global};
use std::test::Fail;
use value_core::Name;

fn push_main(history: &mut History, alloc: Global) -> Result<(), AllocError> {
    let name = Name::main(alloc)?;
    history.push(Entry::Run(name))
}

fn is_run_of_main(entry: &Entry) -> bool {
    match entry {
        Entry::Run(name) => name.parts() == [0].as_slice(),
        Entry::Take(_, _) => false,
    }
}

fn keeps_three(alloc: Global) -> Result<bool, AllocError> {
    let mut history = History::new(alloc);
    history.reserve(2)?;
    for _ in 0..3 {
        push_main(&mut history, alloc)?;
    }
    let entries = history.entries();
    Ok(entries.len() == 3 && entries.iter().all(is_run_of_main))
}

#[test]
fn keeps_its_entries(rt: HostRuntime) -> Result<(), Fail> {
    assert!(rt; keeps_three(rt.alloc())?);
    Ok(())
}

#[test]
fn checks_limits(rt: HostRuntime) {
    let rows = [
        (1, 1, true),
        (10_000_000, 1_000_000, true),
        (0, 1, false),
        (1, 0, false),
        (10_000_001, 1, false),
        (1, 1_000_001, false),
    ];
    for (fuel, units, accepted) in rows {
        assert_eq!(rt;
            Limits::checked(fuel, units).is_some(),
            accepted,
            "{fuel} {units}"
        );
    }
    assert_eq!(rt;
        (Limits::default().fuel(), Limits::default().units()),
        (1_000_000, 100_000)
    );
}
