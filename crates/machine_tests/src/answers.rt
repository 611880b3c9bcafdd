use answer_runs::Answers;
use serial_model::Answer;
use std::alloc::{AllocError, Global};
use std::test::Fail;
use value_core::{Name, NameNo, Value};

// The answers of so many turns of a loop that makes a thing, prints, and comes to a number.
fn turns(alloc: Global, many: u32) -> Result<Answers, NameNo> {
    let maker = Name::read(alloc, b"0.1")?;
    let mut answers = Answers::new(alloc);
    for turn in 0..many {
        add(&mut answers, Value::Ref(child(alloc, &maker, turn)?))?;
        add(&mut answers, Value::Nil)?;
        add(&mut answers, Value::Int(i64::from(turn) * 7))?;
    }
    Ok(answers)
}

fn add(answers: &mut Answers, value: Value) -> Result<(), NameNo> {
    answers
        .add(Answer::Value(value))
        .map_err(|_| NameNo::Memory)
}

fn child(alloc: Global, maker: &Name, number: u32) -> Result<Name, NameNo> {
    maker.child(alloc, number).map_err(|_| NameNo::Memory)
}

fn same_as_a_copy(answers: &Answers) -> Result<bool, AllocError> {
    let copy = answers.copy()?;
    Ok(answers.same(&copy))
}

// Whether one answer more makes the copy another list, and leaves the first.
fn one_more_differs(answers: &Answers, more: Value) -> Result<bool, AllocError> {
    let mut longer = answers.copy()?;
    longer.add(Answer::Value(more))?;
    Ok(!answers.same(&longer) && !longer.same(answers))
}

// Whether lists that differ in their last answer alone are told apart.
fn last_ones_differ(answers: &Answers) -> Result<bool, AllocError> {
    let mut one = answers.copy()?;
    let mut other = answers.copy()?;
    one.add(Answer::Value(Value::Int(1)))?;
    other.add(Answer::Value(Value::Int(2)))?;
    Ok(!one.same(&other))
}

#[test]
fn answers_that_come_in_turns(rt: HostRuntime) -> Result<(), Fail> {
    let answers = turns(rt.alloc(), 500)?;
    let again = turns(rt.alloc(), 500)?;
    assert!(rt; answers.same(&again));
    assert!(rt; same_as_a_copy(&answers)?);
    assert!(rt; one_more_differs(&answers, Value::Nil)?);
    assert!(rt; last_ones_differ(&answers)?);
    Ok(())
}

#[test]
fn no_answers_are_the_same(rt: HostRuntime) -> Result<(), Fail> {
    let none = Answers::new(rt.alloc());
    assert!(rt; none.same(&Answers::new(rt.alloc())));
    assert!(rt; one_more_differs(&none, Value::Nil)?);
    Ok(())
}
