use actor_mailbox::Message;
use std::alloc::{AllocError, Global};
use value_core::{Name, Value, Values};

/// A message of that sender, with this number, that depends on that name.
pub(crate) fn message(
    alloc: Global,
    sender: u32,
    number: i64,
    depends: Option<u32>,
) -> Result<Message, AllocError> {
    let mut args = Values::new(alloc);
    args.push(Value::Int(number))?;
    Ok(Message {
        sender: name(alloc, sender)?,
        args,
        depends: optional_name(alloc, depends)?,
    })
}

pub(crate) fn name(alloc: Global, number: u32) -> Result<Name, AllocError> {
    let main = Name::main(alloc)?;
    main.child(alloc, number)
}

fn optional_name(alloc: Global, number: Option<u32>) -> Result<Option<Name>, AllocError> {
    match number {
        Some(number) => Ok(Some(name(alloc, number)?)),
        None => Ok(None),
    }
}

/// The number of a message.
pub(crate) fn number_of(message: &Message) -> Option<i64> {
    match message.args.chunk_from(0) {
        [Value::Int(number)] => Some(*number),
        _ => None,
    }
}
