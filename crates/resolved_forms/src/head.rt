use value_core::Op;

/// What is made of the values of some parts, evaluated from left to right.
#[derive(Clone, Copy, Debug, PartialEq, Eq)]
pub enum Head {
    Vector,
    /// Keys and values, by turns.
    Map,
    Do,
    /// The condition and the two branches.
    If,
    /// The primitive.
    Op(Op),
    /// A call of the function with that number in the program.
    Call(u32),
    Println,
    Ref,
    Deref,
    RefSet,
    Fork,
    Join,
    Dosync,
    /// An actor of the behaviour with that number.
    Spawn(u32),
    /// The behaviour with that number for later turns.
    Become(u32),
    /// The receiver, then the message.
    Send,
    SelfActor,
}
