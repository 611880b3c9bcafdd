use value_core::Text;

/// What a name of the top level stands for.
#[derive(Clone, Copy, Debug, PartialEq, Eq)]
pub enum What {
    /// The function with that number, and how many arguments are written in its calls.
    Function(u32, u32),
    /// The behaviour with that number, and how many state parameters it has.
    Behaviour(u32, u32),
    /// The global with that number.
    Global(u32),
}

/// A name of the top level, and what it stands for.
#[derive(Drop)]
pub struct Definition {
    pub name: Text,
    pub what: What,
}
