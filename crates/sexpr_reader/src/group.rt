use value_core::Place;

/// What can be open: a list, a vector, a map, or an `@` whose form is still to come.
#[derive(Clone, Copy, Debug, PartialEq, Eq)]
pub enum Group {
    List,
    Vector,
    Map,
    At,
}

/// What is open, and where it began.
#[derive(Clone, Copy)]
pub struct Opened {
    pub at: Place,
    pub group: Group,
}
