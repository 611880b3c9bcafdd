use value_core::Ticket;

/// That one ticket hangs on another.
#[derive(Clone, Copy, Debug, PartialEq, Eq)]
pub struct Link {
    /// The ticket that the other hangs on.
    pub on: Ticket,
    /// The ticket that hangs on it.
    pub by: Ticket,
}
