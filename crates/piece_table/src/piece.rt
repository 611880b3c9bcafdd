use value_core::Ticket;

/// Whether something can be done with a piece, and the claim under which it is lent, if it is.
#[derive(Clone, Copy, Debug, PartialEq, Eq)]
pub struct Piece {
    pub is_ready: bool,
    pub lent: Option<Ticket>,
}
