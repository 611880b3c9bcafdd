use serial_model::Request;
use value_core::Name;

/// What a turn holds first: the begin of a turn of that actor, or a request.
#[derive(Drop)]
pub enum NextHeld {
    /// The begin.
    Begin(Name),
    /// The request.
    Asked(Request),
}
