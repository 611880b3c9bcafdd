use known_values::Known;
use serial_model::Request;
use value_core::Code;

/// What the operation of a node comes to.
#[derive(Drop)]
pub enum Outcome {
    Gives(Known),
    Faults(Code),
    Asks(Request),
}
