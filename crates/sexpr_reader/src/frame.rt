use crate::form::Forms;
use crate::group::Opened;

/// What is open, and the forms that stand before it in what is open round it.
#[derive(Drop)]
pub struct Frame {
    pub opened: Opened,
    pub before: Forms,
}
