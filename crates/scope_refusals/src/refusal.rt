use crate::kind::ScopeKind;
use value_core::{Place, Seq};

/// What is wrong, and where.
#[derive(Clone, Copy, Debug, PartialEq, Eq)]
pub struct Refusal {
    pub kind: ScopeKind,
    pub at: Place,
}

pub type Refusals = Seq<Refusal>;
