//! Top-level forms whose names are resolved: what it means that they are in range, the globals that each piece of code
//! reaches, and the hidden arguments of functions and behaviours.
#![tactic(auto)]

mod expr;
mod head;
mod layout;
mod reach;
mod survey;
mod top;
mod top_survey;
mod units;
mod uses;

pub use expr::{Expr, ExprKind, Exprs, Looping};
pub use head::Head;
pub use layout::{Hidden, Layout};
pub use reach::reached;
pub use survey::{LoopSurvey, Survey};
pub use top::{Reacting, Top, TopForms, TopKind};
pub use top_survey::{FormSurvey, TopSurvey, survey_tops};
pub use units::{all_units, lay_out, list_of, number_after};
pub use uses::Uses;
