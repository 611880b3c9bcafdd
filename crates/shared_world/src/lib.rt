//! The world that the threads share, as it is kept: what it stands for, and what a result that is given back answers and
//! changes. No code runs here but that of the answers' type.
#![tactic(auto)]

mod given;
mod laws;

pub use given::Given;
pub use laws::{
    aborts_are_few, aborts_are_late, attempts_age, gave_appends, gave_keeps, gave_keeps_few,
    gave_marks, opening_keeps_few, opening_marks, opening_stands, others_are_ready,
    resets_keep_few, resets_mark, resets_stand, undoes_ages, undoes_keeps, undoes_marks,
};
