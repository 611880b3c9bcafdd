//! What a run means when one thread does it: its entries, its end and its history, and in `specs/` the meaning itself.
#![tactic(auto)]

mod actor_state;
mod answer;
mod effect;
mod end;
mod entry;
mod halt;
mod history;
mod laws;
mod limits;
mod request;
mod trace;

pub use actor_state::ActorState;
pub use answer::Answer;
pub use effect::{Effect, What};
pub use end::End;
pub use entry::Entry;
pub use halt::Halt;
pub use history::History;
pub use laws::{
    bytes_grow, entries_are_bounded, meets_no_misfit, no_actor_is_asked, none_is_begun_inside,
    none_is_over, none_is_stuck, nothing_waits, steps_suffice, tasks_are_begun, turns_are_last,
    units_are_begun, values_stay,
};
pub use limits::Limits;
pub use request::Request;
pub use trace::{LineKind, Trace};
