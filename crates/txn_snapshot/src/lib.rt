//! A task of a transaction on a snapshot of the refs: what it is answered, what it has done, and which refs it has read.
#![tactic(auto)]

mod answered;
mod fork_view;
mod laws;
mod log;
mod reads;
mod view;

pub use answered::Answered;
pub use fork_view::ForkView;
pub use laws::{answers_keep_runs, answers_rest_on_reads, derefs_rest_on_reads};
pub use log::TaskLog;
pub use reads::Reads;
pub use view::View;
