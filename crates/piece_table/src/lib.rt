//! Pieces under tickets: which of them are ready, and which are lent under a claim.
#![tactic(auto)]

mod piece;
mod piece_table;

pub use piece::Piece;
pub use piece_table::PieceTable;
