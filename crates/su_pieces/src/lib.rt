//! Pieces: what of a file is written where its contents change, and the commands for it.
#![tactic(auto)]

mod blocks;
mod laws;
mod pieces;
mod put;

pub use laws::{
    histories_leave_sound_trees, pieces_are_one, puts_are_carried_out, steps_are_carried_out,
};
pub use pieces::{Piece, differing};
pub use put::put_commands;
