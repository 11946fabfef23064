//! A lock for each part of a machine, with tickets that say the one order of all acts.
#![tactic(auto)]

mod board;
mod joined;
mod moved;
mod parts;
mod rule;
mod seated;
mod turn;
mod view;
mod words;

pub use board::{PartBoard, PartHand};
pub use joined::join_all;
pub use parts::{Closed, OpenFault, Parts, Seat};
pub use seated::seat_all;
pub use view::{Hold, Key, Lead, Stage, Stall, Step, View, Visit, Work};
