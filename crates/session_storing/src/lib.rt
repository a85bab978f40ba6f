//! A session is played over a disk: the line of each command's entry is appended before the next command is taken. It goes on
//! behind the lines that an image stores, where these are right.
#![tactic(auto)]

mod left;
mod player;
mod recovering;
mod storing;

pub use player::Player;
pub use recovering::recover_turns;
pub use storing::store_turns;
