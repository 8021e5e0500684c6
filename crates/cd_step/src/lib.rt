//! The protocol of a suspended part: what goes in and out of it, and what it is to be a stage or a controller.
#![tactic(auto)]

mod back;
mod control;
mod cut;
mod protocol;
mod stage;

pub use back::{Back, weight_of};
pub use control::{Control, Flow, Found, Made, Side, Turn};
pub use cut::behind;
pub use protocol::{Input, Move, Stand};
pub use stage::Stage;
