//! Blocks: reading and writing the body that connects one, and the rules on its shape.
#![tactic(auto)]

mod body;
mod fault;
mod frame;
mod law;
mod read;
mod refusal;
mod shape;
mod with_id;

pub use fault::{BlockFault, ShapeFault};
pub use frame::BlockFrame;
pub use law::refused_by_the_least_number;
pub use read::{one_text, read_block, write_block};
pub use refusal::Refusal;
pub use shape::check_shape;
