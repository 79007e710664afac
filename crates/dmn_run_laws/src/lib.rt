//! What lasts over runs of the program that follow one another.
#![tactic(auto)]

mod law;

pub use law::{
    chains_from_init_keep_answered, chains_from_make_keep_answered, chains_keep_answered,
    images_have_fronts,
};
