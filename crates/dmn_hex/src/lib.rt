//! Hashes as text.
#![tactic(auto)]

mod text;

pub use text::hash_text;
