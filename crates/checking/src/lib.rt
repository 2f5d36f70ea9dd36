// The check of a received telegram. What a telegram is, and when it passes, is said in crates/telegram/specs.
#![tactic(auto)]

mod check_telegram;
mod numbers;

pub use check_telegram::{answer_number, checked};
