// What every crate may stand on: the bytes at a place of a run. specs/ has the choice by a test, with the rules by
// which a search takes it apart, and numbers as bytes; proofs/ that a number past the end is 0.
#![tactic(auto)]

mod numbers;

pub use numbers::{byte, bytes_at};
