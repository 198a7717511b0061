//! An ordered register: records of any kind that has a total order, kept in order and without repeats in slots that are lent.
#![tactic(auto)]

mod insert;
mod questions;
mod register;

pub use register::{Full, Register};
