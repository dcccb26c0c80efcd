//! The lock over a list of numbers.
mod bell;
mod lanes;
mod stations;
