//! Texts as they are printed, shown and dumped.

pub mod dumps;
mod faults;
mod printed;
mod screens;
