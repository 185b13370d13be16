//! The laws of the model: what every transaction keeps, whoever runs it. They stand on the definitions of `tpcc_rows` alone.
#![tactic(auto)]

pub mod laws;
