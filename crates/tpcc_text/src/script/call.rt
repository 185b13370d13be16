//! What a line of a script asks.

use tpcc_rows::Request;

/// A request, or a call of the script's own.
#[derive(Drop)]
pub enum Call {
    /// One of the six requests.
    Ask(Request),
    /// The consistency conditions (3.3.2), tested.
    Check,
    /// The delivery result log (2.7.2.2).
    Results,
}
