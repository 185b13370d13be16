//! Code that is there for the proof alone.

/// Reads or calls something for what its contract or its type says, which a proof below cites. The program loses nothing where
/// the line goes; the proof does.
#[macro_export]
macro_rules! recall {
    ($known:expr) => {
        let _ = $known;
    };
}
