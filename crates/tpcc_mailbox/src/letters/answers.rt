//! What an answer is to its letter.

/// Answers of letters of the type `J`.
pub trait Answers<J> {
    /// What clauses see of a letter. No value of it need be made.
    type Label;

    /// The label of a letter.
    ghost label: { J → Self.Label };

    /// When an answer fits a label. `Mailboxes::answer` asks for it, and `Mailboxes::collect` gives it.
    ghost fits: { Self.Label → Self → Type 0 };
}
