//! What carries a purse.
ghost use Rattle.std.specs.Prelude.{◌≡◌};

/// A type that carries a purse together with something of its own. How it does so is said once, by the crate that
/// declares the type: so no other crate can have an answer's purse exchanged on its way into one.
pub trait CarriesPurse {
    /// The purse, as it is without the rest.
    type Purse;

    /// What it carries beside the purse.
    type Rest;

    /// Which purse can be carried with which rest.
    ghost fits: { Self.Purse → Self.Rest → Type 0 };

    /// What is seen of both together.
    ghost carrying: { Self.Purse → Self.Rest → Self };

    /// The purse that is carried.
    ghost purse_in: { Self → Self.Purse };

    /// Takes the purse and the rest.
    fn carry(purse: Self::Purse, rest: Self::Rest) -> Self
        requires fits { fits purse rest }
        ensures both { result ≡ carrying purse rest }
        ensures purse { purse_in result ≡ purse };
}
