//! Where a terminal stands.
ghost use Rattle.std.specs.Prelude.{◌≡◌, ◌≤◌};
ghost use Rattle.tpcc_terminal.specs.Cards.{home_of};

use tpcc_population::Scale;

/// A terminal's own warehouse (2.4.1.1) and district (2.8.1.1), and the scale that it draws rows of.
#[derive(Clone, Copy)]
pub struct Home {
    /// W_ID, from 1 on.
    pub warehouse: u32,
    /// D_ID, 1 to 10.
    pub district: u32,
    /// How many rows there are to draw from.
    pub scale: Scale,
}

impl Home {
    /// The home of a terminal: terminals go round the warehouses, then round the districts.
    pub fn of(number: u32, scale: Scale) -> Home
        requires number { 1 ≤ number }
        ensures home { result ≡ home_of number scale }
    {
        let before = number - 1;
        let warehouses = scale.warehouses();
        Home {
            warehouse: 1 + before % warehouses,
            district: 1 + before / warehouses % 10,
            scale,
        }
    }
}
