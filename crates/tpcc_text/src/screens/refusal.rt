//! The screens of refused requests.
ghost use Rattle.std.specs.Prelude.{◌≡◌, ◌++◌, ◌∷◌, [], codes};
ghost use Rattle.tpcc_text.specs.Internal.Pieces.{piece_text};
ghost use Rattle.tpcc_text.specs.Screens as screens;

use crate::screens::pieces::Piece;
use tpcc_rows::{Field, Refusal};

/// What stands behind `refused `: the refusal's number, its name, and the number seen or the field.
#[tactic(auto, unfolding(crate::specs::Screens::refused_screen))]
pub fn refusal_words(refusal: Refusal) -> Piece<'static>
    ensures { codes "refused " ++ (piece_text result ++ 10 ∷ []) ≡ screens.refused_screen refusal }
{
    match refusal {
        Refusal::NoWarehouse => Piece::Word(b"1 NoWarehouse"),
        Refusal::NoDistrict => Piece::Word(b"2 NoDistrict"),
        Refusal::NoCustomer => Piece::Word(b"3 NoCustomer"),
        Refusal::LineCount => Piece::Word(b"4 LineCount"),
        Refusal::Quantity => Piece::Word(b"5 Quantity"),
        Refusal::NoSupply => Piece::Word(b"6 NoSupply"),
        Refusal::Amount => Piece::Word(b"7 Amount"),
        Refusal::Carrier => Piece::Word(b"8 Carrier"),
        Refusal::Threshold => Piece::Word(b"9 Threshold"),
        Refusal::Stranger(seen) => Piece::Count(b"10 Stranger ", seen),
        Refusal::JournalFull => Piece::Word(b"11 JournalFull"),
        Refusal::QueueFull => Piece::Word(b"12 QueueFull"),
        Refusal::OrderNumbers => Piece::Word(b"13 OrderNumbers"),
        Refusal::Count(field) => Piece::Text(b"14 Count ", field_name(field)),
        Refusal::Total(field) => Piece::Text(b"15 Total ", field_name(field)),
        Refusal::NoMemory => Piece::Word(b"16 NoMemory"),
    }
}

fn field_name(field: Field) -> &'static [u8]
    ensures { result.now ≡ screens.field_name field }
{
    match field {
        Field::PaymentCount => b"PaymentCount",
        Field::DeliveryCount => b"DeliveryCount",
        Field::StockOrders => b"StockOrders",
        Field::RemoteOrders => b"RemoteOrders",
        Field::WarehouseYtd => b"WarehouseYtd",
        Field::DistrictYtd => b"DistrictYtd",
        Field::Balance => b"Balance",
        Field::YtdPayment => b"YtdPayment",
        Field::StockYtd => b"StockYtd",
    }
}
