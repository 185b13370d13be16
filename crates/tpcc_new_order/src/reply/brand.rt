//! The brand of a line (2.4.2.2).
ghost use Rattle.std.specs.Prelude.{◌≡◌, codes, nat_eq};
ghost use Rattle.std.specs.List.{list_any};
ghost use Rattle.tpcc_rows.specs.Lists.{has_text};
ghost use Rattle.tpcc_rows.specs.NewOrder.{brand_of};

use tpcc_rows::{Brand, ItemRow, StockRow};

/// Whether a byte stands in ORIGINAL.
fn is_of_original(byte: u8) -> bool
    ensures { result ≡ list_any (nat_eq byte) (codes "ORIGINAL") }
{
    matches!(byte, b'O' | b'R' | b'I' | b'G' | b'N' | b'A' | b'L')
}

/// Whether ORIGINAL stands somewhere in the bytes. Where the eighth byte is not of it, it stands in
/// none of the first eight places.
fn has_original(bytes: &[u8]) -> bool
    ensures { result ≡ has_text (codes "ORIGINAL") bytes.now }
{
    let Some(eighth) = bytes.get(7) else {
        return false;
    };
    if !is_of_original(*eighth) {
        return has_original(&bytes[8..]);
    }
    if bytes.starts_with(b"ORIGINAL".as_slice()) {
        return true;
    }
    has_original(&bytes[1..])
}

/// B where I_DATA and S_DATA both contain ORIGINAL, else G.
pub fn brand(item: &ItemRow, stock: &StockRow) -> Brand
    ensures { result ≡ brand_of item.now stock.now }
{
    if has_original(item.information.bytes()) && has_original(stock.information.bytes()) {
        Brand::Original
    } else {
        Brand::Generic
    }
}
