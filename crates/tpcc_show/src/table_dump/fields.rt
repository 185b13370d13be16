//! The fields of one record.
ghost use Rattle.std.specs.Prelude.{◌≡◌, ◌++◌, ◌∷◌, [], ℕ, List, OnOk, Some, decimal, map, flat_map};
ghost use Rattle.csv.specs.Records.{fields_of, partial_of};
ghost use Rattle.tpcc_show.specs.Internal.Fields.{field_texts};
ghost use Rattle.tpcc_show.specs.Records as records;

use csv::ByteRecord;
use itoa::Buffer;
use std::alloc::Global;
use std::fmt::Display;
use std::io::Write;
use std::marker::Model;
use tpcc_money::{Cents, Moment, Rate};
use tpcc_rows::{Address, NoMemory, Text};

/// What a field shows, or several in a row.
#[derive(Clone, Copy)]
pub enum Field<'a> {
    /// A text.
    Text(&'a [u8]),
    /// A number in decimal.
    Number(u32),
    /// An amount with two decimals.
    Amount(Cents),
    /// A rate with four decimals.
    Rate(Rate),
    /// A moment as `1970-01-01T00:00:00`.
    Moment(Moment),
    /// The five fields of an address.
    Address(&'a Address),
    /// A field for each text.
    Texts(&'a [Text<24>]),
}

/// A number, or an empty field where it is null.
pub fn nullable_number(number: Option<u32>) -> Field<'static>
    ensures { field_texts result ≡ records.nullable_number number ∷ [] }
{
    match number {
        Some(number) => Field::Number(number),
        None => Field::Text(b""),
    }
}

/// A moment, or an empty field where it is null.
pub fn nullable_moment(moment: Option<Moment>) -> Field<'static>
    ensures { field_texts result ≡ records.nullable_moment moment ∷ [] }
{
    match moment {
        Some(moment) => Field::Moment(moment),
        None => Field::Text(b""),
    }
}

/// 1 for true, 0 for false.
pub fn flag(flag: bool) -> Field<'static>
    ensures { field_texts result ≡ records.flag flag ∷ [] }
{
    Field::Text(if flag { b"1" } else { b"0" })
}

/// One more field of a record; a record that is refused memory has none.
fn push(row: &mut ByteRecord, text: &[u8]) -> Result<(), NoMemory>
    requires { partial_of row.old ≡ [] }
    ensures field { OnOk result (fields_of row.new ≡ fields_of row.old ++ text.now ∷ []) }
    ensures whole { partial_of row.new ≡ [] }
{
    match row.push_field(text) {
        Ok(()) => Ok(()),
        Err(_) => {
            row.clear();
            Err(NoMemory)
        }
    }
}

/// Whole fields, one behind another.
#[derive(Drop)]
pub struct Fields {
    /// The fields as `csv` keeps them.
    row: ByteRecord,
    /// What is shown of a value, whose memory serves the next one too.
    shown: Vec<u8>,
}

impl Model for Fields {
    ghost use Rattle.std.specs.Prelude.{ℕ, List, ◌≡◌, []};
    ghost use Rattle.csv.specs.Records.{fields_of, partial_of};

    ghost Value = { List (List ℕ) };

    ghost view = { λ f. fields_of f.row };

    ghost invariant = { λ f. partial_of f.row ≡ [] };
}

impl Fields {
    /// An empty record.
    pub fn new(alloc: Global) -> Fields
        ensures { result ≡ [] }
    {
        Fields {
            row: ByteRecord::new(alloc),
            shown: Vec::new(alloc),
        }
    }

    /// The fields as a record.
    pub fn whole(&self) -> &ByteRecord
        ensures { fields_of result.now ≡ self.now }
    {
        &self.row
    }

    // Takes all fields away; their memory is used again.
    fn clear(&mut self)
        ensures { self.new ≡ [] }
    {
        self.row.clear();
    }

    // Adds a field of these bytes.
    fn put(&mut self, text: &[u8]) -> Result<(), NoMemory>
        ensures { OnOk result (self.new ≡ self.old ++ text.now ∷ []) }
    {
        push(&mut self.row, text)
    }

    /// Adds a field for each name.
    pub fn put_names(&mut self, names: &[&str]) -> Result<(), NoMemory>
        ensures { OnOk result (self.new ≡ self.old ++ map (λ name. name.now) names.now) }
    {
        for name in names {
            self.put(name.as_bytes())?;
        }
        Ok(())
    }

    /// Makes these the whole record.
    pub fn set(&mut self, fields: &[Field<'_>]) -> Result<(), NoMemory>
        ensures { OnOk result (self.new ≡ flat_map field_texts fields.now) }
    {
        self.clear();
        for field in fields {
            self.put_field(field)?;
        }
        Ok(())
    }

    fn put_field(&mut self, field: &Field<'_>) -> Result<(), NoMemory>
        ensures { OnOk result (self.new ≡ self.old ++ field_texts field.now) }
    {
        match field {
            Field::Text(text) => self.put(text),
            Field::Number(number) => self.put_number(*number),
            Field::Amount(amount) => self.put_shown(amount),
            Field::Rate(rate) => self.put_shown(rate),
            Field::Moment(moment) => self.put_shown(moment),
            Field::Address(address) => self.put_address(address),
            Field::Texts(texts) => self.put_texts(texts),
        }
    }

    fn put_number(&mut self, number: u32) -> Result<(), NoMemory>
        ensures { OnOk result (self.new ≡ self.old ++ decimal number ∷ []) }
    {
        let mut digits = Buffer::new();
        self.put(digits.format(number).as_bytes())
    }

    fn put_shown<T: Display>(&mut self, value: &T) -> Result<(), NoMemory>
        ensures { (text : List ℕ) → T.output value.now ≡ Some text
            → OnOk result (self.new ≡ self.old ++ text ∷ []) }
    {
        self.shown.clear();
        if write!(self.shown, "{value}").is_err() {
            return Err(NoMemory);
        }
        push(&mut self.row, self.shown.as_slice())
    }

    fn put_address(&mut self, address: &Address) -> Result<(), NoMemory>
        ensures { OnOk result (self.new ≡ self.old ++ records.address_fields address.now) }
    {
        self.put(address.street_1.bytes())?;
        self.put(address.street_2.bytes())?;
        self.put(address.city.bytes())?;
        self.put(address.state.bytes())?;
        self.put(address.zip.bytes())
    }

    fn put_texts(&mut self, texts: &[Text<24>]) -> Result<(), NoMemory>
        ensures { OnOk result (self.new ≡ self.old ++ texts.now) }
    {
        for text in texts {
            self.put(text.bytes())?;
        }
        Ok(())
    }
}
