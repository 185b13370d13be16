//! The names of customers, kept in order so that those of one last name are found by halves.
ghost use Rattle.std.specs.Prelude.{[], ◌≡◌, ◌≤◌, IfOk, OnOk, OnErr, List, filter, length, map, not, true};
ghost use Rattle.std.specs.List.{prefix_len};
ghost use Rattle.std.specs.Ordering.{is_lt, is_gt};
ghost use Rattle.tpcc_rows.specs.Lists.{inserted};
ghost use Rattle.tpcc_storage.specs.Names.{last_cmp, name_cmp, name_before, name_of, names_of, is_named, middle_id};
ghost use Rattle.tpcc_storage.specs.Internal.Names.{is_in_order};

use std::alloc::Global;
use std::cmp::Ordering;
use std::marker::Model;
use tpcc_rows::{CustomerRow, NoMemory, Text};

/// What the order of names looks at in a customer.
#[derive(Clone, Copy)]
pub struct CustomerName {
    /// C_W_ID.
    pub warehouse: u32,
    /// C_D_ID.
    pub district: u32,
    /// C_LAST.
    pub last: Text<16>,
    /// C_FIRST.
    pub first: Text<16>,
    /// C_ID.
    pub id: u32,
}

impl CustomerName {
    /// The name of a customer.
    pub fn of(row: &CustomerRow) -> CustomerName
        ensures { result ≡ name_of row.now }
    {
        CustomerName {
            warehouse: row.warehouse,
            district: row.district,
            last: row.last,
            first: row.first,
            id: row.id,
        }
    }

    /// Against the names of a district with a last name.
    fn compare_last(&self, warehouse: u32, district: u32, last: &[u8]) -> Ordering
        ensures { result ≡ last_cmp self.now warehouse district last.now }
    {
        let by_district = self
            .warehouse
            .cmp(&warehouse)
            .then(self.district.cmp(&district));
        match by_district {
            Ordering::Equal => self.last.bytes().cmp(last),
            unequal => unequal,
        }
    }

    fn compare(&self, other: &CustomerName) -> Ordering
        ensures { result ≡ name_cmp self.now other.now }
    {
        let by_last = self.compare_last(other.warehouse, other.district, other.last.bytes());
        let by_first = self.first.bytes().cmp(other.first.bytes());
        by_last.then(by_first.then(self.id.cmp(&other.id)))
    }

    fn is_after(&self, warehouse: u32, district: u32, last: &[u8]) -> bool
        ensures { result ≡ is_gt (last_cmp self.now warehouse district last.now) }
    {
        self.compare_last(warehouse, district, last) == Ordering::Greater
    }
}

/// The names of customers, in the order of districts, last names, first names and numbers.
#[derive(Drop)]
pub struct Names {
    names: Vec<CustomerName>,
}

impl Model for Names {
    ghost use Rattle.std.specs.Prelude.{List, ◌≡◌, true};
    ghost use Rattle.tpcc_storage.specs.declared.names.CustomerName.{CustomerName};
    ghost use Rattle.tpcc_storage.specs.Names.{name_before};
    ghost use Rattle.tpcc_storage.specs.Internal.Names.{is_in_order};

    ghost Value = { List CustomerName };

    ghost view = { λ n. n.names.items };

    ghost invariant = { λ n. is_in_order name_before n.names.items ≡ true };
}

/// How many names stand before the first one that comes after a new name, searched by halves.
fn place_for(names: &[CustomerName], added: &CustomerName) -> usize
    requires order { is_in_order name_before names.now ≡ true }
    ensures { result ≡ prefix_len (λ name. not (name_before added.now name)) names.now }
{
    names.partition_point(
        |name: &CustomerName| -> bool
            ensures { result ≡ not (name_before added.entry.now name.now) }
        { added.compare(name) != Ordering::Less },
    )
}

/// Puts a name at its place; refuses only for want of memory.
fn insert(names: &mut Vec<CustomerName>, added: CustomerName) -> Result<(), NoMemory>
    requires order { is_in_order name_before names.old.items ≡ true }
    ensures inserted { OnOk result (names.new.items ≡ inserted name_before added names.old.items) }
    ensures same { OnErr result (names.new.items ≡ names.old.items) }
    ensures order { is_in_order name_before names.new.items ≡ true }
{
    let place = place_for(names.as_slice(), &added);
    names.insert(place, added)?;
    Ok(())
}

/// How many names stand before those of a last name, searched by halves.
fn start_of(names: &[CustomerName], warehouse: u32, district: u32, last: &[u8]) -> usize
    requires order { is_in_order name_before names.now ≡ true }
    ensures within { result ≤ length names.now }
    ensures start { result
        ≡ prefix_len (λ name. is_lt (last_cmp name warehouse district last.now)) names.now }
{
    names.partition_point(
        |name: &CustomerName| -> bool
            ensures { result ≡ is_lt (last_cmp name.now warehouse district last.entry.now) }
        { name.compare_last(warehouse, district, last) == Ordering::Less },
    )
}

/// How many names stand before the first one after those of a last name, looked for from their first one on: few share one.
fn end_of(names: &[CustomerName], warehouse: u32, district: u32, last: &[u8], start: usize) -> usize
    requires start { start
        ≤ prefix_len (λ name. not (is_gt (last_cmp name warehouse district last.now))) names.now }
    ensures within { result ≤ length names.now }
    ensures end { result
        ≡ prefix_len (λ name. not (is_gt (last_cmp name warehouse district last.now))) names.now }
{
    for end in start..names.len() {
        if names[end].is_after(warehouse, district, last) {
            return end;
        }
    }
    names.len()
}

/// Where the names of a last name begin and end.
fn place_of(names: &[CustomerName], warehouse: u32, district: u32, last: &[u8]) -> (usize, usize)
    requires order { is_in_order name_before names.now ≡ true }
    ensures order { result.0 ≤ result.1 }
    ensures within { result.1 ≤ length names.now }
    ensures start { result.0
        ≡ prefix_len (λ name. is_lt (last_cmp name warehouse district last.now)) names.now }
    ensures end { result.1
        ≡ prefix_len (λ name. not (is_gt (last_cmp name warehouse district last.now))) names.now }
{
    let start = start_of(names, warehouse, district, last);
    let end = end_of(names, warehouse, district, last, start);
    (start, end)
}

/// The names of a last name, in order of first names.
fn names_with_last<'a>(
    names: &'a [CustomerName],
    warehouse: u32,
    district: u32,
    last: &[u8],
) -> &'a [CustomerName]
    requires order { is_in_order name_before names.now ≡ true }
    ensures { result.now ≡ filter (is_named warehouse district last.now) names.now }
{
    let (start, end) = place_of(names, warehouse, district, last);
    &names[start..end]
}

/// The names of customers, in the order of their rows.
fn all_of(rows: &[CustomerRow], alloc: Global) -> Result<Vec<CustomerName>, NoMemory>
    ensures { IfOk result (λ names. names.items ≡ map name_of rows.now) }
{
    Ok(rows.iter().map(|row| CustomerName::of(row)).collect(alloc)?)
}

/// The names of customers, in order.
fn sort_names(rows: &[CustomerRow], alloc: Global) -> Result<Vec<CustomerName>, NoMemory>
    ensures names { IfOk result (λ names. names.items ≡ names_of rows.now) }
    ensures order { IfOk result (λ names. is_in_order name_before names.items ≡ true) }
{
    let mut names = all_of(rows, alloc)?;
    names.sort_unstable_by(|a, b| a.compare(b));
    Ok(names)
}

impl Names {
    /// No names.
    pub fn new(alloc: Global) -> Names
        ensures { result ≡ [] }
    {
        Names {
            names: Vec::new(alloc),
        }
    }

    /// The names of customers.
    pub fn of(rows: &[CustomerRow], alloc: Global) -> Result<Names, NoMemory>
        ensures { IfOk result (λ names. names ≡ names_of rows.now) }
    {
        let names = sort_names(rows, alloc)?;
        Ok(Names { names })
    }

    /// Puts the name of a new customer at its place; refuses only for want of memory.
    pub fn load(&mut self, row: &CustomerRow) -> Result<(), NoMemory>
        ensures loaded { OnOk result (self.new ≡ inserted name_before (name_of row.now) self.old) }
        ensures same { OnErr result (self.new ≡ self.old) }
    {
        insert(&mut self.names, CustomerName::of(row))
    }

    /// The number of the middle one of a district's customers with a last name, by first name and number.
    pub fn middle(&self, warehouse: u32, district: u32, last: &[u8]) -> Option<u32>
        ensures { result ≡ middle_id warehouse district last.now self.now }
    {
        let named = names_with_last(self.names.as_slice(), warehouse, district, last);
        let middle = named.get(named.len().saturating_sub(1) / 2)?;
        Some(middle.id)
    }
}
