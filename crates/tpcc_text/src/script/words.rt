//! The words of a line.
ghost use Rattle.std.specs.Prelude.{◌≡◌, ◌==◌, ◌<◌, map, position, length, IfOk, IfErr, IfSome, IfNone, List, [], ◌∷◌};
ghost use Rattle.std.specs.List.{list_all};
ghost use Rattle.std.specs.Str.{bytes_eq};
ghost use Rattle.tpcc_text.specs.Internal.Reading.{Gives};
ghost use Rattle.tpcc_text.specs.Script as script;
ghost use Rattle.tpcc_text.specs.Script.{parts_of, number_of, moment_of, cents_of, customer_of};

use crate::script::fault::ParseFault;
use std::alloc::Global;
use tpcc_money::{Cents, Moment, parse_amount, parse_number};
use tpcc_rows::{NoMemory, Text, Who};

fn place_of(bytes: &[u8], divider: u8) -> Option<usize>
    ensures place { result ≡ position (λ byte. byte == divider) bytes.now }
    ensures within { IfSome result (λ place. place < length bytes.now) }
{
    bytes.iter().position(|byte| *byte == divider)
}

/// The first part, and what stands behind its divider.
#[tactic(auto, using(crate::proofs::Parting::one_part))]
fn split_once(bytes: &[u8], divider: u8) -> Option<(&[u8], &[u8])>
    ensures some { IfSome result
        (λ p. parts_of divider bytes.now ≡ p.0.now ∷ parts_of divider p.1.now) }
    ensures less { IfSome result (λ p. length p.1.now < length bytes.now) }
    ensures none { IfNone result (parts_of divider bytes.now ≡ bytes.now ∷ []) }
{
    match place_of(bytes, divider) {
        Some(place) => Some((&bytes[..place], &bytes[place + 1..])),
        None => None,
    }
}

/// The parts between the bytes that divide them.
pub fn split(alloc: Global, bytes: &[u8], divider: u8) -> Result<Vec<&[u8]>, NoMemory>
    ensures { IfOk result (λ v. map (λ part. part.now) v.items ≡ parts_of divider bytes.now) }
{
    let mut parts = Vec::new(alloc);
    let mut rest = bytes;
    while let Some((part, more)) = split_once(rest, divider) {
        parts.push(part)?;
        rest = more;
    }
    parts.push(rest)?;
    Ok(parts)
}

/// Whether a word is this name.
pub fn is_word(word: &[u8], name: &[u8]) -> bool
    ensures { result ≡ bytes_eq word.now name.now }
{
    word == name
}

/// A number of 32 bits.
pub fn number(word: &[u8]) -> Result<u32, ParseFault>
    ensures read { Gives (λ n. n) result (number_of word.now) }
    ensures why { IfErr result (λ f. f ≡ ParseFault.Bad) }
{
    match parse_number(word, u64::from(u32::MAX)) {
        Some(n) => Ok(n as u32),
        None => Err(ParseFault::Bad),
    }
}

/// A moment as seconds since 1970, before the year 2100.
pub fn moment(word: &[u8]) -> Result<Moment, ParseFault>
    ensures read { Gives (λ m. m) result (moment_of word.now) }
    ensures why { IfErr result (λ f. f ≡ ParseFault.Bad) }
{
    match parse_number(word, u64::from(Moment::LAST_SECOND)) {
        Some(n) => Ok(Moment::new(n as u32)),
        None => Err(ParseFault::Bad),
    }
}

/// An amount with two decimals.
pub fn amount(word: &[u8]) -> Result<Cents, ParseFault>
    ensures read { Gives (λ c. c) result (cents_of word.now) }
    ensures why { IfErr result (λ f. f ≡ ParseFault.Bad) }
{
    match parse_amount(word) {
        Ok(cents) => Ok(cents),
        Err(_) => Err(ParseFault::Bad),
    }
}

fn is_capital(byte: u8) -> bool
    ensures { result ≡ script.is_capital byte }
{
    b'A' <= byte && byte <= b'Z'
}

fn are_capitals(bytes: &[u8]) -> bool
    ensures { result ≡ list_all script.is_capital bytes.now }
{
    bytes.iter().all(|byte| is_capital(*byte))
}

fn is_last_name(word: &[u8]) -> bool
    ensures { result ≡ script.is_last_name word.now }
{
    0 < word.len() && word.len() <= 16 && are_capitals(word)
}

/// A customer by C_LAST, if the word is 1 to 16 letters A to Z, else by C_ID.
pub fn customer(word: &[u8]) -> Result<Who, ParseFault>
    ensures { Gives (λ w. w) result (customer_of word.now) }
{
    if is_last_name(word) {
        return Ok(Who::Name(Text::of(word)));
    }
    let number = number(word)?;
    Ok(Who::Number(number))
}
