//! Text that is shown at a terminal.
ghost use Rattle.std.specs.Prelude.{◌≡◌, ◌++◌, [], ℕ, List, IfOk, OnOk, Some};
ghost use Rattle.tpcc_text.specs.Internal.Adding.{Adds};
ghost use Rattle.tpcc_text.specs.Internal.Pieces.{piece_text, pieces_text};
ghost use Rattle.tpcc_text.specs.Screens.{address_text};

pub(crate) mod answers;
mod delivery;
mod new_order;
mod order_status;
mod payment;
pub(crate) mod pieces;
mod refusal;
pub(crate) mod report;
mod stock_level;

use crate::screens::pieces::Piece;
use itoa::{Buffer, Integer};
use std::alloc::Global;
use std::fmt::Display;
use std::io::Write;
use std::marker::Model;
use tpcc_rows::{Address, NoMemory};

/// For how many bytes there is room at once: those of most replies, so that their text grows in place.
const REPLY_ROOM: usize = 1_024;

/// Lines of ASCII text, each ended by a line feed.
#[derive(Drop)]
pub struct Screen {
    /// The lines up to now.
    bytes: Vec<u8>,
}

impl Model for Screen {
    ghost use Rattle.std.specs.Prelude.{ℕ, List};

    ghost Value = { List ℕ };

    ghost view = { λ s. s.bytes.items };
}

impl Screen {
    /// The bytes to be shown.
    pub fn bytes(&self) -> &[u8]
        ensures { result.now ≡ self.now }
    {
        self.bytes.as_slice()
    }

    pub(crate) fn new(alloc: Global) -> Screen
        ensures { result ≡ [] }
    {
        Screen {
            bytes: Vec::new(alloc),
        }
    }

    /// A screen with no line yet, and room for most replies.
    pub(crate) fn with_room(alloc: Global) -> Result<Screen, NoMemory>
        ensures { IfOk result (λ screen. screen ≡ []) }
    {
        Ok(Screen {
            bytes: Vec::with_capacity(alloc, REPLY_ROOM)?,
        })
    }

    /// A screen of these pieces; refused only for want of memory.
    pub(crate) fn of(alloc: Global, pieces: &[Piece<'_>]) -> Result<Screen, NoMemory>
        ensures { IfOk result (λ screen. screen ≡ pieces_text pieces.now) }
    {
        let mut screen = Screen::new(alloc);
        screen.put_all(pieces)?;
        Ok(screen)
    }

    /// Adds pieces, one behind another.
    pub(crate) fn put_all(&mut self, pieces: &[Piece<'_>]) -> Result<(), NoMemory>
        ensures { OnOk result (Adds self.old self.new (pieces_text pieces.now)) }
    {
        for piece in pieces {
            self.put_piece(piece)?;
        }
        Ok(())
    }

    fn put_piece(&mut self, piece: &Piece<'_>) -> Result<(), NoMemory>
        ensures { OnOk result (Adds self.old self.new (piece_text piece.now)) }
    {
        match piece {
            Piece::Word(word) => self.put(word),
            Piece::Text(name, text) => self.put_text(name, text),
            Piece::Number(name, number) => self.put_number(name, *number),
            Piece::Count(name, count) => self.put_number(name, *count),
            Piece::Amount(name, amount) => self.put_shown(name, amount),
            Piece::Rate(name, rate) => self.put_shown(name, rate),
            Piece::Moment(name, moment) => self.put_shown(name, moment),
            Piece::Address(name, address) => self.put_address(name, address),
        }
    }

    /// Adds bytes as they are.
    pub(crate) fn put(&mut self, text: &[u8]) -> Result<(), NoMemory>
        ensures { OnOk result (Adds self.old self.new text.now) }
    {
        self.bytes.extend_from_slice(text)?;
        Ok(())
    }

    fn put_text(&mut self, name: &[u8], text: &[u8]) -> Result<(), NoMemory>
        ensures { OnOk result (Adds self.old self.new (name.now ++ text.now)) }
    {
        self.put(name)?;
        self.put(text)
    }

    fn put_number<I: Integer>(&mut self, name: &[u8], number: I) -> Result<(), NoMemory>
        ensures { OnOk result (Adds self.old self.new (name.now ++ I.text number)) }
    {
        let mut digits = Buffer::new();
        self.put_text(name, digits.format(number).as_bytes())
    }

    fn put_shown<T: Display>(&mut self, name: &[u8], value: &T) -> Result<(), NoMemory>
        ensures { (text : List ℕ) → T.output value.now ≡ Some text
            → OnOk result (Adds self.old self.new (name.now ++ text)) }
    {
        self.put(name)?;
        match write!(self.bytes, "{value}") {
            Ok(()) => Ok(()),
            Err(_) => Err(NoMemory),
        }
    }

    fn put_address(&mut self, name: &[u8], address: &Address) -> Result<(), NoMemory>
        ensures { OnOk result (Adds self.old self.new (name.now ++ address_text address.now)) }
    {
        self.put_text(name, address.street_1.bytes())?;
        self.put_text(b",", address.street_2.bytes())?;
        self.put_text(b",", address.city.bytes())?;
        self.put_text(b",", address.state.bytes())?;
        self.put_text(b",", address.zip.bytes())
    }
}
