//! The command line as `clap` reads it: its commands, their options, and what help says of each.

use clap::builder::ValueParser;
use clap::{Arg, ArgAction, Command};
use std::alloc::{AllocError, Global};
use tpcc_money::Moment;
use tpcc_run::{GREATEST_TERMINAL, MOST_CARDS, MOST_SERVERS, MOST_TERMINALS};

// What `--show` may ask for of a script: the parts of a book that are no table, and behind them its tables.
const PARTS: &[&str] = &[
    "screens",
    "report",
    "journal",
    "results",
    "check",
    "WAREHOUSE",
    "DISTRICT",
    "CUSTOMER",
    "HISTORY",
    "ORDER",
    "ORDER-LINE",
    "NEW-ORDER",
    "ITEM",
    "STOCK",
];

// What it may ask for of a run, which alone keeps receipts.
const RUN_PARTS: &[&str] = &[
    "screens",
    "report",
    "journal",
    "receipts",
    "results",
    "check",
    "WAREHOUSE",
    "DISTRICT",
    "CUSTOMER",
    "HISTORY",
    "ORDER",
    "ORDER-LINE",
    "NEW-ORDER",
    "ITEM",
    "STOCK",
];

// Where the tables begin, which are what `dump` may write.
const FIRST_TABLE: usize = 5;

// The greatest number that `clap` is to let through, where the number is judged when it is read.
const ANY: i64 = u32::MAX as i64;

// An option or an argument, and what help says of it. Help can't take a range from a constant.
#[derive(Clone, Copy)]
struct Word {
    name: &'static str,
    action: ArgAction,
    value: ValueParser<'static>,
    value_name: &'static str,
    help: &'static str,
    // With two hyphens before its name; else it stands alone and has to be there.
    is_option: bool,
}

const OPENING: &[Word] = &[
    Word {
        name: "warehouses",
        action: ArgAction::Set,
        value: ValueParser::Signed(0, ANY),
        value_name: "N",
        help: "Warehouses: 1 to 100, else 1",
        is_option: true,
    },
    Word {
        name: "customers",
        action: ArgAction::Set,
        value: ValueParser::Signed(0, ANY),
        value_name: "N",
        help: "Customers of each district: 10 to 3000 by tens, else 10",
        is_option: true,
    },
    Word {
        name: "items",
        action: ArgAction::Set,
        value: ValueParser::Signed(0, ANY),
        value_name: "N",
        help: "Items: 100 to 100000, else 100",
        is_option: true,
    },
    Word {
        name: "seed",
        action: ArgAction::Set,
        value: ValueParser::Unsigned(0, u64::MAX),
        value_name: "N",
        help: "From which all is drawn: 0 to 18446744073709551615, else 1",
        is_option: true,
    },
    Word {
        name: "moment",
        action: ArgAction::Set,
        value: ValueParser::Signed(0, Moment::LAST_SECOND as i64),
        value_name: "N",
        help: "Seconds since 1970: 0 to 4102444799, else 0",
        is_option: true,
    },
    Word {
        name: "seeded",
        action: ArgAction::SetTrue,
        value: ValueParser::Bool,
        value_name: "",
        help: "Draws the opening from the seed; else it is plain",
        is_option: true,
    },
];

const TIME: Word = Word {
    name: "time",
    action: ArgAction::SetTrue,
    value: ValueParser::Bool,
    value_name: "",
    help: "Tells on standard error how long the opening and the requests took",
    is_option: true,
};

const CARDS: Word = Word {
    name: "cards",
    action: ArgAction::Set,
    value: ValueParser::Signed(0, MOST_CARDS as i64),
    value_name: "N",
    help: "Requests of each terminal: 0 to 100000, else 23",
    is_option: true,
};

const SCRIPT: &[Word] = &[
    TIME,
    Word {
        name: "show",
        action: ArgAction::Append,
        value: ValueParser::Names(PARTS),
        value_name: "PART",
        help: "What goes to standard output, up to 16 times",
        is_option: true,
    },
];

const DUMP: &[Word] = &[Word {
    name: "table",
    action: ArgAction::Set,
    value: ValueParser::Names(PARTS),
    value_name: "table",
    help: "The table whose rows are written",
    is_option: false,
}];

const RUN: &[Word] = &[
    TIME,
    Word {
        name: "terminals",
        action: ArgAction::Set,
        value: ValueParser::Signed(1, MOST_TERMINALS as i64),
        value_name: "N",
        help: "Terminals that ask: 1 to 999, else 2",
        is_option: true,
    },
    Word {
        name: "servers",
        action: ArgAction::Set,
        value: ValueParser::Signed(1, MOST_SERVERS as i64),
        value_name: "N",
        help: "Threads that serve: 1 to 16, else 1",
        is_option: true,
    },
    CARDS,
    Word {
        name: "retire",
        action: ArgAction::Set,
        value: ValueParser::Signed(0, ANY),
        value_name: "N",
        help: "Jobs of each server but the first: 0 to 100000, else 0, without end",
        is_option: true,
    },
    Word {
        name: "direct",
        action: ArgAction::SetTrue,
        value: ValueParser::Bool,
        value_name: "",
        help: "Lets each terminal make its own turns, with no server",
        is_option: true,
    },
    Word {
        name: "show",
        action: ArgAction::Append,
        value: ValueParser::Names(RUN_PARTS),
        value_name: "PART",
        help: "What goes to standard output, up to 16 times",
        is_option: true,
    },
];

const REQUESTS: &[Word] = &[
    Word {
        name: "terminal",
        action: ArgAction::Set,
        value: ValueParser::Signed(1, GREATEST_TERMINAL as i64),
        value_name: "N",
        help: "The terminal that asks: 1 to 1000, else 1",
        is_option: true,
    },
    CARDS,
];

// A command's name and, behind the words of the opening, its own.
#[derive(Clone, Copy)]
struct CommandWords {
    name: &'static str,
    words: &'static [Word],
}

const COMMANDS: &[CommandWords] = &[
    CommandWords {
        name: "script",
        words: SCRIPT,
    },
    CommandWords {
        name: "dump",
        words: DUMP,
    },
    CommandWords {
        name: "requests",
        words: REQUESTS,
    },
    CommandWords {
        name: "run",
        words: RUN,
    },
];

// The one argument is the table of `dump`. A constant can't name a part of another, so what it may be is told here.
fn placed<'a>(arg: Arg<'a>, word: &Word) -> Arg<'a> {
    if word.is_option {
        arg.long(word.name)
    } else {
        arg.required(true).value_parser(&PARTS[FIRST_TABLE..])
    }
}

fn argument<'a>(alloc: Global, word: &Word) -> Arg<'a> {
    Arg::new(alloc, word.name)
        .action(word.action)
        .value_parser(word.value)
        .value_name(word.value_name)
        .help(word.help)
}

fn with_words<'a>(
    alloc: Global,
    command: Command<'a>,
    words: &[Word],
) -> Result<Command<'a>, AllocError> {
    let mut command = command;
    for word in words {
        command = command.arg(placed(argument(alloc, word), word))?;
    }
    Ok(command)
}

fn command<'a>(alloc: Global, its: &CommandWords) -> Result<Command<'a>, AllocError> {
    let command = with_words(alloc, Command::new(alloc, its.name), OPENING)?;
    with_words(alloc, command, its.words)
}

/// The program's words, as `clap` reads them.
pub(crate) fn program<'a>(alloc: Global) -> Result<Command<'a>, AllocError> {
    let mut program = Command::new(alloc, "tpcc")
        .version("0.1.0")
        .subcommand_required(true);
    for its in COMMANDS {
        program = program.subcommand(command(alloc, its)?)?;
    }
    Ok(program)
}
