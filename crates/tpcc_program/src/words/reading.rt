//! What the words of the command line ask, and how they are read.
ghost use Rattle.std.specs.Prelude.{◌≡◌, ◌≤◌, IfOk};
ghost use Rattle.tpcc_program.specs.Tasks.{HasPlan};
ghost use Rattle.tpcc_run.specs.Plans.{IsPlan, IsService};

use crate::command::{Command, RequestsCommand, Task};
use crate::words::fault::WordsFault;
use crate::words::options::program;
use clap::error::ErrorKind;
use clap::{ArgMatches, Error};
use std::alloc::Global;
use std::convert::AsStr;
use std::str::FromStr;
use tpcc_money::Moment;
use tpcc_run::{
    GREATEST_RETIRE, GREATEST_TERMINAL, MOST_CARDS, MOST_SERVERS, MOST_TERMINALS, Plan, Service,
};
use tpcc_show::{ShownParts, part_named, table_named};

// How many times `--show` is taken.
const MOST_SHOWS: usize = 16;

// Whether a number that `clap` took is written as one in a script: with no sign and no needless zero before it.
fn is_plain(word: &[u8]) -> bool {
    matches!(word, [_] | [b'1'..=b'9', ..])
}

// The number of an option, none where it is not among the words.
fn read_number<T: FromStr>(matches: &ArgMatches<'_>, name: &str) -> Result<Option<T>, WordsFault>
where
    T::Err: Drop,
{
    match matches.get_str(name) {
        Some(word) if !is_plain(word.as_bytes()) => Err(WordsFault::Arguments),
        _ => Ok(matches.get_one::<T>(name)),
    }
}

// A number of an option's range.
fn in_range(value: Option<u32>, default: u32, low: u32, high: u32) -> Result<u32, WordsFault>
    ensures least { IfOk result (λ n. low ≤ n) }
    ensures most { IfOk result (λ n. n ≤ high) }
{
    let value = value.unwrap_or(default);
    if value < low || high < value {
        return Err(WordsFault::Arguments);
    }
    Ok(value)
}

// Neither the number of servers nor when they retire stands beside `--direct`.
fn read_service(matches: &ArgMatches<'_>) -> Result<Service, WordsFault>
    ensures service { IfOk result IsService }
{
    let servers = read_number::<u32>(matches, "servers")?;
    let retire = read_number::<u32>(matches, "retire")?;
    if !matches.get_flag("direct") {
        let count = in_range(servers, 1, 1, MOST_SERVERS)?;
        let retire = in_range(retire, 0, 0, GREATEST_RETIRE)?;
        return Ok(Service::Servers { count, retire });
    }
    if servers.is_some() || retire.is_some() {
        return Err(WordsFault::Arguments);
    }
    Ok(Service::Direct)
}

fn read_plan(matches: &ArgMatches<'_>) -> Result<Plan, WordsFault>
    ensures plan { IfOk result IsPlan }
{
    let terminals = in_range(
        read_number::<u32>(matches, "terminals")?,
        2,
        1,
        MOST_TERMINALS,
    )?;
    let service = read_service(matches)?;
    let cards = in_range(read_number::<u32>(matches, "cards")?, 23, 0, MOST_CARDS)?;
    Ok(Plan {
        terminals,
        service,
        cards,
        seed: read_seed(matches)?,
        moment: read_moment(matches)?,
    })
}

fn read_asking(matches: &ArgMatches<'_>) -> Result<RequestsCommand, WordsFault>
    ensures asking { IfOk result (λ asking. 1 ≤ asking.terminal) }
{
    Ok(RequestsCommand {
        terminal: in_range(
            read_number::<u32>(matches, "terminal")?,
            1,
            1,
            GREATEST_TERMINAL,
        )?,
        cards: in_range(read_number::<u32>(matches, "cards")?, 23, 0, MOST_CARDS)?,
    })
}

// Adds a part where there is room for one more.
fn add_show(shows: &mut ShownParts, word: &str) -> Result<(), WordsFault> {
    match part_named(word.as_bytes()) {
        Some(part) if shows.len() < MOST_SHOWS => {
            shows.push(part);
            Ok(())
        }
        _ => Err(WordsFault::Arguments),
    }
}

fn read_shows(matches: &ArgMatches<'_>) -> Result<ShownParts, WordsFault> {
    let mut shows = ShownParts::empty();
    if let Some(words) = matches.get_strs("show") {
        for word in words {
            add_show(&mut shows, word)?;
        }
    }
    Ok(shows)
}

fn read_seed(matches: &ArgMatches<'_>) -> Result<u64, WordsFault> {
    Ok(read_number::<u64>(matches, "seed")?.unwrap_or(1))
}

fn read_moment(matches: &ArgMatches<'_>) -> Result<Moment, WordsFault> {
    match Moment::try_new(read_number::<u32>(matches, "moment")?.unwrap_or(0)) {
        Some(moment) => Ok(moment),
        None => Err(WordsFault::Arguments),
    }
}

fn read_task(name: &str, matches: &ArgMatches<'_>) -> Result<Task, WordsFault>
    ensures plan { IfOk result HasPlan }
{
    if name == "script" {
        return Ok(Task::Script);
    }
    if name == "run" {
        return Ok(Task::Run(read_plan(matches)?));
    }
    if name == "requests" {
        return Ok(Task::Requests(read_asking(matches)?));
    }
    let Some(table) = matches.get_str("table") else {
        return Err(WordsFault::Arguments);
    };
    match table_named(table.as_bytes()) {
        Some(table) => Ok(Task::Dump(table)),
        None => Err(WordsFault::Arguments),
    }
}

fn read_options(task: Task, matches: &ArgMatches<'_>) -> Result<Command, WordsFault>
    ensures task { IfOk result (λ asked. asked.task ≡ task) }
{
    let moment = read_moment(matches)?;
    let shows = read_shows(matches)?;
    Ok(Command {
        task,
        warehouses: read_number::<u32>(matches, "warehouses")?.unwrap_or(1),
        customers: read_number::<u32>(matches, "customers")?.unwrap_or(10),
        items: read_number::<u32>(matches, "items")?.unwrap_or(100),
        seed: read_seed(matches)?,
        moment,
        seeded: matches.get_flag("seeded"),
        shows,
        timed: matches.get_flag("time"),
    })
}

/// Reads the words, of which the first is the program's name.
///
/// Refused as Arguments where `clap` refuses them, a wish for help or version among it, where no
/// table or part has that name, where a number has a sign or a needless zero before it, where the
/// moment is past the year 2099, where an option of `run` or
/// `requests` is out of its range or `--show` comes more than 16 times, and where `--servers` or `--retire`
/// stands beside `--direct`; as NoMemory for want of memory.
pub(crate) fn read_words<'a, S: AsStr>(alloc: Global, words: &'a [S]) -> Result<Command, WordsFault>
    ensures plan { IfOk result (λ asked. HasPlan asked.task) }
{
    let Ok(command) = program(alloc) else {
        return Err(WordsFault::NoMemory);
    };
    match command.try_get_matches_from(words) {
        Ok(matches) => read_matches(&matches),
        Err(error) => Err(fault_of(&error)),
    }
}

fn read_matches(matches: &ArgMatches<'_>) -> Result<Command, WordsFault>
    ensures plan { IfOk result (λ asked. HasPlan asked.task) }
{
    match matches.subcommand() {
        Some((name, options)) => read_options(read_task(name, options)?, options),
        None => Err(WordsFault::Arguments),
    }
}

fn fault_of(error: &Error) -> WordsFault {
    match error.kind() {
        ErrorKind::OutOfMemory => WordsFault::NoMemory,
        _ => WordsFault::Arguments,
    }
}
