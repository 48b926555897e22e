//! The command line: the commands with their words, options and help.
use clap::error::ErrorKind;
use clap::{Arg, ArgAction, ArgMatches, Command, Error, value_parser};
use oa_journal::{LEAST_BANK_BYTES, MOST_BANK_BYTES};
use oa_model::MAX_GROUP;
use std::alloc::{AllocError, Global};

/// Returns a required word.
fn word<'a>(alloc: Global, name: &'a str, help: &'a str) -> Arg<'a> {
    Arg::new(alloc, name).required(true).help(help)
}

/// Returns the word for the file of a library.
fn library<'a>(alloc: Global) -> Arg<'a> {
    word(
        alloc,
        "LIB",
        "The file of a type library: automation IDL in UTF-8, one library statement with its dispinterfaces and coclasses",
    )
}

/// Returns the word for the file of a library, or standard input.
fn library_or_input<'a>(alloc: Global) -> Arg<'a> {
    word(
        alloc,
        "LIB",
        "The file of a type library: automation IDL in UTF-8, one library statement with its dispinterfaces and coclasses, or - for standard input",
    )
}

/// Returns an option without a value.
fn flag<'a>(alloc: Global, name: &'a str, help: &'a str) -> Arg<'a> {
    Arg::new(alloc, name)
        .long(name)
        .action(ArgAction::SetTrue)
        .help(help)
}

/// Returns a command without arguments.
fn named<'a>(alloc: Global, name: &'a str, about: &'a str, more: &'a str) -> Command<'a> {
    Command::new(alloc, name).about(about).after_help(more)
}

/// Returns the option for lines of hexadecimal digits.
fn hex<'a>(alloc: Global) -> Arg<'a> {
    flag(
        alloc,
        "hex",
        "Read one request per line in hexadecimal digits, and write each reply as such a line",
    )
}

/// Returns the option for sessions of many clients, whose requests are records. Err: an allocation
/// failed.
fn shared<'a>(alloc: Global) -> Result<Arg<'a>, AllocError> {
    flag(
        alloc,
        "shared",
        "Read the records of many clients in frames, and write each reply in a frame of its client",
    )
    .conflicts_with("hex")
}

/// Returns the command `play`. Err: an allocation failed.
fn play<'a>(alloc: Global) -> Result<Command<'a>, AllocError> {
    named(
        alloc,
        "play",
        "Executes requests from standard input, with objects in memory",
        "Each request and each reply is a record: a length in 4 bytes, little-endian, and that many bytes. A frame is the number of a client and a length, 4 bytes each, and that many bytes of the client's records.\n\nExample, four requests and their replies as lines:\n  oaut play examples/small.idl --hex < examples/first.hex",
    )
    .arg(library(alloc))?
    .arg(hex(alloc))?
    .arg(shared(alloc)?)
}

/// Returns the option for the place of a syntax error.
fn place<'a>(alloc: Global) -> Arg<'a> {
    flag(
        alloc,
        "where",
        "After a syntax error, print its line and column, the text of that line, and a caret under the place",
    )
}

/// Returns the command `check`. Err: an allocation failed.
fn check<'a>(alloc: Global) -> Result<Command<'a>, AllocError> {
    named(
        alloc,
        "check",
        "Checks a type library, and prints its canonical text",
        "Examples:\n  oaut check examples/full.idl\n  oaut check --where - < examples/full.idl",
    )
    .arg(library_or_input(alloc))?
    .arg(place(alloc))
}

/// Returns the command `format`. Err: an allocation failed.
fn format<'a>(alloc: Global) -> Result<Command<'a>, AllocError> {
    named(
        alloc,
        "format",
        "Makes a store of a type library, without objects",
        "A new file has 33,562,624 bytes plus twice B, and never grows. An existing file keeps its length, and its objects are erased.\n\nExample:\n  oaut format items.store examples/small.idl",
    )
    .arg(word(alloc, "STORE", "The store's file"))?
    .arg(library_or_input(alloc))?
    .arg(bank(alloc))
}

/// Returns the command `upgrade`. Err: an allocation failed.
fn upgrade<'a>(alloc: Global) -> Result<Command<'a>, AllocError> {
    named(
        alloc,
        "upgrade",
        "Converts a store from format 1 to format 2, with the same objects and library",
        "A file that is too short is lengthened to 33,562,624 bytes plus twice B. After a crash the store has the old or the new format: run the command again. There is no conversion back.\n\nExample:\n  oaut upgrade items.store",
    )
    .arg(word(alloc, "STORE", "The store's file"))?
    .arg(bank(alloc))
}

/// Returns the option for the size of a bank in bytes.
fn bank<'a>(alloc: Global) -> Arg<'a> {
    Arg::new(alloc, "bank")
        .long("bank")
        .value_name("B")
        .value_parser(value_parser!(u32).range(
            i64::from(LEAST_BANK_BYTES)..=i64::from(MOST_BANK_BYTES),
        ))
        .default_value("20971520")
        .help(
            "Bytes of each of the store's two banks, from 20971520 to 1073741824; the serialized objects may have 5242880 fewer",
        )
}

/// Returns the option for the number of requests that are committed together.
fn group<'a>(alloc: Global) -> Arg<'a> {
    Arg::new(alloc, "group")
        .long("group")
        .value_name("N")
        .value_parser(value_parser!(u32).range(1..=MAX_GROUP as i64))
        .default_value("1")
        .help(
            "Commit N requests together, from 1 to 1024, and then write their replies; with 1 each request is committed before its reply",
        )
}

/// Returns the command `serve`. Err: an allocation failed.
fn serve<'a>(alloc: Global) -> Result<Command<'a>, AllocError> {
    named(
        alloc,
        "serve",
        "Executes requests from standard input, with objects in a store",
        "A reply is written after its change is on the device. Requests and replies are as those of play.\n\nExample:\n  oaut format items.store examples/small.idl\n  oaut serve items.store examples/small.idl --hex < examples/first.hex",
    )
    .arg(word(alloc, "STORE", "The store's file, as format made it"))?
    .arg(library(alloc))?
    .arg(group(alloc))?
    .arg(hex(alloc))?
    .arg(shared(alloc)?)
}

/// Returns the command `dump`. Err: an allocation failed.
fn dump<'a>(alloc: Global) -> Result<Command<'a>, AllocError> {
    named(
        alloc,
        "dump",
        "Prints the objects of a store and their cells, one per line",
        "The lines: next NUMBER, and for each object: object NUMBER CLASS, cell INTERFACE DISPID KEY VALUE. KEY and VALUE are serialized, in hexadecimal digits; - is a key without arguments. The store may have either format, and is not changed.\n\nExamples:\n  oaut dump items.store\n  oaut dump items.store --library > items.idl",
    )
    .arg(word(alloc, "STORE", "The store's file"))?
    .arg(kept_library(alloc))
}

/// Returns the option for the library of a store instead of its objects.
fn kept_library<'a>(alloc: Global) -> Arg<'a> {
    flag(
        alloc,
        "library",
        "Print the canonical text of the store's library, and nothing else",
    )
}

/// Adds a subcommand to a command. Err: an allocation failed.
fn with<'a>(
    command: Command<'a>,
    part: Result<Command<'a>, AllocError>,
) -> Result<Command<'a>, AllocError> {
    command.subcommand(part?)
}

/// Returns the program without its commands.
fn program<'a>(alloc: Global) -> Command<'a> {
    named(
        alloc,
        "oaut",
        "A durable OLE Automation object server",
        "Examples:\n  oaut check examples/full.idl\n  oaut play examples/small.idl --hex < examples/first.hex\nSee also the help of each command, such as oaut play --help.",
    )
    .version("0.2.0")
    .disable_help_subcommand(true)
    .subcommand_required(true)
}

/// Returns the program with its commands. Err: an allocation failed.
pub(crate) fn command<'a>(alloc: Global) -> Result<Command<'a>, AllocError> {
    let command = with(program(alloc), play(alloc))?;
    let command = with(command, serve(alloc))?;
    let command = with(command, format(alloc))?;
    let command = with(command, upgrade(alloc))?;
    let command = with(command, dump(alloc))?;
    with(command, check(alloc))
}

/// Returns the error of a command line whose number of bytes or requests has a sign, which std's
/// parser of numbers accepts; None if it has none. Err: an allocation failed.
pub(crate) fn signed_number(
    alloc: Global,
    matches: &ArgMatches,
) -> Result<Option<Error>, AllocError> {
    let Some((_, arguments)) = matches.subcommand() else {
        return Ok(None);
    };
    for (name, value) in [("bank", "B"), ("group", "N")] {
        let text = arguments.get_str(name).unwrap_or("");
        if text.starts_with('+') {
            let told = format!(in alloc;
                "invalid value '{text}' for '--{name} <{value}>': a number has no sign"
            )?;
            let error = command(alloc)?.error(ErrorKind::ValueValidation, told.as_str())?;
            return Ok(Some(error));
        }
    }
    Ok(None)
}
