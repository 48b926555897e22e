//! The program: a command line over the server.
//!
//! Contract: safe and total; a session meets the contract of its command (`specs/Sessions`). What
//! it prints, its statuses and its calls of the system are tested (`tests/`).
//!
//! Used by no crate; the clients of `clients/` start it, or reach it over a socket.
#![tactic(auto)]

mod command;
mod play;
mod serve;
mod session;

use clap::ArgMatches;
use clap::error::ErrorKind;
use oa_commands::{
    Fault, StandardStreams, format_store, tell, upgrade_store, write_dump, write_library_text,
};
use oa_journal::DEFAULT_BANK_BYTES;
use oa_stream::{BufferedSink, StdSink};
use std::alloc::Global;
use std::process::ExitCode;
use std::{env, io};

/// Executes the command line, and exits with its status. A fault is one line on standard error.
fn main(rt: HostRuntime) -> ExitCode {
    match run(&rt) {
        Ok(code) => code,
        Err(fault) => {
            // The exit status reports the fault even if standard error cannot be written.
            let _ = eprintln!(rt; "oaut: {fault}");
            ExitCode::from(fault.status())
        }
    }
}

/// Executes the command line, and returns the exit status. Err: the fault of the command.
fn run(rt: &HostRuntime) -> Result<ExitCode, Fault> {
    let alloc = rt.alloc();
    let words = words(rt, alloc)?;
    let matches = match command::command(alloc)?.try_get_matches_from(words.as_slice()) {
        Ok(matches) => matches,
        Err(error) => return refuse(rt, &error),
    };
    match command::signed_number(alloc, &matches)? {
        Some(error) => refuse(rt, &error),
        None => perform(rt, &matches),
    }
}

/// Prints why a command line is refused, or what `--help` or `--version` asked for. Returns the
/// exit status. Errors: `Memory`; `Write` if the requested text could not be written.
fn refuse(rt: &HostRuntime, error: &clap::Error) -> Result<ExitCode, Fault> {
    if error.kind() == ErrorKind::OutOfMemory {
        return Err(Fault::Memory);
    }
    // Help and version are the requested output: that they could not be written is a fault.
    if error.print(rt).is_err() && error.exit_code() == 0 {
        return Err(Fault::Write);
    }
    Ok(ExitCode::from(error.exit_code() as u8))
}

/// Returns the words of the command line, with the program's name. Errors: `Memory`; `Words` if one
/// is not UTF-8.
fn words(rt: &HostRuntime, alloc: Global) -> Result<Vec<String>, Fault> {
    match env::args(rt) {
        Ok(words) => Ok(words.collect(alloc)?),
        Err(error) if error.kind() == io::ErrorKind::OutOfMemory => Err(Fault::Memory),
        Err(_) => Err(Fault::Words),
    }
}

/// Executes the command that was matched, and returns the exit status. It is a function of its own
/// because `run` drops everything that it holds at each of its exits. Err: the fault of the
/// command.
fn perform(rt: &HostRuntime, matches: &ArgMatches) -> Result<ExitCode, Fault> {
    let Some((name, arguments)) = matches.subcommand() else {
        return Ok(ExitCode::from(2));
    };
    act(rt, name, arguments)
}

/// Executes a command, and returns the exit status. The words of each command are read in a
/// function of its own, since a proof sees at once everything that one function holds. Err: the
/// fault of the command.
fn act(rt: &HostRuntime, name: &str, arguments: &ArgMatches) -> Result<ExitCode, Fault> {
    if name == "play" {
        plays(rt, arguments)?;
    } else if name == "serve" {
        serves(rt, arguments)?;
    } else if name == "format" {
        formats(rt, arguments)?;
    } else if name == "upgrade" {
        upgrades(rt, arguments)?;
    } else if name == "dump" {
        dumps(rt, arguments)?;
    } else if name == "check" {
        checks(rt, arguments)?;
    } else {
        // The parser of the command line accepts no other word.
        return Ok(ExitCode::from(2));
    }
    Ok(ExitCode::SUCCESS)
}

/// Executes `play`. Err: its fault.
fn plays(rt: &HostRuntime, arguments: &ArgMatches) -> Result<(), Fault> {
    let library = arguments.get_str("LIB").unwrap_or("");
    if arguments.get_flag("shared") {
        return play::play_shared(rt, library);
    }
    play::play(rt, library, arguments.get_flag("hex"))
}

/// Executes `serve`. Err: its fault.
fn serves(rt: &HostRuntime, arguments: &ArgMatches) -> Result<(), Fault> {
    let store = arguments.get_str("STORE").unwrap_or("");
    let library = arguments.get_str("LIB").unwrap_or("");
    let group = arguments.get_one::<u32>("group").unwrap_or(1);
    if arguments.get_flag("shared") {
        return serve::serve_shared(rt, store, library, group);
    }
    serve::serve(rt, store, library, group, arguments.get_flag("hex"))
}

/// Executes `format`. Err: its fault.
fn formats(rt: &HostRuntime, arguments: &ArgMatches) -> Result<(), Fault> {
    let streams = StandardStreams::fill_closed(rt);
    let disk = format_store(
        rt,
        &streams,
        arguments.get_str("STORE").unwrap_or(""),
        arguments.get_str("LIB").unwrap_or(""),
        arguments
            .get_one::<u32>("bank")
            .unwrap_or(DEFAULT_BANK_BYTES),
    )?;
    tell(rt, disk, b"formatted\n")
}

/// Executes `upgrade`. Err: its fault.
fn upgrades(rt: &HostRuntime, arguments: &ArgMatches) -> Result<(), Fault> {
    let streams = StandardStreams::fill_closed(rt);
    let disk = upgrade_store(
        rt,
        &streams,
        arguments.get_str("STORE").unwrap_or(""),
        arguments
            .get_one::<u32>("bank")
            .unwrap_or(DEFAULT_BANK_BYTES),
    )?;
    tell(rt, disk, b"upgraded\n")
}

/// Executes `dump`. Err: its fault.
fn dumps(rt: &HostRuntime, arguments: &ArgMatches) -> Result<(), Fault> {
    let streams = StandardStreams::fill_closed(rt);
    let mut writer = BufferedSink::new(rt.alloc(), StdSink::new(io::writer(rt)))?;
    write_dump(
        rt,
        &streams,
        arguments.get_str("STORE").unwrap_or(""),
        arguments.get_flag("library"),
        &mut writer,
    )
}

/// Executes `check`. Err: its fault.
fn checks(rt: &HostRuntime, arguments: &ArgMatches) -> Result<(), Fault> {
    let mut writer = StdSink::new(io::writer(rt));
    write_library_text(
        rt,
        arguments.get_str("LIB").unwrap_or(""),
        arguments.get_flag("where"),
        &mut writer,
    )
}
