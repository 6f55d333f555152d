//! The subcommands `mask` and `flags`, which give names for numbers and back.

use crate::running::status;
use crate::texts::{FLAGS_ABOUT, MASK_ABOUT, NAMES_HELP};
use album_explain::{write_flags, write_mask};
use album_judge::Fault;
use album_stamps::Refusal;
use clap::{Arg, ArgMatches, Command};
use std::alloc::{AllocError, Global};
use std::io::Write;
use std::process::ExitCode;

/// The subcommand `mask`, with its arguments.
///
/// # Errors
///
/// `AllocError`, where there is no memory for it.
pub(crate) fn mask_command<'a>(alloc: Global) -> Result<Command<'a>, AllocError> {
    bits_command(alloc, "mask", MASK_ABOUT)
}

/// The subcommand `flags`, with its arguments.
///
/// # Errors
///
/// `AllocError`, where there is no memory for it.
pub(crate) fn flags_command<'a>(alloc: Global) -> Result<Command<'a>, AllocError> {
    bits_command(alloc, "flags", FLAGS_ABOUT)
}

fn bits_command<'a>(
    alloc: Global,
    name: &'static str,
    about: &'static str,
) -> Result<Command<'a>, AllocError> {
    let bits = Arg::new(alloc, "NAMES|NUMBER")
        .help("Names with commas between them, or a number")
        .required(true);
    Command::new(alloc, name)
        .about(about)
        .after_help(NAMES_HELP)
        .arg(bits)
}

/// All bits of a mask, and of flags, in numbers.
const ALL_BITS: u32 = 2_032_127;

const ALL_FLAGS: u32 = 127;

/// Prints what the names, or the number, of `mask` or `flags` are.
pub(crate) fn print_bits<T: Eprint, W: Write>(
    rt: &T,
    alloc: Global,
    writer: &mut W,
    matches: &ArgMatches<'_>,
    command: &str,
) -> ExitCode {
    let named = matches.subcommand_matches(command);
    let word = named.and_then(|m| m.get_str("NAMES|NUMBER")).unwrap_or("");
    match line_of(alloc, command, word) {
        Ok(line) => status(rt, written(writer, &line)),
        Err(Refusal::OutOfMemory) => status(rt, Err(Fault::Memory)),
        Err(why) => {
            let _ = eprintln!(rt; "error: invalid value '{word}' for '<NAMES|NUMBER>': {why}");
            if let Some(part) = mistaken(alloc, command, word) {
                name_mistake(rt, alloc, command, part);
            }
            let all = if command == "mask" {
                ALL_BITS
            } else {
                ALL_FLAGS
            };
            let _ = eprintln!(rt;
                "`album {command} {all}` prints all names; commas stand between names"
            );
            ExitCode::from(2)
        }
    }
}

/// The line for these names, or for this number.
fn line_of(alloc: Global, command: &str, word: &str) -> Result<Vec<u8>, Refusal> {
    match command {
        "mask" => write_mask(alloc, word),
        _ => write_flags(alloc, word),
    }
}

/// Of names the first that is none.
fn mistaken<'a>(alloc: Global, command: &str, word: &'a str) -> Option<&'a str> {
    if word.parse::<u64>().is_ok() {
        return None;
    }
    for part in word.split(',') {
        if part.parse::<u64>().is_ok() || line_of(alloc, command, part).is_err() {
            return Some(part);
        }
    }
    None
}

/// Says what is wrong with a name, and which was meant, perhaps.
fn name_mistake(rt: &impl Eprint, alloc: Global, command: &str, part: &str) {
    if part.is_empty() {
        let _ = eprintln!(rt; "a name is missing beside a comma");
        return;
    }
    if part.parse::<u64>().is_ok() {
        let _ = eprintln!(rt; "'{part}' is a number, and stands alone");
        return;
    }
    match meant(alloc, command, part) {
        Ok(Some(name)) => {
            let _ = eprintln!(rt; "no name is '{part}'; is '{name}' meant?");
        }
        _ => {
            let _ = eprintln!(rt; "no name is '{part}'; names are in capitals");
        }
    }
}

/// The name that is this one in capitals, or so without its end.
fn meant(alloc: Global, command: &str, part: &str) -> Result<Option<String>, AllocError> {
    let mut name = String::new(alloc);
    for letter in part.chars() {
        name.push(letter.to_ascii_uppercase())?;
    }
    if line_of(alloc, command, &name).is_ok() {
        return Ok(Some(name));
    }
    name.push_str("_DATA")?;
    if line_of(alloc, command, &name).is_ok() {
        return Ok(Some(name));
    }
    Ok(None)
}

fn written<W: Write>(writer: &mut W, line: &[u8]) -> Result<(), Fault> {
    writer.write_all(line).map_err(|_| Fault::Writing)?;
    writer.flush().map_err(|_| Fault::Writing)
}
