//! The subcommand `check-data`: its arguments. `album` looks at the folder.

use crate::running::with_arg;
use crate::texts::{CHECK_DATA_ABOUT, CHECK_DATA_HELP};
use clap::{Arg, Command, value_parser};
use std::alloc::{AllocError, Global};

/// The subcommand `check-data`, with its arguments.
///
/// # Errors
///
/// `AllocError`, where there is no memory for it.
pub(crate) fn check_data_command<'a>(alloc: Global) -> Result<Command<'a>, AllocError> {
    let command = Command::new(alloc, "check-data")
        .about(CHECK_DATA_ABOUT)
        .after_help(CHECK_DATA_HELP);
    let command = with_arg(Ok(command), folder_arg(alloc));
    with_arg(command, repair_arg(alloc))
}

fn folder_arg<'a>(alloc: Global) -> Arg<'a> {
    Arg::new(alloc, "DIR")
        .help("A folder of a service that has ended")
        .required(true)
}

fn repair_arg<'a>(alloc: Global) -> Arg<'a> {
    Arg::new(alloc, "repair-to-line")
        .long("repair-to-line")
        .value_name("N")
        .help("Begins the next epoch on the first N lines of the log, and lets the others go")
        .value_parser(value_parser!(u64))
}
