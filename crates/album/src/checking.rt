//! The subcommand `check-data`: whether a service would begin on a folder, and on what.
use crate::data::{
    Unbegun, end_of, newest_of, open_folder, read_epoch, read_log, repair, what_follows,
};
use album_commands::status;
use album_data::{Folder, FolderError};
use album_judge::Fault;
use clap::ArgMatches;
use std::alloc::Global;
use std::fs::metadata;
use std::io::Write;
use std::process::ExitCode;

/// What a folder's newest epoch comes to.
#[derive(Clone, Copy, Debug)]
struct Found {
    epoch: u64,
    /// How many lines its log has.
    lines: u64,
    /// With how many items the next epoch would open.
    items: usize,
}

/// Looks at the folder that the command line names, and prints what is there; or begins the next epoch on the first
/// lines of its log.
pub(crate) fn check_data<W: Write>(
    rt: &HostRuntime,
    alloc: Global,
    writer: &mut W,
    matches: &ArgMatches<'_>,
) -> ExitCode {
    let matches = matches.subcommand_matches("check-data");
    let path = matches.and_then(|m| m.get_str("DIR")).unwrap_or("");
    let lines = matches.and_then(|m| m.get_one::<u64>("repair-to-line"));
    match look(rt, alloc, path, lines) {
        Ok(found) => status(rt, print(alloc, writer, found)),
        Err(unbegun) => end_of(rt, unbegun, ""),
    }
}

/// Looks at the newest epoch. With a number of lines the next one begins on so many of its log, and is looked at. A
/// folder that isn't there isn't made.
fn look(rt: &HostRuntime, alloc: Global, path: &str, lines: Option<u64>) -> Result<Found, Unbegun> {
    if let Err(error) = metadata(rt, path) {
        let name = String::from_str(alloc, path)?;
        return Err(Unbegun::Folder(name, FolderError::Failed(error)));
    }
    let folder = open_folder(rt, alloc, path)?;
    let Some(epoch) = newest_of(rt, alloc, &folder)? else {
        return Err(Unbegun::Empty(String::from_str(alloc, path)?));
    };
    let Some(lines) = lines else {
        return found_in(rt, alloc, &folder, epoch);
    };
    repair(rt, alloc, &folder, epoch, lines)?;
    found_in(rt, alloc, &folder, epoch.saturating_add(1))
}

/// What is found in an epoch.
fn found_in(
    rt: &HostRuntime,
    alloc: Global,
    folder: &Folder,
    epoch: u64,
) -> Result<Found, Unbegun> {
    let text = read_log(rt, alloc, folder, epoch)?;
    let opening = read_epoch(rt, alloc, folder, epoch)?;
    let next = what_follows(rt, alloc, folder, epoch, &opening, &text)?;
    Ok(Found {
        epoch,
        lines: text.iter().filter(|byte| **byte == b'\n').count() as u64,
        items: next.items.as_slice().len(),
    })
}

fn print<W: Write>(alloc: Global, writer: &mut W, found: Found) -> Result<(), Fault> {
    let Found {
        epoch,
        lines,
        items,
    } = found;
    let Ok(line) = format!(in alloc; "{{\"epoch\":{epoch},\"items\":{items},\"lines\":{lines}}}\n")
    else {
        return Err(Fault::Memory);
    };
    match writer.write_all(line.as_bytes()) {
        Ok(()) => writer.flush().map_err(|_| Fault::Writing),
        Err(_) => Err(Fault::Writing),
    }
}
