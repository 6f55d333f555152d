//! The judge alone: `album judge` for those who need no store. It uses few crates, so it is proved in minutes.
#![tactic(auto)]

use album_judge::{Fault, judge_buffered, with_buffers};
use std::process::ExitCode;

/// How many reads a run may make.
const TURNS: u64 = 4_294_967_296;

fn main(rt: HostRuntime) -> ExitCode {
    match judge_lines(&rt) {
        Ok(()) => ExitCode::SUCCESS,
        Err(fault) => {
            let _ = eprintln!(rt; "album: {fault}");
            ExitCode::from(1)
        }
    }
}

/// Answers the lines of standard input, to its end.
fn judge_lines(rt: &HostRuntime) -> Result<(), Fault> {
    let alloc = rt.alloc();
    let (mut reader, mut writer) = with_buffers(alloc, rt.stdin(), rt.stdout())?;
    judge_buffered(alloc, &mut reader, &mut writer, TURNS)
}
