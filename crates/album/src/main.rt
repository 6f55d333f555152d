//! The program `album`. `album judge` answers each line of standard input by one line, and `album replay` prints what
//! the events that its lines spell bring about in a store. `album serve` runs a store for whoever connects to a port,
//! and `album ask` is a client of it. `album check-data` looks at the folder of a service that has
//! ended. The command line and all but `serve` and `check-data` are album_commands'.
#![tactic(auto)]

mod checking;
mod data;
mod descriptors;
mod serving;

use crate::checking::check_data;
use crate::descriptors::fill_descriptors;
use crate::serving::serve;
use album_commands::{let_go, parse, refuse, refuse_words, run, status};
use album_judge::Fault;
use std::env;
use std::io::IsTerminal;
use std::process::ExitCode;

fn main(rt: HostRuntime) -> ExitCode {
    fill_descriptors(&rt);
    let args = match env::args(&rt) {
        Ok(args) => args,
        Err(error) => return refuse_words(&rt, &error),
    };
    let Ok(words) = args.collect::<Vec<String>>(rt.alloc()) else {
        return status(&rt, Err(Fault::Memory));
    };
    let matches = match parse(rt.alloc(), &words) {
        Ok(matches) => matches,
        Err(error) => return refuse(&rt, &error),
    };
    let (mut input, mut output) = (rt.stdin(), rt.stdout());
    let status = match matches.subcommand_name() {
        Some("serve") => serve(rt, &rt, rt.alloc(), input, &mut output, &matches),
        Some("check-data") => check_data(&rt, rt.alloc(), &mut output, &matches),
        _ => {
            let has_prompt = input.is_terminal() && output.is_terminal();
            run(
                &rt,
                rt.alloc(),
                &mut input,
                &mut output,
                &matches,
                has_prompt,
            )
        }
    };
    let_go(matches);
    status
}
