//! A program that gives one partition many messages, for `bench/partition` to measure.
//!
//! `album_bench SEED ITEMS ENTRIES LIMIT` opens the partition and does each line of standard input, a step. After
//! each it prints what was answered so far. Start at `plans` for what the words and the lines mean, then `load`.
#![tactic(auto)]

mod draws;
mod folding;
mod load;
mod plans;
mod tally;
mod values;

use crate::folding::End;
use crate::load::Load;
use crate::plans::{Plan, Step};
use crate::tally::Tally;
use album_stamps::Refusal;
use std::alloc::Global;
use std::{env, io};

fn main(rt: HostRuntime) -> io::Result<()> {
    let words = env::args(&rt)?.collect::<Vec<String>>(rt.alloc())?;
    if words.get(1).is_some_and(|word| word.as_str() == "fold") {
        return fold_each(&rt, &words);
    }
    match opened(rt.alloc(), &words) {
        Ok(mut load) => {
            for line in rt.lines(rt.alloc()) {
                print(&rt, done(&mut load, line?.as_str()))?;
            }
            Ok(())
        }
        Err(refusal) => print(&rt, Err(refusal)),
    }
}

/// Prints how many marks there are, and at each line of standard input how many rows these fold into.
fn fold_each(rt: &HostRuntime, words: &[String]) -> io::Result<()> {
    match End::new(rt.alloc(), words) {
        Ok(end) => {
            println!(rt; "marks={}", end.marks())?;
            for line in rt.lines(rt.alloc()) {
                let _line = line?;
                match end.fold() {
                    Ok(rows) => println!(rt; "rows={rows}")?,
                    Err(refusal) => println!(rt; "refused: {refusal}")?,
                }
            }
            Ok(())
        }
        Err(refusal) => println!(rt; "refused: {refusal}"),
    }
}

fn opened(alloc: Global, words: &[String]) -> Result<Load, Refusal> {
    Load::new(alloc, Plan::read(words).ok_or(Refusal::BadRequest)?)
}

fn done(load: &mut Load, line: &str) -> Result<Tally, Refusal> {
    load.run(Step::read(line).ok_or(Refusal::BadRequest)?)?;
    Ok(load.tally())
}

fn print(rt: &impl Print, tally: Result<Tally, Refusal>) -> io::Result<()> {
    match tally {
        Ok(tally) => println!(rt; "{tally}"),
        Err(refusal) => println!(rt; "refused: {refusal}"),
    }
}
