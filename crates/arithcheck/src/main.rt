//! Answers questions about the arithmetics: reads one a line from standard input, and prints what the function that it names
//! gives for the numbers in it.
#![tactic(auto)]

use crate::answers::Answer;
use crate::questions::answer_to;
use std::io::{BufRead, BufReader};

mod answering;
mod answers;
mod calls;
mod questions;
mod spelling;

/// Answers each line of the input in turn.
fn run(rt: &HostRuntime) -> anyhow::Result<()> {
    for line in BufReader::new(rt.alloc(), rt.stdin())?.lines(rt.alloc()) {
        let question = line?;
        match answer_to(question.as_str()) {
            Some(answer) => rt.println(answer)?,
            None => rt.println("?")?,
        }
    }
    Ok(())
}

fn main(rt: HostRuntime) -> anyhow::Result<()> {
    run(&rt)
}
