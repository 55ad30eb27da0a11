//! A program to be timed: it reads a graph of crates and builds it so many times, and the lines say what follows.
#![tactic(auto)]

mod graph;

use crate::graph::build;
use anyhow::{Result, bail};
use std::alloc::Global;
use std::io;

fn main(rt: HostRuntime) -> Result<()> {
    let text = io::read_to_string(rt.alloc(), rt.reader())?;
    let count = run(rt.alloc(), text.as_str())?;
    println!(rt; "{count}")?;
    Ok(())
}

// Does what a text says, and returns what the last time counted.
fn run(alloc: Global, text: &str) -> Result<usize> {
    let Some((step, rest)) = text.split_once('\n') else {
        bail!("no graph");
    };
    let numbers = numbers_of(alloc, rest)?;
    let [times, count, files, pairs @ ..] = numbers.as_slice() else {
        bail!("no size");
    };
    let mut counted = 0;
    for _ in 0..*times {
        counted = build(alloc, step, *count, *files, pairs.as_chunks::<2>().0)?;
    }
    Ok(counted)
}

fn numbers_of(alloc: Global, text: &str) -> Result<Vec<u32>> {
    let mut numbers = Vec::new(alloc);
    for word in text.split_whitespace() {
        numbers.push(word.parse::<u32>()?)?;
    }
    Ok(numbers)
}
