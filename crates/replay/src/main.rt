// Replays recorded streams: for each, how many of its answers agree with those that were recorded.
#![tactic(auto)]

use console::transcript;
use std::fs;

// How many lines of two texts are the same, place by place.
fn agreeing(expected: &str, found: &str) -> usize {
    let pairs = expected.lines().zip(found.lines());
    pairs.filter(|(a, b)| a == b).count()
}

// One stream: its commands in NAME.in, its answers in NAME.out.
fn replay(rt: &HostRuntime, name: &str) -> anyhow::Result<()> {
    let input = fs::read(rt, format!(in rt.alloc(); "{name}.in")?)?;
    let expected = fs::read_to_string(rt, format!(in rt.alloc(); "{name}.out")?)?;
    let found = transcript(rt.alloc(), input.as_slice())?;
    let agreed = agreeing(expected.as_str(), found.as_str());
    let lines = expected.as_str().lines().count();
    let same = if expected == found {
        "to the byte"
    } else {
        "NOT the same bytes"
    };
    println!(rt; "{name}: {agreed} of {lines} answers agree, {same}")?;
    Ok(())
}

// Every stream whose name is in the list.
fn run(rt: &HostRuntime) -> anyhow::Result<()> {
    let names = fs::read_to_string(rt, "streams.txt")?;
    for name in names.as_str().lines() {
        replay(rt, name)?;
    }
    Ok(())
}

fn main(rt: HostRuntime) -> anyhow::Result<()> {
    run(&rt)
}
