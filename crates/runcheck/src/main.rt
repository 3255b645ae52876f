// Checks the run file run.csv of the working folder: prints what it holds, or why it is refused.
#![tactic(auto)]

use anyhow::anyhow;
use std::fs;
use std::io::Write;

const FILE: &str = "run.csv";

fn run(rt: &HostRuntime) -> anyhow::Result<()> {
    let bytes = match fs::read(rt, FILE) {
        Ok(bytes) => bytes,
        Err(e) => return Err(anyhow!(format!(in rt.alloc(); "{FILE}: {e}")?)),
    };
    let lines = survey::statement(rt.alloc(), bytes.as_slice())?;
    rt.stdout().write_all(lines.as_slice())?;
    Ok(())
}

fn main(rt: HostRuntime) -> anyhow::Result<()> {
    run(&rt)
}
