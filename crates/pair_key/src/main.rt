// Prints the keys that the kiosk of a line shares with other kiosks: the line comes on standard input, the others' numbers are the arguments.
#![tactic(auto)]

mod any_field;
mod arguments;
mod report;

use any_field::report_any;
use anyhow::bail;
use arguments::base_ten;
use line::number::KioskNumber;
use std::env;
use std::io::{Read, Write};
use std::process::ExitCode;

// The numbers that the arguments write; none where there is no argument, or one writes no number.
fn numbers(rt: &HostRuntime) -> anyhow::Result<Option<Vec<KioskNumber>>> {
    let mut all = Vec::new(rt.alloc());
    for argument in env::args(rt)?.skip(1) {
        let Some(number) = base_ten(argument.as_bytes()) else {
            return Ok(None);
        };
        all.push(KioskNumber(number))?;
    }
    if all.is_empty() {
        return Ok(None);
    }
    Ok(Some(all))
}

// The keys are printed once all are derived.
fn run(rt: &HostRuntime) -> anyhow::Result<()> {
    let Some(others) = numbers(rt)? else {
        eprintln!(rt; "usage: pair_key NUMBER.. < LINE")?;
        bail!("the arguments are other kiosks' numbers in base ten, one or more");
    };
    let mut text = Vec::new(rt.alloc());
    rt.stdin().read_to_end(&mut text)?;
    let lines = report_any(rt.alloc(), &text, &others)?;
    rt.stdout().write_all(lines.as_bytes())?;
    Ok(())
}

fn main(rt: HostRuntime) -> ExitCode {
    match run(&rt) {
        Ok(()) => ExitCode::SUCCESS,
        Err(error) => {
            let _ = eprintln!(rt; "pair_key: {error}");
            ExitCode::FAILURE
        }
    }
}
