// Judges the listing in a file or on standard input, and prints its sheet or its refusal.
#![tactic(auto)]

use anyhow::bail;
use sheet::{JudgeError, help_text, judge_listing, longest_listing};
use std::alloc::Global;
use std::fs::File;
use std::io::Read;
use std::process::ExitCode;
use std::{env, io};

// The text that is read, and no more of it than tells that it is too long.
fn read_text<R: Read + Drop>(memory: Global, input: R) -> io::Result<Vec<u8>> {
    let longest = u64::try_from(longest_listing()).unwrap();
    let mut text = Vec::new(memory);
    input.take(longest + 1).read_to_end(&mut text)?;
    Ok(text)
}

// Prints what is answered to a text, and gives the status to end with.
fn judge(rt: &HostRuntime, text: &[u8]) -> anyhow::Result<ExitCode> {
    match judge_listing(rt.alloc(), text) {
        Ok(sheet) => {
            rt.print(sheet)?;
            Ok(ExitCode::SUCCESS)
        }
        Err(error @ JudgeError::Refused(_)) => {
            rt.print(error)?;
            Ok(ExitCode::FAILURE)
        }
        Err(error) => Err(error.into()),
    }
}

// Judges the text in a file.
fn judge_file(rt: &HostRuntime, path: &str) -> anyhow::Result<ExitCode> {
    match File::open(rt, path) {
        Ok(file) => judge(rt, &read_text(rt.alloc(), file)?),
        Err(error) => bail!("cannot open {path}: {error}"),
    }
}

fn run(rt: &HostRuntime) -> anyhow::Result<ExitCode> {
    let mut words = env::args(rt)?.skip(1);
    let path = words.next();
    if words.next().is_some() {
        bail!("more than one file is named: see check_listing --help");
    }
    match path {
        Some(word) if word.as_str() == "--help" => {
            rt.print(help_text())?;
            Ok(ExitCode::SUCCESS)
        }
        Some(path) => judge_file(rt, &path),
        None => judge(rt, &read_text(rt.alloc(), rt.stdin())?),
    }
}

fn main(rt: HostRuntime) -> anyhow::Result<ExitCode> {
    match run(&rt) {
        Ok(status) => Ok(status),
        Err(trouble) => {
            eprintln!(rt; "check_listing: {trouble}")?;
            Ok(ExitCode::FAILURE)
        }
    }
}
