// Judges many listings, one a line of standard input, by the same call as check_listing. In a line that begins with `>`, / stands for
// byte 10, %XX for a byte in hexadecimal, and [N:text] for the text N times; other lines are headings. It prints a line a case, with
// / for byte 10.
#![tactic(auto)]

ghost use Rattle.std.specs.Prelude.{◌<◌, length, IfSome};

use sheet::{JudgeError, judge_listing};
use std::alloc::{AllocError, Global};
use std::io::Read;

// What stands before the first such byte, and what stands behind it. The reader's own is private to its crate.
fn split_once(text: &[u8], byte: u8) -> Option<(&[u8], &[u8])>
    ensures { IfSome result (λ p. length p.1.now < length text.now) }
{
    let at = text.iter().position(|b| *b == byte)?;
    Some((&text[..at], &text[at + 1..]))
}

// The value of a hexadecimal digit. What is none counts as 0 and is no error, so that every script has an answer.
fn digit(byte: u8) -> u32
    ensures { result < 16 }
{
    char::from(byte).to_digit(16).unwrap_or(0)
}

// The byte that a text begins with, or the one that its first escape stands for, and the text behind it. An escape that is cut short
// stands for nothing.
fn first_byte(text: &[u8]) -> Option<(u8, &[u8])>
    ensures { IfSome result (λ p. length p.1.now < length text.now) }
{
    match text {
        [b'%', high, low, rest @ ..] => {
            let byte = u8::try_from(16 * digit(*high) + digit(*low)).unwrap();
            Some((byte, rest))
        }
        [] | [b'%', ..] => None,
        [b'/', rest @ ..] => Some((b'\n', rest)),
        [byte, rest @ ..] => Some((*byte, rest)),
    }
}

// Adds a text without brackets.
fn add_plain(text: &[u8], out: &mut Vec<u8>) -> Result<(), AllocError> {
    let mut rest = text;
    while let Some((byte, behind)) = first_byte(rest) {
        out.push(byte)?;
        rest = behind;
    }
    Ok(())
}

// The number before a colon, however large. Not by `parse`: what is no digit counts as `digit` has it.
fn number(text: &[u8]) -> u32 {
    text.iter().fold(0u32, |n, b| n.saturating_mul(10).saturating_add(digit(*b)))
}

// Adds what stands in brackets, N:text.
fn add_repeated(memory: Global, text: &[u8], out: &mut Vec<u8>) -> Result<(), AllocError> {
    let Some((count, plain)) = split_once(text, b':') else {
        return Ok(());
    };
    let mut piece = Vec::new(memory);
    add_plain(plain, &mut piece)?;
    for _ in 0..number(count) {
        out.extend_from_slice(&piece)?;
    }
    Ok(())
}

// The listing that a case stands for. The last bracket may be left open.
fn listing(memory: Global, case: &[u8]) -> Result<Vec<u8>, AllocError> {
    let mut out = Vec::new(memory);
    let mut rest = case;
    while let Some((plain, behind)) = split_once(rest, b'[') {
        let (repeated, after) = split_once(behind, b']').unwrap_or((behind, &[]));
        add_plain(plain, &mut out)?;
        add_repeated(memory, repeated, &mut out)?;
        rest = after;
    }
    add_plain(rest, &mut out)?;
    Ok(out)
}

// Judges one case, and prints what check_listing would.
fn judge_case(rt: &HostRuntime, case: &[u8]) -> anyhow::Result<()> {
    let text = listing(rt.alloc(), case)?;
    let answer = match judge_listing(rt.alloc(), &text) {
        Ok(sheet) => sheet.to_string(rt.alloc())?,
        Err(error @ JudgeError::Refused(_)) => error.to_string(rt.alloc())?,
        Err(error) => return Err(error.into()),
    };
    rt.println(answer.replace(rt.alloc(), '\n', "/")?)?;
    Ok(())
}

fn main(rt: HostRuntime) -> anyhow::Result<()> {
    let mut all = Vec::new(rt.alloc());
    rt.stdin().read_to_end(&mut all)?;
    for line in all.split(|b| *b == b'\n') {
        if let [b'>', case @ ..] = line {
            judge_case(&rt, case)?;
        }
    }
    Ok(())
}
