// Trials of the text layer: each line of standard input is a letter and bytes in hexadecimal, and gets a line of answer.
//   j BYTES   the scan's verdict on the bytes as a JSON text
//   s BYTES   the characters of the bytes as what stands between two quotes, and behind a bar their written form
#![tactic(auto)]

ghost use Rattle.std.specs.Prelude.{◌<◌, ◌≤◌, length, IfOk};

use chars::lines::Line;
use chars::strings::DecodeError;
use std::io;
use std::io::Read;
use text::fault::Fault;

// A hexadecimal digit's number.
fn digit(b: u8) -> u8
    ensures small { result < 16 }
{
    match b {
        b'0'..=b'9' => b - b'0',
        b'a'..=b'f' => b - b'a' + 10,
        _ => 0,
    }
}

// The byte that two digits spell.
fn byte(high: u8, low: u8) -> u8 {
    digit(high) * 16 + digit(low)
}

// The bytes that digits spell two by two, as many as there is room for, and their number.
fn spell(digits: &[u8], out: &mut [u8]) -> usize
    ensures { result ≤ length out.new }
{
    let n = out.len().min(digits.len() / 2);
    for i in 0..n {
        out[i] = byte(digits[2 * i], digits[2 * i + 1]);
    }
    n
}

fn say_verdict(rt: &impl Print, v: Result<(), Fault>) -> io::Result<()> {
    match v {
        Ok(()) => println!(rt; "whole"),
        Err(Fault::Breaks(p)) => println!(rt; "breaks {p}"),
        Err(Fault::Deep) => println!(rt; "deep"),
    }
}

// The characters by their numbers.
fn say_characters(rt: &impl Print, cs: &[u32]) -> io::Result<()> {
    for c in cs {
        print!(rt; "{c} ")?;
    }
    Ok(())
}

fn say_written(rt: &impl Print, cs: &[u32]) -> io::Result<()> {
    let mut out = [0u8; 8192];
    match chars::written::write_text(cs, &mut out) {
        Some(n) => {
            print!(rt; "| ")?;
            rt.write_all(&out[..n])
        }
        None => print!(rt; "short"),
    }
}

fn say_decoded(rt: &impl Print, s: &[u8]) -> io::Result<()> {
    let mut run = [0u32; 2048];
    match chars::strings::decode(s, &mut run) {
        Ok(n) => {
            say_characters(rt, &run[..n])?;
            say_written(rt, &run[..n])?;
        }
        Err(DecodeError::Lone) => print!(rt; "lone")?,
        Err(DecodeError::Short) => print!(rt; "short")?,
    }
    println!(rt)
}

// One line of the trials: a letter, a space, and the digits.
fn answer(rt: &impl Print, line: &[u8]) -> io::Result<()> {
    let (letter, digits) = match line {
        [] => return Ok(()),
        [letter] => (*letter, &line[1..]),
        [letter, _, digits @ ..] => (*letter, digits),
    };
    let mut bytes = [0u8; 2048];
    let n = spell(digits, &mut bytes);
    if letter == b'j' {
        return say_verdict(rt, text::scan::scan(&bytes[..n]));
    }
    say_decoded(rt, &bytes[..n])
}

fn run(rt: &impl Print, s: &[u8]) -> io::Result<()> {
    let mut at = 0;
    while let Some(Line { end, next }) = chars::lines::line_at(s, at) {
        answer(rt, &s[at..end])?;
        at = next;
    }
    Ok(())
}

// Reads until the run is full or the input ends, and tells how many bytes it has of it.
fn read_full(input: &mut impl Read, out: &mut [u8]) -> io::Result<usize>
    ensures { IfOk result (λ n. n ≤ length out.new) }
{
    let mut n = 0;
    while n < out.len() {
        let got = input.read(&mut out[n..])?;
        if got == 0 {
            return Ok(n);
        }
        n += got;
    }
    Ok(n)
}

fn main(rt: HostRuntime) -> io::Result<()> {
    let mut input = [0u8; 65536];
    let n = read_full(&mut rt.reader(), &mut input)?;
    run(&rt, &input[..n])
}
