// bench-load SEED E N: makes the load of N accesses (02, U9) and prints "load", the number and the length of its
// trace; then runs it from a fresh start (L = 65,536, external memory of E bytes, zero) as it is, and with both MAR
// bits set in modes 0, 1 and 2. For each of these it prints how many accesses each server has served and how many were
// refused with each number, where there are any, then "end", the stop number and the bytes consumed, all decimal.
// Trace and external memory have room for 1,048,576 bytes.
#![tactic(auto)]

ghost use Rattle.std.specs.Prelude.{◌≡◌, ◌≤◌, length, IfSome};

use program::ChipRecord;
use std::env::{Env, FillError};
use std::io;

// What the command line asks for: the seed, E and N.
#[derive(Clone, Copy)]
struct Asked {
    seed: u32,
    extlen: u32,
    count: u64,
}

// A decimal number that is `most` at most.
fn number_in(text: &[u8], most: u64) -> Option<u64>
    ensures { IfSome result (λ n. n ≤ most) }
{
    if text.is_empty() {
        return None;
    }
    let mut value: u64 = 0;
    for byte in text {
        if !byte.is_ascii_digit() {
            return None;
        }
        value = value.checked_mul(10)?.checked_add(u64::from(*byte - b'0'))?;
        if most < value {
            return None;
        }
    }
    Some(value)
}

// The number that an argument is: one of more than 32 bytes is none.
fn argument(rt: &impl Env, i: usize, most: u64) -> Option<u64>
    ensures { IfSome result (λ n. n ≤ most) }
{
    let mut text = [0u8; 32];
    match rt.arg(i, &mut text) {
        Ok(n) => number_in(&text[..n], most),
        Err(_) => None,
    }
}

// Whether there is an argument of this number, be it empty or too long for a buffer.
fn is_given(rt: &impl Env, i: usize) -> bool {
    let mut text = [0u8; 32];
    match rt.arg(i, &mut text) {
        Ok(_) | Err(FillError::TooLong) => true,
        Err(FillError::NotPresent) => false,
    }
}

// Three numbers, and nothing behind them.
fn arguments(rt: &impl Env) -> Option<Asked> {
    let seed = argument(rt, 1, 0xFFFFFFFF)?;
    let extlen = argument(rt, 2, 0xFFFFFFFF)?;
    let count = argument(rt, 3, 0xFFFFFFFFFFFFFFFF)?;
    if is_given(rt, 4) {
        return None;
    }
    Some(Asked {
        seed: seed as u32,
        extlen: extlen as u32,
        count: count,
    })
}

fn line_of(rt: &impl Print, name: &str, a: u64) -> io::Result<()> {
    println!(rt; "{name} {a}")
}

fn line(rt: &impl Print, name: &str, a: u64, b: u64) -> io::Result<()> {
    println!(rt; "{name} {a} {b}")
}

// How many of the answers, each of ten bytes, have this number and this server.
fn answers_with(answers: &[u8], count: usize, number: u8, server: u8) -> u64 {
    let (each, _) = answers.as_chunks::<10>();
    each.iter()
        .take(count)
        .filter(|x| x[0] == number && x[1] == server)
        .count() as u64
}

// A line for what there are some of.
fn line_if_some(rt: &impl Print, name: &str, which: u8, count: u64) -> io::Result<()> {
    if count == 0 {
        return Ok(());
    }
    line(rt, name, u64::from(which), count)
}

// Who served the accepted accesses.
fn show_servers(rt: &impl Print, answers: &[u8], count: usize) -> io::Result<()> {
    for server in 0..5 {
        line_if_some(
            rt,
            "server",
            server,
            answers_with(answers, count, 0, server),
        )?;
    }
    Ok(())
}

// A refused access has no server.
fn show_refusals(rt: &impl Print, answers: &[u8], count: usize) -> io::Result<()> {
    for number in 1..13 {
        line_if_some(
            rt,
            "refused",
            number,
            answers_with(answers, count, number, 0),
        )?;
    }
    Ok(())
}

// The record after a fresh start, and, where a mode is asked for, after both MAR bits and that mode were set.
fn start(
    mode: Option<u8>,
    l1d: &mut [u8],
    l2: &mut [u8],
    ext: &mut [u8],
    l1p: &mut [u8],
) -> ChipRecord {
    let fresh = by_value::fresh(l1d, l2, ext, l1p);
    match mode {
        None => fresh.record,
        Some(it) => {
            let setting = [11, 0x80, 1, 1, 11, 0x81, 1, 1, 10, it];
            let mut answers = [0u8; 30];
            let q = by_value::run(fresh.record, &setting, l1d, l2, ext, l1p, &mut answers);
            q.record
        }
    }
}

// Room for a trace, or for external memory.
fn room() -> [u8; 1048576]
    ensures { 1048576 ≡ length result }
{
    [0; 1048576]
}

// Room for the answers to such a trace, in which an access has 7 bytes at least.
fn room_for_answers() -> [u8; 1497970]
    ensures { 1497970 ≡ length result }
{
    [0; 1497970]
}

// One run over the load, on memories that are lent, with answer bytes for all.
fn run_on(
    rt: &impl Print,
    trace: &[u8],
    mode: Option<u8>,
    l1d: &mut [u8],
    l2: &mut [u8],
    ext: &mut [u8],
    l1p: &mut [u8],
    answers: &mut [u8],
) -> io::Result<()> {
    let r = start(mode, l1d, l2, ext, l1p);
    let q = by_value::run(r, trace, l1d, l2, ext, l1p, answers);
    show_servers(rt, answers, q.count)?;
    show_refusals(rt, answers, q.count)?;
    line(rt, "end", u64::from(q.stop), q.consumed as u64)
}

// External memory is the first bytes of a longer one, zero again before each run.
fn run_over(rt: &impl Print, trace: &[u8], mode: Option<u8>, extlen: usize) -> io::Result<()> {
    let mut l1d = [0u8; 16384];
    let mut l2 = [0u8; 65536];
    let mut ext = room();
    let mut l1p = [0u8; 16384];
    let mut answers = room_for_answers();
    if 1048576 < extlen {
        return Ok(());
    }
    run_on(
        rt,
        trace,
        mode,
        &mut l1d,
        &mut l2,
        &mut ext[..extlen],
        &mut l1p,
        &mut answers,
    )
}

// The load is the first n bytes.
fn run_all(rt: &impl Print, output: &[u8], n: usize, extlen: usize) -> io::Result<()> {
    if output.len() < n {
        return Ok(());
    }
    let trace = &output[..n];
    println!(rt; "fresh")?;
    run_over(rt, trace, None, extlen)?;
    for mode in 0..3 {
        line_of(rt, "mode", u64::from(mode))?;
        run_over(rt, trace, Some(mode), extlen)?;
    }
    Ok(())
}

fn make_and_run(
    rt: &(impl Print + Eprint),
    seed: u32,
    extlen: u32,
    count: u64,
    trace: &mut [u8],
) -> io::Result<()> {
    let x = load::load_trace(seed, extlen, count, trace);
    line(rt, "load", u64::from(x.number), x.length as u64)?;
    if x.number != 0 {
        return Ok(());
    }
    if 1048576 < extlen {
        return eprintln!(rt;
            "bench-load: 1048576 bytes of external memory at most can be run over"
        );
    }
    run_all(rt, trace, x.length, extlen as usize)
}

fn main(rt: HostRuntime) -> io::Result<()> {
    let Some(x) = arguments(&rt) else {
        return eprintln!(rt; "usage: bench_load SEED E N, all decimal");
    };
    let mut trace = room();
    make_and_run(&rt, x.seed, x.extlen, x.count, &mut trace)
}
