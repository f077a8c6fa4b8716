// bench-trace: reads a trace from standard input, its first 4,096 bytes, runs it from a fresh start with L = E =
// 65,536 and external memory zero, and prints number, server and value of each answer, then "end", the stop number
// and the bytes consumed, all decimal.
#![tactic(auto)]

ghost use Rattle.std.specs.Prelude.{◌≤◌, length};

use by_value::RunResult;
use std::io;
use std::io::Read;

// The first `count` answers, each of ten bytes: number, server and value, with blanks between and a line end.
fn show_all(rt: &impl Print, answers: &[u8], count: usize) -> io::Result<()> {
    let (each, _) = answers.as_chunks::<10>();
    for answer in each.iter().take(count) {
        let value = memory::load_bytes::<8>(answer, 2);
        println!(rt; "{} {} {}", answer[0], answer[1], value)?;
    }
    Ok(())
}

// What a run has answered, and where and why it has stopped.
fn show_run(rt: &impl Print, answers: &[u8], ran: &RunResult) -> io::Result<()> {
    show_all(rt, answers, ran.count)?;
    println!(rt; "end {} {}", ran.stop, ran.consumed)
}

// How many bytes a read has put at the buffer's start: none where it has failed.
fn read_some(input: &mut impl Read, buffer: &mut [u8]) -> usize
    ensures { result ≤ length buffer.new }
{
    input.read(buffer).unwrap_or(0)
}

// Reads until the buffer is full, the input ends or a read fails; how many bytes it has put at the buffer's start.
fn read_full(input: &mut impl Read, buffer: &mut [u8]) -> usize
    ensures { result ≤ length buffer.new }
{
    let mut done: usize = 0;
    while done < buffer.len() {
        let n = read_some(input, &mut buffer[done..]);
        if n == 0 {
            break;
        }
        done += n;
    }
    done
}

// Whether standard input can be read at all: `read_full` takes an input that fails for an empty one.
fn readable(input: &mut impl Read) -> bool {
    let mut more = [0u8; 1];
    input.read(&mut more).is_ok()
}

fn main(rt: HostRuntime) -> io::Result<()> {
    let mut stdin = rt.stdin();
    let mut input = [0u8; 4096];
    let n = read_full(&mut stdin, &mut input);
    if n == 0 && !readable(&mut stdin) {
        return eprintln!(rt; "bench-trace: standard input cannot be read");
    }
    let mut l1d = [0u8; 16384];
    let mut l2 = [0u8; 65536];
    let mut ext = [0u8; 65536];
    let mut l1p = [0u8; 16384];
    let mut answers = [0u8; 40960];
    let start = by_value::fresh(&mut l1d, &mut l2, &mut ext, &mut l1p);
    let q = by_value::run(
        start.record,
        &input[..n],
        &mut l1d,
        &mut l2,
        &mut ext,
        &l1p,
        &mut answers,
    );
    if show_run(&rt, &answers, &q).is_err() {
        return eprintln!(rt; "bench-trace: standard output cannot be written");
    }
    Ok(())
}
