// Executes every exported call of crate by_value: a list of calls from a fresh start with L = E = 65,536 and external
// memory zero, then a run over a trace. It prints what each answers: number, server and value; of a view its number,
// how many bytes it has, and two of them; of a transfer out its number and two bytes of the buffer; of a frame its
// number, whose turn is next and sum 0, then sums 1, 47 and 63; of a fetch its number, server and first byte, then its
// last byte and the bytes of external memory read and written, then what left L2's way, and what left L1P's with its
// address; of the run bytes consumed, count and stop number, then each answer. What it has to print is told by the
// reference model (compare/examples/each_call.rs).
#![tactic(auto)]

ghost use Rattle.std.specs.Prelude.{◌≤◌};

use by_value::Called;
use model::Left;
use program::ChipRecord;
use std::io;

fn show(rt: &impl Print, a: u64, b: u64, c: u64) -> io::Result<()> {
    println!(rt; "{a} {b} {c}")
}

fn told(rt: &impl Print, x: Called) -> io::Result<ChipRecord> {
    show(rt, u64::from(x.number), u64::from(x.server), x.value)?;
    Ok(x.record)
}

// The first and the third byte of what is seen.
fn seen(rt: &impl Print, r: ChipRecord, l2: &[u8], ext: &[u8], address: u32) -> io::Result<()> {
    let part = by_value::view(r, l2, ext, address);
    let number = by_value::view_number(r, l2, ext, address);
    print!(rt; "{number} ")?;
    if part.len() < 3 {
        return show(rt, 0, 0, 0);
    }
    show(
        rt,
        part.len() as u64,
        u64::from(part[0]),
        u64::from(part[2]),
    )
}

// How many bytes of a buffer are lent: those that are asked for, and at most all.
fn front(n: u32, all: usize) -> usize
    ensures { result ≤ all }
{
    all.min(n as usize)
}

// A transfer of the front of a buffer whose bytes are all v. Of one out the first and the last byte are told.
fn transferred_in(
    rt: &impl Print,
    r: ChipRecord,
    n: u32,
    address: u32,
    v: u32,
    l1d: &mut [u8; 16384],
    l2: &mut [u8; 65536],
    ext: &mut [u8; 65536],
    l1p: &mut [u8; 16384],
) -> io::Result<ChipRecord> {
    let v8 = (v % 256) as u8;
    let buffer = [v8; 128];
    let k = front(n, 128);
    told(
        rt,
        by_value::transfer_in(r, address, &buffer[..k], l1d, l2, ext, l1p),
    )
}

fn transferred_out(
    rt: &impl Print,
    r: ChipRecord,
    n: u32,
    address: u32,
    v: u32,
    l1d: &mut [u8; 16384],
    l2: &mut [u8; 65536],
    ext: &mut [u8; 65536],
    l1p: &mut [u8; 16384],
) -> io::Result<ChipRecord> {
    let v8 = (v % 256) as u8;
    let mut buffer = [v8; 128];
    let k = front(n, 128);
    let x = by_value::transfer_out(r, address, &mut buffer[..k], l1d, l2, ext, l1p);
    show(
        rt,
        u64::from(x.number),
        u64::from(buffer[0]),
        u64::from(buffer[127]),
    )?;
    Ok(x.record)
}

// The pixels of a frame, and some more: all of them v, but in row k the one of column k is k.
fn pixels(v: u8) -> [u8; 3076] {
    let mut buffer = [v; 3076];
    for k in 0..48u8 {
        let at = k as usize * 65;
        buffer[at] = k;
    }
    buffer
}

fn framed(
    rt: &impl Print,
    r: ChipRecord,
    n: u32,
    turn: u32,
    v: u32,
    l1d: &mut [u8; 16384],
    l2: &mut [u8; 65536],
    ext: &mut [u8; 65536],
    l1p: &mut [u8; 16384],
) -> io::Result<ChipRecord> {
    let buffer = pixels((v % 256) as u8);
    let k = front(n, 3076);
    let x = by_value::frame(r, (turn % 256) as u8, &buffer[..k], l1d, l2, ext, l1p);
    show(
        rt,
        u64::from(x.number),
        u64::from(x.turn),
        u64::from(x.sums[0]),
    )?;
    show(
        rt,
        u64::from(x.sums[1]),
        u64::from(x.sums[47]),
        u64::from(x.sums[63]),
    )?;
    Ok(x.record)
}

// What left a way: 0 none was chosen, 1 it was empty, 2 a clean line, 3 a dirty one; and the line's address.
fn kind_of(x: Left) -> u64 {
    match x {
        Left::NoWay => 0,
        Left::Empty => 1,
        Left::Clean(_) => 2,
        Left::Dirty(_) => 3,
    }
}

fn address_of(x: Left) -> u64 {
    match x {
        Left::NoWay | Left::Empty => 0,
        Left::Clean(a) | Left::Dirty(a) => u64::from(a),
    }
}

fn fetched(
    rt: &impl Print,
    r: ChipRecord,
    address: u32,
    l1d: &mut [u8; 16384],
    l2: &mut [u8; 65536],
    ext: &mut [u8; 65536],
    l1p: &mut [u8; 16384],
) -> io::Result<ChipRecord> {
    let x = by_value::fetch(r, address, l1d, l2, ext, l1p);
    show(
        rt,
        u64::from(x.number),
        u64::from(x.server),
        u64::from(x.bytes[0]),
    )?;
    show(
        rt,
        u64::from(x.bytes[31]),
        u64::from(x.external_read),
        u64::from(x.external_written),
    )?;
    let k = x.l2_left;
    let l = x.l1p_left;
    show(rt, kind_of(k), kind_of(l), address_of(l))?;
    Ok(x.record)
}

// A read or a write: codes 0 and 1, 14 and 15 for non-aligned ones.
fn access(
    rt: &impl Print,
    r: ChipRecord,
    code: u32,
    a: u32,
    b: u32,
    v: u32,
    l1d: &mut [u8; 16384],
    l2: &mut [u8; 65536],
    ext: &mut [u8; 65536],
    l1p: &mut [u8; 16384],
) -> io::Result<ChipRecord> {
    match code {
        0 => told(rt, command_calls::read(r, a, b, l1d, l2, ext, l1p)),
        1 => told(
            rt,
            command_calls::write(r, a, b, u64::from(v), l1d, l2, ext, l1p),
        ),
        14 => told(rt, by_value::read_unaligned(r, a, b, l1d, l2, ext, l1p)),
        _ => told(
            rt,
            by_value::write_unaligned(r, a, b, u64::from(v), l1d, l2, ext, l1p),
        ),
    }
}

// Codes 2 to 6: the commands of L2.
fn l2_command(
    rt: &impl Print,
    r: ChipRecord,
    code: u32,
    a: u32,
    b: u32,
    l1d: &mut [u8; 16384],
    l2: &mut [u8; 65536],
    ext: &mut [u8; 65536],
    l1p: &mut [u8; 16384],
) -> io::Result<ChipRecord> {
    match code {
        2 => told(rt, command_calls::l2_writeback_all(r, l1d, l2, ext, l1p)),
        3 => told(
            rt,
            command_calls::l2_writeback_invalidate_all(r, l1d, l2, ext, l1p),
        ),
        4 => told(
            rt,
            command_calls::l2_writeback_block(r, a, b, l1d, l2, ext, l1p),
        ),
        5 => told(
            rt,
            command_calls::l2_writeback_invalidate_block(r, a, b, l1d, l2, ext, l1p),
        ),
        _ => told(
            rt,
            command_calls::l2_invalidate_block(r, a, b, l1d, l2, ext, l1p),
        ),
    }
}

// Codes 7 to 12: those of L1D, mode and MAR change, the freeze.
fn other_command(
    rt: &impl Print,
    r: ChipRecord,
    code: u32,
    a: u32,
    b: u32,
    l1d: &mut [u8; 16384],
    l2: &mut [u8; 65536],
    ext: &mut [u8; 65536],
    l1p: &mut [u8; 16384],
) -> io::Result<ChipRecord> {
    match code {
        7 => told(
            rt,
            command_calls::l1d_writeback_invalidate_block(r, a, b, l1d, l2, ext, l1p),
        ),
        8 => told(
            rt,
            command_calls::l1d_invalidate_block(r, a, b, l1d, l2, ext, l1p),
        ),
        9 => told(rt, command_calls::l1d_invalidate_all(r, l1d, l2, ext, l1p)),
        10 => told(rt, command_calls::change_mode(r, a, l1d, l2, ext, l1p)),
        11 => told(rt, command_calls::change_mar(r, a, b, l1d, l2, ext, l1p)),
        _ => told(rt, command_calls::freeze(r, a, l1d, l2, ext, l1p)),
    }
}

// 16 and 17: a transfer in and out, of so many bytes, at an address; 18: a frame of so many bytes, and its turn.
fn camera(
    rt: &impl Print,
    r: ChipRecord,
    code: u32,
    a: u32,
    b: u32,
    v: u32,
    l1d: &mut [u8; 16384],
    l2: &mut [u8; 65536],
    ext: &mut [u8; 65536],
    l1p: &mut [u8; 16384],
) -> io::Result<ChipRecord> {
    match code {
        16 => transferred_in(rt, r, a, b, v, l1d, l2, ext, l1p),
        17 => transferred_out(rt, r, a, b, v, l1d, l2, ext, l1p),
        _ => framed(rt, r, a, b, v, l1d, l2, ext, l1p),
    }
}

// 19: a fetch; 20 and 21: an L1P block invalidate, and one of all lines.
fn program_call(
    rt: &impl Print,
    r: ChipRecord,
    code: u32,
    a: u32,
    b: u32,
    l1d: &mut [u8; 16384],
    l2: &mut [u8; 65536],
    ext: &mut [u8; 65536],
    l1p: &mut [u8; 16384],
) -> io::Result<ChipRecord> {
    match code {
        19 => fetched(rt, r, a, l1d, l2, ext, l1p),
        20 => told(
            rt,
            by_value::l1p_invalidate_block(r, a, b, l1d, l2, ext, l1p),
        ),
        _ => told(rt, by_value::l1p_invalidate_all(r, l1d, l2, ext, l1p)),
    }
}

// The call of one row: its code, by which the functions above have it (13: a view), and its numbers.
fn one(
    rt: &impl Print,
    r: ChipRecord,
    code: u32,
    a: u32,
    b: u32,
    v: u32,
    l1d: &mut [u8; 16384],
    l2: &mut [u8; 65536],
    ext: &mut [u8; 65536],
    l1p: &mut [u8; 16384],
) -> io::Result<ChipRecord> {
    match code {
        0 | 1 | 14 | 15 => access(rt, r, code, a, b, v, l1d, l2, ext, l1p),
        2..=6 => l2_command(rt, r, code, a, b, l1d, l2, ext, l1p),
        7..=12 => other_command(rt, r, code, a, b, l1d, l2, ext, l1p),
        16..=18 => camera(rt, r, code, a, b, v, l1d, l2, ext, l1p),
        19..=21 => program_call(rt, r, code, a, b, l1d, l2, ext, l1p),
        _ => {
            seen(rt, r, l2, ext, a)?;
            Ok(r)
        }
    }
}

// A run, and what it answers.
fn run_over(
    rt: &impl Print,
    r: ChipRecord,
    l1d: &mut [u8; 16384],
    l2: &mut [u8; 65536],
    ext: &mut [u8; 65536],
    l1p: &mut [u8; 16384],
) -> io::Result<()> {
    let trace = [
        11u8, 129, 1, 1, 0, 1, 128, 129, 128, 128, 8, 1, 1, 128, 129, 128, 128, 8, 4, 10, 2, 0, 1,
        128, 129, 128, 128, 8, 12, 2,
    ];
    let mut answers = [0u8; 60];
    let q = by_value::run(r, &trace, l1d, l2, ext, l1p, &mut answers);
    show(rt, q.consumed as u64, q.count as u64, u64::from(q.stop))?;
    let (each, _) = answers.as_chunks::<10>();
    for answer in each {
        show(
            rt,
            u64::from(answer[0]),
            u64::from(answer[1]),
            memory::load_bytes::<8>(answer, 2),
        )?;
    }
    Ok(())
}

fn main(rt: HostRuntime) -> io::Result<()> {
    let mut l1d = [0u8; 16384];
    let mut l2 = [0u8; 65536];
    let mut ext = [0u8; 65536];
    let mut l1p = [0u8; 16384];
    let mut r = told(&rt, by_value::fresh(&mut l1d, &mut l2, &mut ext, &mut l1p))?;
    let list = [
        11u32, 128, 1, 0, 10, 1, 0, 0, 1, 4, 2147483648, 5, 0, 4, 2147483648, 0, 0, 4, 2147483648,
        0, 1, 4, 2147483648, 7, 13, 2147483648, 0, 0, 7, 2147483648, 1, 0, 13, 2147483648, 0, 0, 4,
        2147483648, 32, 0, 13, 2147483648, 0, 0, 0, 8, 2147483648, 0, 1, 2, 2147483650, 515, 2, 0,
        0, 0, 13, 2147483648, 0, 0, 1, 1, 256, 9, 0, 1, 256, 0, 1, 1, 256, 8, 13, 256, 0, 0, 8,
        256, 1, 0, 0, 1, 256, 0, 1, 1, 256, 6, 9, 0, 0, 0, 0, 1, 256, 0, 0, 1, 2147483776, 0, 1, 1,
        2147483776, 1, 6, 2147483776, 1, 0, 0, 1, 2147483776, 0, 1, 1, 2147483776, 2, 5,
        2147483776, 1, 0, 13, 2147483776, 0, 0, 0, 1, 2147483776, 0, 1, 1, 2147483776, 3, 3, 0, 0,
        0, 13, 2147483776, 0, 0, 0, 1, 2147483776, 0, 0, 3, 0, 0, 0, 4, 2, 0, 0, 1, 2147549184, 0,
        1, 1, 0, 256, 4, 2, 1, 0, 8, 0, 65536, 0, 10, 5, 0, 0, 11, 130, 1, 0, 11, 128, 0, 0, 12, 2,
        0, 0, 12, 1, 0, 0, 0, 1, 2147483776, 0, 0, 1, 2147483904, 0, 0, 1, 2147483904, 0, 12, 0, 0,
        0, 0, 1, 2147483904, 0, 0, 1, 2147483904, 0, 13, 4, 0, 0, 13, 2147549184, 0, 0, 10, 2, 0,
        0, 10, 1, 0, 0, 15, 4, 2147483774, 16909060, 14, 4, 2147483774, 0, 14, 8, 2147483773, 0,
        14, 2, 0, 0, 15, 8, 2147549180, 1, 1, 1, 512, 9, 0, 1, 512, 0, 1, 1, 512, 8, 17, 4, 512, 1,
        0, 1, 512, 0, 1, 1, 516, 6, 16, 4, 512, 5, 0, 1, 512, 0, 0, 1, 516, 0, 0, 1, 2147484160, 0,
        16, 128, 2147484160, 7, 0, 1, 2147484160, 0, 17, 128, 2147484160, 1, 1, 1, 2147484160, 3,
        17, 4, 2147484160, 1, 5, 2147484160, 32, 0, 17, 128, 2147484160, 1, 16, 4, 2, 1, 16, 0, 0,
        1, 17, 6, 32768, 1, 17, 8, 32764, 1, 16, 8, 2147549180, 1, 18, 3072, 0, 3, 0, 1,
        2147483648, 0, 1, 1, 2147486785, 9, 18, 3072, 1, 5, 0, 1, 2147486785, 0, 18, 3071, 1, 7,
        18, 3076, 0, 7, 18, 3072, 6, 255, 0, 1, 2147483713, 0, 19, 0, 0, 0, 19, 0, 0, 0, 1, 1, 31,
        7, 19, 0, 0, 0, 20, 28, 1, 0, 19, 0, 0, 0, 19, 2147483712, 0, 0, 19, 2147483744, 0, 0, 19,
        2147483712, 0, 0, 19, 2147500096, 0, 0, 5, 2147483648, 32, 0, 19, 2147483744, 0, 0, 19,
        2147500096, 0, 0, 21, 0, 0, 0, 19, 2147500096, 0, 0, 19, 17, 0, 0, 19, 32768, 0, 0, 19,
        2147549184, 0, 0, 20, 2, 1, 0, 20, 0, 65536, 0, 10, 0, 0, 0, 19, 2147500096, 0, 0, 11, 128,
        0, 0, 20, 2147500032, 32, 0, 11, 128, 0, 0, 19, 2147500096, 0, 0, 19, 2147500096, 0, 0, 11,
        128, 1, 0, 10, 1, 0, 0,
    ];
    let (rows, _) = list.as_chunks::<4>();
    for row in rows {
        r = one(
            &rt, r, row[0], row[1], row[2], row[3], &mut l1d, &mut l2, &mut ext, &mut l1p,
        )?;
    }
    run_over(&rt, r, &mut l1d, &mut l2, &mut ext, &mut l1p)
}
