// Writes a trace (02, U7): one command at a time behind the point that the writer has reached. A command is made in an
// array first, so that one that is refused or does not fit has changed no byte of the output.
#![tactic(auto)]

ghost use Rattle.std.specs.Prelude.{◌≡◌, ◌+◌, ◌≤◌, ◌<◌, length, unwrap_or, IfSome};
ghost use Rattle.std.specs.Result.{result_unwrap_or};
ghost use Rattle.kinds.specs.Numbers.{number_due};
ghost use Rattle.model.specs.Bytes.{stored};
ghost use Rattle.model.specs.Trace.{command};
ghost use Rattle.traces.specs.Writing.{number_bytes, numbers_taken, command_bytes, narrow, written, write_command};
ghost use Rattle.trace_writer.specs.Told.{told, wrote, reached};

use kinds::Refusal;

// The point behind what is written, and the number. C is given it as it stands, so the fields are numbers.
#[repr(C)]
#[derive(Clone, Copy)]
pub struct Put {
    pub at: usize,
    pub number: u8,
}

// How many numbers a code takes; none where there is no such code.
#[tactic(auto, unfolding(traces::specs::Writing::numbers_taken, decode::specs::Codes::numbers_behind))]
fn numbers_taken(code: u32) -> Option<u8>
    ensures count { unwrap_or result 4 ≡ numbers_taken code }
    ensures most { IfSome result (λ n. (n ≤ 3) × (code < 256)) }
{
    if 255 < code {
        return None;
    }
    decode::numbers_behind(code as u8)
}

// Is no number that the code takes too wide? A value of 64 bits never is.
#[tactic(auto, unfolding(traces::specs::Writing::narrow))]
fn is_narrow(taken: u8, first: u64, second: u64) -> bool
    ensures { result ≡ narrow taken (command 0 first second 0) }
{
    if taken == 0 {
        return true;
    }
    if 0xFFFFFFFF < first {
        return false;
    }
    if taken == 1 {
        return true;
    }
    second <= 0xFFFFFFFF
}

// A number goes into the bytes, from byte n on; the place behind it. The loop ends by the value of what is left: how
// many groups there will be is not known before, so there is no range to count through.
#[tactic(auto, using(crate::specs::Encoding::groups))]
pub fn add_number(bytes: &mut [u8], n: usize, number: u64) -> usize
    requires { n + length (number_bytes number) ≤ length bytes.old }
    ensures bytes_after { bytes.new ≡ stored bytes.old n (number_bytes number) }
    ensures end { result ≡ n + length (number_bytes number) }
{
    let mut end = n;
    let mut rest = number;
    while 128 <= rest {
        bytes[end] = (rest % 128 + 128) as u8;
        rest = rest / 128;
        end += 1;
    }
    bytes[end] = rest as u8;
    end + 1
}

// The code and the numbers that it takes go into the bytes, from byte `at` on; the place behind them.
#[tactic(auto, using(crate::specs::Encoding::puts))]
pub fn add_command(
    bytes: &mut [u8],
    at: usize,
    code: u8,
    count: u8,
    first: u64,
    second: u64,
    value: u64,
) -> usize
    requires { (count ≡ numbers_taken code)
        × (at + length (command_bytes (command code first second value)) ≤ length bytes.old) }
    ensures bytes_after { bytes.new ≡ stored bytes.old at (command_bytes (command code first second value)) }
    ensures end { result ≡ at + length (command_bytes (command code first second value)) }
{
    bytes[at] = code;
    if count == 0 {
        return at + 1;
    }
    let one = add_number(bytes, at + 1, first);
    if count == 1 {
        return one;
    }
    let two = add_number(bytes, one, second);
    if count == 2 {
        return two;
    }
    add_number(bytes, two, value)
}

// One command behind a point of the output; the point behind it. 16 comes last.
#[tactic(auto, using(crate::specs::Encoding::puts_command), unfolding(traces::specs::Writing::write_command))]
pub fn put_at(
    out: &mut [u8],
    at: usize,
    code: u32,
    first: u64,
    second: u64,
    value: u64,
) -> Result<usize, Refusal>
    ensures { written (number_due result) (result_unwrap_or result at) out.new
        ≡ write_command out.old at (command code first second value) }
{
    let Some(count) = numbers_taken(code) else {
        return Err(Refusal::Damaged);
    };
    let mut bytes = [0u8; 32];
    let n = add_command(&mut bytes, 0, code as u8, count, first, second, value);
    if !is_narrow(count, first, second) {
        return Err(Refusal::Damaged);
    }
    if !memory::fits(at, n, out.len()) {
        return Err(Refusal::OutputShort);
    }
    out[at..at + n].copy_from_slice(&bytes[..n]);
    Ok(at + n)
}

// The same as C is told it: where it is refused, the point stays.
pub fn put_command(out: &mut [u8], at: usize, code: u32, first: u64, second: u64, value: u64) -> Put
    ensures { told result out.new
        ≡ write_command out.old at (command code first second value) }
{
    match put_at(out, at, code, first, second, value) {
        Ok(end) => Put { at: end, number: 0 },
        Err(refusal) => Put {
            at: at,
            number: refusal.number(),
        },
    }
}

// ---- the writer: it keeps the lent output and the point that it has reached
#[derive(Drop)]
pub struct Writer<'a> {
    pub out: &'a mut [u8],
    pub at: usize,
}

pub fn new<'a>(out: &'a mut [u8]) -> Writer<'a>
    ensures { (result.out ≡ out.entry) × (result.at ≡ 0) }
{
    Writer { out: out, at: 0 }
}

// One command behind the point, which moves on where it is accepted.
pub fn put_next<'s, 'a>(
    w: &'s mut Writer<'a>,
    code: u32,
    first: u64,
    second: u64,
    value: u64,
) -> Result<(), Refusal>
    ensures { (number_due result ≡ (wrote w.old (command code first second value)).number)
        × (w.new ≡ reached w.old (command code first second value)) }
{
    w.at = put_at(&mut *w.out, w.at, code, first, second, value)?;
    Ok(())
}
