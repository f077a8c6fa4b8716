// Reads commands off a trace (paper 01, "Trace"): a code byte and the numbers that the code takes.
#![tactic(auto)]

ghost use Rattle.std.specs.Prelude.{◌≡◌, ◌≤◌, unwrap_or, IfSome};
ghost use Rattle.decode.specs.Codes.{numbers_behind, DecodedAt};

use model::Command;

// The command at a place of a trace, and how many bytes it takes.
#[derive(Clone, Copy)]
pub struct Decoded {
    pub command: Command,
    pub used: usize,
}

// How many numbers follow a code byte; none where there is no such code.
#[tactic(auto, unfolding(crate::specs::Codes::numbers_behind))]
pub fn numbers_behind(code: u8) -> Option<u8>
    ensures count { unwrap_or result 4 ≡ numbers_behind code }
    ensures most { IfSome result (λ n. n ≤ 3) }
{
    match code {
        1 => Some(3),
        0 | 4..=8 | 11 => Some(2),
        10 | 12 => Some(1),
        2 | 3 | 9 => Some(0),
        _ => None,
    }
}

// The command at a place; none where the trace is damaged.
pub fn next_command(trace: &[u8], at: usize) -> Option<Decoded>
    ensures { DecodedAt trace.now at result }
{
    if trace.len() <= at {
        return None;
    }
    let code = trace[at];
    let count = numbers_behind(code)?;
    if count == 0 {
        return Some(Decoded {
            command: Command {
                code: code,
                first: 0,
                second: 0,
                value: 0,
            },
            used: 1,
        });
    }
    let first = numbers::number_at(trace, at + 1, 4, 16)?;
    if count == 1 {
        return Some(Decoded {
            command: Command {
                code: code,
                first: first.value as u32,
                second: 0,
                value: 0,
            },
            used: 1 + first.used,
        });
    }
    let second = numbers::number_at(trace, at + 1 + first.used, 4, 16)?;
    if count == 2 {
        return Some(Decoded {
            command: Command {
                code: code,
                first: first.value as u32,
                second: second.value as u32,
                value: 0,
            },
            used: 1 + first.used + second.used,
        });
    }
    let value = numbers::number_at(trace, at + 1 + first.used + second.used, 9, 2)?;
    Some(Decoded {
        command: Command {
            code: code,
            first: first.value as u32,
            second: second.value as u32,
            value: value.value,
        },
        used: 1 + first.used + second.used + value.used,
    })
}
