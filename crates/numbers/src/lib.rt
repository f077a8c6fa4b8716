// Numbers of a trace (paper 01, "Trace"): groups of seven bits, low group first, top bit set on all but the last,
// shortest form only.
#![tactic(auto)]

ghost use Rattle.std.specs.Prelude.{◌≡◌, ◌+◌, ◌*◌, ◌^◌, ◌≤◌, ◌<◌, drop, length, IfSome};
ghost use Rattle.model.specs.Trace.{number_below};
ghost use Rattle.numbers.specs.Told.{told};

// A number at a place of a trace, and how many bytes it takes.
#[derive(Clone, Copy)]
pub struct Number {
    pub value: u64,
    pub used: usize,
}

// A number below top × 128 to the power of `full`: so many groups may have any bits, and one behind them stays below
// `top`. 32 bits are four groups and four bits (4, 16), 64 bits nine and one (9, 2). The number of one byte comes
// first, as most are.
pub fn number_at(trace: &[u8], at: usize, full: usize, top: u64) -> Option<Number>
    requires { (1 ≤ full) × ((2 ≤ top) × ((top ≤ 128) × (top * 128 ^ full ≤ 18446744073709551616))) }
    ensures tells { told result ≡ number_below (top * 128 ^ full) (drop at trace.now) }
    ensures small { IfSome result (λ n. n.value < top * 128 ^ full) }
    ensures within { IfSome result (λ n. (1 ≤ n.used) × (at + n.used ≤ length trace.now)) }
{
    if trace.len() <= at {
        return None;
    }
    let first = trace[at] as u64;
    if first < 128 {
        return Some(Number {
            value: first,
            used: 1,
        });
    }
    let left = trace.len() - at;
    let mut value: u64 = first - 128;
    let mut weight: u64 = 128;
    for i in 1..full {
        if left <= i {
            return None;
        }
        let group = trace[at + i] as u64;
        if group < 128 {
            if group == 0 {
                return None;
            }
            return Some(Number {
                value: value + group * weight,
                used: i + 1,
            });
        }
        value = value + (group - 128) * weight;
        weight = weight * 128;
    }
    if left <= full {
        return None;
    }
    let last = trace[at + full] as u64;
    if last == 0 {
        return None;
    }
    if top <= last {
        return None;
    }
    Some(Number {
        value: value + last * weight,
        used: full + 1,
    })
}
