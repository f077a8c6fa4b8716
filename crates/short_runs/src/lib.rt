// Runs of up to four of eight commands (02, U12): from a number the run, from a run its number. A run is its digits.
#![tactic(auto)]

ghost use Rattle.std.specs.Prelude.{◌≡◌, ◌≤◌, ◌<◌, ◌^◌, ◌-◌, ◌++◌, [], replicate};
ghost use Rattle.model.specs.Trace.{command};
ghost use Rattle.traces.specs.ShortRuns.{command_of_digit, digits_of_value, run_of, short_run, run_number};
ghost use Rattle.traces.specs.ShortRuns.{short_run_of, short_run_number};
ghost use Rattle.short_runs.specs.Told.{told_run, told_number};

use kinds::Refusal;
use model::Command;

// The run of a number: four digits, those behind its length being 0. C is given it as it stands, so the fields are
// numbers.
#[repr(C)]
#[derive(Clone, Copy)]
pub struct ShortRun {
    pub number: u8,
    pub length: u8,
    pub digits: [u8; 4],
}

// The number of a run. C is given it as it stands, so the fields are numbers.
#[repr(C)]
#[derive(Clone, Copy)]
pub struct RunNumber {
    pub number: u8,
    pub run: u32,
}

// Of a number: how long its run is, how many runs as long come before it, and how many are as long.
#[derive(Clone, Copy)]
struct Place {
    length: usize,
    value: u32,
    runs: u32,
}

// The empty run, and number 0, come with the refusal.
fn refused_run() -> ShortRun
    ensures { told_run result ≡ short_run 18 [] }
{
    ShortRun {
        number: Refusal::ShortRun.number(),
        length: 0,
        digits: [0; 4],
    }
}

fn refused_number() -> RunNumber
    ensures { told_number result ≡ run_number 18 0 }
{
    RunNumber {
        number: Refusal::ShortRun.number(),
        run: 0,
    }
}

fn made(code: u8, first: u32, second: u32, value: u64) -> Command
    ensures { result ≡ command code first second value }
{
    Command {
        code: code,
        first: first,
        second: second,
        value: value,
    }
}

// The command of a digit, which is 7 at most in a run.
#[tactic(auto, unfolding(traces::specs::ShortRuns::command_of_digit))]
pub fn command_of(digit: u8) -> Command
    ensures { result ≡ command_of_digit digit }
{
    match digit {
        0 => made(0, 1, 0x80000000, 0),
        1 => made(0, 1, 0x80002000, 0),
        2 => made(1, 1, 0x80000000, 1),
        3 => made(1, 1, 0x80002000, 2),
        4 => made(2, 0, 0, 0),
        5 => made(3, 0, 0, 0),
        6 => made(10, 0, 0, 0),
        _ => made(10, 1, 0, 0),
    }
}

// The loop ends by the value that is left: how long the run is comes out only as the shorter ones are passed, so there
// is no range to count through.
#[tactic(auto, using(crate::specs::Digits::places))]
fn place_of(number: u32) -> Place
    requires { number ≤ 4680 }
    ensures few { result.length ≤ 4 }
    ensures as_long { (result.runs ≡ 8 ^ result.length) × (result.value < result.runs) }
    ensures run { run_of number ≡ digits_of_value 8 result.length result.value }
{
    let mut length: usize = 0;
    let mut value = number;
    let mut runs: u32 = 1;
    while runs <= value {
        value = value - runs;
        runs = runs * 8;
        length += 1;
    }
    Place {
        length: length,
        value: value,
        runs: runs,
    }
}

// The first digit weighs most: so many of the runs as long have the digits before it and a smaller one there.
#[tactic(auto, using(crate::specs::Digits::fillings))]
fn digits_of(place: Place) -> [u8; 4]
    requires { (place.length ≤ 4) × ((place.runs ≡ 8 ^ place.length) × (place.value < place.runs)) }
    ensures { result ≡ digits_of_value 8 place.length place.value ++ replicate (4 - place.length) 0 }
{
    let mut digits = [0u8; 4];
    let mut weight = place.runs;
    let mut rest = place.value;
    for i in 0..place.length {
        weight = weight / 8;
        digits[i] = (rest / weight) as u8;
        rest = rest % weight;
    }
    digits
}

#[tactic(auto, using(crate::specs::Digits::runs))]
pub fn run_of(number: u32) -> ShortRun
    ensures { told_run result ≡ short_run_of number }
{
    if 4680 < number {
        return refused_run();
    }
    let place = place_of(number);
    ShortRun {
        number: 0,
        length: place.length as u8,
        digits: digits_of(place),
    }
}

#[tactic(auto, using(crate::specs::Digits::numbers))]
pub fn number_of(digits: &[u8]) -> RunNumber
    ensures { told_number result ≡ short_run_number digits.now }
{
    if 4 < digits.len() {
        return refused_number();
    }
    let mut shorter: u32 = 0;
    let mut same: u32 = 1;
    let mut value: u32 = 0;
    for digit in digits {
        if 7 < *digit {
            return refused_number();
        }
        shorter = shorter + same;
        same = same * 8;
        value = value * 8 + *digit as u32;
    }
    RunNumber {
        number: 0,
        run: shorter + value,
    }
}
