// The calls of paper 01 on the words of the whole chip: the fresh start, any command, the run over a trace. Every
// content of the words, every number that a caller can pass and every length of a lent buffer meets a check, and a
// refused call leaves every word and every byte as it was. The contracts equate the answer, the chip and every lent
// byte with the definitions (program/specs/Chip, Runs). L1P's bytes are lent for check 1; only a fresh start changes
// them.
#![tactic(auto)]

ghost use Rattle.std.specs.Prelude.{◌≢◌, ◌≡◌, length, OnErr};
ghost use Rattle.model.specs.Trace.{command};
ghost use Rattle.model.specs.Calls.{one_command, fresh_start};
ghost use Rattle.program.specs.Chip.{chip_lent_due, on_data, chip_called};
ghost use Rattle.program.specs.Runs.{chip_ran, chip_run_call};
ghost use Rattle.l1p_tags.specs.Lines.{chip_words, chip_in};
ghost use Rattle.chip_answers.specs.Told.{chip_answer_of};
ghost use Rattle.calls.specs.Fresh.{chip_fresh_ok};

use access::Answer;
use geometry::{L1d, L1p, L2};
use kinds::Refusal;
use model::Command;

// The smallest legal L and E: the record that comes with a refused fresh start has them.
const SMALLEST_L2: u32 = 32768;

const SMALLEST_EXTERNAL: u32 = L2::LINE as u32;

// The command that a call asks for, from its numbers.
fn command_of(code: u8, first: u32, second: u32, value: u64) -> Command
    ensures { result ≡ command code first second value }
{
    Command {
        code: code,
        first: first,
        second: second,
        value: value,
    }
}

// Any command, from its numbers as they come: the checks of lengths and record, then a run of this one
// command.
#[tactic(auto, using(chip_answers::specs::Passed::checks))]
pub fn carry_out(
    words: &mut [u32],
    code: u8,
    first: u32,
    second: u32,
    value: u64,
    l1d: &mut [u8],
    l2: &mut [u8],
    ext: &mut [u8],
    l1p: &[u8],
) -> Result<Answer, Refusal>
    requires { length words.old ≡ chip_words }
    ensures l1p_after { chip_answer_of result (chip_in words.new l1d.new l2.new ext.new l1p.now)
        ≡ chip_called (on_data (one_command (command code first second value))) (chip_in words.old l1d.old l2.old ext.old l1p.now) }
    ensures refused { OnErr result (words.new ≡ words.old) }
{
    l1p_check::lent_due(words, l1d, l2, ext, l1p)?;
    let c = command_of(code, first, second, value);
    let none = [0u8; 1];
    let mut answer = [0u8; 10];
    let q = run::run(words, 1, c, &none, l1d, l2, ext, &mut answer);
    q.last
}

#[tactic(auto, using(std::proofs::lemmas::Bool::Decides::nat_tests), unfolding(model::specs::Calls::fresh_ok))]
fn fresh_ok(l1d: &[u8], l2: &[u8], ext: &[u8], l1p: &[u8]) -> bool
    ensures { result ≡ chip_fresh_ok l1d.now l2.now ext.now l1p.now }
{
    if l1p.len() != L1p::BYTES {
        return false;
    }
    if l1d.len() != L1d::BYTES {
        return false;
    }
    if !geometry::legal_l2(l2.len()) {
        return false;
    }
    geometry::legal_external(ext.len())
}

// A fresh start: L and E are the lengths that are lent. What the words held before is not looked at.
#[tactic(auto, using(crate::specs::Fresh::fresh_steps))]
pub fn fresh(
    words: &mut [u32],
    l1d: &mut [u8],
    l2: &mut [u8],
    ext: &mut [u8],
    l1p: &mut [u8],
) -> Result<Answer, Refusal>
    requires { length words.old ≡ chip_words }
    ensures { chip_answer_of result (chip_in words.new l1d.new l2.new ext.new l1p.new)
        ≡ chip_called (on_data fresh_start) (chip_in words.old l1d.old l2.old ext.old l1p.old) }
{
    if !fresh_ok(l1d, l2, ext, l1p) {
        chip_packing::write_fresh(words, SMALLEST_L2, SMALLEST_EXTERNAL);
        return Err(Refusal::LentLength);
    }
    let l = l2.len() as u32;
    let e = ext.len() as u32;
    memory::clear_from(l1d, 0);
    memory::clear_from(l2, 0);
    memory::clear_from(l1p, 0);
    chip_packing::write_fresh(words, l, e);
    Ok(chip_answers::done())
}

// What a run returns: the bytes of the trace that were consumed, the count of answers, and why it stopped (0: at the
// end). C is given it as it stands.
#[repr(C)]
#[derive(Clone, Copy)]
pub struct Ran {
    pub consumed: usize,
    pub count: usize,
    pub stop: u8,
}

// A run over a trace; one answer of ten bytes for each command. Stopped by 1 or 2 it leaves every word as it was.
#[tactic(auto, using(chip_answers::specs::Passed::checks), unfolding(program::specs::Runs::chip_run_call))]
pub fn run_trace(
    words: &mut [u32],
    trace: &[u8],
    l1d: &mut [u8],
    l2: &mut [u8],
    ext: &mut [u8],
    l1p: &[u8],
    answers: &mut [u8],
) -> Ran
    requires { length words.old ≡ chip_words }
    ensures answers_after { chip_ran (chip_in words.new l1d.new l2.new ext.new l1p.now) result.consumed result.count result.stop answers.new
        ≡ chip_run_call trace.now answers.old (chip_in words.old l1d.old l2.old ext.old l1p.now) }
    ensures refused { chip_lent_due (chip_in words.old l1d.old l2.old ext.old l1p.now) ≢ 0 → words.new
        ≡ words.old }
{
    if let Err(refusal) = l1p_check::lent_due(words, l1d, l2, ext, l1p) {
        return Ran {
            consumed: 0,
            count: 0,
            stop: refusal.number(),
        };
    }
    // the commands come from the trace, and the loop does not look at this one
    let unused = command_of(0, 0, 0, 0);
    let q = run::run(words, 0, unused, trace, l1d, l2, ext, answers);
    Ran {
        consumed: q.consumed,
        count: q.count,
        stop: kinds::number_due(q.stop),
    }
}
