// The run over a trace, or of given commands: a loop that takes a command, carries it out as a call of its own, and
// puts down its answer. One function for all of them, so that the compiler makes one loop of the steps of an access; a
// given access alone goes beside it, with what it reports. On the words of the whole chip a command may drop lines of
// L1P (02, U4); who lends the words of the data side alone gets what the commands do there.
#![tactic(auto)]

ghost use Rattle.std.specs.Prelude.{◌≡◌, List, ℕ, ◌+◌, ◌*◌, ◌≤◌, ◌<◌, length, OnErr};
ghost use Rattle.model.specs.Records.{sram_of, l2_sets_of};
ghost use Rattle.model.specs.Calls.{step, ran, put_answer};
ghost use Rattle.model.specs.declared.Left.TheVariants.{NoWay};
ghost use Rattle.access.specs.Answered.{answer_of, plain_answer, server_in, value_in};
ghost use Rattle.kinds.specs.Numbers.{number_due};
ghost use Rattle.tags.specs.Words.{record_words, record_in, state_in};
ghost use Rattle.program.specs.Fetches.{with_l1p};
ghost use Rattle.program.specs.Chip.{chip_step};
ghost use Rattle.program.specs.Runs.{chip_ran, chip_run_from};
ghost use Rattle.l1p_tags.specs.Lines.{chip_words, lines_in, chip_in};
ghost use Rattle.l1p_tags.specs.Lent.{Sized};
ghost use Rattle.run.specs.Executed.{NextAt, TakenAt, end_of};
ghost use Rattle.run.specs.Turns.{held, Carried};
ghost use Rattle.run.specs.Upwards.{all_up};

use access::Answer;
use decode::Decoded;
use geometry::Split;
use kinds::Refusal;
use model::Command;

// How far a run came, and why it stopped, if not at the end; of one given command the answer.
#[derive(Clone, Copy)]
pub struct Ended {
    pub consumed: usize,
    pub count: usize,
    pub stop: Result<(), Refusal>,
    pub last: Result<Answer, Refusal>,
}

// An answer without server, value and report, as every command that is no access has it.
fn nothing() -> Answer
    ensures { result ≡ plain_answer None 0 }
{
    access::plain(None, 0)
}

// Where the commands end: behind the given ones, or the trace.
#[tactic(auto, unfolding(crate::specs::Executed::end_of))]
fn end_of(times: usize, trace: &[u8]) -> usize
    ensures { result ≡ end_of times trace.now }
{
    if times != 0 {
        return times;
    }
    trace.len()
}

// The command at a place before the end: a given one, or that of the trace, if it is not damaged there.
#[tactic(auto, unfolding(crate::specs::Executed::end_of))]
fn next(times: usize, given: Command, trace: &[u8], at: usize) -> Option<Decoded>
    requires before { at < end_of times trace.now }
    requires times_bound { given.second + times ≤ 4294967296 }
    ensures { NextAt times given trace.now at result }
{
    if times != 0 {
        let up = Command {
            code: given.code,
            first: given.first,
            second: given.second + at as u32,
            value: given.value,
        };
        return Some(Decoded {
            command: up,
            used: 1,
        });
    }
    decode::next_command(trace, at)
}

// The command that the run goes on with, or why it stops: 11 for a damaged trace, then 12 for fewer than ten answer
// bytes left. The quotient keeps the test from wrapping.
#[tactic(auto, unfolding(crate::specs::Executed::stop_of))]
fn taken(
    times: usize,
    given: Command,
    trace: &[u8],
    at: usize,
    count: usize,
    len: usize,
) -> Result<Decoded, Refusal>
    requires before { at < end_of times trace.now }
    requires times_bound { given.second + times ≤ 4294967296 }
    ensures { TakenAt times given trace.now at count len result }
{
    let Some(d) = next(times, given, trace, at) else {
        return Err(Refusal::Damaged);
    };
    if len / 10 <= count {
        return Err(Refusal::AnswersFull);
    }
    Ok(d)
}

// Number, server and value of an answer, or of a refusal, which has but its number.
fn put_answer(answers: &mut [u8], count: usize, answered: Result<Answer, Refusal>)
    requires { count * 10 + 10 ≤ length answers.old }
    ensures { answers.new
        ≡ put_answer answers.old count (number_due answered) (server_in answered) (value_in answered) }
{
    let at = count * 10;
    match answered {
        Ok(answer) => {
            answers[at] = 0;
            answers[at + 1] = kinds::server_told(answer.server);
            memory::store_bytes::<8>(answers, at + 2, answer.value);
        }
        Err(refusal) => {
            answers[at] = refusal.number();
            answers[at + 1] = 0;
            memory::store_bytes::<8>(answers, at + 2, 0);
        }
    }
}

// How the mode splits L2.
pub fn split_of(words: &[u32]) -> Split
    requires { record_words ≤ length words.now }
    ensures { (result.sram ≡ sram_of (record_in words.now)) × (result.sets ≡ l2_sets_of (record_in words.now)) }
{
    let n = tags::WORDS;
    tags::split_of(&words[..n])
}

// A read or a write, which leaves L1P alone.
#[inline(always)]
fn access(
    words: &mut [u32],
    split: Split,
    c: Command,
    l1d: &mut [u8],
    l2: &mut [u8],
    ext: &mut [u8],
) -> Result<Answer, Refusal>
    requires code_bound { (c.code < 2) × (record_words ≤ length words.old) }
    requires sized { Sized split.sram split.sets words.old }
    ensures carried { Carried c (held words.old l1d.old l2.old ext.old) (held words.new l1d.new l2.new ext.new) result }
    ensures sized { Sized split.sram split.sets words.new }
{
    let n = tags::WORDS;
    access::access(&mut words[..n], split, c, l1d, l2, ext)
}

// A command that is no access, as its answer is put down.
fn command(
    words: &mut [u32],
    split: Split,
    c: Command,
    l1d: &[u8],
    l2: &mut [u8],
    ext: &mut [u8],
) -> Result<Answer, Refusal>
    requires code_bound { (2 ≤ c.code) × (record_words ≤ length words.old) }
    requires sized { Sized split.sram split.sets words.old }
    ensures { Carried c (held words.old l1d.now l2.old ext.old) (held words.new l1d.now l2.new ext.new) result }
{
    chip_commands::execute(words, split, c, l1d, l2, ext)?;
    Ok(nothing())
}

// One given access, whose answer is the run's, with what it reports (02, U2).
#[inline(never)]
fn alone(
    words: &mut [u32],
    split: Split,
    c: Command,
    l1d: &mut [u8],
    l2: &mut [u8],
    ext: &mut [u8],
) -> Ended
    requires code_bound { (c.code < 2) × (record_words ≤ length words.old) }
    requires sized { Sized split.sram split.sets words.old }
    ensures { Carried c (held words.old l1d.old l2.old ext.old) (held words.new l1d.new l2.new ext.new) result.last }
{
    let last = access(words, split, c, l1d, l2, ext);
    Ended {
        consumed: 1,
        count: 1,
        stop: Ok(()),
        last: last,
    }
}

// All of a trace (`times` 0), or so many given commands, the second number of each one higher than that of the one in
// front of it. Who gives commands has room for their answers; the trace is then not looked at. One given access goes by
// itself: the loop puts down number, server and value, so that what an access reports is not made in it, and a run pays
// nothing for it. The steps of an access stand in the machine code twice for that, in the loop and in `alone`, which
// the hints at them ask for.
pub fn run(
    words: &mut [u32],
    times: usize,
    given: Command,
    trace: &[u8],
    l1d: &mut [u8],
    l2: &mut [u8],
    ext: &mut [u8],
    answers: &mut [u8],
) -> Ended
    requires record_words_in_bounds { record_words ≤ length words.old }
    requires times_bound { given.second + times ≤ 4294967296 }
    ensures one { times ≡ 1 → 10 ≤ length answers.old → length words.old ≡ record_words →
        answer_of result.last (state_in words.new l1d.new l2.new ext.new)
        ≡ step given (state_in words.old l1d.old l2.old ext.old) }
    ensures whole { times ≡ 1 → 10 ≤ length answers.old → length words.old ≡ chip_words → (p : List ℕ) →
        with_l1p NoWay (lines_in words.new) p (answer_of result.last (state_in words.new l1d.new l2.new ext.new))
        ≡ chip_step given (chip_in words.old l1d.old l2.old ext.old p) }
    ensures refused { times ≡ 1 → OnErr result.last (words.new ≡ words.old) }
    ensures all { times ≡ 0 → length words.old ≡ chip_words → (p : List ℕ) →
        chip_ran (chip_in words.new l1d.new l2.new ext.new p) result.consumed result.count (number_due result.stop)
        answers.new
        ≡ chip_run_from trace.now (length trace.now) 0
        (chip_in words.old l1d.old l2.old ext.old p) 0 answers.old }
    ensures up { 2 ≤ times → times * 10 ≤ length answers.old → length words.old ≡ record_words →
        ran (state_in words.new l1d.new l2.new ext.new) result.consumed result.count (number_due result.stop)
        answers.new
        ≡ all_up given times (state_in words.old l1d.old l2.old ext.old) answers.old }
{
    let mut at: usize = 0;
    let mut count: usize = 0;
    let mut split = split_of(words);
    if (times == 1) & (given.code < 2) {
        return alone(words, split, given, l1d, l2, ext);
    }
    let end = end_of(times, trace);
    while at < end {
        let d = match taken(times, given, trace, at, count, answers.len()) {
            Ok(d) => d,
            Err(refusal) => {
                return Ended {
                    consumed: at,
                    count: count,
                    stop: Err(refusal),
                    last: Ok(nothing()),
                };
            }
        };
        let c = d.command;
        if 2 <= c.code {
            let n = command(words, split, c, l1d, l2, ext);
            if times == 1 {
                return Ended {
                    consumed: 1,
                    count: 1,
                    stop: Ok(()),
                    last: n,
                };
            }
            put_answer(answers, count, n);
            split = split_of(words);
            at += d.used;
            count += 1;
            continue;
        }
        let a = access(words, split, c, l1d, l2, ext);
        put_answer(answers, count, a);
        at += d.used;
        count += 1;
    }
    Ended {
        consumed: at,
        count: count,
        stop: Ok(()),
        last: Ok(nothing()),
    }
}
