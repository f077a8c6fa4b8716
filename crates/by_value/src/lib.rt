// The exported calls of paper 01 in Rattle, with those of 02: non-aligned accesses, transfers, frames, program
// fetches and L1P's invalidations. The record goes in and comes back by value, with its sets in arrays of set structs
// and L1P's lines in an array by set; each call puts it into words, makes the call on the words, and takes it out
// again. None requires anything. The contracts equate the answer, the record and every lent byte with the definitions
// (program/specs/Chip, Runs).
#![tactic(auto)]

ghost use Rattle.std.specs.Prelude.{List, [], ◌≡◌, ℕ, Ok, Err, length};
ghost use Rattle.model.specs.Trace.{command};
ghost use Rattle.model.specs.Calls.{one_command, fresh_start, read_unaligned, write_unaligned, transfer_in, transfer_out};
ghost use Rattle.program.specs.declared.ChipRecord.{ChipRecord};
ghost use Rattle.program.specs.Chip.{on_data, fetch, l1p_block, l1p_all, chip_called, chip_view_due, chip_view};
ghost use Rattle.program.specs.Runs.{chip_run_call, chip_frame_call};
ghost use Rattle.l1p_tags.specs.Lines.{chip_words, chip_in};
ghost use Rattle.chip_answers.specs.Told.{chip_answer_of, with_chip_bytes};
ghost use Rattle.by_value.specs.Called.{chip_of, called_as, fetched_by, framed_as, ran_as};

use access::Answer;
use frames::COLUMNS;
use geometry::L1p;
use kinds::Refusal;
use l1p_tags::WORDS;
use model::Left;
use program::ChipRecord;

// What a call returns: the number that paper 01 has it return (0: accepted), the server's and the value of an access,
// what an access reports (02, U2), and the record after it.
#[derive(Clone, Copy)]
pub struct Called {
    pub number: u8,
    pub server: u8,
    pub value: u64,
    pub l1d_left: Left,
    pub l2_left: Left,
    pub external_read: u32,
    pub external_written: u32,
    pub record: ChipRecord,
}

// What a fetch returns (02, U4): number and server as the papers number them, what it reports, the bytes of its line
// (zero where it is refused), and the record after it.
#[derive(Clone, Copy)]
pub struct FetchResult {
    pub number: u8,
    pub server: u8,
    pub l2_left: Left,
    pub l1p_left: Left,
    pub external_read: u32,
    pub external_written: u32,
    pub bytes: [u8; L1p::LINE],
    pub record: ChipRecord,
}

// What a frame returns: the number that 02 has it return (0: accepted), whose turn is next, the sums of the columns, and
// the record after it.
#[derive(Clone, Copy)]
pub struct FrameResult {
    pub number: u8,
    pub turn: u8,
    pub sums: [u32; COLUMNS],
    pub record: ChipRecord,
}

// What a run returns: the record, the bytes of the trace that were consumed, the count of answers, and the number of why
// it stopped (0: at the end).
#[derive(Clone, Copy)]
pub struct RunResult {
    pub record: ChipRecord,
    pub consumed: usize,
    pub count: usize,
    pub stop: u8,
}

// An answer, or a refusal, which has but its number, with the record that the words stand for then.
#[tactic(auto, unfolding(crate::specs::Called::called_as))]
fn accepted(x: Answer, after: ChipRecord) -> Called
    ensures { (d m e p : List ℕ) → called_as result d m e p ≡ chip_answer_of (Ok x) (chip_of after d m e p) }
{
    Called {
        number: 0,
        server: kinds::server_told(x.server),
        value: x.value,
        l1d_left: x.l1d_left,
        l2_left: x.l2_left,
        external_read: x.read,
        external_written: x.written,
        record: after,
    }
}

#[tactic(auto, unfolding(crate::specs::Called::called_as))]
fn refused(refusal: Refusal, after: ChipRecord) -> Called
    ensures { (d m e p : List ℕ) → called_as result d m e p ≡ chip_answer_of (Err refusal) (chip_of after d m e p) }
{
    Called {
        number: refusal.number(),
        server: 0,
        value: 0,
        l1d_left: Left::NoWay,
        l2_left: Left::NoWay,
        external_read: 0,
        external_written: 0,
        record: after,
    }
}

fn answered(x: Result<Answer, Refusal>, words: &[u32]) -> Called
    requires { length words.now ≡ chip_words }
    ensures { (d m e p : List ℕ) → called_as result d m e p ≡ chip_answer_of x (chip_in words.now d m e p) }
{
    let after = chip_packing::unpack(words);
    match x {
        Ok(answer) => accepted(answer, after),
        Err(refusal) => refused(refusal, after),
    }
}

// Any command.
pub fn one_command(
    r: ChipRecord,
    code: u8,
    first: u32,
    second: u32,
    value: u64,
    l1d: &mut [u8],
    l2: &mut [u8],
    ext: &mut [u8],
    l1p: &[u8],
) -> Called
    ensures { called_as result l1d.new l2.new ext.new l1p.now
        ≡ chip_called (on_data (one_command (command code first second value))) (chip_of r l1d.old l2.old ext.old l1p.now) }
{
    let mut words = [0u32; WORDS];
    chip_packing::pack(r, &mut words);
    let x = calls::carry_out(&mut words, code, first, second, value, l1d, l2, ext, l1p);
    answered(x, &words)
}

// A non-aligned read, and a write (02, U6).
pub fn read_unaligned(
    r: ChipRecord,
    size: u32,
    address: u32,
    l1d: &mut [u8],
    l2: &mut [u8],
    ext: &mut [u8],
    l1p: &[u8],
) -> Called
    ensures { called_as result l1d.new l2.new ext.new l1p.now
        ≡ chip_called (on_data (read_unaligned size address)) (chip_of r l1d.old l2.old ext.old l1p.now) }
{
    let mut words = [0u32; WORDS];
    chip_packing::pack(r, &mut words);
    let x = access_calls::read_unaligned(&mut words, size, address, l1d, l2, ext, l1p);
    answered(x, &words)
}

pub fn write_unaligned(
    r: ChipRecord,
    size: u32,
    address: u32,
    value: u64,
    l1d: &mut [u8],
    l2: &mut [u8],
    ext: &mut [u8],
    l1p: &[u8],
) -> Called
    ensures { called_as result l1d.new l2.new ext.new l1p.now
        ≡ chip_called (on_data (write_unaligned size address value)) (chip_of r l1d.old l2.old ext.old l1p.now) }
{
    let mut words = [0u32; WORDS];
    chip_packing::pack(r, &mut words);
    let x = access_calls::write_unaligned(&mut words, size, address, value, l1d, l2, ext, l1p);
    answered(x, &words)
}

// A transfer in, and one out (02, U1): the latter hands its bytes back in the buffer.
pub fn transfer_in(
    r: ChipRecord,
    address: u32,
    buffer: &[u8],
    l1d: &mut [u8],
    l2: &mut [u8],
    ext: &mut [u8],
    l1p: &[u8],
) -> Called
    ensures { called_as result l1d.new l2.new ext.new l1p.now
        ≡ chip_called (on_data (transfer_in address buffer.now)) (chip_of r l1d.old l2.old ext.old l1p.now) }
{
    let mut words = [0u32; WORDS];
    chip_packing::pack(r, &mut words);
    let x = camera_calls::transfer_in(&mut words, address, buffer, l1d, l2, ext, l1p);
    answered(x, &words)
}

pub fn transfer_out(
    r: ChipRecord,
    address: u32,
    buffer: &mut [u8],
    l1d: &mut [u8],
    l2: &mut [u8],
    ext: &mut [u8],
    l1p: &[u8],
) -> Called
    ensures { with_chip_bytes (called_as result l1d.new l2.new ext.new l1p.now) buffer.new
        ≡ chip_called (on_data (transfer_out address buffer.old)) (chip_of r l1d.old l2.old ext.old l1p.now) }
{
    let mut words = [0u32; WORDS];
    chip_packing::pack(r, &mut words);
    let x = camera_calls::transfer_out(&mut words, address, buffer, l1d, l2, ext, l1p);
    answered(x, &words)
}

// A camera frame (02, U14).
pub fn frame(
    r: ChipRecord,
    turn: u8,
    pixels: &[u8],
    l1d: &mut [u8],
    l2: &mut [u8],
    ext: &mut [u8],
    l1p: &[u8],
) -> FrameResult
    ensures { framed_as result l1d.new l2.new ext.new l1p.now
        ≡ chip_frame_call turn pixels.now (chip_of r l1d.old l2.old ext.old l1p.now) }
{
    let mut words = [0u32; WORDS];
    chip_packing::pack(r, &mut words);
    let x = camera_calls::frame(&mut words, turn, pixels, l1d, l2, ext, l1p);
    let sums = x.sums;
    FrameResult {
        number: x.number,
        turn: x.turn,
        sums: sums,
        record: chip_packing::unpack(&words),
    }
}

// A program fetch (02, U4): the 32 bytes of a line.
#[tactic(auto, using(crate::specs::Called::fetch_plain))]
pub fn fetch(
    r: ChipRecord,
    address: u32,
    l1d: &[u8],
    l2: &mut [u8],
    ext: &mut [u8],
    l1p: &mut [u8],
) -> FetchResult
    ensures { fetched_by result l1d.now l2.new ext.new l1p.new
        ≡ chip_called (fetch address) (chip_of r l1d.now l2.old ext.old l1p.old) }
{
    let mut words = [0u32; WORDS];
    chip_packing::pack(r, &mut words);
    let x = access_calls::fetch(&mut words, address, l1d, l2, ext, l1p);
    let after = chip_packing::unpack(&words);
    match x {
        Ok(fetched) => {
            let bytes = fetched.bytes;
            FetchResult {
                number: 0,
                server: kinds::server_told(fetched.answer.server),
                l2_left: fetched.answer.l2_left,
                l1p_left: fetched.l1p_left,
                external_read: fetched.answer.read,
                external_written: fetched.answer.written,
                bytes: bytes,
                record: after,
            }
        }
        Err(refusal) => FetchResult {
            number: refusal.number(),
            server: 0,
            l2_left: Left::NoWay,
            l1p_left: Left::NoWay,
            external_read: 0,
            external_written: 0,
            bytes: [0u8; L1p::LINE],
            record: after,
        },
    }
}

// L1P's own invalidations (02, U4): the lines that a block touches, and all.
pub fn l1p_invalidate_block(
    r: ChipRecord,
    base: u32,
    count: u32,
    l1d: &[u8],
    l2: &[u8],
    ext: &[u8],
    l1p: &[u8],
) -> Called
    ensures { called_as result l1d.now l2.now ext.now l1p.now
        ≡ chip_called (l1p_block base count) (chip_of r l1d.now l2.now ext.now l1p.now) }
{
    let mut words = [0u32; WORDS];
    chip_packing::pack(r, &mut words);
    let x = access_calls::l1p_invalidate_block(&mut words, base, count, l1d, l2, ext, l1p);
    answered(x, &words)
}

pub fn l1p_invalidate_all(r: ChipRecord, l1d: &[u8], l2: &[u8], ext: &[u8], l1p: &[u8]) -> Called
    ensures { called_as result l1d.now l2.now ext.now l1p.now
        ≡ chip_called l1p_all (chip_of r l1d.now l2.now ext.now l1p.now) }
{
    let mut words = [0u32; WORDS];
    chip_packing::pack(r, &mut words);
    let x = access_calls::l1p_invalidate_all(&mut words, l1d, l2, ext, l1p);
    answered(x, &words)
}

// A fresh start: L and E are the lengths that are lent. There is no record before it, so any stands for one.
#[tactic(auto, unfolding(program::specs::Chip::chip_fresh))]
pub fn fresh(l1d: &mut [u8], l2: &mut [u8], ext: &mut [u8], l1p: &mut [u8]) -> Called
    ensures { (r : ChipRecord) → called_as result l1d.new l2.new ext.new l1p.new
        ≡ chip_called (on_data fresh_start) (chip_of r l1d.old l2.old ext.old l1p.old) }
{
    let mut words = [0u32; WORDS];
    let x = calls::fresh(&mut words, l1d, l2, ext, l1p);
    answered(x, &words)
}

// A run over a trace; one answer of ten bytes for each command.
pub fn run(
    r: ChipRecord,
    trace: &[u8],
    l1d: &mut [u8],
    l2: &mut [u8],
    ext: &mut [u8],
    l1p: &[u8],
    answers: &mut [u8],
) -> RunResult
    ensures { ran_as result l1d.new l2.new ext.new l1p.now answers.new
        ≡ chip_run_call trace.now answers.old (chip_of r l1d.old l2.old ext.old l1p.now) }
{
    let mut words = [0u32; WORDS];
    chip_packing::pack(r, &mut words);
    let x = calls::run_trace(&mut words, trace, l1d, l2, ext, l1p, answers);
    let after = chip_packing::unpack(&words);
    RunResult {
        record: after,
        consumed: x.consumed,
        count: x.count,
        stop: x.stop,
    }
}

// ---- looking behind L1D: neither L1D nor L1P is lent, and [] stands for their bytes
// The 64 bytes of SRAM or external memory themselves, a part of whichever is their home; the empty part on refusal.
pub fn view<'a>(r: ChipRecord, l2: &'a [u8], ext: &'a [u8], address: u32) -> &'a [u8]
    ensures { result.now ≡ (chip_view address (chip_of r [] l2.now ext.now [])).bytes }
{
    let mut words = [0u32; WORDS];
    chip_packing::pack(r, &mut words);
    view::view(&words, l2, ext, address)
}

// The number of that call, 0 when it is accepted.
pub fn view_number(r: ChipRecord, l2: &[u8], ext: &[u8], address: u32) -> u8
    ensures { result ≡ chip_view_due address (chip_of r [] l2.now ext.now []) }
{
    let mut words = [0u32; WORDS];
    chip_packing::pack(r, &mut words);
    kinds::number_due(view::view_due(&words, l2, ext, address))
}
