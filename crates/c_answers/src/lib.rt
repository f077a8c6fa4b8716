// The calls on the chip's words with their answers as C is given them: what left a way of a cache is a kind and an
// address (02, U2). The kinds are those of paper 02 in their order, and an address that there is none of is 0.
#![tactic(auto, using(crate::specs::Told::told))]

ghost use Rattle.std.specs.Prelude.{◌≢◌, ◌≡◌, length};
ghost use Rattle.model.specs.Trace.{command};
ghost use Rattle.model.specs.Calls.{one_command, fresh_start, read_unaligned, write_unaligned, transfer_in, transfer_out};
ghost use Rattle.program.specs.Chip.{on_data, fetch, l1p_block, l1p_all, chip_called};
ghost use Rattle.l1p_tags.specs.Lines.{chip_words, chip_in};
ghost use Rattle.c_answers.specs.Told.{told_left, told_accepted, told_refusal, told_answer, told_fetched, Tells, TellsFetch};

use access::Answer;
use fetches::Fetched;
use geometry::L1p;
use kinds::Refusal;
use model::Left;

// What left a way: 0 no way was chosen, 1 it was empty, 2 a clean line, 3 a dirty one, and the line's address.
#[repr(C)]
#[derive(Clone, Copy)]
pub struct CLeft {
    pub address: u32,
    pub kind: u8,
}

// C is given it as it stands, so that number and server are those that paper 01 has a call return.
#[repr(C)]
#[derive(Clone, Copy)]
pub struct CAnswer {
    pub value: u64,
    pub number: u8,
    pub server: u8,
    pub l1d_left: CLeft,
    pub l2_left: CLeft,
    pub external_read: u32,
    pub external_written: u32,
}

// What a fetch gives C: its answer, what left its L1P way, and the 32 bytes.
#[repr(C)]
#[derive(Clone, Copy)]
pub struct CFetched {
    pub answer: CAnswer,
    pub l1p_left: CLeft,
    pub bytes: [u8; L1p::LINE],
}

// How C is told what left a way.
impl From<Left> for CLeft {
    ghost from_gives = { λ x told. told ≡ told_left x };

    fn from(x: Left) -> CLeft {
        match x {
            Left::NoWay => CLeft {
                address: 0,
                kind: 0,
            },
            Left::Empty => CLeft {
                address: 0,
                kind: 1,
            },
            Left::Clean(a) => CLeft {
                address: a,
                kind: 2,
            },
            Left::Dirty(a) => CLeft {
                address: a,
                kind: 3,
            },
        }
    }
}

// .. an answer, or a refusal, which has but its number.
fn accepted_for_c(x: Answer) -> CAnswer
    ensures { result ≡ told_accepted x }
{
    CAnswer {
        value: x.value,
        number: 0,
        server: kinds::server_told(x.server),
        l1d_left: CLeft::from(x.l1d_left),
        l2_left: CLeft::from(x.l2_left),
        external_read: x.read,
        external_written: x.written,
    }
}

fn refused_for_c(refusal: Refusal) -> CAnswer
    ensures { result ≡ told_refusal refusal }
{
    let none = CLeft::from(Left::NoWay);
    CAnswer {
        value: 0,
        number: refusal.number(),
        server: 0,
        l1d_left: none,
        l2_left: none,
        external_read: 0,
        external_written: 0,
    }
}

pub fn answer_for_c(x: Result<Answer, Refusal>) -> CAnswer
    ensures { result ≡ told_answer x }
{
    match x {
        Ok(answer) => accepted_for_c(answer),
        Err(refusal) => refused_for_c(refusal),
    }
}

// A refused fetch has zeros for its line.
pub fn fetched_for_c(x: Result<Fetched, Refusal>) -> CFetched
    ensures { result ≡ told_fetched x }
{
    match x {
        Ok(fetched) => {
            let bytes = fetched.bytes;
            CFetched {
                answer: accepted_for_c(fetched.answer),
                l1p_left: CLeft::from(fetched.l1p_left),
                bytes: bytes,
            }
        }
        Err(refusal) => CFetched {
            answer: refused_for_c(refusal),
            l1p_left: CLeft::from(Left::NoWay),
            bytes: [0u8; L1p::LINE],
        },
    }
}

// Any command, from its numbers as they come.
pub fn carry_out(
    words: &mut [u32],
    code: u8,
    first: u32,
    second: u32,
    value: u64,
    l1d: &mut [u8],
    l2: &mut [u8],
    ext: &mut [u8],
    l1p: &[u8],
) -> CAnswer
    requires { length words.old ≡ chip_words }
    ensures tells { Tells result (chip_in words.new l1d.new l2.new ext.new l1p.now)
        (chip_called (on_data (one_command (command code first second value))) (chip_in words.old l1d.old l2.old ext.old l1p.now)) }
    ensures refused { result.number ≢ 0 → words.new ≡ words.old }
{
    answer_for_c(calls::carry_out(words, code, first, second, value, l1d, l2, ext, l1p))
}

// A non-aligned read, and a write (02, U6).
pub fn read_unaligned(
    words: &mut [u32],
    size: u32,
    address: u32,
    l1d: &mut [u8],
    l2: &mut [u8],
    ext: &mut [u8],
    l1p: &[u8],
) -> CAnswer
    requires { length words.old ≡ chip_words }
    ensures tells { Tells result (chip_in words.new l1d.new l2.new ext.new l1p.now)
        (chip_called (on_data (read_unaligned size address)) (chip_in words.old l1d.old l2.old ext.old l1p.now)) }
    ensures refused { result.number ≢ 0 → words.new ≡ words.old }
{
    answer_for_c(access_calls::read_unaligned(words, size, address, l1d, l2, ext, l1p))
}

pub fn write_unaligned(
    words: &mut [u32],
    size: u32,
    address: u32,
    value: u64,
    l1d: &mut [u8],
    l2: &mut [u8],
    ext: &mut [u8],
    l1p: &[u8],
) -> CAnswer
    requires { length words.old ≡ chip_words }
    ensures tells { Tells result (chip_in words.new l1d.new l2.new ext.new l1p.now)
        (chip_called (on_data (write_unaligned size address value)) (chip_in words.old l1d.old l2.old ext.old l1p.now)) }
    ensures refused { result.number ≢ 0 → words.new ≡ words.old }
{
    answer_for_c(access_calls::write_unaligned(words, size, address, value, l1d, l2, ext, l1p))
}

// Lines of L1P become invalid (02, U4): those that a block touches, or all.
pub fn l1p_invalidate_block(
    words: &mut [u32],
    base: u32,
    count: u32,
    l1d: &[u8],
    l2: &[u8],
    ext: &[u8],
    l1p: &[u8],
) -> CAnswer
    requires { length words.old ≡ chip_words }
    ensures tells { Tells result (chip_in words.new l1d.now l2.now ext.now l1p.now)
        (chip_called (l1p_block base count) (chip_in words.old l1d.now l2.now ext.now l1p.now)) }
    ensures refused { result.number ≢ 0 → words.new ≡ words.old }
{
    answer_for_c(access_calls::l1p_invalidate_block(words, base, count, l1d, l2, ext, l1p))
}

pub fn l1p_invalidate_all(
    words: &mut [u32],
    l1d: &[u8],
    l2: &[u8],
    ext: &[u8],
    l1p: &[u8],
) -> CAnswer
    requires { length words.old ≡ chip_words }
    ensures tells { Tells result (chip_in words.new l1d.now l2.now ext.now l1p.now)
        (chip_called (l1p_all) (chip_in words.old l1d.now l2.now ext.now l1p.now)) }
    ensures refused { result.number ≢ 0 → words.new ≡ words.old }
{
    answer_for_c(access_calls::l1p_invalidate_all(words, l1d, l2, ext, l1p))
}

// A transfer in, and one out (02, U1): the latter hands its bytes back in the buffer.
pub fn transfer_in(
    words: &mut [u32],
    address: u32,
    buffer: &[u8],
    l1d: &mut [u8],
    l2: &mut [u8],
    ext: &mut [u8],
    l1p: &[u8],
) -> CAnswer
    requires { length words.old ≡ chip_words }
    ensures tells { Tells result (chip_in words.new l1d.new l2.new ext.new l1p.now)
        (chip_called (on_data (transfer_in address buffer.now)) (chip_in words.old l1d.old l2.old ext.old l1p.now)) }
    ensures refused { result.number ≢ 0 → words.new ≡ words.old }
{
    answer_for_c(camera_calls::transfer_in(words, address, buffer, l1d, l2, ext, l1p))
}

pub fn transfer_out(
    words: &mut [u32],
    address: u32,
    buffer: &mut [u8],
    l1d: &mut [u8],
    l2: &mut [u8],
    ext: &mut [u8],
    l1p: &[u8],
) -> CAnswer
    requires { length words.old ≡ chip_words }
    ensures tells { Tells result (chip_in words.new l1d.new l2.new ext.new l1p.now)
        (chip_called (on_data (transfer_out address buffer.old)) (chip_in words.old l1d.old l2.old ext.old l1p.now)) }
    ensures handed { buffer.new
        ≡ (chip_called (on_data (transfer_out address buffer.old)) (chip_in words.old l1d.old l2.old ext.old l1p.now)).bytes }
    ensures refused { result.number ≢ 0 → words.new ≡ words.old }
{
    answer_for_c(camera_calls::transfer_out(words, address, buffer, l1d, l2, ext, l1p))
}

// A fresh start.
pub fn fresh(
    words: &mut [u32],
    l1d: &mut [u8],
    l2: &mut [u8],
    ext: &mut [u8],
    l1p: &mut [u8],
) -> CAnswer
    requires { length words.old ≡ chip_words }
    ensures { Tells result (chip_in words.new l1d.new l2.new ext.new l1p.new)
        (chip_called (on_data fresh_start) (chip_in words.old l1d.old l2.old ext.old l1p.old)) }
{
    answer_for_c(calls::fresh(words, l1d, l2, ext, l1p))
}

// A program fetch (02, U4).
pub fn fetch(
    words: &mut [u32],
    address: u32,
    l1d: &[u8],
    l2: &mut [u8],
    ext: &mut [u8],
    l1p: &mut [u8],
) -> CFetched
    requires { length words.old ≡ chip_words }
    ensures tells_fetch { TellsFetch result (chip_in words.new l1d.now l2.new ext.new l1p.new)
        (chip_called (fetch address) (chip_in words.old l1d.now l2.old ext.old l1p.old)) }
    ensures refused { result.answer.number ≢ 0 → words.new ≡ words.old }
{
    fetched_for_c(access_calls::fetch(words, address, l1d, l2, ext, l1p))
}
