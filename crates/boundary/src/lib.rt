// The calls for C. A record is the caller's own, lent where it stands: `c64x_record *` of include/c64x.h, seen as
// words. A lent memory is a pointer and a length. None requires anything: every content of the record and of a
// memory, every length and every number meets a check. The contracts equate the answer, the chip that the words
// stand for and every lent byte with the definitions; a refused command changes no word.
#![tactic(auto)]

ghost use Rattle.std.specs.Prelude.{[], ◌≢◌, ◌≡◌};
ghost use Rattle.model.specs.Trace.{command};
ghost use Rattle.model.specs.Calls.{one_command, fresh_start, read_unaligned, write_unaligned, transfer_in, transfer_out};
ghost use Rattle.program.specs.Chip.{chip_lent_due, chip_view_due, on_data, fetch, l1p_block, l1p_all, chip_called};
ghost use Rattle.program.specs.Runs.{chip_ran, chip_run_call, chip_frame_call};
ghost use Rattle.traces.specs.ShortRuns.{short_run_of, short_run_number};
ghost use Rattle.traces.specs.Writing.{write_command};
ghost use Rattle.traces.specs.Load.{load_trace};
ghost use Rattle.trace_writer.specs.Told.{told};
ghost use Rattle.load.specs.Told.{told_load};
ghost use Rattle.short_runs.specs.Told.{told_run, told_number};
ghost use Rattle.l1p_tags.specs.Lines.{chip_in};
ghost use Rattle.camera_calls.specs.Told.{told_chip_framed};
ghost use Rattle.c_answers.specs.Told.{Tells, TellsFetch};
ghost use Rattle.view.specs.Into.{seen_as, view_into};

use c_answers::{CAnswer, CFetched};
use calls::Ran;
use frames::Framed;
use l1p_tags::WORDS;
use load::Load;
use short_runs::{RunNumber, ShortRun};
use trace_writer::Put;

#[unsafe(no_mangle)]
pub extern "C" fn c64x_read(
    words: &mut [u32; WORDS],
    size: u32,
    address: u32,
    l1d: &mut [u8],
    l2: &mut [u8],
    ext: &mut [u8],
    l1p: &[u8],
) -> CAnswer
    ensures tells { Tells result (chip_in words.new l1d.new l2.new ext.new l1p.now)
        (chip_called (on_data (one_command (command 0 size address 0))) (chip_in words.old l1d.old l2.old ext.old l1p.now)) }
    ensures refused { result.number ≢ 0 → words.new ≡ words.old }
{
    c_answers::carry_out(words, 0, size, address, 0, l1d, l2, ext, l1p)
}

#[unsafe(no_mangle)]
pub extern "C" fn c64x_write(
    words: &mut [u32; WORDS],
    size: u32,
    address: u32,
    value: u64,
    l1d: &mut [u8],
    l2: &mut [u8],
    ext: &mut [u8],
    l1p: &[u8],
) -> CAnswer
    ensures tells { Tells result (chip_in words.new l1d.new l2.new ext.new l1p.now)
        (chip_called (on_data (one_command (command 1 size address value))) (chip_in words.old l1d.old l2.old ext.old l1p.now)) }
    ensures refused { result.number ≢ 0 → words.new ≡ words.old }
{
    c_answers::carry_out(words, 1, size, address, value, l1d, l2, ext, l1p)
}

// Non-aligned accesses (02, U6).
#[unsafe(no_mangle)]
pub extern "C" fn c64x_read_unaligned(
    words: &mut [u32; WORDS],
    size: u32,
    address: u32,
    l1d: &mut [u8],
    l2: &mut [u8],
    ext: &mut [u8],
    l1p: &[u8],
) -> CAnswer
    ensures tells { Tells result (chip_in words.new l1d.new l2.new ext.new l1p.now)
        (chip_called (on_data (read_unaligned size address)) (chip_in words.old l1d.old l2.old ext.old l1p.now)) }
    ensures refused { result.number ≢ 0 → words.new ≡ words.old }
{
    c_answers::read_unaligned(words, size, address, l1d, l2, ext, l1p)
}

#[unsafe(no_mangle)]
pub extern "C" fn c64x_write_unaligned(
    words: &mut [u32; WORDS],
    size: u32,
    address: u32,
    value: u64,
    l1d: &mut [u8],
    l2: &mut [u8],
    ext: &mut [u8],
    l1p: &[u8],
) -> CAnswer
    ensures tells { Tells result (chip_in words.new l1d.new l2.new ext.new l1p.now)
        (chip_called (on_data (write_unaligned size address value)) (chip_in words.old l1d.old l2.old ext.old l1p.now)) }
    ensures refused { result.number ≢ 0 → words.new ≡ words.old }
{
    c_answers::write_unaligned(words, size, address, value, l1d, l2, ext, l1p)
}

// Camera transfers (02, U1): all of a buffer, into memory or out of it.
#[unsafe(no_mangle)]
pub extern "C" fn c64x_transfer_in(
    words: &mut [u32; WORDS],
    address: u32,
    buffer: &[u8],
    l1d: &mut [u8],
    l2: &mut [u8],
    ext: &mut [u8],
    l1p: &[u8],
) -> CAnswer
    ensures tells { Tells result (chip_in words.new l1d.new l2.new ext.new l1p.now)
        (chip_called (on_data (transfer_in address buffer.now)) (chip_in words.old l1d.old l2.old ext.old l1p.now)) }
    ensures refused { result.number ≢ 0 → words.new ≡ words.old }
{
    c_answers::transfer_in(words, address, buffer, l1d, l2, ext, l1p)
}

#[unsafe(no_mangle)]
pub extern "C" fn c64x_transfer_out(
    words: &mut [u32; WORDS],
    address: u32,
    buffer: &mut [u8],
    l1d: &mut [u8],
    l2: &mut [u8],
    ext: &mut [u8],
    l1p: &[u8],
) -> CAnswer
    ensures tells { Tells result (chip_in words.new l1d.new l2.new ext.new l1p.now)
        (chip_called (on_data (transfer_out address buffer.old)) (chip_in words.old l1d.old l2.old ext.old l1p.now)) }
    ensures handed { buffer.new
        ≡ (chip_called (on_data (transfer_out address buffer.old)) (chip_in words.old l1d.old l2.old ext.old l1p.now)).bytes }
    ensures refused { result.number ≢ 0 → words.new ≡ words.old }
{
    c_answers::transfer_out(words, address, buffer, l1d, l2, ext, l1p)
}

// A camera frame (02, U14): to the place of its turn, and added up by columns.
#[unsafe(no_mangle)]
pub extern "C" fn c64x_frame(
    words: &mut [u32; WORDS],
    turn: u8,
    pixels: &[u8],
    l1d: &mut [u8],
    l2: &mut [u8],
    ext: &mut [u8],
    l1p: &[u8],
) -> Framed
    ensures l1p_after { told_chip_framed result (chip_in words.new l1d.new l2.new ext.new l1p.now)
        ≡ chip_frame_call turn pixels.now (chip_in words.old l1d.old l2.old ext.old l1p.now) }
    ensures refused { result.number ≢ 0 → words.new ≡ words.old }
{
    camera_calls::frame(words, turn, pixels, l1d, l2, ext, l1p)
}

// A program fetch, and L1P's own invalidations (02, U4).
#[unsafe(no_mangle)]
pub extern "C" fn c64x_fetch(
    words: &mut [u32; WORDS],
    address: u32,
    l1d: &[u8],
    l2: &mut [u8],
    ext: &mut [u8],
    l1p: &mut [u8],
) -> CFetched
    ensures tells_fetch { TellsFetch result (chip_in words.new l1d.now l2.new ext.new l1p.new)
        (chip_called (fetch address) (chip_in words.old l1d.now l2.old ext.old l1p.old)) }
    ensures refused { result.answer.number ≢ 0 → words.new ≡ words.old }
{
    c_answers::fetch(words, address, l1d, l2, ext, l1p)
}

#[unsafe(no_mangle)]
pub extern "C" fn c64x_l1p_invalidate_block(
    words: &mut [u32; WORDS],
    base: u32,
    count: u32,
    l1d: &[u8],
    l2: &[u8],
    ext: &[u8],
    l1p: &[u8],
) -> CAnswer
    ensures tells { Tells result (chip_in words.new l1d.now l2.now ext.now l1p.now)
        (chip_called (l1p_block base count) (chip_in words.old l1d.now l2.now ext.now l1p.now)) }
    ensures refused { result.number ≢ 0 → words.new ≡ words.old }
{
    c_answers::l1p_invalidate_block(words, base, count, l1d, l2, ext, l1p)
}

#[unsafe(no_mangle)]
pub extern "C" fn c64x_l1p_invalidate_all(
    words: &mut [u32; WORDS],
    l1d: &[u8],
    l2: &[u8],
    ext: &[u8],
    l1p: &[u8],
) -> CAnswer
    ensures tells { Tells result (chip_in words.new l1d.now l2.now ext.now l1p.now)
        (chip_called l1p_all (chip_in words.old l1d.now l2.now ext.now l1p.now)) }
    ensures refused { result.number ≢ 0 → words.new ≡ words.old }
{
    c_answers::l1p_invalidate_all(words, l1d, l2, ext, l1p)
}

#[unsafe(no_mangle)]
pub extern "C" fn c64x_l2_writeback_all(
    words: &mut [u32; WORDS],
    l1d: &mut [u8],
    l2: &mut [u8],
    ext: &mut [u8],
    l1p: &[u8],
) -> CAnswer
    ensures tells { Tells result (chip_in words.new l1d.new l2.new ext.new l1p.now)
        (chip_called (on_data (one_command (command 2 0 0 0))) (chip_in words.old l1d.old l2.old ext.old l1p.now)) }
    ensures refused { result.number ≢ 0 → words.new ≡ words.old }
{
    c_answers::carry_out(words, 2, 0, 0, 0, l1d, l2, ext, l1p)
}

#[unsafe(no_mangle)]
pub extern "C" fn c64x_l2_writeback_invalidate_all(
    words: &mut [u32; WORDS],
    l1d: &mut [u8],
    l2: &mut [u8],
    ext: &mut [u8],
    l1p: &[u8],
) -> CAnswer
    ensures tells { Tells result (chip_in words.new l1d.new l2.new ext.new l1p.now)
        (chip_called (on_data (one_command (command 3 0 0 0))) (chip_in words.old l1d.old l2.old ext.old l1p.now)) }
    ensures refused { result.number ≢ 0 → words.new ≡ words.old }
{
    c_answers::carry_out(words, 3, 0, 0, 0, l1d, l2, ext, l1p)
}

#[unsafe(no_mangle)]
pub extern "C" fn c64x_l2_writeback_block(
    words: &mut [u32; WORDS],
    base: u32,
    count: u32,
    l1d: &mut [u8],
    l2: &mut [u8],
    ext: &mut [u8],
    l1p: &[u8],
) -> CAnswer
    ensures tells { Tells result (chip_in words.new l1d.new l2.new ext.new l1p.now)
        (chip_called (on_data (one_command (command 4 base count 0))) (chip_in words.old l1d.old l2.old ext.old l1p.now)) }
    ensures refused { result.number ≢ 0 → words.new ≡ words.old }
{
    c_answers::carry_out(words, 4, base, count, 0, l1d, l2, ext, l1p)
}

#[unsafe(no_mangle)]
pub extern "C" fn c64x_l2_writeback_invalidate_block(
    words: &mut [u32; WORDS],
    base: u32,
    count: u32,
    l1d: &mut [u8],
    l2: &mut [u8],
    ext: &mut [u8],
    l1p: &[u8],
) -> CAnswer
    ensures tells { Tells result (chip_in words.new l1d.new l2.new ext.new l1p.now)
        (chip_called (on_data (one_command (command 5 base count 0))) (chip_in words.old l1d.old l2.old ext.old l1p.now)) }
    ensures refused { result.number ≢ 0 → words.new ≡ words.old }
{
    c_answers::carry_out(words, 5, base, count, 0, l1d, l2, ext, l1p)
}

#[unsafe(no_mangle)]
pub extern "C" fn c64x_l2_invalidate_block(
    words: &mut [u32; WORDS],
    base: u32,
    count: u32,
    l1d: &mut [u8],
    l2: &mut [u8],
    ext: &mut [u8],
    l1p: &[u8],
) -> CAnswer
    ensures tells { Tells result (chip_in words.new l1d.new l2.new ext.new l1p.now)
        (chip_called (on_data (one_command (command 6 base count 0))) (chip_in words.old l1d.old l2.old ext.old l1p.now)) }
    ensures refused { result.number ≢ 0 → words.new ≡ words.old }
{
    c_answers::carry_out(words, 6, base, count, 0, l1d, l2, ext, l1p)
}

#[unsafe(no_mangle)]
pub extern "C" fn c64x_l1d_writeback_invalidate_block(
    words: &mut [u32; WORDS],
    base: u32,
    count: u32,
    l1d: &mut [u8],
    l2: &mut [u8],
    ext: &mut [u8],
    l1p: &[u8],
) -> CAnswer
    ensures tells { Tells result (chip_in words.new l1d.new l2.new ext.new l1p.now)
        (chip_called (on_data (one_command (command 7 base count 0))) (chip_in words.old l1d.old l2.old ext.old l1p.now)) }
    ensures refused { result.number ≢ 0 → words.new ≡ words.old }
{
    c_answers::carry_out(words, 7, base, count, 0, l1d, l2, ext, l1p)
}

#[unsafe(no_mangle)]
pub extern "C" fn c64x_l1d_invalidate_block(
    words: &mut [u32; WORDS],
    base: u32,
    count: u32,
    l1d: &mut [u8],
    l2: &mut [u8],
    ext: &mut [u8],
    l1p: &[u8],
) -> CAnswer
    ensures tells { Tells result (chip_in words.new l1d.new l2.new ext.new l1p.now)
        (chip_called (on_data (one_command (command 8 base count 0))) (chip_in words.old l1d.old l2.old ext.old l1p.now)) }
    ensures refused { result.number ≢ 0 → words.new ≡ words.old }
{
    c_answers::carry_out(words, 8, base, count, 0, l1d, l2, ext, l1p)
}

#[unsafe(no_mangle)]
pub extern "C" fn c64x_l1d_invalidate_all(
    words: &mut [u32; WORDS],
    l1d: &mut [u8],
    l2: &mut [u8],
    ext: &mut [u8],
    l1p: &[u8],
) -> CAnswer
    ensures tells { Tells result (chip_in words.new l1d.new l2.new ext.new l1p.now)
        (chip_called (on_data (one_command (command 9 0 0 0))) (chip_in words.old l1d.old l2.old ext.old l1p.now)) }
    ensures refused { result.number ≢ 0 → words.new ≡ words.old }
{
    c_answers::carry_out(words, 9, 0, 0, 0, l1d, l2, ext, l1p)
}

#[unsafe(no_mangle)]
pub extern "C" fn c64x_change_mode(
    words: &mut [u32; WORDS],
    mode: u32,
    l1d: &mut [u8],
    l2: &mut [u8],
    ext: &mut [u8],
    l1p: &[u8],
) -> CAnswer
    ensures tells { Tells result (chip_in words.new l1d.new l2.new ext.new l1p.now)
        (chip_called (on_data (one_command (command 10 mode 0 0))) (chip_in words.old l1d.old l2.old ext.old l1p.now)) }
    ensures refused { result.number ≢ 0 → words.new ≡ words.old }
{
    c_answers::carry_out(words, 10, mode, 0, 0, l1d, l2, ext, l1p)
}

#[unsafe(no_mangle)]
pub extern "C" fn c64x_change_mar(
    words: &mut [u32; WORDS],
    mar: u32,
    bit: u32,
    l1d: &mut [u8],
    l2: &mut [u8],
    ext: &mut [u8],
    l1p: &[u8],
) -> CAnswer
    ensures tells { Tells result (chip_in words.new l1d.new l2.new ext.new l1p.now)
        (chip_called (on_data (one_command (command 11 mar bit 0))) (chip_in words.old l1d.old l2.old ext.old l1p.now)) }
    ensures refused { result.number ≢ 0 → words.new ≡ words.old }
{
    c_answers::carry_out(words, 11, mar, bit, 0, l1d, l2, ext, l1p)
}

#[unsafe(no_mangle)]
pub extern "C" fn c64x_freeze(
    words: &mut [u32; WORDS],
    frozen: u32,
    l1d: &mut [u8],
    l2: &mut [u8],
    ext: &mut [u8],
    l1p: &[u8],
) -> CAnswer
    ensures tells { Tells result (chip_in words.new l1d.new l2.new ext.new l1p.now)
        (chip_called (on_data (one_command (command 12 frozen 0 0))) (chip_in words.old l1d.old l2.old ext.old l1p.now)) }
    ensures refused { result.number ≢ 0 → words.new ≡ words.old }
{
    c_answers::carry_out(words, 12, frozen, 0, 0, l1d, l2, ext, l1p)
}

#[unsafe(no_mangle)]
pub extern "C" fn c64x_fresh(
    words: &mut [u32; WORDS],
    l1d: &mut [u8],
    l2: &mut [u8],
    ext: &mut [u8],
    l1p: &mut [u8],
) -> CAnswer
    ensures { Tells result (chip_in words.new l1d.new l2.new ext.new l1p.new)
        (chip_called (on_data fresh_start) (chip_in words.old l1d.old l2.old ext.old l1p.old)) }
{
    c_answers::fresh(words, l1d, l2, ext, l1p)
}

#[unsafe(no_mangle)]
pub extern "C" fn c64x_run(
    words: &mut [u32; WORDS],
    trace: &[u8],
    l1d: &mut [u8],
    l2: &mut [u8],
    ext: &mut [u8],
    l1p: &[u8],
    answers: &mut [u8],
) -> Ran
    ensures answers_after { chip_ran (chip_in words.new l1d.new l2.new ext.new l1p.now) result.consumed result.count result.stop answers.new
        ≡ chip_run_call trace.now answers.old (chip_in words.old l1d.old l2.old ext.old l1p.now) }
    ensures refused { chip_lent_due (chip_in words.old l1d.old l2.old ext.old l1p.now) ≢ 0 → words.new
        ≡ words.old }
{
    calls::run_trace(words, trace, l1d, l2, ext, l1p, answers)
}

// The number that paper 01 has a view return, 0 when it is accepted: C is given it as it stands.
#[unsafe(no_mangle)]
pub extern "C" fn c64x_view(
    words: &[u32; WORDS],
    address: u32,
    l2: &[u8],
    ext: &[u8],
    seen: &mut [u8],
) -> u8
    ensures { seen_as result seen.new
        ≡ view_into address (chip_in words.now [] l2.now ext.now []) seen.old }
{
    kinds::number_due(view::view_into(words, address, l2, ext, seen))
}

#[unsafe(no_mangle)]
pub extern "C" fn c64x_view_number(words: &[u32; WORDS], address: u32, l2: &[u8], ext: &[u8]) -> u8
    ensures { result ≡ chip_view_due address (chip_in words.now [] l2.now ext.now []) }
{
    kinds::number_due(view::view_due(words, l2, ext, address))
}

// ---- beside the chip: the short runs by number (02, U12)
#[unsafe(no_mangle)]
pub extern "C" fn c64x_short_run_of(number: u32) -> ShortRun
    ensures { told_run result ≡ short_run_of number }
{
    short_runs::run_of(number)
}

#[unsafe(no_mangle)]
pub extern "C" fn c64x_short_run_number(digits: &[u8]) -> RunNumber
    ensures { told_number result ≡ short_run_number digits.now }
{
    short_runs::number_of(digits)
}

// ---- beside the chip: writing traces (02, U7). One command behind a point of a lent output; a write has its size
// first, its address second.
#[unsafe(no_mangle)]
pub extern "C" fn c64x_put_command(
    out: &mut [u8],
    at: usize,
    code: u32,
    first: u64,
    second: u64,
    value: u64,
) -> Put
    ensures { told result out.new
        ≡ write_command out.old at (command code first second value) }
{
    trace_writer::put_command(out, at, code, first, second, value)
}

// ---- beside the chip: a load to repeat (02, U9). The trace of so many accesses goes to the start of the output.
#[unsafe(no_mangle)]
pub extern "C" fn c64x_load_trace(seed: u32, extlen: u32, accesses: u64, out: &mut [u8]) -> Load
    ensures { told_load result out.new ≡ load_trace seed extlen accesses out.old }
{
    load::load_trace(seed, extlen, accesses, out)
}
