// Camera transfers (02, U1) and frames (02, U14) as calls on the words of the whole chip: checks 1 and 2, then what
// lies below. A refused call leaves every word and every byte as it was. The contracts equate the answer, the chip and
// every lent byte with the definitions (program/specs/Chip, Runs).
#![tactic(auto)]

ghost use Rattle.std.specs.Prelude.{◌≢◌, ◌≡◌, length, OnErr};
ghost use Rattle.model.specs.Calls.{transfer_in, transfer_out};
ghost use Rattle.program.specs.Chip.{on_data, chip_called};
ghost use Rattle.program.specs.Runs.{chip_frame_call};
ghost use Rattle.l1p_tags.specs.Lines.{chip_words, chip_in};
ghost use Rattle.chip_answers.specs.Told.{chip_answer_of, with_chip_bytes};
ghost use Rattle.camera_calls.specs.Told.{told_chip_framed};

use access::Answer;
use frames::Framed;
use kinds::Refusal;

// A transfer in, and one out, which hands its bytes back in the buffer.
#[tactic(auto, using(chip_answers::specs::Front::on_front), unfolding(program::specs::Chip::behind_checks))]
pub fn transfer_in(
    words: &mut [u32],
    address: u32,
    buffer: &[u8],
    l1d: &mut [u8],
    l2: &mut [u8],
    ext: &mut [u8],
    l1p: &[u8],
) -> Result<Answer, Refusal>
    requires { length words.old ≡ chip_words }
    ensures l1p_after { chip_answer_of result (chip_in words.new l1d.new l2.new ext.new l1p.now)
        ≡ chip_called (on_data (transfer_in address buffer.now)) (chip_in words.old l1d.old l2.old ext.old l1p.now) }
    ensures refused { OnErr result (words.new ≡ words.old) }
{
    l1p_check::lent_due(words, l1d, l2, ext, l1p)?;
    let n = tags::WORDS;
    transfers::transfer_in(&mut words[..n], address, buffer, l1d, l2, ext)?;
    Ok(chip_answers::done())
}

#[tactic(auto, using(chip_answers::specs::Front::on_front), unfolding(program::specs::Chip::behind_checks))]
pub fn transfer_out(
    words: &mut [u32],
    address: u32,
    buffer: &mut [u8],
    l1d: &mut [u8],
    l2: &mut [u8],
    ext: &mut [u8],
    l1p: &[u8],
) -> Result<Answer, Refusal>
    requires { length words.old ≡ chip_words }
    ensures buffer_after { with_chip_bytes (chip_answer_of result (chip_in words.new l1d.new l2.new ext.new l1p.now)) buffer.new
        ≡ chip_called (on_data (transfer_out address buffer.old)) (chip_in words.old l1d.old l2.old ext.old l1p.now) }
    ensures refused { OnErr result (words.new ≡ words.old) }
{
    l1p_check::lent_due(words, l1d, l2, ext, l1p)?;
    let n = tags::WORDS;
    transfers::transfer_out(&mut words[..n], address, buffer, l1d, l2, ext)?;
    Ok(chip_answers::done())
}

// A frame. Its L2 command drops the lines of L1P inside the L2 lines of its place, which is asked before the data
// side's frame makes those invalid; so whether the frame is accepted is asked here too.
#[tactic(auto, using(chip_answers::specs::Front::on_front))]
pub fn frame(
    words: &mut [u32],
    turn: u8,
    pixels: &[u8],
    l1d: &mut [u8],
    l2: &mut [u8],
    ext: &mut [u8],
    l1p: &[u8],
) -> Framed
    requires { length words.old ≡ chip_words }
    ensures l1p_after { told_chip_framed result (chip_in words.new l1d.new l2.new ext.new l1p.now)
        ≡ chip_frame_call turn pixels.now (chip_in words.old l1d.old l2.old ext.old l1p.now) }
    ensures refused { result.number ≢ 0 → words.new ≡ words.old }
{
    if let Err(refusal) = l1p_check::lent_due(words, l1d, l2, ext, l1p) {
        return frames::refused(refusal.number(), turn);
    }
    let n = tags::WORDS;
    if let Err(refusal) = frames::due_for(tags::extlen_of(&words[..n]), pixels.len()) {
        return frames::refused(refusal.number(), turn);
    }
    let split = run::split_of(words);
    l1p_commands::drop_under_block(words, split, frames::place_of(turn), frames::WORDS);
    frames::frame(&mut words[..n], turn, pixels, l1d, l2, ext)
}
