// Non-aligned accesses (02, U6), program fetches and L1P's own invalidations (02, U4) as calls on the words of the
// whole chip: checks 1 and 2, then what lies below. A refused call leaves every word and every byte as it was. The
// contracts equate the answer, the chip and every lent byte with the definitions (program/specs/Chip).
#![tactic(auto)]

ghost use Rattle.std.specs.Prelude.{◌≡◌, ◌<◌, length, OnErr};
ghost use Rattle.model.specs.Calls.{read_unaligned, write_unaligned};
ghost use Rattle.program.specs.Chip.{on_data, fetch, l1p_block, l1p_all, chip_called};
ghost use Rattle.l1p_tags.specs.Lines.{chip_words, chip_in};
ghost use Rattle.chip_answers.specs.Told.{chip_answer_of};
ghost use Rattle.fetches.specs.Fetched.{fetched_as};

use access::Answer;
use fetches::Fetched;
use kinds::Refusal;

// A non-aligned read (code 0, of value 0) or write (code 1).
#[tactic(auto, using(chip_answers::specs::Front::on_front), unfolding(program::specs::Chip::behind_checks))]
fn unaligned(
    words: &mut [u32],
    code: u8,
    size: u32,
    address: u32,
    value: u64,
    l1d: &mut [u8],
    l2: &mut [u8],
    ext: &mut [u8],
    l1p: &[u8],
) -> Result<Answer, Refusal>
    requires { (length words.old ≡ chip_words) × (code < 2) }
    ensures reads { code ≡ 0 → value ≡ 0 → chip_answer_of result (chip_in words.new l1d.new l2.new ext.new l1p.now)
        ≡ chip_called (on_data (read_unaligned size address)) (chip_in words.old l1d.old l2.old ext.old l1p.now) }
    ensures writes { code ≡ 1 → chip_answer_of result (chip_in words.new l1d.new l2.new ext.new l1p.now)
        ≡ chip_called (on_data (write_unaligned size address value)) (chip_in words.old l1d.old l2.old ext.old l1p.now) }
    ensures refused { OnErr result (words.new ≡ words.old) }
{
    l1p_check::lent_due(words, l1d, l2, ext, l1p)?;
    let n = tags::WORDS;
    unaligned::carry_out(&mut words[..n], code, size, address, value, l1d, l2, ext)
}

pub fn read_unaligned(
    words: &mut [u32],
    size: u32,
    address: u32,
    l1d: &mut [u8],
    l2: &mut [u8],
    ext: &mut [u8],
    l1p: &[u8],
) -> Result<Answer, Refusal>
    requires { length words.old ≡ chip_words }
    ensures l1p_after { chip_answer_of result (chip_in words.new l1d.new l2.new ext.new l1p.now)
        ≡ chip_called (on_data (read_unaligned size address)) (chip_in words.old l1d.old l2.old ext.old l1p.now) }
    ensures refused { OnErr result (words.new ≡ words.old) }
{
    unaligned(words, 0, size, address, 0, l1d, l2, ext, l1p)
}

pub fn write_unaligned(
    words: &mut [u32],
    size: u32,
    address: u32,
    value: u64,
    l1d: &mut [u8],
    l2: &mut [u8],
    ext: &mut [u8],
    l1p: &[u8],
) -> Result<Answer, Refusal>
    requires { length words.old ≡ chip_words }
    ensures l1p_after { chip_answer_of result (chip_in words.new l1d.new l2.new ext.new l1p.now)
        ≡ chip_called (on_data (write_unaligned size address value)) (chip_in words.old l1d.old l2.old ext.old l1p.now) }
    ensures refused { OnErr result (words.new ≡ words.old) }
{
    unaligned(words, 1, size, address, value, l1d, l2, ext, l1p)
}

// A program fetch.
#[tactic(auto, using(chip_answers::specs::Passed::checks), unfolding(program::specs::Chip::fetch_call))]
pub fn fetch(
    words: &mut [u32],
    address: u32,
    l1d: &[u8],
    l2: &mut [u8],
    ext: &mut [u8],
    l1p: &mut [u8],
) -> Result<Fetched, Refusal>
    requires { length words.old ≡ chip_words }
    ensures l1p_after { fetched_as result (chip_in words.new l1d.now l2.new ext.new l1p.new)
        ≡ chip_called (fetch address) (chip_in words.old l1d.now l2.old ext.old l1p.old) }
    ensures refused { OnErr result (words.new ≡ words.old) }
{
    l1p_check::lent_due(words, l1d, l2, ext, l1p)?;
    fetches::fetch(words, address, l1d, l2, ext, l1p)
}

// Lines of L1P become invalid: those that a block touches, or all. No byte of a memory changes.
#[tactic(auto, using(chip_answers::specs::Passed::checks), unfolding(program::specs::Chip::l1p_block_call))]
pub fn l1p_invalidate_block(
    words: &mut [u32],
    base: u32,
    count: u32,
    l1d: &[u8],
    l2: &[u8],
    ext: &[u8],
    l1p: &[u8],
) -> Result<Answer, Refusal>
    requires { length words.old ≡ chip_words }
    ensures l1p_after { chip_answer_of result (chip_in words.new l1d.now l2.now ext.now l1p.now)
        ≡ chip_called (l1p_block base count) (chip_in words.old l1d.now l2.now ext.now l1p.now) }
    ensures refused { OnErr result (words.new ≡ words.old) }
{
    l1p_check::lent_due(words, l1d, l2, ext, l1p)?;
    refusals::block_due(base, count)?;
    l1p_commands::invalidate_block(words, base, count);
    Ok(chip_answers::done())
}

#[tactic(auto, using(chip_answers::specs::Passed::checks), unfolding(program::specs::Chip::l1p_all_call))]
pub fn l1p_invalidate_all(
    words: &mut [u32],
    l1d: &[u8],
    l2: &[u8],
    ext: &[u8],
    l1p: &[u8],
) -> Result<Answer, Refusal>
    requires { length words.old ≡ chip_words }
    ensures l1p_after { chip_answer_of result (chip_in words.new l1d.now l2.now ext.now l1p.now)
        ≡ chip_called l1p_all (chip_in words.old l1d.now l2.now ext.now l1p.now) }
    ensures refused { OnErr result (words.new ≡ words.old) }
{
    l1p_check::lent_due(words, l1d, l2, ext, l1p)?;
    l1p_commands::invalidate_all(words);
    Ok(chip_answers::done())
}
