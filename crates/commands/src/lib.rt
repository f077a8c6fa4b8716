// Every command that is neither a read nor a write, on lent words: the number due (`command_due` of paper 01's
// definitions), what an accepted one does (`command_state`), and both together (`step`).
#![tactic(auto)]

ghost use Rattle.std.specs.Prelude.{◌≡◌, List, ℕ, ◌<◌, ◌≤◌, length, OnErr};
ghost use Rattle.model.specs.Records.{state};
ghost use Rattle.model.specs.Calls.{reply, command_due, command_state, step};
ghost use Rattle.tags.specs.Words.{record_words, record_in, state_in};
ghost use Rattle.tags.specs.Sizes.{Lent};
ghost use Rattle.kinds.specs.Numbers.{number_due, l1d_operation_code};
ghost use Rattle.commands.specs.Codes.{over_all, l1d_code, over_block};

use geometry::Split;
use kinds::{L1dOperation, L2Operation, Refusal};
use model::Command;

// What is due; the memories, whatever they are, do not matter.
#[tactic(auto, unfolding(model::specs::Calls::command_due))]
pub fn command_due(tags: &[u32], c: Command) -> Result<(), Refusal>
    requires { (2 ≤ c.code) × (length tags.now ≡ record_words) }
    ensures { (d m e : List ℕ) → number_due result ≡ command_due c (state_in tags.now d m e) }
{
    match c.code {
        4..=8 => refusals::block_due(c.first, c.second),
        10 => refusals::mode_due(tags::l2len_of(tags), c.first),
        11 => mar_check::mar_due(tags, c.first, c.second),
        12 => refusals::freeze_due(c.first),
        13.. => Err(Refusal::Damaged),
        _ => Ok(()),
    }
}

// A command over all of L2, codes 2 and 3: L1D is emptied first, dirty lines going home, so that no half is looked for
// then: codes 10 and 11 of what is done to a line.
pub fn l2_over_all(
    tags: &mut [u32],
    split: Split,
    code: u8,
    l1d: &[u8],
    l2: &mut [u8],
    ext: &mut [u8],
)
    requires le_code { (2 ≤ code) × (code < 4) }
    requires lent { Lent split.sram split.sets tags.old }
    ensures { state_in tags.new l1d.now l2.new ext.new
        ≡ over_all code (state_in tags.old l1d.now l2.old ext.old) }
{
    l1d_commands::l1d_all(tags, split, L1dOperation::WritebackInvalidate, l1d, l2, ext);
    l2_commands::l2_all(tags, split, L2Operation::from(code + 8), l1d, l2, ext);
}

// What is done to L1D's lines first by an L2 command over a block: writeback-invalidate, or invalidate for invalidate.
#[tactic(auto, unfolding(crate::specs::Codes::l1d_code))]
pub fn l1d_first(code: u8) -> L1dOperation
    ensures { l1d_operation_code result ≡ l1d_code code }
{
    if code == 6 {
        L1dOperation::Invalidate
    } else {
        L1dOperation::WritebackInvalidate
    }
}

// A command over the L2 lines that a block touches, codes 4 to 6: the L1D lines that it touches come first.
pub fn l2_over_block(
    tags: &mut [u32],
    split: Split,
    code: u8,
    base: u32,
    count: u32,
    l1d: &[u8],
    l2: &mut [u8],
    ext: &mut [u8],
)
    requires { Lent split.sram split.sets tags.old }
    ensures { state_in tags.new l1d.now l2.new ext.new
        ≡ over_block code base count (state_in tags.old l1d.now l2.old ext.old) }
{
    l1d_commands::l1d_block(tags, split, l1d_first(code), base, count, l1d, l2, ext);
    l2_commands::l2_block(
        tags,
        split,
        L2Operation::from(code),
        base,
        count,
        l1d,
        l2,
        ext,
    );
}

// An accepted cache command, codes 2 to 9.
pub fn sweep(tags: &mut [u32], split: Split, c: Command, l1d: &[u8], l2: &mut [u8], ext: &mut [u8])
    requires le_code { (2 ≤ c.code) × (c.code < 10) }
    requires lent { Lent split.sram split.sets tags.old }
    ensures { state_in tags.new l1d.now l2.new ext.new
        ≡ command_state c (state_in tags.old l1d.now l2.old ext.old) }
{
    match c.code {
        ..4 => l2_over_all(tags, split, c.code, l1d, l2, ext),
        4..=6 => l2_over_block(tags, split, c.code, c.first, c.second, l1d, l2, ext),
        7 | 8 => {
            let what = L1dOperation::from(c.code);
            l1d_commands::l1d_block(tags, split, what, c.first, c.second, l1d, l2, ext);
        }
        _ => l1d_commands::l1d_all(tags, split, L1dOperation::Invalidate, l1d, l2, ext),
    }
}

// An accepted mode or MAR change or freeze, codes 10 to 12.
pub fn change(tags: &mut [u32], split: Split, c: Command, l1d: &[u8], l2: &mut [u8], ext: &mut [u8])
    requires le_code { (10 ≤ c.code) × ((d m e : List ℕ) → command_due c (state (record_in tags.old) d m e) ≡ 0) }
    requires lent { Lent split.sram split.sets tags.old }
    ensures { state_in tags.new l1d.now l2.new ext.new
        ≡ command_state c (state_in tags.old l1d.now l2.old ext.old) }
{
    match c.code {
        10 => modes::change_mode(tags, split, c.first as u8, l1d, l2, ext),
        11 => modes::change_mar(tags, c.first, c.second),
        _ => modes::change_freeze(tags, c.first),
    }
}

// A command that no number is due for.
pub fn carry_out(
    tags: &mut [u32],
    split: Split,
    c: Command,
    l1d: &[u8],
    l2: &mut [u8],
    ext: &mut [u8],
)
    requires le_code { (2 ≤ c.code) × ((d m e : List ℕ) → command_due c (state (record_in tags.old) d m e) ≡ 0) }
    requires lent { Lent split.sram split.sets tags.old }
    ensures { state_in tags.new l1d.now l2.new ext.new
        ≡ command_state c (state_in tags.old l1d.now l2.old ext.old) }
{
    if c.code < 10 {
        sweep(tags, split, c, l1d, l2, ext);
    } else {
        change(tags, split, c, l1d, l2, ext);
    }
}

// Refused by its number with nothing changed, or carried out.
pub fn execute(
    tags: &mut [u32],
    split: Split,
    c: Command,
    l1d: &[u8],
    l2: &mut [u8],
    ext: &mut [u8],
) -> Result<(), Refusal>
    requires le_code { 2 ≤ c.code }
    requires lent { Lent split.sram split.sets tags.old }
    ensures ext_after { reply (number_due result) 0 0 (state_in tags.new l1d.now l2.new ext.new)
        ≡ step c (state_in tags.old l1d.now l2.old ext.old) }
    ensures refused { OnErr result (tags.new ≡ tags.old) }
{
    command_due(tags, c)?;
    carry_out(tags, split, c, l1d, l2, ext);
    Ok(())
}
