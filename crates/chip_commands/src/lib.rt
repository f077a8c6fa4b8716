// Every command that is neither a read nor a write, on the words of the whole chip (02, U4): check 10, which looks in
// L1P too; which lines of L1P it drops; and both with what it does to the data side (`chip_step` of the definitions).
// No command moves a byte of L1P, so that L1P's bytes are not lent here. Who lends the words of the data side alone
// gets what the command does there (`step`): one function for both, so that the commands' loops have one caller.
#![tactic(auto)]

ghost use Rattle.std.specs.Prelude.{◌&&◌, ◌≢◌, ◌≡◌, List, ℕ, ◌≤◌, eqb, length, OnErr};
ghost use Rattle.model.specs.Records.{l2_sets_of};
ghost use Rattle.model.specs.Calls.{reply, command_due, step};
ghost use Rattle.model.specs.declared.Left.TheVariants.{NoWay};
ghost use Rattle.kinds.specs.Numbers.{number_due};
ghost use Rattle.tags.specs.Words.{record_words, record_in, state_in};
ghost use Rattle.program.specs.L1p.{l1p_holds_range};
ghost use Rattle.program.specs.Fetches.{with_l1p};
ghost use Rattle.program.specs.Chip.{lines_after, chip_command_due, chip_step};
ghost use Rattle.l1p_tags.specs.Lines.{chip_words, lines_in, chip_in};
ghost use Rattle.l1p_tags.specs.Lent.{Sized};

use geometry::Split;
use kinds::Refusal;
use model::Command;

// Does a line of L1P stand against a command? Check 10 looks in L1P too: a MAR bit is not cleared under a line.
pub fn hinders(words: &[u32], c: Command) -> bool
    requires { length words.now ≡ chip_words }
    ensures { result ≡ (eqb c.code 11 && (eqb c.second 0 && l1p_holds_range c.first (lines_in words.now))) }
{
    c.code == 11 && c.second == 0 && l1p_check::holds_range(words, c.first)
}

// The lines of L1P that an accepted command drops: those inside the L2 lines that L2 writeback-invalidate or invalidate
// acts on, and all at a mode change.
#[tactic(auto, unfolding(program::specs::Chip::lines_after))]
pub fn drop_lines(words: &mut [u32], split: Split, c: Command)
    requires { (split.sets ≡ l2_sets_of (record_in words.old)) × (length words.old ≡ chip_words) }
    ensures by_index { (d m e : List ℕ) → lines_in words.new
        ≡ lines_after c (state_in words.old d m e) (lines_in words.old) }
    ensures rest { record_in words.new ≡ record_in words.old }
{
    match c.code {
        3 => l1p_commands::drop_under_all(words, split),
        5 | 6 => l1p_commands::drop_under_block(words, split, c.first, c.second),
        10 => l1p_commands::invalidate_all(words),
        _ => {}
    }
}

// L1P's part of a command that the data side accepts: refused by 10, or its lines dropped. Where the data side's words
// are lent alone, there is none.
#[tactic(auto, unfolding(program::specs::Chip::chip_command_due))]
pub fn on_l1p(words: &mut [u32], split: Split, c: Command) -> Result<(), Refusal>
    requires { split.sets ≡ l2_sets_of (record_in words.old) }
    ensures due { length words.old ≡ chip_words → (d m e p : List ℕ) → command_due c (state_in words.old d m e) ≡ 0 →
        number_due result ≡ chip_command_due c (chip_in words.old d m e p) }
    ensures dropped { length words.old ≡ chip_words → number_due result ≡ 0 → (d m e : List ℕ) →
        lines_in words.new ≡ lines_after c (state_in words.old d m e) (lines_in words.old) }
    ensures none { length words.old ≢ chip_words → number_due result ≡ 0 }
    ensures rest { record_in words.new ≡ record_in words.old }
    ensures refused { OnErr result (words.new ≡ words.old) }
{
    if words.len() != l1p_tags::WORDS {
        return Ok(());
    }
    if hinders(words, c) {
        return Err(Refusal::MarInUse);
    }
    drop_lines(words, split, c);
    Ok(())
}

// Refused by its number with nothing changed, or carried out: on the whole chip, or on the data side where its words
// are lent alone. Which L2 lines L1P's lines lie in is asked before the data side's command makes those invalid.
pub fn execute(
    words: &mut [u32],
    split: Split,
    c: Command,
    l1d: &[u8],
    l2: &mut [u8],
    ext: &mut [u8],
) -> Result<(), Refusal>
    requires le_code { (2 ≤ c.code) × (record_words ≤ length words.old) }
    requires sized { Sized split.sram split.sets words.old }
    ensures data { length words.old ≡ record_words →
        reply (number_due result) 0 0 (state_in words.new l1d.now l2.new ext.new)
        ≡ step c (state_in words.old l1d.now l2.old ext.old) }
    ensures chip { length words.old ≡ chip_words → (p : List ℕ) →
        with_l1p NoWay (lines_in words.new) p
        (reply (number_due result) 0 0 (state_in words.new l1d.now l2.new ext.new))
        ≡ chip_step c (chip_in words.old l1d.now l2.old ext.old p) }
    ensures refused { OnErr result (words.new ≡ words.old) }
{
    let n = tags::WORDS;
    commands::command_due(&words[..n], c)?;
    on_l1p(words, split, c)?;
    commands::carry_out(&mut words[..n], split, c, l1d, l2, ext);
    Ok(())
}
