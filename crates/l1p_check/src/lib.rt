// Which lent words stand for well-formed lines of L1P (02, U4: "L1P lines are always clean, lie where L1D lines may,
// and needn't be in L2."), and L1P's part of checks 1, 2 and 10. The words are read where they stand. A byte valid or
// dirty of a mark that is neither 0 nor 1 makes a line that is not well formed; the padding of a mark is not looked at.
#![tactic(auto)]

ghost use Rattle.std.specs.Prelude.{◌≡◌, ◌<◌, length};
ghost use Rattle.model.specs.Records.{sram_of};
ghost use Rattle.kinds.specs.Numbers.{number_due};
ghost use Rattle.tags.specs.Words.{record_in};
ghost use Rattle.program.specs.L1p.{l1p_at, l1p_line_ok, l1p_ok, l1p_holds_range};
ghost use Rattle.program.specs.Chip.{chip_lent_due};
ghost use Rattle.l1p_tags.specs.Lines.{chip_words, lines_in, chip_in};

use geometry::L1p;
use kinds::Refusal;

const LINE: u64 = L1p::LINE as u64;

// The bytes after which the sets of L1P begin anew: a line is aligned and in its set when its address has one remainder
// by them.
const SPAN: usize = L1p::SETS * L1p::LINE;

// ---- check 10
// L1P holds a line of the 16 MiB from n × 1000000h on.
#[tactic(auto, using(crate::specs::Sets::set_laws))]
pub fn holds_range(words: &[u32], n: u32) -> bool
    requires { length words.now ≡ chip_words }
    ensures { result ≡ l1p_holds_range n (lines_in words.now) }
{
    for i in 0..L1p::SETS {
        if mar_check::in_range(l1p_tags::line(words, i), n) {
            return true;
        }
    }
    false
}

// ---- check 2
// The line of set s: none, as in most sets, or a clean one that may stand there.
#[tactic(auto, using(crate::specs::Sets::line_laws))]
fn line_ok(words: &[u32], s: usize, sram: usize) -> bool
    requires s_bound { (s < 512) × (length words.now ≡ chip_words) }
    requires sram_value { sram ≡ sram_of (record_in words.now) }
    ensures { result ≡ l1p_line_ok (record_in words.now) s (l1p_at (lines_in words.now) s) }
{
    let p = s * 2 + tags::WORDS;
    let mark = words[p] % 65536;
    let a = words[p + 1];
    if mark == 0 {
        return a == 0;
    }
    if !((mark == 1) & (a as usize % SPAN == s * L1p::LINE)) {
        return false;
    }
    if a < geometry::EXTERNAL_BASE {
        return a as usize + L1p::LINE <= sram;
    }
    way_check::cacheable_ok(words, a, LINE)
}

// Whether the words stand for well-formed lines of L1P, beside the record that they stand for.
#[tactic(auto, using(crate::specs::Sets::set_laws))]
pub fn lines_ok(words: &[u32]) -> bool
    requires { length words.now ≡ chip_words }
    ensures { result ≡ l1p_ok (record_in words.now) (lines_in words.now) }
{
    let split = tags::split_of(&words[..tags::WORDS]);
    for s in 0..L1p::SETS {
        if !line_ok(words, s, split.sram) {
            return false;
        }
    }
    true
}

// ---- what is due before any call of the chip is looked at: 1, 2, or nothing
#[tactic(auto, using(crate::specs::Sets::due_laws))]
pub fn lent_due(words: &[u32], l1d: &[u8], l2: &[u8], ext: &[u8], l1p: &[u8]) -> Result<(), Refusal>
    requires { length words.now ≡ chip_words }
    ensures { number_due result
        ≡ chip_lent_due (chip_in words.now l1d.now l2.now ext.now l1p.now) }
{
    if l1p.len() != L1p::BYTES {
        return Err(Refusal::LentLength);
    }
    record_check::lent_due(&words[..tags::WORDS], l1d, l2, ext)?;
    if !lines_ok(words) {
        return Err(Refusal::Record);
    }
    Ok(())
}
