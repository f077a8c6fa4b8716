// The lines of L1P in the words behind those of the data side (02, U4): mark and address of the line of each set. A
// mark is that of crate tags. Each function says what it does to the chip that the words stand for.
#![tactic(auto)]

ghost use Rattle.std.specs.Prelude.{◌≡◌, ◌<◌, length, set};
ghost use Rattle.model.specs.Lines.{holds};
ghost use Rattle.program.specs.L1p.{l1p_at};
ghost use Rattle.tags.specs.Words.{record_in};
ghost use Rattle.l1p_tags.specs.Lines.{chip_words, lines_in};

use geometry::L1p;
use model::Line;

// Two words for a line, the mark and the address.
pub const WORDS: usize = tags::WORDS + L1p::LINES * 2;

#[tactic(auto, using(crate::specs::Lines::line_at), unfolding(crate::specs::Lines::l1p_in))]
pub fn line(words: &[u32], s: usize) -> Line
    requires { (s < 512) × (length words.now ≡ chip_words) }
    ensures { result ≡ l1p_at (lines_in words.now) s }
{
    let p = s * 2 + tags::WORDS;
    tags::line_of(words[p], words[p + 1])
}

#[tactic(auto, using(crate::specs::Lines::put_line, crate::specs::Lines::put_record))]
pub fn put(words: &mut [u32], s: usize, x: Line)
    requires { (s < 512) × (length words.old ≡ chip_words) }
    ensures words_after { lines_in words.new ≡ set (lines_in words.old) s x }
    ensures rest { record_in words.new ≡ record_in words.old }
{
    let p = s * 2 + tags::WORDS;
    words[p] = tags::mark_of(x);
    words[p + 1] = x.address;
}

// Whether a line is valid and at this address, which may be past the last one.
#[tactic(auto, unfolding(model::specs::Lines::holds))]
pub fn holds_at(x: Line, b: usize) -> bool
    ensures { result ≡ holds x b }
{
    x.valid && x.address as usize == b
}
