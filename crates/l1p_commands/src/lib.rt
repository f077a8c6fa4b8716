// What makes lines of L1P invalid (02, U4), on the words of the chip: the line of an address; the lines inside an L2
// line, inside the L2 lines that a block touches, inside all of them, as far as L2 has them; L1P's own invalidations.
// The data side's words are read alone, and stay as they were; so do all bytes.
#![tactic(auto)]

ghost use Rattle.std.specs.Prelude.{List, ◌≢◌, ◌≡◌, ℕ, ◌<◌, ◌≤◌, ◌%◌, ◌/◌, length};
ghost use Rattle.model.specs.Records.{l2_sets_of};
ghost use Rattle.tags.specs.Words.{record_in, state_in};
ghost use Rattle.program.specs.L1p.{fresh_l1p, drop_l1p, drop_inside, drop_under_way, drop_under_all, drop_under_line, drop_under_block, invalidate_l1p_block};
ghost use Rattle.l1p_tags.specs.Lines.{chip_words, lines_in};

use geometry::{L1p, L2, Split};

// The line of address a, if it is held.
#[tactic(auto, unfolding(program::specs::L1p::in_l1p, program::specs::L1p::drop_l1p))]
pub fn drop_line(words: &mut [u32], a: usize)
    requires { length words.old ≡ chip_words }
    ensures words_after { lines_in words.new ≡ drop_l1p a (lines_in words.old) }
    ensures rest { record_in words.new ≡ record_in words.old }
{
    let s = L1p::set_of(a);
    let x = l1p_tags::line(words, s);
    if l1p_tags::holds_at(x, L1p::line_of(a)) {
        l1p_tags::put(words, s, geometry::empty_line());
    }
}

// The four lines inside the L2 line at b.
pub fn drop_inside(words: &mut [u32], b: u32)
    requires { length words.old ≡ chip_words }
    ensures words_after { lines_in words.new ≡ drop_inside b (lines_in words.old) }
    ensures rest { record_in words.new ≡ record_in words.old }
{
    for k in 0..L2::LINE / L1p::LINE {
        drop_line(words, b as usize + k * L1p::LINE);
    }
}

// Those of the line in a way of L2, if it is valid.
pub fn drop_under_way(words: &mut [u32], t: usize, v: usize)
    requires { ((t < 512) × (v < 4)) × (length words.old ≡ chip_words) }
    ensures by_index { (d m e : List ℕ) → lines_in words.new
        ≡ drop_under_way (state_in words.old d m e) t v (lines_in words.old) }
    ensures rest { record_in words.new ≡ record_in words.old }
{
    let n = tags::WORDS;
    let x = tags::line::<L2>(&words[..n], t, v);
    if x.valid {
        drop_inside(words, x.address);
    }
}

// Those of every valid line of L2.
pub fn drop_under_all(words: &mut [u32], split: Split)
    requires { (split.sets ≡ l2_sets_of (record_in words.old)) × (length words.old ≡ chip_words) }
    ensures by_index { (d m e : List ℕ) → lines_in words.new
        ≡ drop_under_all (state_in words.old d m e) (lines_in words.old) }
    ensures rest { record_in words.new ≡ record_in words.old }
{
    for k in 0..split.sets * L2::WAYS {
        drop_under_way(words, k / L2::WAYS, k % L2::WAYS);
    }
}

// Those of the L2 line at a, if L2 has it.
pub fn drop_under_line(words: &mut [u32], split: Split, a: u32)
    requires sets_nonzero { split.sets ≢ 0 }
    requires sets_value { (split.sets ≡ l2_sets_of (record_in words.old)) × (length words.old ≡ chip_words) }
    ensures by_index { (d m e : List ℕ) → lines_in words.new
        ≡ drop_under_line (state_in words.old d m e) a (lines_in words.old) }
    ensures rest { record_in words.new ≡ record_in words.old }
{
    let n = tags::WORDS;
    let held = tags::find::<L2>(&words[..n], L2::set_of(split, a), L2::line_of(a));
    if held.is_some() {
        drop_inside(words, a);
    }
}

// Those of the L2 lines that a block touches; none in mode 0.
pub fn drop_under_block(words: &mut [u32], split: Split, base: u32, count: u32)
    requires { (split.sets ≡ l2_sets_of (record_in words.old)) × (length words.old ≡ chip_words) }
    ensures by_index { (d m e : List ℕ) → lines_in words.new
        ≡ drop_under_block (state_in words.old d m e) base count (lines_in words.old) }
    ensures rest { record_in words.new ≡ record_in words.old }
{
    if split.sets == 0 {
        return;
    }
    for k in 0..geometry::lines_touched(L2::LINE, base, count) {
        drop_under_line(words, split, geometry::line_after(L2::LINE, base, count, k));
    }
}

// L1P's own: the lines that a block touches, and all.
pub fn invalidate_block(words: &mut [u32], base: u32, count: u32)
    requires { length words.old ≡ chip_words }
    ensures words_after { lines_in words.new ≡ invalidate_l1p_block base count (lines_in words.old) }
    ensures rest { record_in words.new ≡ record_in words.old }
{
    for k in 0..geometry::lines_touched(L1p::LINE, base, count) {
        drop_line(
            words,
            geometry::line_after(L1p::LINE, base, count, k) as usize,
        );
    }
}

pub fn invalidate_all(words: &mut [u32])
    requires { length words.old ≡ chip_words }
    ensures words_after { lines_in words.new ≡ fresh_l1p }
    ensures rest { record_in words.new ≡ record_in words.old }
{
    for s in 0..L1p::SETS {
        l1p_tags::put(words, s, geometry::empty_line());
    }
}
