// One way of a lent record, by its two words: whether it is empty, or holds a line that may stand there (paper 01,
// "Lines and the record"; part of refusal 2). A byte valid or dirty of a mark that is neither 0 nor 1 makes a way that
// is not well formed, as it does in C's layout by value; the padding of a mark is not looked at.
#![tactic(auto)]

ghost use Rattle.std.specs.Prelude.{◌&&◌, ◌||◌, ◌≡◌, ◌%◌, ◌≤◌, ◌<◌, eqb, length};
ghost use Rattle.model.specs.Basics.{any_of};
ghost use Rattle.model.specs.Memories.{external_base};
ghost use Rattle.model.specs.Lines.{holds};
ghost use Rattle.model.specs.Records.{sram_of, l2_sets_of, l2_set_at, in_cacheable, l1d_line_ok, l2_line_ok};
ghost use Rattle.tags.specs.Words.{record_words, line_in, record_in};
ghost use Rattle.way_check.specs.Ways.{external_in};

use geometry::{L1d, L2, Split};

// Sums of an address and a length are made of 64 bits, so that none wraps.
const EXTERNAL: u64 = geometry::EXTERNAL_BASE as u64;

const L1D_LINE: u64 = L1d::LINE as u64;

const L2_LINE: u64 = L2::LINE as u64;

// The bytes after which the sets of L1D begin anew: a line is aligned and in its set when its address has one
// remainder by them.
const L1D_SPAN: usize = L1d::SETS * L1d::LINE;

// ---- the parts of a way's test, by its words
// Valid, and clean or dirty; f is a mark without its padding.
pub fn live(f: u32) -> bool
    ensures { result ≡ (eqb f 1 || eqb f 257) }
{
    (f == 1) | (f == 257)
}

// The mark f without its padding and the address a are those of an empty way.
pub fn empty(f: u32, a: u32) -> bool
    ensures { result ≡ (eqb (f % 65536) 0 && eqb a 0) }
{
    (f % 65536 == 0) & (a == 0)
}

// The n bytes at a end inside external memory, and the MAR bit of a is 1; m: the word that has mode and MAR bits.
pub fn external_ok(a: u32, n: u64, extlen: u32, m: u32) -> bool
    requires { n ≤ 128 }
    ensures { result ≡ external_in extlen m n a }
{
    let inside = a as u64 + n <= EXTERNAL + extlen as u64;
    if a < geometry::MAR_129_FROM {
        return inside & (m / 256 % 2 == 1);
    }
    inside & (m / 65536 % 2 == 1)
}

// Of lent words, and an external address.
#[tactic(auto, using(crate::specs::Ways::external_is))]
pub fn cacheable_ok(tags: &[u32], a: u32, n: u64) -> bool
    requires { (record_words ≤ length tags.now) × (n ≤ 128) }
    ensures { external_base ≤ a → result ≡ in_cacheable (record_in tags.now) n a }
{
    external_ok(a, n, tags[1], tags[2])
}

#[tactic(auto, unfolding(model::specs::Lines::holds, tags::specs::Words::line_in))]
pub fn holds_in(f: u32, a: u32, b: u32) -> bool
    ensures { result ≡ holds (line_in f a) b }
{
    live(f % 65536) & (a == b)
}

// A way of L2 set j holds the line at b.
#[tactic(auto, using(crate::specs::Ways::four_ways))]
fn covers(tags: &[u32], j: usize, b: u32) -> bool
    requires { (j < 512) × (length tags.now ≡ record_words) }
    ensures { result ≡ any_of (λ y. holds y b) (l2_set_at (record_in tags.now) j).lines }
{
    let p = j * tags::L2_SET + tags::L2_FROM;
    let x = holds_in(tags[p], tags[p + 1], b) | holds_in(tags[p + 2], tags[p + 3], b);
    let y = holds_in(tags[p + 4], tags[p + 5], b) | holds_in(tags[p + 6], tags[p + 7], b);
    x | y
}

// ---- one way, by its mark f and its address a
// Of L1D set i.
#[tactic(auto, using(crate::specs::Ways::way_laws))]
pub fn l1d_way(tags: &[u32], i: usize, f: u32, a: u32, split: Split) -> bool
    requires i_bound { (i < 128) × (length tags.now ≡ record_words) }
    requires sram_value { split.sram ≡ sram_of (record_in tags.now) }
    requires sets_value { split.sets ≡ l2_sets_of (record_in tags.now) }
    ensures { result ≡ l1d_line_ok (record_in tags.now) i (line_in f a) }
{
    let mark = f % 65536;
    if mark == 0 {
        return a == 0;
    }
    if !(live(mark) & (a as usize % L1D_SPAN == i * L1d::LINE)) {
        return false;
    }
    if a < geometry::EXTERNAL_BASE {
        return a as usize + L1d::LINE <= split.sram;
    }
    if !cacheable_ok(tags, a, L1D_LINE) {
        return false;
    }
    if split.sets == 0 {
        return true;
    }
    // the number of L2 sets is a power of two, so that a remainder by it needs no division
    let j = (a as usize / L2::LINE) & (split.sets - 1);
    covers(tags, j, L2::line_of(a))
}

// Of L2 set j, which is in use.
#[tactic(auto, using(crate::specs::Ways::way_laws))]
pub fn l2_way(tags: &[u32], j: usize, f: u32, a: u32, split: Split) -> bool
    requires tags_len { length tags.now ≡ record_words }
    requires sets_value { (split.sets ≡ l2_sets_of (record_in tags.now)) × (j < split.sets) }
    ensures { result ≡ l2_line_ok (record_in tags.now) j (line_in f a) }
{
    let mark = f % 65536;
    if mark == 0 {
        return a == 0;
    }
    let own = (a as usize & (split.sets * L2::LINE - 1)) == j * L2::LINE;
    let placed = (geometry::EXTERNAL_BASE <= a) & cacheable_ok(tags, a, L2_LINE);
    live(mark) & (own & placed)
}
