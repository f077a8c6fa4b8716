// The record of the whole chip by value (02, U4: "the record carries its lines"), out of lent words and into them; and
// the fresh one in words. The data side's is crate packing's, on the front of the words; L1P's lines stand behind.
#![tactic(auto)]

ghost use Rattle.std.specs.Prelude.{◌≡◌, length};
ghost use Rattle.model.specs.Records.{fresh_record};
ghost use Rattle.tags.specs.Words.{record_in};
ghost use Rattle.program.specs.L1p.{fresh_l1p};
ghost use Rattle.l1p_tags.specs.Lines.{chip_words, lines_in};

use geometry::L1p;
use model::Line;
use program::ChipRecord;

// ---- out of the words
#[tactic(auto, using(crate::specs::Copied::taken))]
fn lines_of(words: &[u32]) -> [Line; 512]
    requires { length words.now ≡ chip_words }
    ensures { result ≡ lines_in words.now }
{
    let empty = geometry::empty_line();
    let mut xs = [empty; 512];
    for i in 0..L1p::SETS {
        xs[i] = l1p_tags::line(words, i);
    }
    xs
}

#[tactic(auto, using(l1p_tags::specs::Lines::lent))]
pub fn unpack(words: &[u32]) -> ChipRecord
    requires { length words.now ≡ chip_words }
    ensures { (result.data_side ≡ record_in words.now) × (result.l1p ≡ lines_in words.now) }
{
    ChipRecord {
        data_side: packing::unpack(&words[..tags::WORDS]),
        l1p: lines_of(words),
    }
}

// ---- into the words
#[tactic(auto, using(crate::specs::Copied::put))]
fn put_lines(words: &mut [u32], xs: [Line; 512])
    requires { length words.old ≡ chip_words }
    ensures words_after { lines_in words.new ≡ xs }
    ensures rest { record_in words.new ≡ record_in words.old }
{
    for s in 0..L1p::SETS {
        let x = xs[s];
        l1p_tags::put(words, s, x);
    }
}

#[tactic(auto, using(l1p_tags::specs::Lines::lent))]
pub fn pack(r: ChipRecord, words: &mut [u32])
    requires { length words.old ≡ chip_words }
    ensures { (record_in words.new ≡ r.data_side) × (lines_in words.new ≡ r.l1p) }
{
    packing::pack(r.data_side, &mut words[..tags::WORDS]);
    put_lines(words, r.l1p);
}

// ---- a fresh start, with L = l2len and E = extlen
#[tactic(auto, using(l1p_tags::specs::Lines::lent))]
pub fn write_fresh(words: &mut [u32], l2len: u32, extlen: u32)
    requires { length words.old ≡ chip_words }
    ensures { (record_in words.new ≡ fresh_record l2len extlen) × (lines_in words.new ≡ fresh_l1p) }
{
    packing::write_fresh(&mut words[..tags::WORDS], l2len, extlen);
    l1p_commands::invalidate_all(words);
}
