// The record in words that can be lent, as C lays it out: L, E, mode, MAR bits and freeze, the counts of dirty lines;
// five words for a set of L1D (mark and address of two lines, the order), nine for a set of L2. A mark is 0, or 1 for a
// clean and 257 for a dirty line: the bytes valid and dirty. Each function says what it does to the record that the
// words stand for.
#![tactic(auto)]

ghost use Rattle.std.specs.Prelude.{◌≡◌, ℕ, ◌+◌, ◌*◌, ◌%◌, ◌/◌, ◌<◌, ◌≤◌, List, length, set, unwrap_or, IfSome};
ghost use Rattle.model.specs.Ways.{way_holding, lowest_invalid};
ghost use Rattle.model.specs.Records.{sram_of, l2_sets_of, counted};
ghost use Rattle.model.specs.declared.Line.{Line};
ghost use Rattle.model.specs.declared.Record.{Record};
ghost use Rattle.tags.specs.Words.{record_words, word, line_in, order2_in, order4_in, record_in};

use geometry::{L1d, L2, Split};
use model::{Line, Order2, Order4};

// ---- where the words of a line and of an order stand
// L; E; the mode, the two MAR bits and the freeze, a byte each; how many lines are dirty in L1D and in L2.
pub const HEAD: usize = 5;

pub const L1D_COUNT: usize = 3;

pub const L2_COUNT: usize = 4;

// How many lines each cache has, which no count passes.
pub const L1D_LINES: u32 = (L1d::SETS * L1d::WAYS) as u32;

pub const L2_LINES: u32 = (L2::SETS * L2::WAYS) as u32;

// A line has two words, its mark and its address; a set has its lines and a word for the order.
pub const L1D_SET: usize = L1d::WAYS * 2 + 1;

pub const L2_SET: usize = L2::WAYS * 2 + 1;

pub const L2_FROM: usize = HEAD + L1d::SETS * L1D_SET;

// The word of the order of the first set; the others follow by sets.
pub const L1D_ORDER: usize = HEAD + L1d::WAYS * 2;

pub const L2_ORDER: usize = L2_FROM + L2::WAYS * 2;

// All of them.
pub const WORDS: usize = L2_FROM + L2::SETS * L2_SET;

#[tactic(auto, unfolding(crate::specs::Words::line_in))]
pub fn mark_of(x: Line) -> u32
    ensures { line_in result x.address ≡ x }
{
    if x.valid {
        if x.dirty {
            return 257;
        }
        return 1;
    }
    if x.dirty {
        return 256;
    }
    0
}

#[tactic(auto, unfolding(crate::specs::Words::line_in))]
pub fn line_of(f: u32, a: u32) -> Line
    ensures { result ≡ line_in f a }
{
    let g = f % 65536;
    Line {
        valid: (g == 1) | (g == 257),
        dirty: 1 < g,
        address: a,
    }
}

// ---- the two caches of the data side, as kinds of one thing: each function below is there for both
// What the record says of a cache, and where its words stand.
pub trait Level {
    ghost sets: { ℕ };

    // the line in a way of a set; the record with another line there, its count left alone, and with its count moved
    ghost line_at: { Record → ℕ → ℕ → Line };

    ghost stored: { Record → ℕ → ℕ → Line → Record };

    ghost put: { Record → ℕ → ℕ → Line → Record };

    // the way of a set that holds the line at an address (as many as there are ways where none does), and the one that
    // is chosen; the record with a way used
    ghost found: { Record → ℕ → ℕ → ℕ };

    ghost chosen: { Record → ℕ → ℕ };

    ghost used: { Record → ℕ → ℕ → Record };

    // where the two words of a line and the word of a set's order stand
    ghost place: { ℕ → ℕ → ℕ };

    ghost order_place: { ℕ → ℕ };

    // the way last in the order of a word; that the third word has the order of the first with a way used
    ghost last: { ℕ → ℕ };

    ghost Touched: { ℕ → ℕ → ℕ → Type 0 };

    ghost WAYS: { ℕ };

    const WAYS: usize;

    // the word that counts the dirty lines, and how many lines there are
    ghost COUNT: { ℕ };

    const COUNT: usize;

    ghost LINES: { ℕ };

    const LINES: u32;

    fn place(s: usize, w: usize) -> usize
        requires { (s < sets) × (w < WAYS) }
        ensures { (result ≡ place s w) × (result + 1 < record_words) };

    fn order_place(s: usize) -> usize
        requires { s < sets }
        ensures { (result ≡ order_place s) × (result < record_words) };

    fn last(order: u32) -> usize
        ensures { (result ≡ last order) × (result < WAYS) };

    fn touched(order: u32, w: usize) -> u32
        requires { w < WAYS }
        ensures { Touched order w result };

    // ---- what these have to do with each other
    ghost count_inside: { COUNT < record_words };

    ghost line_law: { (ws : List ℕ) (s w : ℕ) → s < sets → w < WAYS →
        line_in (word ws (place s w)) (word ws (place s w + 1)) ≡ line_at (record_in ws) s w };

    ghost store_law: { (ws : List ℕ) (s w f a : ℕ) → length ws ≡ record_words → s < sets → w < WAYS →
        record_in (set (set ws (place s w) f) (place s w + 1) a) ≡ stored (record_in ws) s w (line_in f a) };

    ghost put_law: { (ws us vs : List ℕ) (s w : ℕ) (x y : Line) → length us ≡ record_words →
        y ≡ line_at (record_in ws) s w → record_in us ≡ stored (record_in ws) s w x →
        vs ≡ set us COUNT (counted LINES y.dirty x.dirty (word us COUNT)) → record_in vs ≡ put (record_in ws) s w x };

    ghost find_law: { (r : Record) (s b : ℕ) → found r s b ≡ way_holding (line_at r s) WAYS 0 b };

    ghost choose_law: { (ws : List ℕ) (s : ℕ) → s < sets →
        chosen (record_in ws) s ≡ lowest_invalid (line_at (record_in ws) s) WAYS 0 (last (word ws (order_place s))) };

    ghost use_law: { (ws : List ℕ) (s w n : ℕ) → length ws ≡ record_words → s < sets →
        Touched (word ws (order_place s)) w n → record_in (set ws (order_place s) n) ≡ used (record_in ws) s w };
}

impl Level for L1d {
    ghost use Rattle.std.proofs.Common.{arith};
    ghost use Rattle.model.specs.Lines.{used2};
    ghost use Rattle.model.specs.Records.{l1d_line_at, with_l1d_line};
    ghost use Rattle.tags.specs.Levels.{l1d_stored, l1d_found, l1d_chosen, l1d_used, l1d-found-is, l1d-chosen-is};
    ghost use Rattle.tags.specs.Words.{l1d_place_of, l1d-line-at, put-l1d-set, put-l1d, use-l1d};

    ghost sets = { 128 };

    ghost line_at = { l1d_line_at };

    ghost stored = { l1d_stored };

    ghost put = { with_l1d_line };

    ghost found = { l1d_found };

    ghost chosen = { l1d_chosen };

    ghost used = { l1d_used };

    ghost place = { l1d_place_of };

    ghost order_place = { λ s. s * 5 + 9 };

    ghost last = { λ o. (order2_in o).second % 2 };

    ghost Touched = { λ o w n. order2_in n ≡ used2 (order2_in o) w };

    ghost WAYS = { 2 };

    const WAYS: usize = L1d::WAYS;

    ghost COUNT = { 3 };

    const COUNT: usize = L1D_COUNT;

    ghost LINES = { 256 };

    const LINES: u32 = L1D_LINES;

    fn place(s: usize, w: usize) -> usize {
        s * L1D_SET + w * 2 + HEAD
    }

    fn order_place(s: usize) -> usize {
        s * L1D_SET + L1D_ORDER
    }

    fn last(order: u32) -> usize {
        (order2_of(order).second % 2) as usize
    }

    fn touched(order: u32, w: usize) -> u32 {
        order2_word(order2_of(order).touch(w as u8))
    }

    ghost count_inside = { omega arith };

    ghost line_law = { l1d-line-at };

    ghost store_law = { put-l1d-set };

    ghost put_law = { put-l1d };

    ghost find_law = { l1d-found-is };

    ghost choose_law = { l1d-chosen-is };

    ghost use_law = { use-l1d };
}

impl Level for L2 {
    ghost use Rattle.std.proofs.Common.{arith};
    ghost use Rattle.model.specs.Lines.{used4};
    ghost use Rattle.model.specs.Records.{l2_line_at, with_l2_line};
    ghost use Rattle.tags.specs.Levels.{l2_stored, l2_found, l2_chosen, l2_used, l2-found-is, l2-chosen-is};
    ghost use Rattle.tags.specs.Words.{l2_place_of, l2-line-at, put-l2-set, put-l2, use-l2};

    ghost sets = { 512 };

    ghost line_at = { l2_line_at };

    ghost stored = { l2_stored };

    ghost put = { with_l2_line };

    ghost found = { l2_found };

    ghost chosen = { l2_chosen };

    ghost used = { l2_used };

    ghost place = { l2_place_of };

    ghost order_place = { λ s. s * 9 + 653 };

    ghost last = { λ o. (order4_in o).fourth % 4 };

    ghost Touched = { λ o w n. order4_in n ≡ used4 (order4_in o) w };

    ghost WAYS = { 4 };

    const WAYS: usize = L2::WAYS;

    ghost COUNT = { 4 };

    const COUNT: usize = L2_COUNT;

    ghost LINES = { 2048 };

    const LINES: u32 = L2_LINES;

    fn place(s: usize, w: usize) -> usize {
        s * L2_SET + w * 2 + L2_FROM
    }

    fn order_place(s: usize) -> usize {
        s * L2_SET + L2_ORDER
    }

    fn last(order: u32) -> usize {
        (order4_of(order).fourth % 4) as usize
    }

    fn touched(order: u32, w: usize) -> u32 {
        order4_word(order4_of(order).touch(w as u8))
    }

    ghost count_inside = { omega arith };

    ghost line_law = { l2-line-at };

    ghost store_law = { put-l2-set };

    ghost put_law = { put-l2 };

    ghost find_law = { l2-found-is };

    ghost choose_law = { l2-chosen-is };

    ghost use_law = { use-l2 };
}

pub fn line<C: Level>(tags: &[u32], s: usize, w: usize) -> Line
    requires { ((s < C.sets) × (w < C.WAYS)) × (length tags.now ≡ record_words) }
    ensures { result ≡ C.line_at (record_in tags.now) s w }
{
    let p = C::place(s, w);
    line_of(tags[p], tags[p + 1])
}

// a line is stored, its count left alone
pub fn store<C: Level>(tags: &mut [u32], s: usize, w: usize, x: Line)
    requires { ((s < C.sets) × (w < C.WAYS)) × (length tags.old ≡ record_words) }
    ensures { record_in tags.new ≡ C.stored (record_in tags.old) s w x }
{
    let p = C::place(s, w);
    tags[p] = mark_of(x);
    tags[p + 1] = x.address;
}

// The word `at` counts the dirty lines of a cache of `most` lines, one of which was dirty or not and now is or not. A
// line that stays as it was stores nothing.
#[tactic(auto, unfolding(model::specs::Records::counted))]
fn count(tags: &mut [u32], at: usize, most: u32, was: bool, is: bool)
    requires { at < length tags.old }
    ensures { tags.new ≡ set tags.old at (counted most was is (word tags.old at)) }
{
    if was {
        if is {
            return;
        }
        let n = tags[at];
        if n == 0 {
            return;
        }
        tags[at] = n - 1;
        return;
    }
    if !is {
        return;
    }
    let n = tags[at];
    if most <= n {
        return;
    }
    tags[at] = n + 1;
}

// a line is put in place of another: the one place where a dirty mark changes, and a count with it
pub fn put<C: Level>(tags: &mut [u32], s: usize, w: usize, x: Line)
    requires { ((s < C.sets) × (w < C.WAYS)) × (length tags.old ≡ record_words) }
    ensures { record_in tags.new ≡ C.put (record_in tags.old) s w x }
{
    let y = line::<C>(tags, s, w);
    store::<C>(tags, s, w, x);
    count(tags, C::COUNT, C::LINES, y.dirty, x.dirty);
}

// the way of a set that holds the line at address b
#[tactic(auto, using(crate::specs::Levels::holding_past), unfolding(model::specs::Ways::way_holding))]
pub fn find<C: Level>(tags: &[u32], s: usize, b: u32) -> Option<usize>
    requires { (s < C.sets) × (length tags.now ≡ record_words) }
    ensures found { unwrap_or result C.WAYS ≡ C.found (record_in tags.now) s b }
    ensures within { IfSome result (λ w. w < C.WAYS) }
{
    for w in 0..C::WAYS {
        if geometry::line_holds(line::<C>(tags, s, w), b) {
            return Some(w);
        }
    }
    None
}

// ---- the order of a set, a word: the way used last in the low byte
#[tactic(auto, unfolding(crate::specs::Words::order2_in))]
pub fn order2_of(o: u32) -> Order2
    ensures { result ≡ order2_in o }
{
    Order2 {
        first: (o % 256) as u8,
        second: (o / 256 % 256) as u8,
    }
}

#[tactic(auto, unfolding(crate::specs::Words::order2_in))]
pub fn order2_word(o: Order2) -> u32
    ensures { order2_in result ≡ o }
{
    o.first as u32 + o.second as u32 * 256
}

#[tactic(auto, unfolding(crate::specs::Words::order4_in))]
pub fn order4_of(o: u32) -> Order4
    ensures { result ≡ order4_in o }
{
    Order4 {
        first: (o % 256) as u8,
        second: (o / 256 % 256) as u8,
        third: (o / 65536 % 256) as u8,
        fourth: (o / 16777216 % 256) as u8,
    }
}

#[tactic(auto, unfolding(crate::specs::Words::order4_in))]
pub fn order4_word(o: Order4) -> u32
    ensures { order4_in result ≡ o }
{
    o.first as u32 + o.second as u32 * 256 + o.third as u32 * 65536 + o.fourth as u32 * 16777216
}

// the lowest invalid way, else the last in order
#[tactic(auto, using(crate::specs::Levels::invalid_past), unfolding(model::specs::Ways::lowest_invalid))]
pub fn victim<C: Level>(tags: &[u32], s: usize) -> usize
    requires { (s < C.sets) × (length tags.now ≡ record_words) }
    ensures { (result ≡ C.chosen (record_in tags.now) s) × (result < C.WAYS) }
{
    for w in 0..C::WAYS {
        if !line::<C>(tags, s, w).valid {
            return w;
        }
    }
    C::last(tags[C::order_place(s)])
}

// a way is used: the order takes it to the front, by value
pub fn touch<C: Level>(tags: &mut [u32], s: usize, w: usize)
    requires { ((s < C.sets) × (w < C.WAYS)) × (length tags.old ≡ record_words) }
    ensures { record_in tags.new ≡ C.used (record_in tags.old) s w }
{
    let p = C::order_place(s);
    tags[p] = C::touched(tags[p], w);
}

// ---- L, E, the mode, the MAR bits and the freeze
#[tactic(auto, unfolding(crate::specs::Words::record_in))]
pub fn l2len_of(tags: &[u32]) -> u32
    requires { length tags.now ≡ record_words }
    ensures { result ≡ (record_in tags.now).l2len }
{
    tags[0]
}

#[tactic(auto, unfolding(crate::specs::Words::record_in))]
pub fn extlen_of(tags: &[u32]) -> u32
    requires { length tags.now ≡ record_words }
    ensures { result ≡ (record_in tags.now).extlen }
{
    tags[1]
}

#[tactic(auto, unfolding(crate::specs::Words::record_in, crate::specs::Words::mode_in))]
pub fn mode_of(tags: &[u32]) -> u8
    requires { length tags.now ≡ record_words }
    ensures { result ≡ (record_in tags.now).mode }
{
    let m = tags[2];
    if (m / 256 % 256 < 2) & ((m / 65536 % 256 < 2) & (m / 16777216 % 256 < 2)) {
        return (m % 256) as u8;
    }
    4
}

#[tactic(auto, unfolding(crate::specs::Words::record_in))]
pub fn mar128_of(tags: &[u32]) -> bool
    requires { length tags.now ≡ record_words }
    ensures { result ≡ (record_in tags.now).mar128 }
{
    tags[2] / 256 % 2 == 1
}

#[tactic(auto, unfolding(crate::specs::Words::record_in))]
pub fn mar129_of(tags: &[u32]) -> bool
    requires { length tags.now ≡ record_words }
    ensures { result ≡ (record_in tags.now).mar129 }
{
    tags[2] / 65536 % 2 == 1
}

#[tactic(auto, unfolding(crate::specs::Words::record_in))]
pub fn frozen_of(tags: &[u32]) -> bool
    requires { length tags.now ≡ record_words }
    ensures { result ≡ (record_in tags.now).frozen }
{
    tags[2] / 16777216 % 2 == 1
}

// How the mode splits L2.
pub fn split_of(tags: &[u32]) -> Split
    requires { length tags.now ≡ record_words }
    ensures { (result.sram ≡ sram_of (record_in tags.now)) × (result.sets ≡ l2_sets_of (record_in tags.now)) }
{
    Split::of(l2len_of(tags), mode_of(tags))
}
