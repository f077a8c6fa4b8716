// Which lent words stand for a well-formed record (paper 01, "Lines and the record"; refusals 1 and 2). The words are
// read where they stand: nothing is copied. The tests of sets have one caller each, so that the compiler makes one
// loop of them. A byte of a mark or of a MAR bit that is neither 0 nor 1 makes a record that is not well formed, as it
// does in C's layout by value; the padding of a mark is not looked at.
#![tactic(auto)]

ghost use Rattle.std.specs.Prelude.{true, false, ◌≡◌, ◌%◌, ◌≤◌, ◌<◌, length, cond, ltb};
ghost use Rattle.std.specs.Option.{MatchOption};
ghost use Rattle.model.specs.Records.{permuted4, well_formed, sram_of, l2_sets_of};
ghost use Rattle.model.specs.Refusals.{lent_due};
ghost use Rattle.tags.specs.Words.{record_words, record_in, state_in};
ghost use Rattle.kinds.specs.Numbers.{number_due};
ghost use Rattle.record_check.specs.Parts.{once_in, Counted, l1d_ok, l2_ok, l1d_dirty, l2_dirty};
ghost use Rattle.record_check.specs.Parts.{l1d_front_ok, l2_front_ok, l2_rest_ok};

use geometry::{L1d, L2, Split};
use kinds::Refusal;
use model::Order4;

// ---- one set
// The tests are joined without branches: a record that passes meets them all.
#[tactic(auto, unfolding(model::specs::Records::permuted4))]
fn permuted_4(o: Order4) -> bool
    ensures { result ≡ permuted4 o }
{
    let below = (o.first < 4) & ((o.second < 4) & ((o.third < 4) & (o.fourth < 4)));
    let first = (o.first != o.second) & ((o.first != o.third) & (o.first != o.fourth));
    let others = (o.second != o.third) & ((o.second != o.fourth) & (o.third != o.fourth));
    below & (first & others)
}

// No address but 0 stands twice.
#[tactic(auto, unfolding(crate::specs::Parts::once_in))]
fn once(a: u32, b: u32, c: u32, d: u32) -> bool
    ensures { result ≡ once_in a b c d }
{
    let x = (a != 0) & ((b == a) | ((c == a) | (d == a)));
    let y = (b != 0) & ((c == b) | (d == b));
    let z = (c != 0) & (d == c);
    !x & (!y & !z)
}

#[tactic(auto, using(crate::specs::Sets::set_laws))]
fn l1d_set(tags: &[u32], i: usize, split: Split) -> bool
    requires i_bound { (i < 128) × (length tags.now ≡ record_words) }
    requires sram_value { split.sram ≡ sram_of (record_in tags.now) }
    requires sets_value { split.sets ≡ l2_sets_of (record_in tags.now) }
    ensures { result ≡ l1d_ok (record_in tags.now) i }
{
    let p = i * tags::L1D_SET + tags::HEAD;
    let o = tags[p + 4] % 65536;
    if !((o == 1) | (o == 256)) {
        return false;
    }
    if !way_check::l1d_way(tags, i, tags[p], tags[p + 1], split) {
        return false;
    }
    if !way_check::l1d_way(tags, i, tags[p + 2], tags[p + 3], split) {
        return false;
    }
    !(way_check::live(tags[p] % 65536) & way_check::holds_in(tags[p + 2], tags[p + 3], tags[p + 1]))
}

// A set that is in use.
#[tactic(auto, using(crate::specs::Sets::set_laws), unfolding(model::specs::Records::fresh_unless_used))]
fn l2_used(tags: &[u32], j: usize, split: Split) -> bool
    requires tags_len { length tags.now ≡ record_words }
    requires sets_value { (split.sets ≡ l2_sets_of (record_in tags.now)) × (j < split.sets) }
    ensures { result ≡ l2_ok (record_in tags.now) j }
{
    let p = j * tags::L2_SET + tags::L2_FROM;
    let front = way_check::l2_way(tags, j, tags[p], tags[p + 1], split)
        & way_check::l2_way(tags, j, tags[p + 2], tags[p + 3], split);
    let back = way_check::l2_way(tags, j, tags[p + 4], tags[p + 5], split)
        & way_check::l2_way(tags, j, tags[p + 6], tags[p + 7], split);
    if !(front & back) {
        return false;
    }
    if !once(tags[p + 1], tags[p + 3], tags[p + 5], tags[p + 7]) {
        return false;
    }
    permuted_4(tags::order4_of(tags[p + 8]))
}

// A set that is not in use is as at a fresh start: no line, and the order 3, 2, 1, 0 in one word.
#[tactic(auto, using(crate::specs::Sets::set_laws))]
fn l2_idle(tags: &[u32], j: usize) -> bool
    requires j_bound { (j < 512) × (length tags.now ≡ record_words) }
    requires tags_bound { l2_sets_of (record_in tags.now) ≤ j }
    ensures { result ≡ l2_ok (record_in tags.now) j }
{
    let p = j * tags::L2_SET + tags::L2_FROM;
    let front = way_check::empty(tags[p], tags[p + 1]) & way_check::empty(tags[p + 2], tags[p + 3]);
    let back = way_check::empty(tags[p + 4], tags[p + 5])
        & way_check::empty(tags[p + 6], tags[p + 7]);
    (front & back) & (tags[p + 8] == 66051)
}

// ---- how many lines of a set are dirty: 1 for the mark f of a dirty line, else 0
fn dirty(f: u32) -> u32
    ensures { (result ≡ cond (ltb 1 (f % 65536)) 1 0) × (result ≤ 1) }
{
    u32::from(1 < f % 65536)
}

#[tactic(auto, using(crate::specs::Sets::set_laws))]
fn l1d_dirty(tags: &[u32], i: usize) -> u32
    requires { (i < 128) × (length tags.now ≡ record_words) }
    ensures { (result ≡ l1d_dirty (record_in tags.now) i) × (result ≤ 2) }
{
    let p = i * tags::L1D_SET + tags::HEAD;
    dirty(tags[p]) + dirty(tags[p + 2])
}

#[tactic(auto, using(crate::specs::Sets::set_laws))]
fn l2_dirty(tags: &[u32], j: usize) -> u32
    requires { (j < 512) × (length tags.now ≡ record_words) }
    ensures { (result ≡ l2_dirty (record_in tags.now) j) × (result ≤ 4) }
{
    let p = j * tags::L2_SET + tags::L2_FROM;
    dirty(tags[p]) + dirty(tags[p + 2]) + dirty(tags[p + 4]) + dirty(tags[p + 6])
}

// ---- a set with no line at all, as most are: it is in order and has nothing to count. The first way is asked alone:
// in a full set that is all that this costs.
#[tactic(auto, using(crate::specs::Sets::set_laws))]
fn l1d_bare(tags: &[u32], i: usize) -> bool
    requires { (i < 128) × (length tags.now ≡ record_words) }
    ensures { result ≡ true → (l1d_ok (record_in tags.now) i ≡ true) × (l1d_dirty (record_in tags.now) i ≡ 0) }
{
    let p = i * tags::L1D_SET + tags::HEAD;
    let o = tags[p + 4] % 65536;
    if way_check::empty(tags[p], tags[p + 1]) {
        if way_check::empty(tags[p + 2], tags[p + 3]) {
            return (o == 1) | (o == 256);
        }
    }
    false
}

#[tactic(auto, using(crate::specs::Sets::set_laws), unfolding(model::specs::Records::fresh_unless_used))]
fn l2_bare(tags: &[u32], j: usize) -> bool
    requires j_bound { (j < 512) × (length tags.now ≡ record_words) }
    requires j_bound_2 { j < l2_sets_of (record_in tags.now) }
    ensures { result ≡ true → (l2_ok (record_in tags.now) j ≡ true) × (l2_dirty (record_in tags.now) j ≡ 0) }
{
    let p = j * tags::L2_SET + tags::L2_FROM;
    if way_check::empty(tags[p], tags[p + 1]) {
        let back = way_check::empty(tags[p + 6], tags[p + 7])
            & way_check::empty(tags[p + 4], tags[p + 5]);
        if back & way_check::empty(tags[p + 2], tags[p + 3]) {
            return permuted_4(tags::order4_of(tags[p + 8]));
        }
    }
    false
}

// ---- how many lines of a set are dirty, where it is in order
fn l1d_counted(tags: &[u32], i: usize, split: Split) -> Option<u32>
    requires i_bound { (i < 128) × (length tags.now ≡ record_words) }
    requires sram_value { split.sram ≡ sram_of (record_in tags.now) }
    requires sets_value { split.sets ≡ l2_sets_of (record_in tags.now) }
    ensures { MatchOption result (l1d_ok (record_in tags.now) i ≡ false)
        (Counted (l1d_ok (record_in tags.now) i) (l1d_dirty (record_in tags.now) i) 2) }
{
    if l1d_bare(tags, i) {
        return Some(0);
    }
    if !l1d_set(tags, i, split) {
        return None;
    }
    Some(l1d_dirty(tags, i))
}

fn l2_counted(tags: &[u32], j: usize, split: Split) -> Option<u32>
    requires tags_len { length tags.now ≡ record_words }
    requires sets_value { (split.sets ≡ l2_sets_of (record_in tags.now)) × (j < split.sets) }
    ensures { MatchOption result (l2_ok (record_in tags.now) j ≡ false)
        (Counted (l2_ok (record_in tags.now) j) (l2_dirty (record_in tags.now) j) 4) }
{
    if l2_bare(tags, j) {
        return Some(0);
    }
    if !l2_used(tags, j, split) {
        return None;
    }
    Some(l2_dirty(tags, j))
}

// ---- all sets; the count of dirty lines is the sum over them
#[tactic(auto, using(crate::specs::All::loop_laws))]
fn l1d_all(tags: &[u32], split: Split) -> bool
    requires tags_len { length tags.now ≡ record_words }
    requires sram_value { split.sram ≡ sram_of (record_in tags.now) }
    requires sets_value { split.sets ≡ l2_sets_of (record_in tags.now) }
    ensures { result ≡ l1d_front_ok (record_in tags.now) 128 }
{
    let mut n: u32 = 0;
    for i in 0..L1d::SETS {
        let Some(k) = l1d_counted(tags, i, split) else {
            return false;
        };
        n += k;
    }
    tags[tags::L1D_COUNT] == n
}

#[tactic(auto, using(crate::specs::All::loop_laws))]
fn l2_used_all(tags: &[u32], split: Split) -> bool
    requires tags_len { length tags.now ≡ record_words }
    requires sets_value { split.sets ≡ l2_sets_of (record_in tags.now) }
    ensures { result ≡ l2_front_ok (record_in tags.now) split.sets }
{
    let mut n: u32 = 0;
    for j in 0..split.sets {
        let Some(k) = l2_counted(tags, j, split) else {
            return false;
        };
        n += k;
    }
    tags[tags::L2_COUNT] == n
}

#[tactic(auto, using(crate::specs::All::loop_laws))]
fn l2_idle_all(tags: &[u32], split: Split) -> bool
    requires tags_len { length tags.now ≡ record_words }
    requires sets_value { split.sets ≡ l2_sets_of (record_in tags.now) }
    ensures { result ≡ l2_rest_ok (record_in tags.now) split.sets }
{
    for j in split.sets..L2::SETS {
        if !l2_idle(tags, j) {
            return false;
        }
    }
    true
}

// ---- the record
// Whether the words stand for a well-formed record.
#[tactic(auto, using(crate::specs::Whole::whole_laws))]
pub fn well_formed(tags: &[u32]) -> bool
    requires { length tags.now ≡ record_words }
    ensures { result ≡ well_formed (record_in tags.now) }
{
    let l2len = tags[0];
    let m = tags[2];
    let mode = m % 256;
    let cache = geometry::cache_size(mode);
    let bits = (m / 256 % 256 < 2) & ((m / 65536 % 256 < 2) & (m / 16777216 % 256 < 2));
    let legal = geometry::legal_l2(l2len as usize) & geometry::legal_external(tags[1] as usize);
    let fits = geometry::is_mode(mode) & (cache <= l2len);
    if !(bits & (legal & fits)) {
        return false;
    }
    let split = tags::split_of(tags);
    l1d_all(tags, split) && l2_used_all(tags, split) && l2_idle_all(tags, split)
}

// What is due before any command is looked at: 1, 2, or nothing.
#[tactic(auto, using(crate::specs::Whole::whole_laws))]
pub fn lent_due(tags: &[u32], l1d: &[u8], l2: &[u8], ext: &[u8]) -> Result<(), Refusal>
    requires { length tags.now ≡ record_words }
    ensures { number_due result
        ≡ lent_due (state_in tags.now l1d.now l2.now ext.now) }
{
    let m = l2.len();
    let e = ext.len();
    let l2_lent = geometry::legal_l2(m) & (m == tags[0] as usize);
    let ext_lent = geometry::legal_external(e) & (e == tags[1] as usize);
    if !((l1d.len() == L1d::BYTES) & (l2_lent & ext_lent)) {
        return Err(Refusal::LentLength);
    }
    if !well_formed(tags) {
        return Err(Refusal::Record);
    }
    Ok(())
}
