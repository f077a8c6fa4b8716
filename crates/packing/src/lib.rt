// The record by value, with its sets in arrays of set structs, out of lent words and into them; and the fresh record
// in words. Words stand for one record (`record_in`, crate tags): `unpack` gives that record, and after `pack` and
// `write_fresh` the words stand for the record that is asked for.
#![tactic(auto)]

ghost use Rattle.std.specs.Prelude.{◌≡◌, ◌<◌, length, replicate};
ghost use Rattle.model.specs.Records.{fresh_record, fresh_l1d_set, fresh_l2_set, l1d_set_at, l2_set_at, with_l1d_set, with_l2_set, with_counts};
ghost use Rattle.tags.specs.Words.{record_words, record_in};
ghost use Rattle.packing.specs.Packed.{bit_of, l1d_ordered, l2_ordered, with_sizes, with_modes, with_l1d, with_l2, renewed};

use geometry::{L1d, L2};
use model::{L1dSet, L2Set, Order2, Order4, Record};

// ---- out of the words
#[tactic(auto, using(crate::specs::Packed::l1d_read))]
fn l1d_set_of(tags: &[u32], i: usize) -> L1dSet
    requires { (i < 128) × (length tags.now ≡ record_words) }
    ensures { result ≡ l1d_set_at (record_in tags.now) i }
{
    L1dSet {
        lines: [tags::line::<L1d>(tags, i, 0), tags::line::<L1d>(tags, i, 1)],
        order: tags::order2_of(tags[i * tags::L1D_SET + tags::L1D_ORDER]),
    }
}

#[tactic(auto, using(crate::specs::Packed::l2_read))]
fn l2_set_of(tags: &[u32], j: usize) -> L2Set
    requires { (j < 512) × (length tags.now ≡ record_words) }
    ensures { result ≡ l2_set_at (record_in tags.now) j }
{
    L2Set {
        lines: [
            tags::line::<L2>(tags, j, 0),
            tags::line::<L2>(tags, j, 1),
            tags::line::<L2>(tags, j, 2),
            tags::line::<L2>(tags, j, 3),
        ],
        order: tags::order4_of(tags[j * tags::L2_SET + tags::L2_ORDER]),
    }
}

#[tactic(auto, using(crate::specs::Packed::sets))]
fn l1d_of(tags: &[u32]) -> [L1dSet; 128]
    requires { length tags.now ≡ record_words }
    ensures { result ≡ (record_in tags.now).l1d }
{
    let first = l1d_set_of(tags, 0);
    let mut vs = [first; 128];
    for i in 0..L1d::SETS {
        vs[i] = l1d_set_of(tags, i);
    }
    vs
}

#[tactic(auto, using(crate::specs::Packed::sets))]
fn l2_of(tags: &[u32]) -> [L2Set; 512]
    requires { length tags.now ≡ record_words }
    ensures { result ≡ (record_in tags.now).l2 }
{
    let first = l2_set_of(tags, 0);
    let mut vs = [first; 512];
    for j in 0..L2::SETS {
        vs[j] = l2_set_of(tags, j);
    }
    vs
}

#[tactic(auto, unfolding(tags::specs::Words::record_in))]
pub fn unpack(tags: &[u32]) -> Record
    requires { length tags.now ≡ record_words }
    ensures { result ≡ record_in tags.now }
{
    Record {
        l2len: tags::l2len_of(tags),
        extlen: tags::extlen_of(tags),
        mode: tags::mode_of(tags),
        mar128: tags::mar128_of(tags),
        mar129: tags::mar129_of(tags),
        frozen: tags::frozen_of(tags),
        dirty_l1d: tags[tags::L1D_COUNT],
        dirty_l2: tags[tags::L2_COUNT],
        l1d: l1d_of(tags),
        l2: l2_of(tags),
    }
}

// ---- into the words
fn bit(b: bool) -> u32
    ensures { (result ≡ bit_of b) × (result < 2) }
{
    if b { 1 } else { 0 }
}

// L and E.
#[tactic(auto, using(crate::specs::Packed::sizes_put))]
fn put_sizes(tags: &mut [u32], l2len: u32, extlen: u32)
    requires { length tags.old ≡ record_words }
    ensures { record_in tags.new ≡ with_sizes (record_in tags.old) l2len extlen }
{
    tags[0] = l2len;
    tags[1] = extlen;
}

// The mode, the MAR bits and the freeze, a byte each.
#[tactic(auto, using(crate::specs::Packed::modes_put))]
pub fn put_modes(tags: &mut [u32], mode: u8, mar128: bool, mar129: bool, frozen: bool)
    requires { length tags.old ≡ record_words }
    ensures { record_in tags.new ≡ with_modes (record_in tags.old) mode mar128 mar129 frozen }
{
    tags[2] = mode as u32 + bit(mar128) * 256 + bit(mar129) * 65536 + bit(frozen) * 16777216;
}

// The counts of dirty lines.
#[tactic(auto, using(crate::specs::Packed::counts_put))]
fn put_counts(tags: &mut [u32], l1d: u32, l2: u32)
    requires { length tags.old ≡ record_words }
    ensures { record_in tags.new ≡ with_counts (record_in tags.old) l1d l2 }
{
    tags[tags::L1D_COUNT] = l1d;
    tags[tags::L2_COUNT] = l2;
}

#[tactic(auto, using(tags::specs::Words::order_l1d), unfolding(crate::specs::Packed::l1d_ordered))]
fn put_l1d_order(tags: &mut [u32], i: usize, o: Order2)
    requires { (i < 128) × (length tags.old ≡ record_words) }
    ensures { record_in tags.new ≡ l1d_ordered (record_in tags.old) i o }
{
    tags[i * tags::L1D_SET + tags::L1D_ORDER] = tags::order2_word(o);
}

#[tactic(auto, using(tags::specs::Words::order_l2), unfolding(crate::specs::Packed::l2_ordered))]
fn put_l2_order(tags: &mut [u32], j: usize, o: Order4)
    requires { (j < 512) × (length tags.old ≡ record_words) }
    ensures { record_in tags.new ≡ l2_ordered (record_in tags.old) j o }
{
    tags[j * tags::L2_SET + tags::L2_ORDER] = tags::order4_word(o);
}

fn put_l1d_set(tags: &mut [u32], i: usize, v: L1dSet)
    requires { (i < 128) × (length tags.old ≡ record_words) }
    ensures { record_in tags.new ≡ with_l1d_set (record_in tags.old) i v }
{
    tags::store::<L1d>(tags, i, 0, v.lines[0]);
    tags::store::<L1d>(tags, i, 1, v.lines[1]);
    put_l1d_order(tags, i, v.order);
}

fn put_l2_set(tags: &mut [u32], j: usize, v: L2Set)
    requires { (j < 512) × (length tags.old ≡ record_words) }
    ensures { record_in tags.new ≡ with_l2_set (record_in tags.old) j v }
{
    tags::store::<L2>(tags, j, 0, v.lines[0]);
    tags::store::<L2>(tags, j, 1, v.lines[1]);
    tags::store::<L2>(tags, j, 2, v.lines[2]);
    tags::store::<L2>(tags, j, 3, v.lines[3]);
    put_l2_order(tags, j, v.order);
}

#[tactic(auto, using(crate::specs::Packed::sets), unfolding(crate::specs::Packed::with_l1d))]
fn put_l1d(tags: &mut [u32], vs: [L1dSet; 128])
    requires { length tags.old ≡ record_words }
    ensures { record_in tags.new ≡ with_l1d (record_in tags.old) vs }
{
    for i in 0..L1d::SETS {
        put_l1d_set(tags, i, vs[i]);
    }
}

#[tactic(auto, using(crate::specs::Packed::sets), unfolding(crate::specs::Packed::with_l2))]
fn put_l2(tags: &mut [u32], vs: [L2Set; 512])
    requires { length tags.old ≡ record_words }
    ensures { record_in tags.new ≡ with_l2 (record_in tags.old) vs }
{
    for j in 0..L2::SETS {
        put_l2_set(tags, j, vs[j]);
    }
}

#[tactic(auto, unfolding(crate::specs::Packed::with_sizes, crate::specs::Packed::with_modes, crate::specs::Packed::with_l1d, crate::specs::Packed::with_l2))]
pub fn pack(r: Record, tags: &mut [u32])
    requires { length tags.old ≡ record_words }
    ensures { record_in tags.new ≡ r }
{
    let l1d = r.l1d;
    let l2 = r.l2;
    put_sizes(tags, r.l2len, r.extlen);
    put_modes(tags, r.mode, r.mar128, r.mar129, r.frozen);
    put_counts(tags, r.dirty_l1d, r.dirty_l2);
    put_l1d(tags, l1d);
    put_l2(tags, l2);
}

// ---- a fresh start
#[tactic(auto, using(crate::specs::Packed::sets), unfolding(crate::specs::Packed::with_l1d))]
fn fresh_l1d(tags: &mut [u32])
    requires { length tags.old ≡ record_words }
    ensures { record_in tags.new
        ≡ with_l1d (record_in tags.old) (replicate 128 fresh_l1d_set) }
{
    let empty = geometry::empty_line();
    let v = L1dSet {
        lines: [empty; 2],
        order: Order2 {
            first: 1,
            second: 0,
        },
    };
    for i in 0..L1d::SETS {
        put_l1d_set(tags, i, v);
    }
}

#[tactic(auto, using(crate::specs::Packed::sets), unfolding(crate::specs::Packed::with_l2))]
fn fresh_l2(tags: &mut [u32])
    requires { length tags.old ≡ record_words }
    ensures { record_in tags.new
        ≡ with_l2 (record_in tags.old) (replicate 512 fresh_l2_set) }
{
    let empty = geometry::empty_line();
    let v = L2Set {
        lines: [empty; 4],
        order: Order4 {
            first: 3,
            second: 2,
            third: 1,
            fourth: 0,
        },
    };
    for j in 0..L2::SETS {
        put_l2_set(tags, j, v);
    }
}

// Everything fresh but L and E, no line dirty, with another mode, other MAR bits and another freeze.
#[tactic(auto, unfolding(crate::specs::Packed::with_modes, crate::specs::Packed::with_l1d, crate::specs::Packed::with_l2, crate::specs::Packed::renewed))]
pub fn renew(tags: &mut [u32], mode: u8, mar128: bool, mar129: bool, frozen: bool)
    requires { length tags.old ≡ record_words }
    ensures { record_in tags.new ≡ renewed (record_in tags.old) mode mar128 mar129 frozen }
{
    put_modes(tags, mode, mar128, mar129, frozen);
    put_counts(tags, 0, 0);
    fresh_l1d(tags);
    fresh_l2(tags);
}

// The record of a fresh start with L = l2len and E = extlen.
#[tactic(auto, unfolding(crate::specs::Packed::with_sizes, crate::specs::Packed::renewed, model::specs::Records::fresh_record))]
pub fn write_fresh(tags: &mut [u32], l2len: u32, extlen: u32)
    requires { length tags.old ≡ record_words }
    ensures { record_in tags.new ≡ fresh_record l2len extlen }
{
    put_sizes(tags, l2len, extlen);
    renew(tags, 0, false, false, false);
}
