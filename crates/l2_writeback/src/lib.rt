// A line leaves L2: on lent words, each function is the step of paper 01 itself. All are total: they say what they do
// for every content of the words. The hints have the compiler make them part of what sends a line away, an L2 miss or
// a command: with calls in between, an L2 miss in a run took a tenth more.
#![tactic(auto)]

ghost use Rattle.std.specs.Prelude.{◌≡◌, List, ℕ, ◌<◌, ◌≤◌};
ghost use Rattle.model.specs.Lines.{l1d_set_of, l1d_line, upper_half};
ghost use Rattle.model.specs.Records.{l1d_set_at};
ghost use Rattle.model.specs.Ways.{l1d_find};
ghost use Rattle.model.specs.Homes.{take_half, write_out_l2, writeback_l2, evict_l2};
ghost use Rattle.model.specs.Reports.{bytes_in, write_out_l2_moved};
ghost use Rattle.tags.specs.Words.{record_in, state_in};
ghost use Rattle.tags.specs.Sizes.{Lent};
ghost use Rattle.l2_writeback.specs.Halves.{L2Gone};

use geometry::{L1d, L2, Split};
use model::{Gone, Left};

// The half at b of the L2 line in set t, way v, which L1D holds in set i, way w: L2 takes it in if it is dirty, and it
// becomes invalid in L1D.
#[inline(always)]
fn take_found(
    tags: &mut [u32],
    split: Split,
    t: usize,
    v: usize,
    b: u32,
    i: usize,
    w: usize,
    l1d: &[u8],
    l2: &mut [u8],
)
    requires t_bound { ((t < 512) × (v < 4)) × ((i < 128) × (w < 2)) }
    requires lent { Lent split.sram split.sets tags.old }
    requires i_value { (i ≡ l1d_set_of b) × (w ≡ l1d_find (l1d_set_at (record_in tags.old) i) (l1d_line b)) }
    ensures { (e : List ℕ) → state_in tags.new l1d.now l2.new e
        ≡ take_half t v b (state_in tags.old l1d.now l2.old e) }
{
    let x = tags::line::<L1d>(tags, i, w);
    if x.dirty {
        memory::move_line::<64>(
            l2,
            L2::data_at(split, t, v) + L2::offset_of(b),
            l1d,
            L1d::data_at(i, w),
        );
        let y = tags::line::<L2>(tags, t, v);
        tags::put::<L2>(tags, t, v, geometry::line_at(y.address, true));
        tags::put::<L1d>(tags, i, w, geometry::empty_line());
        return;
    }
    tags::put::<L1d>(tags, i, w, geometry::empty_line());
}

// The half at b, if L1D holds it.
#[tactic(auto, unfolding(model::specs::Homes::take_half, model::specs::Ways::in_l1d, model::specs::Ways::l1d_way))]
#[inline(always)]
pub fn take_half(
    tags: &mut [u32],
    split: Split,
    t: usize,
    v: usize,
    b: u32,
    l1d: &[u8],
    l2: &mut [u8],
)
    requires t_bound { (t < 512) × (v < 4) }
    requires lent { Lent split.sram split.sets tags.old }
    ensures { (e : List ℕ) → state_in tags.new l1d.now l2.new e
        ≡ take_half t v b (state_in tags.old l1d.now l2.old e) }
{
    let i = L1d::set_of(b);
    let Some(w) = tags::find::<L1d>(tags, i, L1d::line_of(b)) else {
        return;
    };
    take_found(tags, split, t, v, b, i, w, l1d, l2);
}

// The upper half of the line at a, if L1D holds it. Each half has a function of its own: before there were hints, one
// for both was called, twice for each line that leaves L2.
#[tactic(auto, unfolding(model::specs::Homes::take_half, model::specs::Ways::in_l1d, model::specs::Ways::l1d_way))]
#[inline(always)]
fn take_upper(tags: &mut [u32], split: Split, t: usize, v: usize, a: u32, l1d: &[u8], l2: &mut [u8])
    requires t_bound { (t < 512) × (v < 4) }
    requires lent { Lent split.sram split.sets tags.old }
    ensures { (e : List ℕ) → state_in tags.new l1d.now l2.new e
        ≡ take_half t v (upper_half a) (state_in tags.old l1d.now l2.old e) }
{
    let b = L2::upper_half(a);
    let i = L1d::set_of(b);
    let Some(w) = tags::find::<L1d>(tags, i, L1d::line_of(b)) else {
        return;
    };
    take_found(tags, split, t, v, b, i, w, l1d, l2);
}

// The L2 line in set t, way v goes out, if dirty, into the part of external memory that begins at its home.
// How many bytes went there is told.
#[inline(always)]
pub fn write_out_l2(
    tags: &mut [u32],
    split: Split,
    t: usize,
    v: usize,
    l2: &[u8],
    ext: &mut [u8],
) -> u32
    requires t_bound { (t < 512) × (v < 4) }
    requires lent { Lent split.sram split.sets tags.old }
    ensures by_index { (d : List ℕ) → state_in tags.new d l2.now ext.new
        ≡ write_out_l2 t v (state_in tags.old d l2.now ext.old) }
    ensures told { ((d : List ℕ) →
        result ≡ bytes_in (write_out_l2_moved t v (state_in tags.old d l2.now ext.old)).written) × (result ≤ 128) }
{
    let x = tags::line::<L2>(tags, t, v);
    if !x.valid {
        return 0;
    }
    if !x.dirty {
        return 0;
    }
    let n = memory::move_line::<128>(
        ext,
        geometry::external_place(x.address),
        l2,
        L2::data_at(split, t, v),
    );
    tags::put::<L2>(tags, t, v, geometry::line_at(x.address, false));
    n
}

// A valid L2 line takes in its halves and goes out; it stays. What it is then, clean or dirty, is told, and how many
// bytes went out.
#[inline(always)]
pub fn writeback_l2(
    tags: &mut [u32],
    split: Split,
    t: usize,
    v: usize,
    l1d: &[u8],
    l2: &mut [u8],
    ext: &mut [u8],
) -> Gone
    requires t_bound { (t < 512) × (v < 4) }
    requires lent { Lent split.sram split.sets tags.old }
    ensures ext_after { state_in tags.new l1d.now l2.new ext.new
        ≡ writeback_l2 t v (state_in tags.old l1d.now l2.old ext.old) }
    ensures told { L2Gone result t v (state_in tags.old l1d.now l2.old ext.old) }
{
    let x = tags::line::<L2>(tags, t, v);
    if !x.valid {
        return Gone {
            left: Left::Empty,
            written: 0,
        };
    }
    take_half(tags, split, t, v, x.address, l1d, l2);
    take_upper(tags, split, t, v, x.address, l1d, l2);
    let k = geometry::left_by(tags::line::<L2>(tags, t, v));
    let n = write_out_l2(tags, split, t, v, l2, ext);
    Gone {
        left: k,
        written: n,
    }
}

// .. and the way emptied.
#[tactic(auto, unfolding(model::specs::Homes::evict_l2, model::specs::Ways::empty_l2))]
#[inline(always)]
pub fn evict_l2(
    tags: &mut [u32],
    split: Split,
    t: usize,
    v: usize,
    l1d: &[u8],
    l2: &mut [u8],
    ext: &mut [u8],
) -> Gone
    requires t_bound { (t < 512) × (v < 4) }
    requires lent { Lent split.sram split.sets tags.old }
    ensures ext_after { state_in tags.new l1d.now l2.new ext.new
        ≡ evict_l2 t v (state_in tags.old l1d.now l2.old ext.old) }
    ensures told { L2Gone result t v (state_in tags.old l1d.now l2.old ext.old) }
{
    let g = writeback_l2(tags, split, t, v, l1d, l2, ext);
    tags::put::<L2>(tags, t, v, geometry::empty_line());
    g
}
