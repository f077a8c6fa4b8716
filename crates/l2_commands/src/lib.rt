// The L2 cache commands on lent words: what is done to one line, to the lines of a block, to all lines. Lines are
// written out without a look for halves where L1D holds nothing, as behind a mode change or a command over all lines,
// which empty L1D first. Each contract is the definition that is asked for (`l2_operation`), at one way, at the line of
// an address, at each line.
#![tactic(auto)]

ghost use Rattle.std.specs.Prelude.{◌≡◌, ◌≢◌, List, ℕ, ◌<◌, length};
ghost use Rattle.model.specs.Ways.{empty_l1d};
ghost use Rattle.model.specs.Commands.{at_l1d, at_l2, drop_l2, each_touched, each_l2, unless_mode0};
ghost use Rattle.tags.specs.Words.{record_words, state_in};
ghost use Rattle.tags.specs.Sizes.{Lent};
ghost use Rattle.sweeps.specs.Emptied.{clear_l2};
ghost use Rattle.kinds.specs.Numbers.{l2_operation_code};
ghost use Rattle.l2_commands.specs.Steps.{l2_operation};

use geometry::{L1d, L2, Split};
use kinds::L2Operation;

// The half at b, if L1D holds it, leaves L1D unwritten.
pub fn drop_half(tags: &mut [u32], b: u32)
    requires { length tags.old ≡ record_words }
    ensures { (d m e : List ℕ) → state_in tags.new d m e
        ≡ at_l1d empty_l1d b (state_in tags.old d m e) }
{
    let i = L1d::set_of(b);
    if let Some(w) = tags::find::<L1d>(tags, i, L1d::line_of(b)) {
        tags::put::<L1d>(tags, i, w, geometry::empty_line());
    }
}

// Line and halves become invalid, nothing is written.
pub fn drop_l2(tags: &mut [u32], t: usize, v: usize)
    requires { ((t < 512) × (v < 4)) × (length tags.old ≡ record_words) }
    ensures { (d m e : List ℕ) → state_in tags.new d m e
        ≡ drop_l2 t v (state_in tags.old d m e) }
{
    let x = tags::line::<L2>(tags, t, v);
    drop_half(tags, x.address);
    drop_half(tags, L2::upper_half(x.address));
    tags::put::<L2>(tags, t, v, geometry::empty_line());
}

// Written out if dirty, and the way emptied; no half is looked for.
pub fn clear_l2(tags: &mut [u32], split: Split, t: usize, v: usize, l2: &[u8], ext: &mut [u8])
    requires t_bound { (t < 512) × (v < 4) }
    requires lent { Lent split.sram split.sets tags.old }
    ensures { (d : List ℕ) → state_in tags.new d l2.now ext.new
        ≡ clear_l2 t v (state_in tags.old d l2.now ext.old) }
{
    l2_writeback::write_out_l2(tags, split, t, v, l2, ext);
    tags::put::<L2>(tags, t, v, geometry::empty_line());
}

// What is asked for, at one way.
pub fn l2_operate(
    tags: &mut [u32],
    split: Split,
    what: L2Operation,
    t: usize,
    v: usize,
    l1d: &[u8],
    l2: &mut [u8],
    ext: &mut [u8],
)
    requires t_bound { (t < 512) × (v < 4) }
    requires lent { Lent split.sram split.sets tags.old }
    ensures { state_in tags.new l1d.now l2.new ext.new
        ≡ l2_operation (l2_operation_code what) t v (state_in tags.old l1d.now l2.old ext.old) }
{
    match what {
        L2Operation::Writeback => {
            l2_writeback::writeback_l2(tags, split, t, v, l1d, l2, ext);
        }
        L2Operation::WritebackInvalidate => {
            l2_writeback::evict_l2(tags, split, t, v, l1d, l2, ext);
        }
        L2Operation::Invalidate => drop_l2(tags, t, v),
        L2Operation::WriteOut => {
            l2_writeback::write_out_l2(tags, split, t, v, l2, ext);
        }
        L2Operation::WriteOutInvalidate => clear_l2(tags, split, t, v, l2, ext),
    }
}

// The same at the way that holds the line of address a, if one does.
pub fn l2_touched(
    tags: &mut [u32],
    split: Split,
    what: L2Operation,
    a: u32,
    l1d: &[u8],
    l2: &mut [u8],
    ext: &mut [u8],
)
    requires sets_nonzero { split.sets ≢ 0 }
    requires lent { Lent split.sram split.sets tags.old }
    ensures { state_in tags.new l1d.now l2.new ext.new
        ≡ at_l2 (l2_operation (l2_operation_code what)) a (state_in tags.old l1d.now l2.old ext.old) }
{
    let t = L2::set_of(split, a);
    if let Some(v) = tags::find::<L2>(tags, t, L2::line_of(a)) {
        l2_operate(tags, split, what, t, v, l1d, l2, ext);
    }
}

// Each line that a block touches; nothing in mode 0.
pub fn l2_block(
    tags: &mut [u32],
    split: Split,
    what: L2Operation,
    base: u32,
    count: u32,
    l1d: &[u8],
    l2: &mut [u8],
    ext: &mut [u8],
)
    requires { Lent split.sram split.sets tags.old }
    ensures { state_in tags.new l1d.now l2.new ext.new
        ≡ unless_mode0 (each_touched 128 (at_l2 (l2_operation (l2_operation_code what))) base count)
        (state_in tags.old l1d.now l2.old ext.old) }
{
    if split.sets == 0 {
        return;
    }
    let n = geometry::lines_touched(L2::LINE, base, count);
    for k in 0..n {
        let a = geometry::line_after(L2::LINE, base, count, k);
        l2_touched(tags, split, what, a, l1d, l2, ext);
    }
}

// Each way in use, set by set and way by way; there is none in mode 0. A line at which there is nothing to do is passed
// over: only block invalidate, which is no command over all lines, would look for halves at an empty way.
pub fn l2_all(
    tags: &mut [u32],
    split: Split,
    what: L2Operation,
    l1d: &[u8],
    l2: &mut [u8],
    ext: &mut [u8],
)
    requires not_invalidate { l2_operation_code what ≢ 6 }
    requires lent { Lent split.sram split.sets tags.old }
    ensures still_lent { Lent split.sram split.sets tags.new }
    ensures ext_after { state_in tags.new l1d.now l2.new ext.new
        ≡ each_l2 (l2_operation (l2_operation_code what)) (state_in tags.old l1d.now l2.old ext.old) }
{
    let n = split.sets * L2::WAYS;
    for k in 0..n {
        let t = k / L2::WAYS;
        let v = k % L2::WAYS;
        if sweeps::rests(what, tags::line::<L2>(tags, t, v)) {
            continue;
        }
        l2_operate(tags, split, what, t, v, l1d, l2, ext);
    }
}
