// The L1D cache commands on lent words: what is done to one line, to the lines of a block, to all lines. Each contract
// is the definition of paper 01 that is asked for (`l1d_operation`), at one way, at the line of an address, at each
// line.
#![tactic(auto)]

ghost use Rattle.std.specs.Prelude.{◌≡◌, ◌<◌, ◌/◌, ◌%◌};
ghost use Rattle.model.specs.Basics.{each};
ghost use Rattle.model.specs.Commands.{at_l1d, each_touched};
ghost use Rattle.tags.specs.Words.{state_in};
ghost use Rattle.tags.specs.Sizes.{Lent};
ghost use Rattle.kinds.specs.Numbers.{l1d_operation_code};
ghost use Rattle.l1d_commands.specs.Steps.{l1d_operation};

use geometry::{L1d, Split};
use kinds::L1dOperation;

// What is asked for, at one way.
#[tactic(auto, unfolding(crate::specs::Steps::l1d_operation, model::specs::Ways::empty_l1d))]
pub fn l1d_operate(
    tags: &mut [u32],
    split: Split,
    what: L1dOperation,
    s: usize,
    w: usize,
    l1d: &[u8],
    l2: &mut [u8],
    ext: &mut [u8],
)
    requires s_bound { (s < 128) × (w < 2) }
    requires lent { Lent split.sram split.sets tags.old }
    ensures { state_in tags.new l1d.now l2.new ext.new
        ≡ l1d_operation (l1d_operation_code what) s w (state_in tags.old l1d.now l2.old ext.old) }
{
    match what {
        L1dOperation::WritebackInvalidate => {
            l1d_writeback::evict_l1d(tags, split, s, w, l1d, l2, ext);
        }
        L1dOperation::Writeback => l1d_writeback::writeback_l1d(tags, split, s, w, l1d, l2, ext),
        L1dOperation::Invalidate => tags::put::<L1d>(tags, s, w, geometry::empty_line()),
    }
}

// The same at the way that holds the line of address a, if one does.
pub fn l1d_touched(
    tags: &mut [u32],
    split: Split,
    what: L1dOperation,
    a: u32,
    l1d: &[u8],
    l2: &mut [u8],
    ext: &mut [u8],
)
    requires { Lent split.sram split.sets tags.old }
    ensures { state_in tags.new l1d.now l2.new ext.new
        ≡ at_l1d (l1d_operation (l1d_operation_code what)) a (state_in tags.old l1d.now l2.old ext.old) }
{
    let s = L1d::set_of(a);
    if let Some(w) = tags::find::<L1d>(tags, s, L1d::line_of(a)) {
        l1d_operate(tags, split, what, s, w, l1d, l2, ext);
    }
}

// Each line that a block touches.
pub fn l1d_block(
    tags: &mut [u32],
    split: Split,
    what: L1dOperation,
    base: u32,
    count: u32,
    l1d: &[u8],
    l2: &mut [u8],
    ext: &mut [u8],
)
    requires { Lent split.sram split.sets tags.old }
    ensures { state_in tags.new l1d.now l2.new ext.new
        ≡ each_touched 64 (at_l1d (l1d_operation (l1d_operation_code what))) base count
        (state_in tags.old l1d.now l2.old ext.old) }
{
    let n = geometry::lines_touched(L1d::LINE, base, count);
    for k in 0..n {
        let a = geometry::line_after(L1d::LINE, base, count, k);
        l1d_touched(tags, split, what, a, l1d, l2, ext);
    }
}

// Each way, set by set and way by way.
pub fn l1d_all(
    tags: &mut [u32],
    split: Split,
    what: L1dOperation,
    l1d: &[u8],
    l2: &mut [u8],
    ext: &mut [u8],
)
    requires { Lent split.sram split.sets tags.old }
    ensures still_lent { Lent split.sram split.sets tags.new }
    ensures ext_after { state_in tags.new l1d.now l2.new ext.new
        ≡ each (λ k. l1d_operation (l1d_operation_code what) (k / 2) (k % 2)) 256
        (state_in tags.old l1d.now l2.old ext.old) }
{
    for k in 0..L1d::LINES {
        let s = k / L1d::WAYS;
        let w = k % L1d::WAYS;
        l1d_operate(tags, split, what, s, w, l1d, l2, ext);
    }
}
