// A line leaves L1D: on lent words, each function is the step of paper 01 itself. All are total: they say what they
// do for every content of the words.
#![tactic(auto)]

ghost use Rattle.std.specs.Prelude.{◌&&◌, ◌≡◌, ◌<◌, ◌≤◌};
ghost use Rattle.model.specs.Bytes.{part};
ghost use Rattle.model.specs.Homes.{put_home};
ghost use Rattle.model.specs.Access.{writeback_l1d, evict_l1d};
ghost use Rattle.model.specs.Reports.{put_home_moved, bytes_in};
ghost use Rattle.tags.specs.Words.{state_in};
ghost use Rattle.tags.specs.Sizes.{Lent};
ghost use Rattle.l1d_writeback.specs.Going.{L1dGone};

use geometry::{L1d, L2, Split};
use model::{Gone, Left, Line};

// The 64 bytes of L1D at `from` go into the part of the lent memory that begins at the home of line a: SRAM, external
// memory in mode 0, else the L2 line, made dirty. How many bytes went into external memory is told.
pub fn put_home(
    tags: &mut [u32],
    split: Split,
    a: u32,
    from: usize,
    l1d: &[u8],
    l2: &mut [u8],
    ext: &mut [u8],
) -> u32
    requires { Lent split.sram split.sets tags.old }
    ensures ext_after { state_in tags.new l1d.now l2.new ext.new
        ≡ put_home a (part l1d.now from 64) (state_in tags.old l1d.now l2.old ext.old) }
    ensures told { (result ≡ bytes_in (put_home_moved a (part l1d.now from 64)
        (state_in tags.old l1d.now l2.old ext.old)).written) × (result ≤ 64) }
{
    if !geometry::is_external(a) {
        memory::move_line::<64>(l2, geometry::place_of(a), l1d, from);
        return 0;
    }
    if split.sets == 0 {
        return memory::move_line::<64>(ext, geometry::external_place(a), l1d, from);
    }
    let t = L2::set_of(split, a);
    let Some(v) = tags::find::<L2>(tags, t, L2::line_of(a)) else {
        return 0;
    };
    memory::move_line::<64>(l2, L2::data_at(split, t, v) + L2::offset_of(a), l1d, from);
    let y = tags::line::<L2>(tags, t, v);
    tags::put::<L2>(tags, t, v, geometry::line_at(y.address, true));
    0
}

// Does a line go home when it leaves?
pub fn goes_home(x: Line) -> bool
    ensures { result ≡ (x.valid && x.dirty) }
{
    x.valid & x.dirty
}

// A dirty line in way w of L1D set i is written back to its home; it stays.
#[tactic(auto, unfolding(model::specs::Access::writeback_l1d))]
pub fn writeback_l1d(
    tags: &mut [u32],
    split: Split,
    i: usize,
    w: usize,
    l1d: &[u8],
    l2: &mut [u8],
    ext: &mut [u8],
)
    requires i_bound { (i < 128) × (w < 2) }
    requires lent { Lent split.sram split.sets tags.old }
    ensures { state_in tags.new l1d.now l2.new ext.new
        ≡ writeback_l1d i w (state_in tags.old l1d.now l2.old ext.old) }
{
    let x = tags::line::<L1d>(tags, i, w);
    if !goes_home(x) {
        return;
    }
    put_home(tags, split, x.address, L1d::data_at(i, w), l1d, l2, ext);
}

// .. and the way emptied; what left it is told. The test stands here and not in a call of `writeback_l1d`, so that a
// clean line costs no call.
pub fn evict_l1d(
    tags: &mut [u32],
    split: Split,
    i: usize,
    w: usize,
    l1d: &[u8],
    l2: &mut [u8],
    ext: &mut [u8],
) -> Gone
    requires i_bound { (i < 128) × (w < 2) }
    requires lent { Lent split.sram split.sets tags.old }
    ensures ext_after { state_in tags.new l1d.now l2.new ext.new
        ≡ evict_l1d i w (state_in tags.old l1d.now l2.old ext.old) }
    ensures told { L1dGone result i w (state_in tags.old l1d.now l2.old ext.old) }
{
    let x = tags::line::<L1d>(tags, i, w);
    if goes_home(x) {
        let n = put_home(tags, split, x.address, L1d::data_at(i, w), l1d, l2, ext);
        tags::put::<L1d>(tags, i, w, geometry::empty_line());
        return Gone {
            left: Left::Dirty(x.address),
            written: n,
        };
    }
    tags::put::<L1d>(tags, i, w, geometry::empty_line());
    if x.valid {
        return Gone {
            left: Left::Clean(x.address),
            written: 0,
        };
    }
    Gone {
        left: Left::Empty,
        written: 0,
    }
}
