// What lies behind L1D for an access (paper 01, "CPU reads and writes"): L2 finds or fetches the line, a way of L1D
// is filled from it (or, frozen, only the bytes of a read are taken), the bytes of a write go there. Each function is
// the step of paper 01 itself, and all are total: they say what they do for every content of the record.
#![tactic(auto)]

ghost use Rattle.std.specs.Prelude.{true, ◌≡◌, List, ℕ, ◌<◌, ◌≤◌};
ghost use Rattle.model.specs.Bytes.{little, little_bytes};
ghost use Rattle.model.specs.Lines.{l1d_set_of, l1d_line};
ghost use Rattle.model.specs.Records.{State};
ghost use Rattle.model.specs.Homes.{bring_l2, fetch_l2};
ghost use Rattle.model.specs.Access.{home_part, fill_l1d, write_home};
ghost use Rattle.model.specs.Refusals.{size_ok};
ghost use Rattle.tags.specs.Words.{record_in, state_in};
ghost use Rattle.tags.specs.Sizes.{Lent};
ghost use Rattle.l2_writeback.specs.Halves.{L2Gone};
ghost use Rattle.l2_fetch.specs.Fetched.{way_in, Serves, Found, Tells, HomeMoved};

use geometry::{L1d, L2, Split};
use kinds::Server;
use model::{Gone, Left};

// Where a line stands in the L2 cache.
#[derive(Clone, Copy)]
pub struct Slot {
    pub set: usize,
    pub way: usize,
}

// What lies behind L1D for an address: where the L2 cache is its home, the set and the way that have its line; who
// serves it; and what is reported of the fetch (02, U2): which line left for it, and how many bytes of external memory
// were read and written.
#[derive(Clone, Copy)]
pub struct Fetched {
    pub home: Option<Slot>,
    pub server: Server,
    pub left: Left,
    pub read: u32,
    pub written: u32,
}

// ---- L2 serves an address
// The line in set t, way v of L2 leaves; the line at b is fetched into that way, clean, and used.
pub fn bring_l2(
    tags: &mut [u32],
    split: Split,
    t: usize,
    v: usize,
    b: u32,
    l1d: &[u8],
    l2: &mut [u8],
    ext: &mut [u8],
) -> Gone
    requires t_bound { (t < 512) × (v < 4) }
    requires lent { Lent split.sram split.sets tags.old }
    ensures ext_after { state_in tags.new l1d.now l2.new ext.new
        ≡ bring_l2 t v b (state_in tags.old l1d.now l2.old ext.old) }
    ensures told { L2Gone result t v (state_in tags.old l1d.now l2.old ext.old) }
{
    let g = l2_writeback::evict_l2(tags, split, t, v, l1d, l2, ext);
    memory::move_line::<128>(
        l2,
        L2::data_at(split, t, v),
        ext,
        geometry::external_place(b),
    );
    tags::put::<L2>(tags, t, v, geometry::line_at(b, false));
    tags::touch::<L2>(tags, t, v);
    g
}

// A fetch or write miss that finds its L2 line uses that way; if it doesn't, the line is brought into the way that is
// chosen. Where L2 is not the home nothing is done.
pub fn fetch_l2(
    tags: &mut [u32],
    split: Split,
    a: u32,
    l1d: &[u8],
    l2: &mut [u8],
    ext: &mut [u8],
) -> Fetched
    requires { Lent split.sram split.sets tags.old }
    ensures serves { Serves result a (state_in tags.old l1d.now l2.old ext.old) }
    ensures ext_after { state_in tags.new l1d.now l2.new ext.new
        ≡ fetch_l2 a (state_in tags.old l1d.now l2.old ext.old) }
    ensures told { Tells result a (state_in tags.old l1d.now l2.old ext.old) }
{
    if !geometry::is_external(a) {
        return Fetched {
            home: None,
            server: Server::Sram,
            left: Left::NoWay,
            read: 0,
            written: 0,
        };
    }
    if split.sets == 0 {
        return Fetched {
            home: None,
            server: Server::External,
            left: Left::NoWay,
            read: 0,
            written: 0,
        };
    }
    let t = L2::set_of(split, a);
    let b = L2::line_of(a);
    if let Some(v) = tags::find::<L2>(tags, t, b) {
        tags::touch::<L2>(tags, t, v);
        return Fetched {
            home: Some(Slot { set: t, way: v }),
            server: Server::L2,
            left: Left::NoWay,
            read: 0,
            written: 0,
        };
    }
    let u = tags::victim::<L2>(tags, t);
    let g = bring_l2(tags, split, t, u, b, l1d, l2, ext);
    let n = memory::held(ext, geometry::external_place(b), L2::LINE as u32);
    let k = g.left;
    Fetched {
        home: Some(Slot { set: t, way: u }),
        server: Server::External,
        left: k,
        read: n,
        written: g.written,
    }
}

// ---- the level behind L1D gives or takes bytes
// The line of address a is fetched from its home, way w of L1D set i filled clean. How many of its bytes were read from
// external memory is told.
#[inline(always)]
pub fn fill_l1d(
    tags: &mut [u32],
    split: Split,
    h: Fetched,
    i: usize,
    w: usize,
    a: u32,
    l1d: &mut [u8],
    l2: &[u8],
    ext: &[u8],
) -> u32
    requires i_bound { ((i < 128) × (w < 2)) × (i ≡ l1d_set_of a) }
    requires lent { Lent split.sram split.sets tags.old }
    requires found { Found h a (record_in tags.old) }
    ensures ext_after { state_in tags.new l1d.new l2.now ext.now
        ≡ fill_l1d w (way_in h) a (state_in tags.old l1d.old l2.now ext.now) }
    ensures told { HomeMoved result a (l1d_line a) 64 (state_in tags.old l1d.old l2.now ext.now)
        × (result ≤ 64) }
{
    let b = L1d::line_of(a);
    let to = L1d::data_at(i, w);
    tags::put::<L1d>(tags, i, w, geometry::line_at(b, false));
    if let Some(at) = h.home {
        memory::move_line::<64>(
            l1d,
            to,
            l2,
            L2::data_at(split, at.set, at.way) + L2::offset_of(b),
        );
        return 0;
    }
    if geometry::is_external(b) {
        let from = geometry::external_place(b);
        memory::move_line::<64>(l1d, to, ext, from);
        return memory::held(ext, from, L1d::LINE as u32);
    }
    memory::move_line::<64>(l1d, to, l2, geometry::place_of(b));
    0
}

// Just the n bytes at a, out of the home.
#[tactic(auto, unfolding(model::specs::Access::home_part, model::specs::Homes::memory_part))]
#[inline(always)]
pub fn read_home(
    tags: &[u32],
    split: Split,
    h: Fetched,
    a: u32,
    n: u32,
    l2: &[u8],
    ext: &[u8],
) -> u64
    requires n_value { size_ok n ≡ true }
    requires lent { Lent split.sram split.sets tags.now }
    requires found { Found h a (record_in tags.now) }
    ensures { (d : List ℕ) → result
        ≡ little (home_part (way_in h) a a n (state_in tags.now d l2.now ext.now)) }
{
    if let Some(at) = h.home {
        let from = L2::data_at(split, at.set, at.way);
        return memory::load(l2, from + L2::offset_of(a), n);
    }
    if geometry::is_external(a) {
        return memory::load(ext, geometry::external_place(a), n);
    }
    memory::load(l2, geometry::place_of(a), n)
}

// How many of the n bytes at a are read from external memory for that.
#[inline(always)]
pub fn home_moved(h: Fetched, a: u32, n: u32, ext: &[u8]) -> u32
    ensures { ((z : State) → z.ext ≡ ext.now → Found h a z.rec → HomeMoved result a a n z) × (result ≤ n) }
{
    if h.home.is_some() {
        return 0;
    }
    if geometry::is_external(a) {
        return memory::held(ext, geometry::external_place(a), n);
    }
    0
}

// The bytes of a write go to the home. How many of them went into external memory is told.
#[inline(always)]
pub fn write_home(
    tags: &mut [u32],
    split: Split,
    h: Fetched,
    a: u32,
    n: u32,
    v: u64,
    l2: &mut [u8],
    ext: &mut [u8],
) -> u32
    requires n_value { size_ok n ≡ true }
    requires lent { Lent split.sram split.sets tags.old }
    requires found { Found h a (record_in tags.old) }
    ensures by_index { (d : List ℕ) → state_in tags.new d l2.new ext.new
        ≡ write_home (way_in h) a (little_bytes v n) (state_in tags.old d l2.old ext.old) }
    ensures told { ((d : List ℕ) → HomeMoved result a a n (state_in tags.old d l2.old ext.old)) × (result ≤ n) }
{
    if let Some(at) = h.home {
        memory::store(
            l2,
            L2::data_at(split, at.set, at.way) + L2::offset_of(a),
            n,
            v,
        );
        let y = tags::line::<L2>(tags, at.set, at.way);
        tags::put::<L2>(tags, at.set, at.way, geometry::line_at(y.address, true));
        return 0;
    }
    if geometry::is_external(a) {
        let to = geometry::external_place(a);
        let k = memory::held(ext, to, n);
        memory::store(ext, to, n, v);
        return k;
    }
    memory::store(l2, geometry::place_of(a), n, v);
    0
}
