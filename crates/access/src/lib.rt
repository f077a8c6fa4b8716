// An access on lent words: each function is the step of paper 01 itself, and all are total: they say what they do for
// every content of the words. Nothing here sees a word: lines, orders and bits are reached through crate tags, bytes
// through crate memory.
#![tactic(auto)]

ghost use Rattle.std.specs.Prelude.{true, false, cond, ◌≢◌, ◌≡◌, List, [], ℕ, ◌<◌, eqb, ltb, length, OnErr};
ghost use Rattle.model.specs.Bytes.{little, little_bytes};
ghost use Rattle.model.specs.Lines.{l1d_set_of};
ghost use Rattle.model.specs.Memories.{external_base};
ghost use Rattle.model.specs.Records.{State, state, l1d_set_at};
ghost use Rattle.model.specs.Ways.{l1d_victim, l1d_way};
ghost use Rattle.model.specs.Homes.{memory_part, put_memory};
ghost use Rattle.model.specs.Access.{cacheable, l1d_bytes, use_hit, evict_l1d, put_l1d, read_hit, write_hit};
ghost use Rattle.model.specs.Reports.{no_report};
ghost use Rattle.model.specs.Refusals.{size_ok};
ghost use Rattle.model.specs.Calls.{reply, accepted, step};
ghost use Rattle.model.specs.declared.Record.{Record};
ghost use Rattle.tags.specs.Words.{record_words, record_in, state_in};
ghost use Rattle.tags.specs.Sizes.{Lent};
ghost use Rattle.access.specs.Answered.{answered, accepted_of, answer_of, plain_answer, missed, passed, RoomTold};

use geometry::{L1d, Split};
use kinds::{Refusal, Server};
use model::{Command, Left};

// What an accepted call answers: who served it, if it is an access, and the value that was read. And what an access
// reports (02, U2): which line left a way of L1D and of L2 for it, and how many bytes of external memory it read and
// wrote.
#[derive(Clone, Copy)]
pub struct Answer {
    pub value: u64,
    pub server: Option<Server>,
    pub l1d_left: Left,
    pub l2_left: Left,
    pub read: u32,
    pub written: u32,
}

// An answer that reports nothing.
pub fn plain(server: Option<Server>, value: u64) -> Answer
    ensures { result ≡ plain_answer server value }
{
    Answer {
        value: value,
        server: server,
        l1d_left: Left::NoWay,
        l2_left: Left::NoWay,
        read: 0,
        written: 0,
    }
}

// ---- a way of L1D serves
// The n bytes at a of the line in way w of L1D set i.
pub fn way_value(i: usize, w: usize, a: u32, n: u32, l1d: &[u8]) -> u64
    requires { ((i < 128) × (w < 2)) × ((i ≡ l1d_set_of a) × (size_ok n ≡ true)) }
    ensures { (r : Record) (m e : List ℕ) → result ≡ little (l1d_bytes w a n (state r l1d.now m e)) }
{
    memory::load(l1d, L1d::data_at(i, w) + L1d::offset_of(a), n)
}

// Bytes changed, line dirty.
#[tactic(auto, unfolding(model::specs::Access::put_l1d))]
pub fn put_way(tags: &mut [u32], i: usize, w: usize, a: u32, n: u32, v: u64, l1d: &mut [u8])
    requires i_bound { ((i < 128) × (w < 2)) × (length tags.old ≡ record_words) }
    requires i_value { (i ≡ l1d_set_of a) × (size_ok n ≡ true) }
    ensures { (m e : List ℕ) → state_in tags.new l1d.new m e
        ≡ put_l1d w a (little_bytes v n) (state_in tags.old l1d.old m e) }
{
    memory::store(l1d, L1d::data_at(i, w) + L1d::offset_of(a), n, v);
    let y = tags::line::<L1d>(tags, i, w);
    tags::put::<L1d>(tags, i, w, geometry::line_at(y.address, true));
}

// The way that was hit is used, unless L1D is frozen.
#[tactic(auto, unfolding(model::specs::Access::use_hit, model::specs::Ways::use_l1d))]
pub fn use_hit(tags: &mut [u32], i: usize, w: usize)
    requires { ((i < 128) × (w < 2)) × (length tags.old ≡ record_words) }
    ensures { (d m e : List ℕ) → state_in tags.new d m e ≡ use_hit i w (state_in tags.old d m e) }
{
    if tags::frozen_of(tags) {
        return;
    }
    tags::touch::<L1d>(tags, i, w);
}

// A hit in way w of L1D set i.
#[tactic(auto, unfolding(model::specs::Access::read_hit, model::specs::Access::write_hit))]
#[inline(always)]
pub fn hit(tags: &mut [u32], i: usize, w: usize, c: Command, l1d: &mut [u8]) -> u64
    requires i_bound { ((i < 128) × (w < 2)) × (length tags.old ≡ record_words) }
    requires i_value { (i ≡ l1d_set_of c.second) × (size_ok c.first ≡ true) }
    ensures { (m e : List ℕ) → w ≡ l1d_way (state_in tags.old l1d.old m e) c.second →
        reply 0 1 result (state_in tags.new l1d.new m e)
        ≡ answered c (read_hit c.first c.second (state_in tags.old l1d.old m e)) no_report
        (write_hit c.second (little_bytes c.value c.first) (state_in tags.old l1d.old m e)) no_report }
{
    if c.code == 1 {
        put_way(tags, i, w, c.second, c.first, c.value, l1d);
        use_hit(tags, i, w);
        return 0;
    }
    use_hit(tags, i, w);
    way_value(i, w, c.second, c.first, l1d)
}

// ---- a miss
// A way of L1D that was emptied: which line left it, and how many bytes of it went to external memory.
#[derive(Clone, Copy)]
pub struct Room {
    pub way: usize,
    pub left: Left,
    pub written: u32,
}

// A read miss chooses a way of L1D set i; a dirty line there is written back to its home and the way emptied. A write
// miss chooses none, and neither does a read miss where L1D is frozen.
#[inline(always)]
pub fn free_way(
    tags: &mut [u32],
    split: Split,
    i: usize,
    none: bool,
    l1d: &[u8],
    l2: &mut [u8],
    ext: &mut [u8],
) -> Option<Room>
    requires i_bound { i < 128 }
    requires lent { Lent split.sram split.sets tags.old }
    ensures room_told { RoomTold result none i (state_in tags.old l1d.now l2.old ext.old) }
    ensures ext_after { state_in tags.new l1d.now l2.new ext.new
        ≡ cond none (state_in tags.old l1d.now l2.old ext.old)
        (evict_l1d i (l1d_victim (l1d_set_at (record_in tags.old) i)) (state_in tags.old l1d.now l2.old ext.old)) }
    ensures lent { Lent split.sram split.sets tags.new }
{
    if none {
        return None;
    }
    let w = tags::victim::<L1d>(tags, i);
    let g = l1d_writeback::evict_l1d(tags, split, i, w, l1d, l2, ext);
    Some(Room {
        way: w,
        left: g.left,
        written: g.written,
    })
}

// Neither way of L1D set i holds the line.
#[tactic(auto, using(memory::specs::Values::size_small))]
#[inline(always)]
pub fn miss(
    tags: &mut [u32],
    split: Split,
    i: usize,
    c: Command,
    l1d: &mut [u8],
    l2: &mut [u8],
    ext: &mut [u8],
) -> Answer
    requires i_bound { (i < 128) × ((i ≡ l1d_set_of c.second) × (size_ok c.first ≡ true)) }
    requires lent { Lent split.sram split.sets tags.old }
    ensures { accepted_of result (state_in tags.new l1d.new l2.new ext.new)
        ≡ missed c (state_in tags.old l1d.old l2.old ext.old) }
{
    let write = c.code == 1;
    let frozen = tags::frozen_of(tags);
    let room = free_way(tags, split, i, write | frozen, l1d, l2, ext);
    let h = l2_fetch::fetch_l2(tags, split, c.second, l1d, l2, ext);
    // what left is taken out of the structs by itself: hits, which do not come here, stay in registers then
    let l2_left = h.left;
    if write {
        let n = l2_fetch::write_home(tags, split, h, c.second, c.first, c.value, l2, ext);
        return Answer {
            value: 0,
            server: Some(h.server),
            l1d_left: Left::NoWay,
            l2_left: l2_left,
            read: h.read,
            written: h.written + n,
        };
    }
    if let Some(room) = room {
        let l1d_left = room.left;
        let n = l2_fetch::fill_l1d(tags, split, h, i, room.way, c.second, l1d, l2, ext);
        tags::touch::<L1d>(tags, i, room.way);
        let v = way_value(i, room.way, c.second, c.first, l1d);
        return Answer {
            value: v,
            server: Some(h.server),
            l1d_left: l1d_left,
            l2_left: l2_left,
            read: h.read + n,
            written: room.written + h.written,
        };
    }
    // frozen: just the bytes of the read
    let n = l2_fetch::home_moved(h, c.second, c.first, ext);
    let v = l2_fetch::read_home(tags, split, h, c.second, c.first, l2, ext);
    Answer {
        value: v,
        server: Some(h.server),
        l1d_left: Left::NoWay,
        l2_left: l2_left,
        read: h.read + n,
        written: h.written,
    }
}

// ---- the whole
// Both bits are read first: the tests then choose between values and not between loads, which the whole loop is
// faster for.
#[tactic(auto, using(crate::specs::Serving::mar_bits), unfolding(model::specs::Access::cacheable))]
pub fn is_cacheable(tags: &[u32], a: u32) -> bool
    requires { length tags.now ≡ record_words }
    ensures { result ≡ cacheable (record_in tags.now) a }
{
    let m = tags::mar128_of(tags);
    let n = tags::mar129_of(tags);
    if !geometry::is_external(a) {
        return true;
    }
    if a < geometry::MAR_129_FROM {
        return m;
    }
    n
}

// External memory with MAR bit 0 is reached directly, touching no line.
#[inline(always)]
pub fn uncached(c: Command, ext: &mut [u8]) -> Answer
    requires { (size_ok c.first ≡ true) × (ltb c.second external_base ≡ false) }
    ensures { (z : State) → z.ext ≡ ext.old → accepted_of result (state z.rec z.l1d z.l2 ext.new) ≡ passed c z }
{
    let at = geometry::external_place(c.second);
    let n = memory::held(ext, at, c.first);
    if c.code == 1 {
        memory::store(ext, at, c.first, c.value);
        return Answer {
            value: 0,
            server: Some(Server::External),
            l1d_left: Left::NoWay,
            l2_left: Left::NoWay,
            read: 0,
            written: n,
        };
    }
    Answer {
        value: memory::load(ext, at, c.first),
        server: Some(Server::External),
        l1d_left: Left::NoWay,
        l2_left: Left::NoWay,
        read: n,
        written: 0,
    }
}

// The value that is checked: a read has none.
pub fn checked_value(c: Command) -> u64
    ensures { result ≡ cond (eqb c.code 1) c.value 0 }
{
    if c.code == 1 {
        return c.value;
    }
    0
}

// A read or a write that nothing refuses: past the caches, a hit, or a miss.
#[tactic(auto, unfolding(model::specs::Access::cacheable))]
#[inline(always)]
fn accepted(
    tags: &mut [u32],
    split: Split,
    c: Command,
    l1d: &mut [u8],
    l2: &mut [u8],
    ext: &mut [u8],
) -> Answer
    requires c_bound { (c.code < 2) × (size_ok c.first ≡ true) }
    requires lent { Lent split.sram split.sets tags.old }
    ensures { accepted_of result (state_in tags.new l1d.new l2.new ext.new)
        ≡ accepted c (state_in tags.old l1d.old l2.old ext.old) }
{
    if !is_cacheable(tags, c.second) {
        return uncached(c, ext);
    }
    let i = L1d::set_of(c.second);
    if let Some(w) = tags::find::<L1d>(tags, i, L1d::line_of(c.second)) {
        let v = hit(tags, i, w, c, l1d);
        return plain(Some(Server::L1d), v);
    }
    miss(tags, split, i, c, l1d, l2, ext)
}

// A read or a write: number, server and value of the answer, the record and every lent byte are those of `step`.
#[inline(always)]
pub fn access(
    tags: &mut [u32],
    split: Split,
    c: Command,
    l1d: &mut [u8],
    l2: &mut [u8],
    ext: &mut [u8],
) -> Result<Answer, Refusal>
    requires code_bound { c.code < 2 }
    requires lent { Lent split.sram split.sets tags.old }
    ensures ext_after { answer_of result (state_in tags.new l1d.new l2.new ext.new)
        ≡ step c (state_in tags.old l1d.old l2.old ext.old) }
    ensures refused { OnErr result (tags.new ≡ tags.old) }
{
    refusals::access_due(
        split.sram as u32,
        tags::extlen_of(tags),
        c.first,
        c.second,
        checked_value(c),
    )?;
    Ok(accepted(tags, split, c, l1d, l2, ext))
}
