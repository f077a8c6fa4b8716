// A program fetch (02, U4), on the words of the chip: a hit in L1P, a miss through what lies behind it, or past the
// caches. The data side's functions are lent the words in front, so that no line of L1P changes there.
#![tactic(auto)]

ghost use Rattle.std.specs.Prelude.{true, false, List, ◌≡◌, ℕ, ◌<◌, length, set, IfSome, IfOk, OnErr};
ghost use Rattle.model.specs.Bytes.{part, stored};
ghost use Rattle.model.specs.Lines.{line_of};
ghost use Rattle.model.specs.Records.{State, sram_of, l2_sets_of};
ghost use Rattle.model.specs.Access.{cacheable, home_part};
ghost use Rattle.model.specs.Reports.{left_by};
ghost use Rattle.model.specs.Fetches.{fetch_due};
ghost use Rattle.model.specs.Calls.{fetch_behind_done};
ghost use Rattle.model.specs.declared.Left.TheVariants.{NoWay};
ghost use Rattle.model.specs.declared.Line.{Line};
ghost use Rattle.program.specs.L1p.{l1p_set_of, l1p_data, l1p_at, l1p_length};
ghost use Rattle.program.specs.Fetches.{Chip, chip, with_l1p, beside_l1p, fetch_hit, fetch_miss, fetch_done, fetch_step};
ghost use Rattle.program.specs.Chip.{chip_lent_due};
ghost use Rattle.tags.specs.Words.{record_words, record_in, state_in};
ghost use Rattle.tags.specs.Sizes.{Lent};
ghost use Rattle.l1p_tags.specs.Lines.{chip_words, lines_in, chip_in};
ghost use Rattle.kinds.specs.Numbers.{number_due};
ghost use Rattle.l2_fetch.specs.Fetched.{way_in, Found};
ghost use Rattle.fetches.specs.Fetched.{fetched_one, fetched_as, in_line, WholeLine, AskedOf};

use access::Answer;
use geometry::{L1p, L2, Split};
use kinds::{Refusal, Server};
use model::Left;

// What an accepted fetch answers: server and report as an access has them, what left its L1P way, and the line's bytes.
#[derive(Clone, Copy)]
pub struct Fetched {
    pub answer: Answer,
    pub l1p_left: Left,
    pub bytes: [u8; L1p::LINE],
}

// ---- the bytes of a line
// At a place of a memory; zeros where they do not lie there.
fn bytes_at(m: &[u8], at: usize) -> [u8; L1p::LINE]
    ensures { result ≡ in_line (part m.now at 32) }
{
    let mut t = [0u8; L1p::LINE];
    memory::move_part(&mut t, 0, m, at, L1p::LINE);
    t
}

// Out of the home, which is never L1D.
#[tactic(auto, unfolding(model::specs::Access::home_part, model::specs::Homes::memory_part))]
fn home_bytes(split: Split, h: l2_fetch::Fetched, a: u32, l2: &[u8], ext: &[u8]) -> [u8; L1p::LINE]
    requires { IfSome h.home (λ at. (at.set < 512) × (at.way < 4)) }
    ensures { (z : State) → z.l2 ≡ l2.now → z.ext ≡ ext.now → split.sram ≡ sram_of z.rec →
        split.sets ≡ l2_sets_of z.rec → Found h a z.rec → result ≡ in_line (home_part (way_in h) a a 32 z) }
{
    if let Some(at) = h.home {
        return bytes_at(l2, L2::data_at(split, at.set, at.way) + L2::offset_of(a));
    }
    if geometry::is_external(a) {
        return bytes_at(ext, geometry::external_place(a));
    }
    bytes_at(l2, geometry::place_of(a))
}

// ---- the three ways
// L1P has the line in set s.
fn hit(s: usize, l1p: &[u8]) -> Fetched
    requires { (s < 512) × (length l1p.now ≡ l1p_length) }
    ensures { (a : ℕ) (k : Chip) → s ≡ l1p_set_of a → k.bytes ≡ l1p.now → fetched_one result k ≡ fetch_hit a k }
{
    Fetched {
        answer: access::plain(Some(Server::L1p), 0),
        l1p_left: Left::NoWay,
        bytes: bytes_at(l1p, L1p::data_at(s)),
    }
}

// External memory with MAR bit 0 is reached directly, past L1P too.
fn past(a: u32, ext: &[u8]) -> Fetched
    ensures { (k : Chip) → k.data_side.ext ≡ ext.now → cacheable k.data_side.rec a ≡ false → WholeLine a k.data_side →
        fetched_one result k ≡ beside_l1p (fetch_behind_done a k.data_side) k }
{
    let at = geometry::external_place(a);
    let n = memory::held(ext, at, L1p::LINE as u32);
    Fetched {
        answer: Answer {
            value: 0,
            server: Some(Server::External),
            l1d_left: Left::NoWay,
            l2_left: Left::NoWay,
            read: n,
            written: 0,
        },
        l1p_left: Left::NoWay,
        bytes: bytes_at(ext, at),
    }
}

// What lies behind L1P gives the line: L2 finds or fetches it as for a data read, and L1D is not looked at.
fn behind(
    tags: &mut [u32],
    split: Split,
    a: u32,
    l1d: &[u8],
    l2: &mut [u8],
    ext: &mut [u8],
) -> Fetched
    requires lent { Lent split.sram split.sets tags.old }
    requires a_value { (cacheable (record_in tags.old) a ≡ true)
        × WholeLine a (state_in tags.old l1d.now l2.old ext.old) }
    ensures { (ls : List Line) (bs : List ℕ) →
        fetched_one result (chip (state_in tags.new l1d.now l2.new ext.new) ls bs)
        ≡ with_l1p NoWay ls bs (fetch_behind_done a (state_in tags.old l1d.now l2.old ext.old)) }
{
    let h = l2_fetch::fetch_l2(tags, split, a, l1d, l2, ext);
    let n = l2_fetch::home_moved(h, a, L1p::LINE as u32, ext);
    let bytes = home_bytes(split, h, a, l2, ext);
    Fetched {
        answer: Answer {
            value: 0,
            server: Some(h.server),
            l1d_left: Left::NoWay,
            l2_left: h.left,
            read: h.read + n,
            written: h.written,
        },
        l1p_left: Left::NoWay,
        bytes: bytes,
    }
}

// The line at a comes to set s, clean. What was there leaves it; a clean line has no way home.
fn fill(words: &mut [u32], s: usize, a: u32, bytes: [u8; L1p::LINE], l1p: &mut [u8]) -> Left
    requires { (s < 512) × (length words.old ≡ chip_words) }
    ensures value { result ≡ left_by (l1p_at (lines_in words.old) s) }
    ensures words_after { lines_in words.new ≡ set (lines_in words.old) s (line_of a false) }
    ensures rest { record_in words.new ≡ record_in words.old }
    ensures l1p_after { l1p.new ≡ stored l1p.old (l1p_data s) bytes }
{
    let was = l1p_tags::line(words, s);
    let comes = geometry::line_at(a, false);
    l1p_tags::put(words, s, comes);
    memory::move_part(l1p, L1p::data_at(s), &bytes, 0, L1p::LINE);
    geometry::left_by(was)
}

// L1P has another line in set s, or none.
#[tactic(auto, using(crate::specs::Told::lent_words))]
fn miss(
    words: &mut [u32],
    split: Split,
    s: usize,
    a: u32,
    l1d: &[u8],
    l2: &mut [u8],
    ext: &mut [u8],
    l1p: &mut [u8],
) -> Fetched
    requires s_bound { ((s < 512) × (s ≡ l1p_set_of a)) × (length words.old ≡ chip_words) }
    requires split_value { (split.sram ≡ sram_of (record_in words.old))
        × (split.sets ≡ l2_sets_of (record_in words.old)) }
    requires a_value { (cacheable (record_in words.old) a ≡ true)
        × WholeLine a (state_in words.old l1d.now l2.old ext.old) }
    ensures { fetched_one result (chip_in words.new l1d.now l2.new ext.new l1p.new)
        ≡ fetch_miss a (chip_in words.old l1d.now l2.old ext.old l1p.old) }
{
    let n = tags::WORDS;
    let x = behind(&mut words[..n], split, a, l1d, l2, ext);
    let bytes = x.bytes;
    Fetched {
        answer: x.answer,
        l1p_left: fill(words, s, a, bytes, l1p),
        bytes: bytes,
    }
}

// ---- the whole
// What the data side's record says of an address that may be fetched, and its sizes.
#[derive(Clone, Copy)]
struct Asked {
    cacheable: bool,
    split: Split,
}

fn ask(tags: &[u32], a: u32) -> Result<Asked, Refusal>
    requires { length tags.now ≡ record_words }
    ensures due { number_due result ≡ fetch_due (sram_of (record_in tags.now)) (record_in tags.now).extlen a }
    ensures asked { IfOk result (λ q. AskedOf q a (record_in tags.now)) }
{
    let split = tags::split_of(tags);
    refusals::fetch_due(split.sram as u32, tags::extlen_of(tags), a)?;
    Ok(Asked {
        cacheable: access::is_cacheable(tags, a),
        split: split,
    })
}

// A fetch that nothing refuses: past the caches, a hit in L1P, or a miss.
#[tactic(auto, unfolding(program::specs::Fetches::fetch_done, program::specs::L1p::in_l1p))]
fn accepted(
    words: &mut [u32],
    q: Asked,
    a: u32,
    l1d: &[u8],
    l2: &mut [u8],
    ext: &mut [u8],
    l1p: &mut [u8],
) -> Fetched
    requires words_len { length words.old ≡ chip_words }
    requires l1p_len { length l1p.old ≡ l1p_length }
    requires asked { AskedOf q a (record_in words.old) }
    requires whole { WholeLine a (state_in words.old l1d.now l2.old ext.old) }
    ensures { fetched_one result (chip_in words.new l1d.now l2.new ext.new l1p.new)
        ≡ fetch_done a (chip_in words.old l1d.now l2.old ext.old l1p.old) }
{
    if !q.cacheable {
        return past(a, ext);
    }
    let s = L1p::set_of(a as usize);
    let line = l1p_tags::line(words, s);
    if l1p_tags::holds_at(line, L1p::line_of(a as usize)) {
        return hit(s, l1p);
    }
    miss(words, q.split, s, a, l1d, l2, ext, l1p)
}

// A fetch on a chip that passed checks 1 and 2.
#[tactic(auto, using(crate::specs::Told::lent_words))]
pub fn fetch(
    words: &mut [u32],
    a: u32,
    l1d: &[u8],
    l2: &mut [u8],
    ext: &mut [u8],
    l1p: &mut [u8],
) -> Result<Fetched, Refusal>
    requires words_len { length words.old ≡ chip_words }
    requires l1p_value { chip_lent_due (chip_in words.old l1d.now l2.old ext.old l1p.old) ≡ 0 }
    ensures l1p_after { fetched_as result (chip_in words.new l1d.now l2.new ext.new l1p.new)
        ≡ fetch_step a (chip_in words.old l1d.now l2.old ext.old l1p.old) }
    ensures refused { OnErr result (words.new ≡ words.old) }
{
    let n = tags::WORDS;
    let q = ask(&words[..n], a)?;
    Ok(accepted(words, q, a, l1d, l2, ext, l1p))
}
