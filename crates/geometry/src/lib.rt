// The geometry of the caches and what follows from it: line length, ways and sets, the set and the data place of a
// line, the sizes that go by the mode, legal lengths, where an address lies, and the lines that a block touches
// (paper 01, "Memories lent by the caller", "Lines and the record", "Cache commands"). Every function is total: no
// caller has to know that a record is well formed.
#![tactic(auto)]

ghost use Rattle.std.specs.Prelude.{◌≡◌, ◌≢◌, not, ◌+◌, ◌-◌, ◌*◌, ◌%◌, ◌≤◌, ◌<◌, ltb};
ghost use Rattle.model.specs.Memories.{external_base, cache_size, sram_length, legal_l2, legal_external, is_mode};
ghost use Rattle.model.specs.Lines.{l1d_set_of, l1d_data, l1d_line, l2_sets, l2_set_in, l2_data_in, l2_line, upper_half, l1p_set_of, l1p_line, l1p_data, empty_line, line_of, holds};
ghost use Rattle.model.specs.Reports.{left_by};
ghost use Rattle.model.specs.Commands.{block_end, lines_touched};
ghost use Rattle.geometry.specs.Blocks.{line_after};

use model::{Left, Line};

// ---- the kinds of the three caches: line length, ways and sets are theirs
#[derive(Clone, Copy)]
pub struct L1d {}

#[derive(Clone, Copy)]
pub struct L2 {}

#[derive(Clone, Copy)]
pub struct L1p {}

impl L1d {
    pub const LINE: usize = 64;

    pub const WAYS: usize = 2;

    pub const SETS: usize = 128;

    pub const LINES: usize = L1d::SETS * L1d::WAYS;

    // All data of L1D, which is lent whole.
    pub const BYTES: usize = L1d::LINES * L1d::LINE;

    pub fn set_of(a: u32) -> usize
        ensures { (result ≡ l1d_set_of a) × (result < 128) }
    {
        let x = a as usize;
        x / L1d::LINE % L1d::SETS
    }

    pub fn data_at(s: usize, w: usize) -> usize
        requires { (s < 128) × (w < 2) }
        ensures { (result ≡ l1d_data s w) × (result < 16384) }
    {
        (w * L1d::SETS + s) * L1d::LINE
    }

    pub fn offset_of(a: u32) -> usize
        ensures { (result ≡ a % 64) × (result < 64) }
    {
        let x = a as usize;
        x % L1d::LINE
    }

    pub fn line_of(a: u32) -> u32
        ensures { result ≡ l1d_line a }
    {
        a / L1d::LINE as u32 * L1d::LINE as u32
    }
}

impl L2 {
    pub const LINE: usize = 128;

    pub const WAYS: usize = 4;

    // The bytes of one set.
    pub const SET_BYTES: u32 = (L2::WAYS * L2::LINE) as u32;

    // The number of sets is a constant of each mode: the cache size by the bytes of a set. The record has room for as
    // many as mode 7 uses.
    pub const SETS_1: usize = 64;

    pub const SETS_2: usize = 128;

    pub const SETS_3: usize = 256;

    pub const SETS_7: usize = 512;

    pub const SETS: usize = L2::SETS_7;

    // One case for each row of Table 7 of SPRU610C, in its order (L2MODE; the cache of that row; its sets).
    pub fn sets(mode: u8) -> usize
        ensures { (result ≡ l2_sets mode) × (result ≤ 512) }
    {
        match mode {
            // 0: L2 cache disabled (all SRAM mode)
            0 => 0,
            // 1h: 4-way cache (32K L2 cache)
            1 => L2::SETS_1,
            // 2h: 4-way cache (64K L2 cache)
            2 => L2::SETS_2,
            // 3h: 4-way cache (128K L2 cache)
            3 => L2::SETS_3,
            // 4h-6h: reserved
            4 | 5 | 6 => 0,
            // 7h: 4-way cache (256K L2 cache)
            7 => L2::SETS_7,
            // L2MODE has three bits
            _ => 0,
        }
    }

    // What the cache leaves of L2 is SRAM.
    pub fn sram(l2len: u32, mode: u8) -> usize
        ensures { (result ≡ sram_length l2len mode) × (result < 4294967296) }
    {
        sram_length(l2len, mode as u32) as usize
    }

    // By the constants of the modes, since a remainder by a constant needs no division. Where there are no sets (mode
    // 0) no set is looked at, and 0 stands for it.
    pub fn set_of(split: Split, a: u32) -> usize
        ensures { (split.sets ≢ 0 → result ≡ l2_set_in split.sets a) × (result < 512) }
    {
        let line = a as usize / L2::LINE;
        if split.sets == L2::SETS_1 {
            return line % L2::SETS_1;
        }
        if split.sets == L2::SETS_2 {
            return line % L2::SETS_2;
        }
        if split.sets == L2::SETS_3 {
            return line % L2::SETS_3;
        }
        if split.sets == L2::SETS_7 {
            return line % L2::SETS_7;
        }
        if split.sets == 0 {
            return 0;
        }
        line % split.sets
    }

    pub fn data_at(split: Split, t: usize, v: usize) -> usize
        requires { (t < 512) × (v < 4) }
        ensures { (result ≡ l2_data_in split.sram split.sets t v) × (result < 8589934592) }
    {
        split.sram + (v * split.sets + t) * L2::LINE
    }

    pub fn offset_of(a: u32) -> usize
        ensures { (result ≡ a % 128) × (result < 128) }
    {
        let x = a as usize;
        x % L2::LINE
    }

    pub fn line_of(a: u32) -> u32
        ensures { result ≡ l2_line a }
    {
        a / L2::LINE as u32 * L2::LINE as u32
    }

    // The half of an L2 line that lies one L1D line behind its first byte.
    pub fn upper_half(b: u32) -> u32
        ensures { result ≡ upper_half b }
    {
        b / L2::LINE as u32 * L2::LINE as u32 + L1d::LINE as u32
    }
}

// How a mode splits L2: S, the bytes that are SRAM, and how many sets of cache there are.
#[derive(Clone, Copy)]
pub struct Split {
    pub sram: usize,
    pub sets: usize,
    ghost sram_fits: { sram < 4294967296 },
    ghost sets_fit: { sets ≤ 512 },
}

impl Split {
    pub fn of(l2len: u32, mode: u8) -> Split
        ensures { (result.sram ≡ sram_length l2len mode) × (result.sets ≡ l2_sets mode) }
    {
        Split {
            sram: L2::sram(l2len, mode),
            sets: L2::sets(mode),
        }
    }
}

// 02, U4: lines of a program. An address comes as a usize here: one inside an L2 line is a sum that may pass FFFFFFFFh
// in a record that is not well formed.
impl L1p {
    pub const LINE: usize = 32;

    pub const WAYS: usize = 1;

    pub const SETS: usize = 512;

    pub const LINES: usize = L1p::SETS * L1p::WAYS;

    // All data of L1P, which is lent whole.
    pub const BYTES: usize = L1p::LINES * L1p::LINE;

    pub fn set_of(a: usize) -> usize
        ensures { (result ≡ l1p_set_of a) × (result < 512) }
    {
        a / L1p::LINE % L1p::SETS
    }

    pub fn data_at(s: usize) -> usize
        requires { s < 512 }
        ensures { (result ≡ l1p_data s) × (result < 16384) }
    {
        s * L1p::LINE
    }

    pub fn line_of(a: usize) -> usize
        ensures { result ≡ l1p_line a }
    {
        a / L1p::LINE * L1p::LINE
    }
}

// ---- sizes that go by the mode, and legal lengths
// The sizes that Table 7 of SPRU610C gives the L2 cache.
const CACHE_32K: u32 = 32 * 1024;

const CACHE_64K: u32 = 64 * 1024;

const CACHE_128K: u32 = 128 * 1024;

const CACHE_256K: u32 = 256 * 1024;

// C, the bytes of L2 that are cache: one case for each row of Table 7 of SPRU610C, in its order (L2MODE; the cache of
// that row).
pub fn cache_size(mode: u32) -> u32
    ensures { (result ≡ cache_size mode) × (result < 262145) }
{
    match mode {
        // 0: L2 cache disabled (all SRAM mode)
        0 => 0,
        // 1h: 4-way cache (32K L2 cache)
        1 => CACHE_32K,
        // 2h: 4-way cache (64K L2 cache)
        2 => CACHE_64K,
        // 3h: 4-way cache (128K L2 cache)
        3 => CACHE_128K,
        // 4h-6h: reserved
        4 | 5 | 6 => 0,
        // 7h: 4-way cache (256K L2 cache)
        7 => CACHE_256K,
        // L2MODE has three bits
        _ => 0,
    }
}

// S, the bytes of L2 that are SRAM; 0 where C is above L.
pub fn sram_length(l2len: u32, mode: u32) -> u32
    ensures { result ≡ sram_length l2len mode }
{
    let cache = cache_size(mode);
    if cache <= l2len {
        return l2len - cache;
    }
    0
}

pub fn is_mode(mode: u32) -> bool
    ensures { result ≡ is_mode mode }
{
    (mode <= 3) | (mode == 7)
}

pub fn legal_l2(length: usize) -> bool
    ensures { result ≡ legal_l2 length }
{
    (length % 32768 == 0) & ((32768 <= length) & (length <= 262144))
}

pub fn legal_external(length: usize) -> bool
    ensures { result ≡ legal_external length }
{
    (length % L2::LINE == 0) & ((L2::LINE <= length) & (length <= 33554432))
}

// ---- where an address lies
pub const EXTERNAL_BASE: u32 = 0x80000000;

// A MAR bit is for 16 MiB; the second one's begin where the first one's end.
pub const MAR_RANGE: u32 = 0x1000000;

pub const MAR_128: u32 = 128;

pub const MAR_129: u32 = 129;

pub const MAR_129_FROM: u32 = MAR_129 * MAR_RANGE;

pub fn is_external(a: u32) -> bool
    ensures { ltb a external_base ≡ not result }
{
    EXTERNAL_BASE <= a
}

// An address of SRAM is its own place in L2; one of external memory is counted from 80000000h.
pub fn place_of(a: u32) -> usize
    ensures { (result ≡ a) × (result < 4294967296) }
{
    a as usize
}

pub fn external_place(a: u32) -> usize
    ensures { (result ≡ a - external_base) × (result < 4294967296) }
{
    if a < EXTERNAL_BASE {
        return 0;
    }
    (a - EXTERNAL_BASE) as usize
}

// ---- one line
pub fn empty_line() -> Line
    ensures { result ≡ empty_line }
{
    Line {
        valid: false,
        dirty: false,
        address: 0,
    }
}

pub fn line_at(a: u32, dirty: bool) -> Line
    ensures { result ≡ line_of a dirty }
{
    Line {
        valid: true,
        dirty: dirty,
        address: a,
    }
}

pub fn line_holds(x: Line, a: u32) -> bool
    ensures { result ≡ holds x a }
{
    if x.valid { x.address == a } else { false }
}

// What leaves a way with this line in it, or that it is empty (02, U2).
pub fn left_by(x: Line) -> Left
    ensures { result ≡ left_by x }
{
    if !x.valid {
        return Left::Empty;
    }
    if x.dirty {
        return Left::Dirty(x.address);
    }
    Left::Clean(x.address)
}

// ---- the lines that a block touches
// The address after the last byte of a block of words; what passes FFFFFFFFh is cut off.
pub fn block_end(base: u32, count: u32) -> usize
    ensures { result ≡ block_end base count }
{
    let end = base as usize + count as usize * 4;
    if end <= 4294967296 {
        return end;
    }
    4294967296
}

pub fn lines_touched(length: usize, base: u32, count: u32) -> usize
    requires { 0 < length }
    ensures { result ≡ lines_touched length base count }
{
    if count == 0 {
        return 0;
    }
    let end = block_end(base, count);
    let b = base as usize;
    (end - 1) / length - b / length + 1
}

pub fn line_after(length: usize, base: u32, count: u32, k: usize) -> u32
    requires { (0 < length) × (k < lines_touched length base count) }
    ensures { result ≡ line_after length base k }
{
    let b = base as usize;
    ((b / length + k) * length) as u32
}
