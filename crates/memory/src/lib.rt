// Lines and values between lent memories. Every function that takes a place is total: what does not lie in its memory
// is not touched, so that no caller has to know that a record is well formed.
#![tactic(auto)]

ghost use Rattle.std.specs.Prelude.{true, ◌≡◌, ◌+◌, ◌^◌, ◌≤◌, ◌<◌, length, leb};
ghost use Rattle.model.specs.Bytes.{part, stored, little, little_bytes, zero_from};
ghost use Rattle.model.specs.Reports.{taken};
ghost use Rattle.model.specs.Refusals.{size_ok};

// Do n bytes at a lie in a memory of len bytes? Told without a sum that could wrap.
pub fn fits(a: usize, n: usize, len: usize) -> bool
    ensures { result ≡ leb (a + n) len }
{
    if len < n {
        return false;
    }
    a <= len - n
}

// A line of N bytes goes from the place b of one memory to the place a of another. How many bytes went there is told.
// The number of bytes is a constant, so that the compiler makes wide moves of it.
pub fn move_line<const N: u32>(dst: &mut [u8], a: usize, src: &[u8], b: usize) -> u32
    ensures dst_after { dst.new ≡ stored dst.old a (part src.now b N) }
    ensures told { (result ≡ length (taken dst.old a (part src.now b N))) × (result ≤ N) }
{
    let n = N as usize;
    if !fits(b, n, src.len()) {
        return 0;
    }
    if !fits(a, n, dst.len()) {
        return 0;
    }
    let line = &src[b..b + n];
    dst[a..a + n].copy_from_slice(line);
    N
}

// Byte by byte, of which the compiler makes wide moves. The library's copy of so many bytes as come would be a call of
// C's memmove, which C programs were never asked for.
fn copy(dst: &mut [u8], src: &[u8])
    requires { length dst.old ≡ length src.now }
    ensures { dst.new ≡ src.now }
{
    for i in 0..src.len() {
        dst[i] = src[i];
    }
}

// Any number of bytes does.
pub fn move_part(dst: &mut [u8], a: usize, src: &[u8], b: usize, n: usize)
    ensures { dst.new ≡ stored dst.old a (part src.now b n) }
{
    if !fits(b, n, src.len()) {
        return;
    }
    if !fits(a, n, dst.len()) {
        return;
    }
    copy(&mut dst[a..a + n], &src[b..b + n]);
}

// How many of the n bytes at a are there: all of them, or none.
pub fn held(m: &[u8], a: usize, n: u32) -> u32
    ensures { (result ≡ length (part m.now a n)) × (result ≤ n) }
{
    if fits(a, n as usize, m.len()) {
        return n;
    }
    0
}

// ---- values of N bytes, low byte first; N is a constant, so that the compiler makes one load or store of it
pub fn load_bytes<const N: usize>(m: &[u8], a: usize) -> u64
    requires inside { a + N ≤ length m.now }
    requires width { N ≤ 8 }
    ensures low_first { result ≡ little (part m.now a N) }
    ensures small { result < 256 ^ N }
{
    let mut value: u64 = 0;
    // the high byte comes first
    for i in 0..N {
        value = value * 256 + m[a + (N - 1 - i)] as u64;
    }
    value
}

pub fn store_bytes<const N: usize>(m: &mut [u8], a: usize, v: u64)
    requires { a + N ≤ length m.old }
    ensures { m.new ≡ stored m.old a (little_bytes v N) }
{
    let mut rest = v;
    for i in 0..N {
        m[a + i] = (rest % 256) as u8;
        rest = rest / 256;
    }
}

// The value of n bytes at a; 0 where they do not lie in the memory.
pub fn load(m: &[u8], a: usize, n: u32) -> u64
    requires { size_ok n ≡ true }
    ensures { result ≡ little (part m.now a n) }
{
    if !fits(a, n as usize, m.len()) {
        return 0;
    }
    if n == 4 {
        return load_bytes::<4>(m, a);
    }
    if n == 1 {
        return load_bytes::<1>(m, a);
    }
    if n == 2 {
        return load_bytes::<2>(m, a);
    }
    load_bytes::<8>(m, a)
}

// The n bytes of a value go to a, if they all lie in the memory.
pub fn store(m: &mut [u8], a: usize, n: u32, v: u64)
    requires { size_ok n ≡ true }
    ensures { m.new ≡ stored m.old a (little_bytes v n) }
{
    if !fits(a, n as usize, m.len()) {
        return;
    }
    if n == 4 {
        return store_bytes::<4>(m, a, v);
    }
    if n == 1 {
        return store_bytes::<1>(m, a, v);
    }
    if n == 2 {
        return store_bytes::<2>(m, a, v);
    }
    store_bytes::<8>(m, a, v)
}

// Every byte from k on becomes zero; where k lies past the end there is none.
pub fn clear_from(m: &mut [u8], k: usize)
    ensures { m.new ≡ zero_from k m.old (length m.old) }
{
    if k < m.len() {
        m[k..].fill(0);
    }
}
