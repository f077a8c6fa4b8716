// A load to repeat (02, U9): words from a seed, an access for each, and the trace of the first of them, written into a
// lent output. Whether it has room is asked first, by a pass over the words that stops where there is none: so no byte
// changes where the trace is too long, and the time goes by the output's length however many accesses are asked for.
#![tactic(auto)]

ghost use Rattle.std.specs.Prelude.{◌≡◌, ℕ, ◌+◌, ◌<◌, ◌≤◌, length, nat_le, slice_index};
ghost use Rattle.kinds.specs.Numbers.{refusal_number};
ghost use Rattle.model.specs.Bytes.{stored};
ghost use Rattle.traces.specs.Writing.{command_bytes};
ghost use Rattle.traces.specs.Load.{sum32, next_word, words, word, access_of, load_bytes, load_trace};
ghost use Rattle.traces.proofs.Load.{Legal};
ghost use Rattle.load.specs.Told.{told_load};
ghost use Rattle.load.specs.Ring.{place_back, place_after, Ring};

use kinds::Refusal;
use model::Command;

// How many bytes the trace has, and the number. C is given it as it stands, so the fields are numbers.
#[repr(C)]
#[derive(Clone, Copy)]
pub struct Load {
    pub length: usize,
    pub number: u8,
}

// No trace is made.
fn refused(refusal: Refusal) -> Load
    ensures { (result.length ≡ 0) × (result.number ≡ refusal_number refusal) }
{
    Load {
        length: 0,
        number: refusal.number(),
    }
}

// The words that a ring of them keeps; how many places back the two lie of which a later one is the sum.
const RING: usize = 55;

const NEAR: usize = 24;

const FAR: usize = 55;

fn sum(a: u32, b: u32) -> u32
    ensures { result ≡ sum32 a b }
{
    std::num::wrapping_add_u32(a, b)
}

// Where the word so many places back stands, if the next one comes to `at`.
fn place_back(at: usize, places: usize) -> usize
    requires { (at < 55) × (places < 56) }
    ensures { result ≡ place_back at places }
{
    if at < places {
        return at + RING - places;
    }
    at - places
}

fn place_after(at: usize) -> usize
    requires { at < 55 }
    ensures { result ≡ place_after at }
{
    if at == RING - 1 {
        return 0;
    }
    at + 1
}

// The last 55 words, and the place to which the next one comes.
#[derive(Drop)]
struct Words {
    ring: [u32; 55],
    at: usize,
    ghost inside: { at < 55 },
}

impl Words {
    // The word so many places back.
    fn back(&self, places: usize) -> u32
        requires { places < 56 }
        ensures { result ≡ slice_index self.now.ring (place_back self.now.at places) }
    {
        self.ring[place_back(self.at, places)]
    }

    // The next word takes the place of the one 55 places back.
    fn put(&mut self, word: u32)
        ensures { (seed k : ℕ) → Ring seed k self.old.ring self.old.at → word ≡ next_word seed (words seed k) →
            Ring seed (k + 1) self.new.ring self.new.at }
    {
        self.ring[self.at] = word;
        self.at = place_after(self.at);
    }

    // The first 55 words.
    fn seeded(seed: u32) -> Words
        ensures { Ring seed 55 result.ring result.at }
    {
        let mut words = Words {
            ring: [0; 55],
            at: 0,
        };
        words.put(seed);
        for _ in 1..RING {
            words.put(sum(words.back(1), 0x9E3779B9));
        }
        words
    }

    // The word that comes next.
    fn next(&mut self) -> u32
        ensures { (seed made : ℕ) → Ring seed (55 + made) self.old.ring self.old.at →
            (result ≡ word seed (56 + made)) × Ring seed (55 + (made + 1)) self.new.ring self.new.at }
    {
        let word = sum(self.back(NEAR), self.back(FAR));
        self.put(word);
        word
    }
}

// The access of a word: bit 31 set means write.
#[tactic(auto, unfolding(traces::specs::Load::access_of))]
fn access_of(extlen: u32, word: u32) -> Command
    requires { Legal extlen }
    ensures { result ≡ access_of extlen word }
{
    let address = geometry::EXTERNAL_BASE + word % (extlen / 4) * 4;
    if word < 0x80000000 {
        return Command {
            code: 0,
            first: 4,
            second: address,
            value: 0,
        };
    }
    Command {
        code: 1,
        first: 4,
        second: address,
        value: word as u64,
    }
}

// How many bytes of a trace it takes, whatever E is.
#[tactic(auto, using(crate::specs::Passes::lengths))]
fn bytes_of(word: u32) -> usize
    ensures { (e : ℕ) → Legal e → result ≡ length (command_bytes (access_of e word)) }
{
    if word < 0x80000000 {
        return 7;
    }
    12
}

// The access of a word, at a point of the output where it has room; the point behind it.
#[tactic(auto, unfolding(traces::specs::Load::access_of, traces::specs::Writing::numbers_taken))]
fn put_access(out: &mut [u8], at: usize, extlen: u32, word: u32) -> usize
    requires { Legal extlen × (at + length (command_bytes (access_of extlen word)) ≤ length out.old) }
    ensures bytes_after { out.new ≡ stored out.old at (command_bytes (access_of extlen word)) }
    ensures end { result ≡ at + length (command_bytes (access_of extlen word)) }
{
    let a = access_of(extlen, word);
    let count = if a.code == 0 { 2 } else { 3 };
    trace_writer::add_command(
        out,
        at,
        a.code,
        count,
        a.first as u64,
        a.second as u64,
        a.value,
    )
}

// Has the trace of so many accesses room in so many bytes?
fn has_room(seed: u32, count: u64, room: usize) -> bool
    ensures { (e : ℕ) → Legal e → result ≡ nat_le (length (load_bytes seed e count)) room }
{
    let mut words = Words::seeded(seed);
    let mut left = room;
    for _ in 0..count {
        let bytes = bytes_of(words.next());
        if left < bytes {
            return false;
        }
        left -= bytes;
    }
    true
}

// The accesses, one after another from the start of the output on; the point behind them.
fn write_accesses(seed: u32, extlen: u32, count: u64, out: &mut [u8]) -> usize
    requires { Legal extlen × (length (load_bytes seed extlen count) ≤ length out.old) }
    ensures bytes_after { out.new ≡ stored out.old 0 (load_bytes seed extlen count) }
    ensures end { result ≡ length (load_bytes seed extlen count) }
{
    let mut words = Words::seeded(seed);
    let mut point: usize = 0;
    for _ in 0..count {
        point = put_access(out, point, extlen, words.next());
    }
    point
}

#[tactic(auto, using(crate::specs::Passes::loads))]
pub fn load_trace(seed: u32, extlen: u32, count: u64, out: &mut [u8]) -> Load
    ensures { told_load result out.new ≡ load_trace seed extlen count out.old }
{
    if !geometry::legal_external(extlen as usize) {
        return refused(Refusal::LentLength);
    }
    if !has_room(seed, count, out.len()) {
        return refused(Refusal::OutputShort);
    }
    let length = write_accesses(seed, extlen, count, out);
    Load {
        length: length,
        number: 0,
    }
}
