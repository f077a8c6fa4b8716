// The rows of a camera frame that came to its place (02, U14): read by the CPU byte by byte, and added up by columns. A
// row is a line of L1D. Reads are made by the loop of crate run, as everywhere.
#![tactic(auto)]

ghost use Rattle.std.specs.Prelude.{◌≡◌, ℕ, ◌+◌, ◌*◌, ◌-◌, ◌/◌, ◌%◌, ◌<◌, ◌≤◌, length, get_or};
ghost use Rattle.model.specs.Refusals.{lent_due};
ghost use Rattle.model.specs.Trace.{command};
ghost use Rattle.model.specs.Calls.{step};
ghost use Rattle.agreement.specs.Frames.{frame_length, sums_of};
ghost use Rattle.tags.specs.Words.{record_words, state_in};
ghost use Rattle.run.specs.Upwards.{up_answers};
ghost use Rattle.frame_rows.specs.Reads.{reads_to, byte_given};
ghost use Rattle.frame_rows.specs.Rows.{RowAt, PlaceAt};
ghost use Rattle.frame_rows.specs.Sums.{Added};

use geometry::L1d;
use model::Command;

pub const ROWS: usize = 48;

pub const COLUMNS: usize = 64;

// The CPU reads single bytes.
const BYTE: u32 = 1;

// An answer of the loop takes ten bytes; the low one of its value lies behind number and server.
const ANSWER: usize = 10;

const VALUE: usize = 2;

// Bytes that stand one behind another go to the sums of their columns, from column `from` on.
fn add_bytes(sums: &mut [u32], from: usize, bytes: &[u8], at: usize)
    requires sums_len { (length sums.old ≡ 64) × ((from ≤ 64) × (at + 64 ≤ length bytes.now)) }
    requires by_index { (c : ℕ) → from ≤ c → c < 64 → get_or sums.old c 0 + 255 < 4294967296 }
    ensures { Added from (λ c. get_or bytes.now (at + c) 0) sums.old sums.new }
{
    for c in from..COLUMNS {
        sums[c] += bytes[at + c] as u32;
    }
}

// The bytes of answers go to the sums of all columns but the first.
fn add_answers(sums: &mut [u32], answers: &[u8])
    requires sums_len { (length sums.old ≡ 64) × (length answers.now ≡ 630) }
    requires by_index { (c : ℕ) → 1 ≤ c → c < 64 → get_or sums.old c 0 + 255 < 4294967296 }
    ensures { Added 1 (λ c. get_or answers.now ((c - 1) * 10 + 2) 0) sums.old sums.new }
{
    for c in 1..COLUMNS {
        sums[c] += answers[(c - 1) * ANSWER + VALUE] as u32;
    }
}

// The CPU reads one byte.
fn read_byte(tags: &mut [u32], address: u32, l1d: &mut [u8], l2: &mut [u8], ext: &mut [u8]) -> u8
    requires { length tags.old ≡ record_words }
    ensures value { result ≡ (step (command 0 1 address 0) (state_in tags.old l1d.old l2.old ext.old)).value % 256 }
    ensures after { state_in tags.new l1d.new l2.new ext.new
        ≡ (step (command 0 1 address 0) (state_in tags.old l1d.old l2.old ext.old)).next }
{
    let c = Command {
        code: 0,
        first: BYTE,
        second: address,
        value: 0,
    };
    let none = [0u8; 1];
    let mut answer = [0u8; ANSWER];
    let q = run::run(tags, 1, c, &none, l1d, l2, ext, &mut answer);
    match q.last {
        Ok(answer) => (answer.value % 256) as u8,
        Err(_) => 0,
    }
}

// The CPU reads all bytes of a row but the first, one behind another.
fn read_rest(
    tags: &mut [u32],
    address: u32,
    l1d: &mut [u8],
    l2: &mut [u8],
    ext: &mut [u8],
    answers: &mut [u8],
)
    requires { (length tags.old ≡ record_words) × ((address + 63 ≤ 4294967296) × (length answers.old ≡ 630)) }
    ensures ext_after { state_in tags.new l1d.new l2.new ext.new
        ≡ reads_to address 63 (state_in tags.old l1d.old l2.old ext.old) }
    ensures told { answers.new
        ≡ up_answers (command 0 1 address 0) 63 (state_in tags.old l1d.old l2.old ext.old) answers.old }
{
    let c = Command {
        code: 0,
        first: BYTE,
        second: address,
        value: 0,
    };
    let none = [0u8; 1];
    run::run(tags, COLUMNS - 1, c, &none, l1d, l2, ext, answers);
}

// A row is a line of L1D. Past the caches its reads touch no line. Else the first one brings the line, and where L1D
// has it then the others are hits: they use the way, once and for all, and the bytes stand there. A frozen L1D need not
// have it, and then the others go through the loop too.
#[tactic(auto, using(crate::specs::Rows::row_laws))]
fn add_row(
    tags: &mut [u32],
    address: u32,
    l1d: &mut [u8],
    l2: &mut [u8],
    ext: &mut [u8],
    sums: &mut [u32],
)
    requires tags_len { (length tags.old ≡ record_words) × (length sums.old ≡ 64) }
    requires ext_value { lent_due (state_in tags.old l1d.old l2.old ext.old) ≡ 0 }
    requires row_at { RowAt tags.old address }
    requires by_index { (c : ℕ) → c < 64 → get_or sums.old c 0 + 255 < 4294967296 }
    ensures ext_after { state_in tags.new l1d.new l2.new ext.new
        ≡ reads_to address 64 (state_in tags.old l1d.old l2.old ext.old) }
    ensures told { Added 0 (byte_given address (state_in tags.old l1d.old l2.old ext.old))
        sums.old sums.new }
{
    if !access::is_cacheable(tags, address) {
        add_bytes(sums, 0, ext, geometry::external_place(address));
        return;
    }
    let first = read_byte(tags, address, l1d, l2, ext);
    sums[0] += first as u32;
    let i = L1d::set_of(address);
    if let Some(w) = tags::find::<L1d>(tags, i, address) {
        access::use_hit(tags, i, w);
        add_bytes(sums, 1, l1d, L1d::data_at(i, w));
        return;
    }
    let mut answers = [0u8; (COLUMNS - 1) * ANSWER];
    read_rest(tags, address + 1, l1d, l2, ext, &mut answers);
    add_answers(sums, &answers);
}

// The columns of a frame that came to its place, row by row.
#[tactic(auto, using(crate::specs::Rows::frame_laws))]
pub fn add_up(
    tags: &mut [u32],
    place: u32,
    l1d: &mut [u8],
    l2: &mut [u8],
    ext: &mut [u8],
) -> [u32; COLUMNS]
    requires tags_len { length tags.old ≡ record_words }
    requires ext_value { lent_due (state_in tags.old l1d.old l2.old ext.old) ≡ 0 }
    requires place_at { PlaceAt tags.old place }
    ensures ext_after { state_in tags.new l1d.new l2.new ext.new
        ≡ reads_to place frame_length (state_in tags.old l1d.old l2.old ext.old) }
    ensures told { result
        ≡ sums_of (byte_given place (state_in tags.old l1d.old l2.old ext.old)) }
{
    let mut sums = [0u32; COLUMNS];
    for row in 0..ROWS as u32 {
        add_row(tags, place + row * COLUMNS as u32, l1d, l2, ext, &mut sums);
    }
    sums
}
