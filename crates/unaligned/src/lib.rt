// Non-aligned accesses (02, U6): each byte is a command of its own, carried out by the run of one given command, so
// that nothing of an access is written again and the steps of an access keep one caller.
#![tactic(auto)]

ghost use Rattle.std.specs.Prelude.{true, ◌≡◌, ◌+◌, ◌<◌, ◌≤◌, length, OnErr};
ghost use Rattle.model.specs.Memories.{external_base};
ghost use Rattle.model.specs.Records.{sram_of};
ghost use Rattle.model.specs.Refusals.{size_ok, lent_due};
ghost use Rattle.model.specs.Trace.{command};
ghost use Rattle.model.specs.Calls.{step, read_unaligned_step, write_unaligned_step};
ghost use Rattle.model.specs.Unaligned.{higher, unaligned_due};
ghost use Rattle.access.specs.Answered.{accepted_of, answer_of};
ghost use Rattle.kinds.specs.Numbers.{number_due, server_told};
ghost use Rattle.tags.specs.Words.{record_words, record_in, state_in};
ghost use Rattle.unaligned.specs.Upwards.{told_of, byte_of, up_done};

use access::Answer;
use kinds::{Refusal, Server};
use model::{Command, Left};

// The read (code 0) or the write (code 1) of one byte. One that is refused, of which there is none where all were
// checked, moves nothing and adds nothing.
#[tactic(auto, using(crate::specs::Single::told_alone))]
fn one(
    tags: &mut [u32],
    code: u8,
    address: u32,
    value: u64,
    l1d: &mut [u8],
    l2: &mut [u8],
    ext: &mut [u8],
) -> Answer
    requires tags_len { length tags.old ≡ record_words }
    requires code_bound { code < 2 }
    ensures ext_after { accepted_of result (state_in tags.new l1d.new l2.new ext.new)
        ≡ told_of (step (command code 1 address value) (state_in tags.old l1d.old l2.old ext.old)) }
    ensures small { (result.value < 256) × ((result.read ≤ 128) × (result.written ≤ 128)) }
{
    let c = Command {
        code: code,
        first: 1,
        second: address,
        value: value,
    };
    let none = [0u8; 1];
    let mut answer = [0u8; 10];
    let q = run::run(tags, 1, c, &none, l1d, l2, ext, &mut answer);
    q.last.unwrap_or(access::plain(None, 0))
}

// Of the servers of two bytes the one that lies farther from the CPU.
fn farther(a: Option<Server>, b: Option<Server>) -> Option<Server>
    ensures { server_told result ≡ higher (server_told a) (server_told b) }
{
    if kinds::server_told(a) < kinds::server_told(b) {
        return b;
    }
    a
}

// The bytes from the lowest address up.
#[tactic(auto, using(memory::specs::Values::size_small), unfolding(crate::specs::Upwards::up_to))]
fn up(
    tags: &mut [u32],
    code: u8,
    size: u32,
    address: u32,
    value: u64,
    l1d: &mut [u8],
    l2: &mut [u8],
    ext: &mut [u8],
) -> Answer
    requires tags_len { length tags.old ≡ record_words }
    requires code_bound { (code < 2) × ((size_ok size ≡ true) × (address + size ≤ 4294967296)) }
    ensures { accepted_of result (state_in tags.new l1d.new l2.new ext.new)
        ≡ up_done (byte_of code address value) size (state_in tags.old l1d.old l2.old ext.old) }
{
    let mut bytes = [0u8; 8];
    let mut server: Option<Server> = None;
    let mut read: u32 = 0;
    let mut written: u32 = 0;
    let mut rest = value;
    for k in 0..size {
        let x = one(tags, code, address + k, rest % 256, l1d, l2, ext);
        bytes[k as usize] = x.value as u8;
        server = farther(server, x.server);
        read += x.read;
        written += x.written;
        rest = rest / 256;
    }
    Answer {
        value: memory::load(&bytes, 0, size),
        server: server,
        l1d_left: Left::NoWay,
        l2_left: Left::NoWay,
        read: read,
        written: written,
    }
}

// What is due for a non-aligned access.
fn due_for(tags: &[u32], size: u32, address: u32, value: u64) -> Result<(), Refusal>
    requires { (length tags.now ≡ record_words) × (sram_of (record_in tags.now) + 8 ≤ external_base) }
    ensures { number_due result
        ≡ unaligned_due (sram_of (record_in tags.now)) (record_in tags.now).extlen size address value }
{
    let sram = tags::split_of(tags).sram as u32;
    refusals::unaligned_due(sram, tags::extlen_of(tags), size, address, value)
}

// A non-aligned read (code 0, of value 0) or write (code 1) on words that passed checks 1 and 2.
#[tactic(auto, using(crate::proofs::Meets::whole_access))]
pub fn carry_out(
    tags: &mut [u32],
    code: u8,
    size: u32,
    address: u32,
    value: u64,
    l1d: &mut [u8],
    l2: &mut [u8],
    ext: &mut [u8],
) -> Result<Answer, Refusal>
    requires tags_len { (length tags.old ≡ record_words) × (code < 2) }
    requires ext_value { lent_due (state_in tags.old l1d.old l2.old ext.old) ≡ 0 }
    ensures reads { code ≡ 0 → value ≡ 0 →
        answer_of result (state_in tags.new l1d.new l2.new ext.new)
        ≡ read_unaligned_step size address (state_in tags.old l1d.old l2.old ext.old) }
    ensures writes { code ≡ 1 →
        answer_of result (state_in tags.new l1d.new l2.new ext.new)
        ≡ write_unaligned_step size address value (state_in tags.old l1d.old l2.old ext.old) }
    ensures refused { OnErr result (tags.new ≡ tags.old) }
{
    due_for(tags, size, address, value)?;
    Ok(up(tags, code, size, address, value, l1d, l2, ext))
}
