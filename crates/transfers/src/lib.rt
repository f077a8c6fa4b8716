// Camera transfers (02, U1): all bytes of a lent buffer go into SRAM or external memory, or are taken out of them. A
// transfer looks at no cache; before one of SRAM the L1D lines that it touches go home. On lent words that passed
// checks 1 and 2, each contract being the definition of 02 (model/specs/Transfers, Calls).
#![tactic(auto)]

ghost use Rattle.std.specs.Prelude.{List, ◌≡◌, ℕ, ◌≤◌, length, OnErr};
ghost use Rattle.model.specs.Bytes.{stored};
ghost use Rattle.model.specs.Records.{state, sram_of};
ghost use Rattle.model.specs.Homes.{memory_part, put_memory};
ghost use Rattle.model.specs.Refusals.{lent_due};
ghost use Rattle.model.specs.Transfers.{sent_home, transfer_due};
ghost use Rattle.model.specs.Calls.{reply, handed_back, transfer_in_step, transfer_out_step};
ghost use Rattle.model.specs.declared.Record.{Record};
ghost use Rattle.kinds.specs.Numbers.{number_due};
ghost use Rattle.tags.specs.Words.{record_words, record_in, state_in};

use kinds::{L1dOperation, Refusal};

// What is due for a transfer of n bytes.
fn due_for(tags: &[u32], address: u32, n: usize) -> Result<(), Refusal>
    requires { length tags.now ≡ record_words }
    ensures { number_due result
        ≡ transfer_due (sram_of (record_in tags.now)) (record_in tags.now).extlen n address }
{
    let sram = tags::split_of(tags).sram as u32;
    refusals::transfer_due(sram, tags::extlen_of(tags), n, address)
}

// The L1D lines of SRAM that n bytes touch go home if dirty and become invalid: the command of code 7 over the words
// that these bytes are.
#[tactic(auto, using(crate::specs::Moved::home_by_lines))]
fn send_home(tags: &mut [u32], address: u32, n: usize, l1d: &[u8], l2: &mut [u8], ext: &mut [u8])
    requires { (length tags.old ≡ record_words) × (n ≤ 262140) }
    ensures { state_in tags.new l1d.now l2.new ext.new
        ≡ sent_home address n (state_in tags.old l1d.now l2.old ext.old) }
{
    if geometry::is_external(address) {
        return;
    }
    let split = tags::split_of(tags);
    let words = (n / 4) as u32;
    let what = L1dOperation::WritebackInvalidate;
    l1d_commands::l1d_block(tags, split, what, address, words, l1d, l2, ext);
}

// The bytes of a buffer go to an address, and those at an address into a buffer: SRAM and external memory themselves,
// whatever the record is.
#[tactic(auto, using(crate::specs::Moved::put_whole))]
fn put(address: u32, buffer: &[u8], l2: &mut [u8], ext: &mut [u8])
    ensures { (r : Record) (d : List ℕ) → state r d l2.new ext.new
        ≡ put_memory address buffer.now (state r d l2.old ext.old) }
{
    let n = buffer.len();
    if !geometry::is_external(address) {
        memory::move_part(l2, geometry::place_of(address), buffer, 0, n);
        return;
    }
    memory::move_part(ext, geometry::external_place(address), buffer, 0, n);
}

#[tactic(auto, unfolding(model::specs::Homes::memory_part))]
fn take(address: u32, buffer: &mut [u8], l2: &[u8], ext: &[u8])
    ensures { (r : Record) (d : List ℕ) → buffer.new
        ≡ stored buffer.old 0 (memory_part address (length buffer.old) (state r d l2.now ext.now)) }
{
    let n = buffer.len();
    if !geometry::is_external(address) {
        memory::move_part(buffer, 0, l2, geometry::place_of(address), n);
        return;
    }
    memory::move_part(buffer, 0, ext, geometry::external_place(address), n);
}

// A transfer in, and one out: refused by its number with nothing changed, or carried out.
#[tactic(auto, using(crate::specs::Moved::in_refused, crate::specs::Moved::in_done, crate::specs::Moved::short))]
pub fn transfer_in(
    tags: &mut [u32],
    address: u32,
    buffer: &[u8],
    l1d: &[u8],
    l2: &mut [u8],
    ext: &mut [u8],
) -> Result<(), Refusal>
    requires { length tags.old ≡ record_words }
    ensures ext_after { reply (number_due result) 0 0 (state_in tags.new l1d.now l2.new ext.new)
        ≡ transfer_in_step address buffer.now (state_in tags.old l1d.now l2.old ext.old) }
    ensures refused { OnErr result (tags.new ≡ tags.old) }
{
    due_for(tags, address, buffer.len())?;
    send_home(tags, address, buffer.len(), l1d, l2, ext);
    put(address, buffer, l2, ext);
    Ok(())
}

#[tactic(auto, using(crate::specs::Moved::out_refused, crate::specs::Moved::out_done, crate::specs::Moved::short))]
pub fn transfer_out(
    tags: &mut [u32],
    address: u32,
    buffer: &mut [u8],
    l1d: &[u8],
    l2: &mut [u8],
    ext: &mut [u8],
) -> Result<(), Refusal>
    requires tags_len { length tags.old ≡ record_words }
    requires ext_value { lent_due (state_in tags.old l1d.now l2.old ext.old) ≡ 0 }
    ensures ext_after { handed_back (number_due result) buffer.new (state_in tags.new l1d.now l2.new ext.new)
        ≡ transfer_out_step address buffer.old (state_in tags.old l1d.now l2.old ext.old) }
    ensures refused { OnErr result (tags.new ≡ tags.old) }
{
    let n = buffer.len();
    due_for(tags, address, n)?;
    send_home(tags, address, n, l1d, l2, ext);
    take(address, buffer, l2, ext);
    Ok(())
}
