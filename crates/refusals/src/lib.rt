// The lowest refusal of the table that is due (paper 01, "Refusal table"). Every function answers for every argument.
#![tactic(auto)]

ghost use Rattle.std.specs.Prelude.{true, ◌≡◌, ◌+◌, ◌≤◌};
ghost use Rattle.model.specs.Memories.{external_base};
ghost use Rattle.model.specs.Refusals.{size_ok, multiple_of, place_ok, value_ok};
ghost use Rattle.model.specs.Refusals.{access_due, block_due, mode_due, freeze_due};
ghost use Rattle.model.specs.Unaligned.{unaligned_size, unaligned_due};
ghost use Rattle.model.specs.Transfers.{transfer_length, transfer_due};
ghost use Rattle.model.specs.Fetches.{fetch_due};
ghost use Rattle.kinds.specs.Numbers.{number_due};

use geometry::L1p;
use kinds::Refusal;

// Sums of an address and a length are made of 64 bits, so that none wraps.
const EXTERNAL: u64 = geometry::EXTERNAL_BASE as u64;

// ---- a read or a write: 3 to 6
#[tactic(auto, unfolding(model::specs::Refusals::size_ok))]
fn size_ok(size: u32) -> bool
    ensures { result ≡ size_ok size }
{
    (size == 1) | ((size == 2) | ((size == 4) | (size == 8)))
}

// Remainders by constants: the processor divides by no variable. What it answers for another size is not used.
#[tactic(auto, unfolding(model::specs::Refusals::size_ok))]
fn is_aligned(size: u32, a: u32) -> bool
    ensures { size_ok size ≡ true → result ≡ multiple_of size a }
{
    if size == 1 {
        return true;
    }
    if size == 2 {
        return a % 2 == 0;
    }
    if size == 4 {
        return a % 4 == 0;
    }
    a % 8 == 0
}

#[tactic(auto, unfolding(model::specs::Refusals::place_ok))]
pub fn place_ok(sram: u32, ext: u32, size: u32, a: u32) -> bool
    ensures { result ≡ place_ok sram ext size a }
{
    let end = a as u64 + size as u64;
    if a < geometry::EXTERNAL_BASE {
        return end <= sram as u64;
    }
    end <= EXTERNAL + ext as u64
}

#[tactic(auto, unfolding(model::specs::Refusals::value_ok))]
fn value_ok(size: u32, value: u64) -> bool
    ensures { result ≡ value_ok size value }
{
    if size == 1 {
        return value < 256;
    }
    if size == 2 {
        return value < 65536;
    }
    if size == 4 {
        return value < 4294967296;
    }
    true
}

#[tactic(auto, unfolding(model::specs::Refusals::access_due))]
pub fn access_due(sram: u32, ext: u32, size: u32, address: u32, value: u64) -> Result<(), Refusal>
    ensures { number_due result ≡ access_due sram ext size address value }
{
    // all four are asked first: the tests then choose between values
    let sized = size_ok(size);
    let aligned = is_aligned(size, address);
    let placed = place_ok(sram, ext, size, address);
    let fits = value_ok(size, value);
    if !sized {
        return Err(Refusal::Size);
    }
    if !aligned {
        return Err(Refusal::Alignment);
    }
    if !placed {
        return Err(Refusal::Place);
    }
    if !fits {
        return Err(Refusal::Value);
    }
    Ok(())
}

// ---- a non-aligned read or write (02, U6): 3, 5 and 6
#[tactic(auto, unfolding(model::specs::Unaligned::unaligned_size))]
fn unaligned_size(size: u32) -> bool
    ensures { result ≡ unaligned_size size }
{
    (size == 4) | (size == 8)
}

// All bytes are looked at together: where SRAM ends below external memory, each of them lies in one of the two where
// all of them together do.
#[tactic(auto, using(crate::specs::Due::together), unfolding(model::specs::Unaligned::unaligned_due))]
pub fn unaligned_due(
    sram: u32,
    ext: u32,
    size: u32,
    address: u32,
    value: u64,
) -> Result<(), Refusal>
    requires { sram + 8 ≤ external_base }
    ensures { number_due result ≡ unaligned_due sram ext size address value }
{
    let sized = unaligned_size(size);
    let all_placed = place_ok(sram, ext, size, address);
    let fits = value_ok(size, value);
    if !sized {
        return Err(Refusal::Size);
    }
    if !all_placed {
        return Err(Refusal::Place);
    }
    if !fits {
        return Err(Refusal::Value);
    }
    Ok(())
}

// ---- a transfer (02, U1): 4, 13 and 14
const LONGEST_TRANSFER: usize = 262140;

#[tactic(auto, unfolding(model::specs::Transfers::transfer_length))]
fn transfer_length(length: usize) -> bool
    ensures { result ≡ transfer_length length }
{
    (length != 0) & ((length % 4 == 0) & (length <= LONGEST_TRANSFER))
}

// Any length can be lent: only one that 13 lets pass is added to the address.
#[tactic(auto, using(crate::specs::Due::short), unfolding(model::specs::Transfers::transfer_due))]
pub fn transfer_due(sram: u32, ext: u32, length: usize, address: u32) -> Result<(), Refusal>
    ensures { number_due result ≡ transfer_due sram ext length address }
{
    if address % 4 != 0 {
        return Err(Refusal::Alignment);
    }
    if !transfer_length(length) {
        return Err(Refusal::TransferLength);
    }
    if !place_ok(sram, ext, length as u32, address) {
        return Err(Refusal::TransferPlace);
    }
    Ok(())
}

// ---- a program fetch (02, U4): 15, then 5
const FETCHED: u32 = L1p::LINE as u32;

#[tactic(auto, unfolding(model::specs::Fetches::fetch_due))]
pub fn fetch_due(sram: u32, ext: u32, address: u32) -> Result<(), Refusal>
    ensures { number_due result ≡ fetch_due sram ext address }
{
    let there = place_ok(sram, ext, FETCHED, address);
    if address % FETCHED != 0 {
        return Err(Refusal::FetchAddress);
    }
    if !there {
        return Err(Refusal::Place);
    }
    Ok(())
}

// ---- a block: 4 and 7
#[tactic(auto, unfolding(model::specs::Refusals::block_due))]
pub fn block_due(base: u32, count: u32) -> Result<(), Refusal>
    ensures { number_due result ≡ block_due base count }
{
    if base % 4 != 0 {
        return Err(Refusal::Alignment);
    }
    if 65535 < count {
        return Err(Refusal::WordCount);
    }
    Ok(())
}

// ---- a mode change: 8
#[tactic(auto, unfolding(model::specs::Refusals::mode_due))]
pub fn mode_due(l2len: u32, mode: u32) -> Result<(), Refusal>
    ensures { number_due result ≡ mode_due l2len mode }
{
    if geometry::is_mode(mode) & (geometry::cache_size(mode) <= l2len) {
        return Ok(());
    }
    Err(Refusal::Mode)
}

// ---- the freeze: 17
#[tactic(auto, unfolding(model::specs::Refusals::freeze_due))]
pub fn freeze_due(bit: u32) -> Result<(), Refusal>
    ensures { number_due result ≡ freeze_due bit }
{
    if bit <= 1 {
        return Ok(());
    }
    Err(Refusal::FreezeBit)
}
