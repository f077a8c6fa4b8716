// Mode and MAR changes and the freeze on lent words.
#![tactic(auto)]

ghost use Rattle.std.specs.Prelude.{◌≡◌, List, ℕ, ◌≤◌, length};
ghost use Rattle.model.specs.Modes.{smaller, change_mode, change_mar, change_freeze};
ghost use Rattle.tags.specs.Words.{record_words, state_in};
ghost use Rattle.tags.specs.Sizes.{Lent};

use geometry::{L2, MAR_128, MAR_129, Split};
use kinds::{L1dOperation, L2Operation};

#[tactic(auto, unfolding(model::specs::Modes::smaller))]
pub fn smaller(a: usize, b: usize) -> usize
    ensures { result ≡ smaller a b }
{
    if a <= b { a } else { b }
}

// All dirty lines of L1D go home, then all of L2 go out; everything becomes fresh, and L2 zero from the smaller of
// old and new S on.
pub fn change_mode(
    tags: &mut [u32],
    split: Split,
    mode: u8,
    l1d: &[u8],
    l2: &mut [u8],
    ext: &mut [u8],
)
    requires { Lent split.sram split.sets tags.old }
    ensures { state_in tags.new l1d.now l2.new ext.new
        ≡ change_mode mode (state_in tags.old l1d.now l2.old ext.old) }
{
    l1d_commands::l1d_all(tags, split, L1dOperation::Writeback, l1d, l2, ext);
    l2_commands::l2_all(tags, split, L2Operation::WriteOut, l1d, l2, ext);
    let new = L2::sram(tags::l2len_of(tags), mode);
    let keep = smaller(split.sram, new);
    memory::clear_from(l2, keep);
    let x = tags::mar128_of(tags);
    let y = tags::mar129_of(tags);
    let frozen = tags::frozen_of(tags);
    packing::renew(tags, mode, x, y, frozen);
}

// n: 128 or 129 (else nothing changes), bit: 0 or 1. No byte is touched, whatever the memories are.
#[tactic(auto, unfolding(model::specs::Modes::change_mar, packing::specs::Packed::with_modes))]
pub fn change_mar(tags: &mut [u32], n: u32, bit: u32)
    requires { (bit ≤ 1) × (length tags.old ≡ record_words) }
    ensures { (d m e : List ℕ) → state_in tags.new d m e
        ≡ change_mar n bit (state_in tags.old d m e) }
{
    let mode = tags::mode_of(tags);
    let x = tags::mar128_of(tags);
    let y = tags::mar129_of(tags);
    let frozen = tags::frozen_of(tags);
    match n {
        MAR_128 => packing::put_modes(tags, mode, bit == 1, y, frozen),
        MAR_129 => packing::put_modes(tags, mode, x, bit == 1, frozen),
        _ => {}
    }
}

// 1 freezes L1D, 0 thaws it; mode and MAR bits stay. No byte is touched.
#[tactic(auto, unfolding(model::specs::Modes::change_freeze, packing::specs::Packed::with_modes))]
pub fn change_freeze(tags: &mut [u32], bit: u32)
    requires { length tags.old ≡ record_words }
    ensures { (d m e : List ℕ) → state_in tags.new d m e
        ≡ change_freeze bit (state_in tags.old d m e) }
{
    let mode = tags::mode_of(tags);
    let x = tags::mar128_of(tags);
    let y = tags::mar129_of(tags);
    packing::put_modes(tags, mode, x, y, bit == 1);
}
