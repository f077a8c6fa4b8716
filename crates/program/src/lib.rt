// Program fetches (02, U4): what is stated in specs/ and shown in proofs/, and the record by value that carries L1P's
// lines.
#![tactic(auto)]

ghost use Rattle.std.specs.Prelude.{◌≡◌};
ghost use Rattle.model.specs.Records.{fresh_record};
ghost use Rattle.program.specs.L1p.{fresh_l1p};

use model::{Line, Record};

// The record of the data side, and L1P's lines by set: L1P is direct-mapped, so a set is its one line and has no order.
#[derive(Clone, Copy)]
pub struct ChipRecord {
    pub data_side: Record,
    pub l1p: [Line; 512],
}

// Fresh on both sides, one empty line repeated.
pub fn fresh_chip(l2len: u32, extlen: u32) -> ChipRecord
    ensures { (result.data_side ≡ fresh_record l2len extlen) × (result.l1p ≡ fresh_l1p) }
{
    let data_side = model::fresh_record(l2len, extlen);
    let empty = Line {
        valid: false,
        dirty: false,
        address: 0,
    };
    ChipRecord {
        data_side: data_side,
        l1p: [empty; 512],
    }
}
