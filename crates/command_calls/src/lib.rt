// Each command of paper 01 as an exported Rattle call of its own, the record by value: its operands in the places that
// the definitions give them, and 0 in those that the command does not have. None requires anything, and each contract
// is that of the call for this one command.
#![tactic(auto)]

ghost use Rattle.std.specs.Prelude.{◌≡◌};
ghost use Rattle.model.specs.Trace.{command};
ghost use Rattle.model.specs.Calls.{one_command};
ghost use Rattle.program.specs.Chip.{on_data, chip_called};
ghost use Rattle.by_value.specs.Called.{chip_of, called_as};

use by_value::Called;
use program::ChipRecord;

pub fn read(
    r: ChipRecord,
    size: u32,
    address: u32,
    l1d: &mut [u8],
    l2: &mut [u8],
    ext: &mut [u8],
    l1p: &[u8],
) -> Called
    ensures { called_as result l1d.new l2.new ext.new l1p.now
        ≡ chip_called (on_data (one_command (command 0 size address 0))) (chip_of r l1d.old l2.old ext.old l1p.now) }
{
    by_value::one_command(r, 0, size, address, 0, l1d, l2, ext, l1p)
}

pub fn write(
    r: ChipRecord,
    size: u32,
    address: u32,
    value: u64,
    l1d: &mut [u8],
    l2: &mut [u8],
    ext: &mut [u8],
    l1p: &[u8],
) -> Called
    ensures { called_as result l1d.new l2.new ext.new l1p.now
        ≡ chip_called (on_data (one_command (command 1 size address value))) (chip_of r l1d.old l2.old ext.old l1p.now) }
{
    by_value::one_command(r, 1, size, address, value, l1d, l2, ext, l1p)
}

pub fn l2_writeback_all(
    r: ChipRecord,
    l1d: &mut [u8],
    l2: &mut [u8],
    ext: &mut [u8],
    l1p: &[u8],
) -> Called
    ensures { called_as result l1d.new l2.new ext.new l1p.now
        ≡ chip_called (on_data (one_command (command 2 0 0 0))) (chip_of r l1d.old l2.old ext.old l1p.now) }
{
    by_value::one_command(r, 2, 0, 0, 0, l1d, l2, ext, l1p)
}

pub fn l2_writeback_invalidate_all(
    r: ChipRecord,
    l1d: &mut [u8],
    l2: &mut [u8],
    ext: &mut [u8],
    l1p: &[u8],
) -> Called
    ensures { called_as result l1d.new l2.new ext.new l1p.now
        ≡ chip_called (on_data (one_command (command 3 0 0 0))) (chip_of r l1d.old l2.old ext.old l1p.now) }
{
    by_value::one_command(r, 3, 0, 0, 0, l1d, l2, ext, l1p)
}

pub fn l2_writeback_block(
    r: ChipRecord,
    base: u32,
    count: u32,
    l1d: &mut [u8],
    l2: &mut [u8],
    ext: &mut [u8],
    l1p: &[u8],
) -> Called
    ensures { called_as result l1d.new l2.new ext.new l1p.now
        ≡ chip_called (on_data (one_command (command 4 base count 0))) (chip_of r l1d.old l2.old ext.old l1p.now) }
{
    by_value::one_command(r, 4, base, count, 0, l1d, l2, ext, l1p)
}

pub fn l2_writeback_invalidate_block(
    r: ChipRecord,
    base: u32,
    count: u32,
    l1d: &mut [u8],
    l2: &mut [u8],
    ext: &mut [u8],
    l1p: &[u8],
) -> Called
    ensures { called_as result l1d.new l2.new ext.new l1p.now
        ≡ chip_called (on_data (one_command (command 5 base count 0))) (chip_of r l1d.old l2.old ext.old l1p.now) }
{
    by_value::one_command(r, 5, base, count, 0, l1d, l2, ext, l1p)
}

pub fn l2_invalidate_block(
    r: ChipRecord,
    base: u32,
    count: u32,
    l1d: &mut [u8],
    l2: &mut [u8],
    ext: &mut [u8],
    l1p: &[u8],
) -> Called
    ensures { called_as result l1d.new l2.new ext.new l1p.now
        ≡ chip_called (on_data (one_command (command 6 base count 0))) (chip_of r l1d.old l2.old ext.old l1p.now) }
{
    by_value::one_command(r, 6, base, count, 0, l1d, l2, ext, l1p)
}

pub fn l1d_writeback_invalidate_block(
    r: ChipRecord,
    base: u32,
    count: u32,
    l1d: &mut [u8],
    l2: &mut [u8],
    ext: &mut [u8],
    l1p: &[u8],
) -> Called
    ensures { called_as result l1d.new l2.new ext.new l1p.now
        ≡ chip_called (on_data (one_command (command 7 base count 0))) (chip_of r l1d.old l2.old ext.old l1p.now) }
{
    by_value::one_command(r, 7, base, count, 0, l1d, l2, ext, l1p)
}

pub fn l1d_invalidate_block(
    r: ChipRecord,
    base: u32,
    count: u32,
    l1d: &mut [u8],
    l2: &mut [u8],
    ext: &mut [u8],
    l1p: &[u8],
) -> Called
    ensures { called_as result l1d.new l2.new ext.new l1p.now
        ≡ chip_called (on_data (one_command (command 8 base count 0))) (chip_of r l1d.old l2.old ext.old l1p.now) }
{
    by_value::one_command(r, 8, base, count, 0, l1d, l2, ext, l1p)
}

pub fn l1d_invalidate_all(
    r: ChipRecord,
    l1d: &mut [u8],
    l2: &mut [u8],
    ext: &mut [u8],
    l1p: &[u8],
) -> Called
    ensures { called_as result l1d.new l2.new ext.new l1p.now
        ≡ chip_called (on_data (one_command (command 9 0 0 0))) (chip_of r l1d.old l2.old ext.old l1p.now) }
{
    by_value::one_command(r, 9, 0, 0, 0, l1d, l2, ext, l1p)
}

pub fn change_mode(
    r: ChipRecord,
    mode: u32,
    l1d: &mut [u8],
    l2: &mut [u8],
    ext: &mut [u8],
    l1p: &[u8],
) -> Called
    ensures { called_as result l1d.new l2.new ext.new l1p.now
        ≡ chip_called (on_data (one_command (command 10 mode 0 0))) (chip_of r l1d.old l2.old ext.old l1p.now) }
{
    by_value::one_command(r, 10, mode, 0, 0, l1d, l2, ext, l1p)
}

pub fn change_mar(
    r: ChipRecord,
    mar: u32,
    bit: u32,
    l1d: &mut [u8],
    l2: &mut [u8],
    ext: &mut [u8],
    l1p: &[u8],
) -> Called
    ensures { called_as result l1d.new l2.new ext.new l1p.now
        ≡ chip_called (on_data (one_command (command 11 mar bit 0))) (chip_of r l1d.old l2.old ext.old l1p.now) }
{
    by_value::one_command(r, 11, mar, bit, 0, l1d, l2, ext, l1p)
}

pub fn freeze(
    r: ChipRecord,
    frozen: u32,
    l1d: &mut [u8],
    l2: &mut [u8],
    ext: &mut [u8],
    l1p: &[u8],
) -> Called
    ensures { called_as result l1d.new l2.new ext.new l1p.now
        ≡ chip_called (on_data (one_command (command 12 frozen 0 0))) (chip_of r l1d.old l2.old ext.old l1p.now) }
{
    by_value::one_command(r, 12, frozen, 0, 0, l1d, l2, ext, l1p)
}
