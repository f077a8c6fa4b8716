// The record that a caller keeps between calls, and the order in which the ways of a set were used.
// The definitions of paper 01 stand in specs/, in the paper's order.
#![tactic(auto)]

ghost use Rattle.std.specs.Prelude.{◌≡◌, ◌<◌};
ghost use Rattle.model.specs.Lines.{used2, used4, Permutation2, Permutation4};
ghost use Rattle.model.specs.Records.{fresh_record};

// One way of a set: an invalid way is clean with address 0.
#[derive(Clone, Copy)]
pub struct Line {
    pub valid: bool,
    pub dirty: bool,
    pub address: u32,
}

// The two ways of an L1D set, most recently used first.
#[derive(Clone, Copy)]
pub struct Order2 {
    pub first: u8,
    pub second: u8,
}

// The four ways of an L2 set, most recently used first.
#[derive(Clone, Copy)]
pub struct Order4 {
    pub first: u8,
    pub second: u8,
    pub third: u8,
    pub fourth: u8,
}

#[derive(Clone, Copy)]
pub struct L1dSet {
    pub lines: [Line; 2],
    pub order: Order2,
}

#[derive(Clone, Copy)]
pub struct L2Set {
    pub lines: [Line; 4],
    pub order: Order4,
}

// L, E, the mode, the MAR bits 128 and 129, whether L1D is frozen (02, U11), how many lines are dirty in L1D and in L2
// (02, U5), and the sets of both caches.
#[derive(Clone, Copy)]
pub struct Record {
    pub l2len: u32,
    pub extlen: u32,
    pub mode: u8,
    pub mar128: bool,
    pub mar129: bool,
    pub frozen: bool,
    pub dirty_l1d: u32,
    pub dirty_l2: u32,
    pub l1d: [L1dSet; 128],
    pub l2: [L2Set; 512],
}

// A command as a trace or a direct call gives it; numbers that a code does not take are 0.
#[derive(Clone, Copy)]
pub struct Command {
    pub code: u8,
    pub first: u32,
    pub second: u32,
    pub value: u64,
}

// What the choice of a way found there (02, U2): no way was chosen, the way was empty, or the line at this address left
// it, clean or dirty.
#[derive(Clone, Copy)]
pub enum Left {
    NoWay,
    Empty,
    Clean(u32),
    Dirty(u32),
}

// What left a way that was chosen, and how many of its bytes went to external memory (02, U2).
#[derive(Clone, Copy)]
pub struct Gone {
    pub left: Left,
    pub written: u32,
}

impl Order2 {
    // The used way comes to the front; a permutation stays one.
    pub fn touch(self, way: u8) -> Order2
        ensures value { result ≡ used2 self way }
        ensures kept { way < 2 → Permutation2 self → Permutation2 result }
    {
        if self.first == way {
            self
        } else {
            Order2 {
                first: way,
                second: self.first,
            }
        }
    }
}

impl Order4 {
    // The used way comes to the front, the others as they stood; a permutation stays one.
    pub fn touch(self, way: u8) -> Order4
        ensures value { result ≡ used4 self way }
        ensures kept { way < 4 → Permutation4 self → Permutation4 result }
    {
        if self.first == way {
            return self;
        }
        if self.second == way {
            return Order4 {
                first: way,
                second: self.first,
                third: self.third,
                fourth: self.fourth,
            };
        }
        if self.third == way {
            return Order4 {
                first: way,
                second: self.first,
                third: self.second,
                fourth: self.fourth,
            };
        }
        Order4 {
            first: way,
            second: self.first,
            third: self.second,
            fourth: self.third,
        }
    }
}

// One empty set of each cache, repeated.
pub fn fresh_record(l2len: u32, extlen: u32) -> Record
    ensures { result ≡ fresh_record l2len extlen }
{
    let empty = Line {
        valid: false,
        dirty: false,
        address: 0,
    };
    let l1d = L1dSet {
        lines: [empty; 2],
        order: Order2 {
            first: 1,
            second: 0,
        },
    };
    let l2 = L2Set {
        lines: [empty; 4],
        order: Order4 {
            first: 3,
            second: 2,
            third: 1,
            fourth: 0,
        },
    };
    Record {
        l2len: l2len,
        extlen: extlen,
        mode: 0,
        mar128: false,
        mar129: false,
        frozen: false,
        dirty_l1d: 0,
        dirty_l2: 0,
        l1d: [l1d; 128],
        l2: [l2; 512],
    }
}
