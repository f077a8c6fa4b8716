// What the papers give numbers to, and the code names: why a call is refused (the refusal table of paper 01, and the
// errors of 02), what serves an access ("The server number .."), and what a cache command does to a line (by the codes
// of the trace).
#![tactic(auto)]

ghost use Rattle.std.specs.Prelude.{◌≡◌, ◌<◌};
ghost use Rattle.kinds.specs.Numbers.{refusal_number, server_number, number_due, server_told, l1d_of_code, l2_of_code};

use std::fmt;

// Why a call is refused, in the order of the numbers. A command that a trace has no code for is one of a damaged trace;
// an output that is too short is one to which something is written, answers apart.
#[derive(Clone, Copy, Debug, PartialEq, Eq)]
pub enum Refusal {
    LentLength,
    Record,
    Size,
    Alignment,
    Place,
    Value,
    WordCount,
    Mode,
    MarBit,
    MarInUse,
    Damaged,
    AnswersFull,
    TransferLength,
    TransferPlace,
    FetchAddress,
    OutputShort,
    FreezeBit,
    ShortRun,
    FrameMemory,
    FrameLength,
}

impl Refusal {
    pub fn number(self) -> u8
        ensures { (result ≡ refusal_number self) × (0 < result) }
    {
        match self {
            // a lent length illegal, or unlike the record's
            Refusal::LentLength => 1,
            // record not well formed
            Refusal::Record => 2,
            // size not 1, 2, 4, 8
            Refusal::Size => 3,
            // address not a multiple of the size, or of what the call asks for
            Refusal::Alignment => 4,
            // not wholly in SRAM or external memory
            Refusal::Place => 5,
            // value needs more bytes than the size
            Refusal::Value => 6,
            // count above 65,535
            Refusal::WordCount => 7,
            // mode not 0 to 3 or 7, or C above L
            Refusal::Mode => 8,
            // MAR not 128 or 129, or bit above 1
            Refusal::MarBit => 9,
            // bit 0 while a cache holds a line of that range
            Refusal::MarInUse => 10,
            // trace damaged
            Refusal::Damaged => 11,
            // fewer than 10 answer bytes left
            Refusal::AnswersFull => 12,
            // 02, U1: a transfer's length; not wholly in SRAM or external memory
            Refusal::TransferLength => 13,
            Refusal::TransferPlace => 14,
            // 02, U4: a fetch address not a multiple of 32
            Refusal::FetchAddress => 15,
            // 02, U7 and U9: too few bytes left
            Refusal::OutputShort => 16,
            // 02, U11: a number above 1
            Refusal::FreezeBit => 17,
            // 02, U12: a number above 4,680, a longer run or a digit above 7
            Refusal::ShortRun => 18,
            // 02, U14: external memory below 6,144 bytes; a frame not of 3,072
            Refusal::FrameMemory => 19,
            Refusal::FrameLength => 20,
        }
    }
}

impl fmt::Display for Refusal {
    fn fmt<W: fmt::Write>(&self, f: &mut fmt::Formatter<W>) -> fmt::Result {
        write!(f, "refused by number {}", self.number())
    }
}

// The number that a check returns to a caller who asks for numbers: 0 where the call is accepted.
pub fn number_due(checked: Result<(), Refusal>) -> u8
    ensures { result ≡ number_due checked }
{
    match checked {
        Ok(_) => 0,
        Err(refusal) => refusal.number(),
    }
}

// What serves a read, a write or a fetch.
#[derive(Clone, Copy, Debug, PartialEq, Eq)]
pub enum Server {
    L1d,
    Sram,
    L2,
    External,
    L1p,
}

impl Server {
    pub fn number(self) -> u8
        ensures { result ≡ server_number self }
    {
        match self {
            Server::L1d => 1,
            Server::Sram => 2,
            Server::L2 => 3,
            // also when L2 had to fetch
            Server::External => 4,
            // 02, U4
            Server::L1p => 5,
        }
    }
}

// 0 for calls that are not reads, writes or fetches.
pub fn server_told(server: Option<Server>) -> u8
    ensures { result ≡ server_told server }
{
    match server {
        None => 0,
        Some(it) => it.number(),
    }
}

// What is done to a line of L1D.
#[derive(Clone, Copy, Debug, PartialEq, Eq)]
pub enum L1dOperation {
    // code 7
    WritebackInvalidate,
    // codes 8 and 9
    Invalidate,
    // what a mode change does: the line goes home and stays
    Writeback,
}

// The operation of a code: one that is not named is an invalidation.
impl From<u8> for L1dOperation {
    ghost from_gives = { λ code what. what ≡ l1d_of_code code };

    fn from(code: u8) -> L1dOperation {
        match code {
            7 => L1dOperation::WritebackInvalidate,
            10 => L1dOperation::Writeback,
            _ => L1dOperation::Invalidate,
        }
    }
}

// What is done to a line of L2.
#[derive(Clone, Copy, Debug, PartialEq, Eq)]
pub enum L2Operation {
    // codes 2 and 4
    Writeback,
    // codes 3 and 5
    WritebackInvalidate,
    // code 6
    Invalidate,
    // writeback and writeback-invalidate where L1D holds nothing: no half is looked for
    WriteOut,
    WriteOutInvalidate,
}

// The operation of a code: one that is not named is a writeback-invalidation.
impl From<u8> for L2Operation {
    ghost from_gives = { λ code what. what ≡ l2_of_code code };

    fn from(code: u8) -> L2Operation {
        match code {
            4 => L2Operation::Writeback,
            6 => L2Operation::Invalidate,
            10 => L2Operation::WriteOut,
            11 => L2Operation::WriteOutInvalidate,
            _ => L2Operation::WritebackInvalidate,
        }
    }
}
