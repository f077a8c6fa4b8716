// Camera frames (02, U14): a frame goes to its place in external memory by the calls that the request names, and its
// columns are added up by reads of single bytes. Each of them is made by what makes it elsewhere: commands and reads by
// the loop of crate run, the transfer by crate transfers.
#![tactic(auto)]

ghost use Rattle.std.specs.Prelude.{◌≢◌, ◌≡◌, ◌+◌, ◌*◌, ◌-◌, ◌/◌, ◌%◌, ◌<◌, length};
ghost use Rattle.model.specs.Records.{State};
ghost use Rattle.model.specs.Refusals.{lent_due};
ghost use Rattle.model.specs.Trace.{command};
ghost use Rattle.model.specs.Calls.{step};
ghost use Rattle.agreement.specs.Frames.{frame_length, frame_place, next_turn, refused_frame, frame_due, frame_step};
ghost use Rattle.tags.specs.Words.{record_words, state_in};
ghost use Rattle.kinds.specs.Numbers.{number_due};
ghost use Rattle.frames.specs.Told.{told_framed};
ghost use Rattle.frames.specs.Done.{put_at};

use geometry::EXTERNAL_BASE;
use kinds::Refusal;
use model::Command;

pub const COLUMNS: usize = frame_rows::COLUMNS;

const FRAME: usize = frame_rows::ROWS * COLUMNS;

// Both places of frames lie in external memory, one behind the other.
const BOTH_PLACES: u32 = 2 * FRAME as u32;

// A block is counted in words.
pub const WORDS: u32 = FRAME as u32 / 4;

// An answer of the loop takes ten bytes.
const ANSWER: usize = 10;

// What a frame returns: the number of its refusal (0: accepted), whose turn is next, and the sums of the columns. C is
// given it as it stands.
#[repr(C)]
#[derive(Clone, Copy)]
pub struct Framed {
    pub number: u8,
    pub turn: u8,
    pub sums: [u32; COLUMNS],
}

// 19 for external memory that is too short, then 20 for a frame of another length.
#[tactic(auto, unfolding(agreement::specs::Frames::frame_due))]
pub fn due_for(ext: u32, length: usize) -> Result<(), Refusal>
    ensures { number_due result ≡ frame_due ext length }
{
    if ext < BOTH_PLACES {
        return Err(Refusal::FrameMemory);
    }
    if length != FRAME {
        return Err(Refusal::FrameLength);
    }
    Ok(())
}

// Frames go by turns to two places, one behind the other.
pub fn place_of(turn: u8) -> u32
    ensures { result ≡ frame_place turn }
{
    EXTERNAL_BASE + (turn % 2) as u32 * FRAME as u32
}

fn next_turn(turn: u8) -> u8
    ensures { result ≡ next_turn turn }
{
    1 - turn % 2
}

// A refused frame keeps its turn, and has no sums. It is told as it stands, so the refusal is its number.
pub fn refused(number: u8, turn: u8) -> Framed
    ensures { (z : State) → told_framed result z ≡ refused_frame number turn z }
{
    Framed {
        number: number,
        turn: turn % 2,
        sums: [0u32; COLUMNS],
    }
}

// The block writeback-invalidate of L2 (code 5) or of L1D (code 7) over a place.
fn send_home(tags: &mut [u32], code: u8, place: u32, l1d: &mut [u8], l2: &mut [u8], ext: &mut [u8])
    requires { length tags.old ≡ record_words }
    ensures { state_in tags.new l1d.new l2.new ext.new
        ≡ (step (command code place (frame_length / 4) 0) (state_in tags.old l1d.old l2.old ext.old)).next }
{
    let c = Command {
        code: code,
        first: place,
        second: WORDS,
        value: 0,
    };
    let none = [0u8; 1];
    let mut answer = [0u8; ANSWER];
    run::run(tags, 1, c, &none, l1d, l2, ext, &mut answer);
}

// A frame comes to its place: no cache holds a byte of it any more when the transfer is made.
#[tactic(auto, unfolding(crate::specs::Done::put_at))]
fn put(tags: &mut [u32], place: u32, pixels: &[u8], l1d: &mut [u8], l2: &mut [u8], ext: &mut [u8])
    requires { length tags.old ≡ record_words }
    ensures { state_in tags.new l1d.new l2.new ext.new
        ≡ put_at place pixels.now (state_in tags.old l1d.old l2.old ext.old) }
{
    send_home(tags, 5, place, l1d, l2, ext);
    send_home(tags, 7, place, l1d, l2, ext);
    // refused, it changes nothing, as the definition has it
    let _ = transfers::transfer_in(tags, place, pixels, l1d, l2, ext);
}

// A frame, on words that passed checks 1 and 2: refused by its number with nothing changed, or placed and added up.
#[tactic(auto, using(crate::specs::Done::put_lent))]
pub fn frame(
    tags: &mut [u32],
    turn: u8,
    pixels: &[u8],
    l1d: &mut [u8],
    l2: &mut [u8],
    ext: &mut [u8],
) -> Framed
    requires tags_len { length tags.old ≡ record_words }
    requires ext_value { lent_due (state_in tags.old l1d.old l2.old ext.old) ≡ 0 }
    ensures ext_after { told_framed result (state_in tags.new l1d.new l2.new ext.new)
        ≡ frame_step turn pixels.now (state_in tags.old l1d.old l2.old ext.old) }
    ensures refused { result.number ≢ 0 → tags.new ≡ tags.old }
{
    if let Err(refusal) = due_for(tags::extlen_of(tags), pixels.len()) {
        return refused(refusal.number(), turn);
    }
    let place = place_of(turn);
    put(tags, place, pixels, l1d, l2, ext);
    let sums = frame_rows::add_up(tags, place, l1d, l2, ext);
    Framed {
        number: 0,
        turn: next_turn(turn),
        sums: sums,
    }
}
