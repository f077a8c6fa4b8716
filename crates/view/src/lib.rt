// Looking behind L1D (paper 01): the bytes of SRAM or of external memory themselves, on the words of the chip. The
// contracts equate the part and the number with the definitions (program/specs/Chip, model/specs/Calls, Refusals). The
// view is lent neither L1D's bytes nor L1P's: [] stands for them, and any others would do as well (specs/Seen,
// `due-any`, `view-any`).
#![tactic(auto)]

ghost use Rattle.std.specs.Prelude.{[], ◌≡◌, length};
ghost use Rattle.model.specs.Refusals.{view_lent_due};
ghost use Rattle.program.specs.Chip.{chip_view_due, chip_view};
ghost use Rattle.tags.specs.Words.{record_words, record_in};
ghost use Rattle.l1p_tags.specs.Lines.{chip_words, chip_in};
ghost use Rattle.kinds.specs.Numbers.{number_due};
ghost use Rattle.view.specs.Due.{place_due};
ghost use Rattle.view.specs.Into.{seen_as, view_into};

use geometry::L1d;
use kinds::Refusal;

const LINE: u32 = L1d::LINE as u32;

// ---- what is due, by the data side's words: 1 and 2 for the memories and the record, 4 and 5 for the address
#[tactic(auto, using(crate::specs::Due::lent_in_turn))]
fn lent_due(tags: &[u32], l2: &[u8], ext: &[u8]) -> Result<(), Refusal>
    requires { length tags.now ≡ record_words }
    ensures { number_due result ≡ view_lent_due (record_in tags.now) l2.now ext.now }
{
    let m = l2.len();
    let e = ext.len();
    let l2_lent = geometry::legal_l2(m) & (m == tags::l2len_of(tags) as usize);
    let ext_lent = geometry::legal_external(e) & (e == tags::extlen_of(tags) as usize);
    if !(l2_lent & ext_lent) {
        return Err(Refusal::LentLength);
    }
    if !record_check::well_formed(tags) {
        return Err(Refusal::Record);
    }
    Ok(())
}

#[tactic(auto, using(std::proofs::lemmas::Bool::Decides::nat_tests))]
fn place_due(tags: &[u32], address: u32) -> Result<(), Refusal>
    requires { length tags.now ≡ record_words }
    ensures { number_due result ≡ place_due (record_in tags.now) address }
{
    if address % LINE != 0 {
        return Err(Refusal::Alignment);
    }
    let sram = tags::split_of(tags).sram as u32;
    if !refusals::place_ok(sram, tags::extlen_of(tags), LINE, address) {
        return Err(Refusal::Place);
    }
    Ok(())
}

// What is due for the view of the line at an address: 1, 2, 4, 5, or nothing.
#[tactic(auto, using(crate::specs::Due::in_turn), unfolding(program::specs::Chip::chip_view_due))]
pub fn view_due(words: &[u32], l2: &[u8], ext: &[u8], address: u32) -> Result<(), Refusal>
    requires { length words.now ≡ chip_words }
    ensures { number_due result ≡ chip_view_due address (chip_in words.now [] l2.now ext.now []) }
{
    let n = tags::WORDS;
    lent_due(&words[..n], l2, ext)?;
    if !l1p_check::lines_ok(words) {
        return Err(Refusal::Record);
    }
    place_due(&words[..n], address)
}

// ---- the bytes
// The 64 bytes of SRAM or external memory themselves, a part of whichever is their home; the empty part on refusal.
#[tactic(auto, using(crate::specs::Seen::seen))]
pub fn view<'a>(words: &[u32], l2: &'a [u8], ext: &'a [u8], address: u32) -> &'a [u8]
    requires { length words.now ≡ chip_words }
    ensures { result.now
        ≡ (chip_view address (chip_in words.now [] l2.now ext.now [])).bytes }
{
    if view_due(words, l2, ext, address).is_err() {
        return &l2[..0];
    }
    if geometry::is_external(address) {
        let e = geometry::external_place(address);
        return &ext[e..e + L1d::LINE];
    }
    let a = geometry::place_of(address);
    &l2[a..a + L1d::LINE]
}

// The 64 bytes go into the front of a lent buffer; one of fewer bytes is a lent length that is illegal.
#[tactic(auto, using(crate::specs::Into::seen_into), unfolding(crate::specs::Into::view_into))]
pub fn view_into(
    words: &[u32],
    address: u32,
    l2: &[u8],
    ext: &[u8],
    seen: &mut [u8],
) -> Result<(), Refusal>
    requires { length words.now ≡ chip_words }
    ensures { seen_as (number_due result) seen.new
        ≡ view_into address (chip_in words.now [] l2.now ext.now []) seen.old }
{
    if seen.len() < L1d::LINE {
        return Err(Refusal::LentLength);
    }
    view_due(words, l2, ext, address)?;
    if geometry::is_external(address) {
        memory::move_line::<64>(seen, 0, ext, geometry::external_place(address));
    } else {
        memory::move_line::<64>(seen, 0, l2, geometry::place_of(address));
    }
    Ok(())
}
