// Refusals 9 and 10 of the refusal table of paper 01 on lent words: a MAR bit, and whether either cache holds a line
// of its range.
#![tactic(auto)]

ghost use Rattle.std.specs.Prelude.{◌≡◌, ◌<◌, length};
ghost use Rattle.model.specs.Refusals.{in_range, holds_range, mar_due};
ghost use Rattle.tags.specs.Words.{record_words, record_in};
ghost use Rattle.kinds.specs.Numbers.{number_due};
ghost use Rattle.mar_check.specs.Range.{TellsOfWays, TellsOfSets};

use geometry::{L1d, L2};
use kinds::Refusal;
use model::Line;
use tags::Level;

// A valid line of the 16 MiB from n × 1000000h on.
#[tactic(auto, unfolding(model::specs::Refusals::in_range, model::specs::Records::covers))]
pub fn in_range(x: Line, n: u32) -> bool
    ensures { result ≡ in_range n x }
{
    x.valid & (x.address / geometry::MAR_RANGE == n)
}

// Whether a way of set s holds such a line; whether a set of a cache does, which has so many.
fn set_holds<C: Level>(tags: &[u32], s: usize, n: u32) -> bool
    requires { (s < C.sets) × (length tags.now ≡ record_words) }
    ensures { TellsOfWays result C.WAYS (λ w. in_range n (C.line_at (record_in tags.now) s w)) }
{
    for w in 0..C::WAYS {
        if in_range(tags::line::<C>(tags, s, w), n) {
            return true;
        }
    }
    false
}

fn cache_holds<C: Level>(tags: &[u32], sets: usize, n: u32) -> bool
    requires sets { sets ≡ C.sets }
    requires tags_len { length tags.now ≡ record_words }
    ensures { TellsOfSets result C.sets C.WAYS (λ s w. in_range n (C.line_at (record_in tags.now) s w)) }
{
    for s in 0..sets {
        if set_holds::<C>(tags, s, n) {
            return true;
        }
    }
    false
}

// Either cache holds a line of the 16 MiB from n × 1000000h on.
pub fn holds_range(tags: &[u32], n: u32) -> bool
    requires { length tags.now ≡ record_words }
    ensures { result ≡ holds_range n (record_in tags.now) }
{
    cache_holds::<L1d>(tags, L1d::SETS, n) || cache_holds::<L2>(tags, L2::SETS, n)
}

// What is due for MAR n and its new bit: 9, 10, or nothing.
#[tactic(auto, unfolding(model::specs::Refusals::mar_due))]
pub fn mar_due(tags: &[u32], n: u32, bit: u32) -> Result<(), Refusal>
    requires { length tags.now ≡ record_words }
    ensures { number_due result ≡ mar_due (record_in tags.now) n bit }
{
    let known = (n == geometry::MAR_128) | (n == geometry::MAR_129);
    if !(known & (bit <= 1)) {
        return Err(Refusal::MarBit);
    }
    if (bit == 0) && holds_range(tags, n) {
        return Err(Refusal::MarInUse);
    }
    Ok(())
}
