ghost use Rattle.std.specs.Prelude.{◌≡◌};
ghost use Rattle.choice.specs.Choosing.{choice, first_variant};
ghost use Rattle.choice.specs.Unbettered.{Unbettered};

use crate::signs::{Missing, NoSign, Sign};
use crate::totals::Totals;
use crate::wanted::Wanted;
use face::{Face, Key, Offer, Variant};

// The first variant that fits.
fn first_variant<F: Face>(offer: &Offer<F>, wanted: Wanted) -> Option<Sign>
    ensures { result ≡ first_variant wanted.target wanted.limit 0 offer.now.variants }
{
    let count = offer.look().variants;
    for (variant, index) in offer.entries::<Variant>().zip(0..count) {
        if wanted.fits(variant.advance) {
            return Some(Sign::Variant { index, variant });
        }
    }
    None
}

// The sign that a key takes for a target: the first variant that fits, or else the assembly of the fewest repeats that
// fits, with the smallest size.
#[tactic(auto, using(crate::proofs::Unbettering::the_choice_is_unbettered))]
pub fn choose<F: Face>(face: &F, key: Key, target: u64) -> Result<Sign, NoSign>
    ensures value { result ≡ choice (F.Face.meaning face.now key) target }
    ensures unbettered { Unbettered (F.Face.meaning face.now key) target result }
{
    let offer = Offer::of(face, key)?.ok_or(Missing::Unknown)?;
    let limit = offer.look().limit;
    let wanted = Wanted { target, limit };
    if let Some(sign) = first_variant(&offer, wanted) {
        return Ok(sign);
    }
    let sign = Totals::of(&offer).seek(wanted).ok_or(Missing::NothingFits)?;
    Ok(sign)
}
