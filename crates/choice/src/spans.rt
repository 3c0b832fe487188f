ghost use Rattle.std.specs.Prelude.{◌≡◌};
ghost use Rattle.choice.specs.Spans.{span_of};

use crate::totals::Totals;
use face::{Face, Fault, Key, Offer};

// The smallest and the largest legal size of a key's assemblies at a repeat count; none where no assembly is legal.
pub fn span<F: Face>(face: &F, key: Key, repeats: u32) -> Result<Option<(u64, u64)>, Fault>
    ensures { result ≡ span_of (F.Face.meaning face.now key) repeats }
{
    let offer = Offer::of(face, key)?;
    Ok(offer.and_then(|offer| Totals::of(&offer).span(repeats)))
}
