// Which lengths are too long when they are scaled.
ghost use Rattle.std.specs.Prelude.{◌≡◌, ◌≤◌, IfSome};
ghost use Rattle.layers.specs.Answers.{verdict, judged_below, Entries};
ghost use Rattle.layers.specs.Scaling.{first_too_long, lengths, scaled};

use crate::scale::Scale;
use face::{Cause, Face, Fault, Key, Known, Layer, Look, Offer, Part, Variant};
use std::iter;

impl<F: Face> Scale<F> {
    // The place of the first length that is too long when scaled: the least overlap, then the variants' advances, then
    // the parts' full advances.
    fn first_too_long(&self, offer: &Offer<F>) -> Option<usize>
        ensures first { result ≡ first_too_long self.now.by 0 (lengths offer.now) }
        ensures small { IfSome result (λ place. place ≤ 131070) }
    {
        let advances = offer.entries::<Variant>().map(|variant| variant.advance);
        let fulls = offer.entries::<Part>().map(|part| part.full);
        iter::once(offer.look().least)
            .chain(advances)
            .chain(fulls)
            .position(|length| !self.fits(length))
    }

    // The first length that is too long when scaled is a fault.
    fn judge(&self, key: Key, offer: &Offer<F>) -> Result<(), Fault>
        ensures { result ≡ verdict key (first_too_long self.now.by 0 (lengths offer.now)) }
    {
        match self.first_too_long(offer) {
            Some(place) => Err(Fault::new(Layer::Scale, Cause::ScaledLength, key, place as u32)),
            None => Ok(()),
        }
    }

    // What the face below tells of a key, where none of its lengths is too long when scaled.
    // The longest of all is asked for where there is a construction alone, and where it fits, no other is.
    pub(super) fn judged(&self, key: Key) -> Result<Option<Look>, Fault>
        ensures { result ≡ judged_below self.now.by key (F.Face.meaning self.now.face key) }
    {
        let Some(known) = Known::of(&self.face, key).map_err(Fault::passed_up)? else {
            return Ok(None);
        };
        let look = known.look();
        if self.fits(self.face.longest()) {
            return Ok(Some(look));
        }
        self.judge(key, &known.offer())?;
        Ok(Some(look))
    }

    // Is no length of the key too long when scaled?
    pub(super) fn scales(&self, key: Key) -> bool
        ensures { Entries self.now.by (F.Face.meaning self.now.face key) (scaled self.now.by key (F.Face.meaning self.now.face key)) result }
    {
        self.fits(self.face.longest()) || matches!(self.judged(key), Ok(Some(_)))
    }
}
