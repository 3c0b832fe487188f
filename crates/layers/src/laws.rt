// What holds of layers over every face. Each function does nothing: its contract is a law, so that the check asks for its proof.
ghost use Rattle.face.specs.Bounds.{LARGEST as the_largest};
ghost use Rattle.face.specs.Meaning.{Construction};
ghost use Rattle.layers.specs.Laws.{Unchanged, KnowsNoKey, FaultsGoUpWhole, EachLengthHasAPlace, WhatFitsIsScaled, TheFirstLengthTooLongIsTheFault};
ghost use Rattle.layers.specs.Layers.{capped, fallen_back};
ghost use Rattle.layers.specs.Scaling.{scaled};

use face::Face;

pub fn scaling_by_one_changes_nothing<F: Face>(face: &F)
    ensures { Unchanged (F.Face.meaning face.now) (scaled 1) }
{}

pub fn capping_by_the_largest_changes_nothing<F: Face>(face: &F)
    ensures { Unchanged (F.Face.meaning face.now) (λ _. capped the_largest) }
{}

// Under a face that knows no key the second face is heard unchanged.
pub fn a_first_face_that_knows_no_key_changes_nothing<A: Face, B: Face>(first: &A, second: &B)
    ensures { KnowsNoKey (A.Face.meaning first.now) → Unchanged (B.Face.meaning second.now) (λ key. fallen_back (A.Face.meaning first.now key)) }
{}

// A second face that knows no key adds nothing to the first.
pub fn a_second_face_that_knows_no_key_changes_nothing<A: Face, B: Face>(first: &A, second: &B)
    ensures { KnowsNoKey (B.Face.meaning second.now) → Unchanged (A.Face.meaning first.now) (λ key m. fallen_back m (B.Face.meaning second.now key)) }
{}

// No layer hides a fault, or changes it but for its passed count.
pub fn faults_go_up_whole()
    ensures { FaultsGoUpWhole }
{}

pub fn each_length_has_a_place()
    ensures { (c : Construction) → EachLengthHasAPlace c }
{}

// A scaled key has a construction where every length fits.
#[tactic(auto, using(crate::proofs::Judging::what_fits_is_scaled))]
pub fn what_fits_is_scaled()
    ensures { WhatFitsIsScaled }
{}

// It has a fault where one does not, at the first that does not.
#[tactic(auto, using(crate::proofs::Judging::the_first_length_too_long_is_the_fault))]
pub fn the_first_length_too_long_is_the_fault()
    ensures { TheFirstLengthTooLongIsTheFault }
{}
