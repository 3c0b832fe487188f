// What holds of assemblies, of spreading and of the choice. Each function does nothing: its contract is a law, so that the check asks for its proof.
ghost use Rattle.std.specs.Prelude.{ℕ, List};
ghost use Rattle.face.specs.Meaning.{Construction};
ghost use Rattle.choice.specs.Laws.{ASpanTellsTheLegalSizes, TheLevelIsOne, StretchesTakeUpTheExcess, MoreRepeatsAreNeverSmaller, TheBestIsOne, NothingFitsExactly, TakenAssembliesAreLaidOut, TakenVariantsStandAlone};

#[tactic(auto, using(crate::proofs::Sizing::a_span_tells_the_legal_sizes))]
pub fn a_span_tells_the_legal_sizes()
    ensures { ASpanTellsTheLegalSizes }
{}

#[tactic(auto, using(crate::proofs::Filling::the_level_is_one))]
pub fn the_level_is_one()
    ensures { (ss : List ℕ) (excess : ℕ) → TheLevelIsOne ss excess }
{}

pub fn stretches_take_up_the_excess()
    ensures { StretchesTakeUpTheExcess }
{}

#[tactic(auto, using(crate::proofs::Repeating::more_repeats_are_never_smaller))]
pub fn more_repeats_are_never_smaller()
    ensures { MoreRepeatsAreNeverSmaller }
{}

pub fn the_best_is_one()
    ensures { TheBestIsOne }
{}

#[tactic(auto, using(crate::proofs::Unbettering::nothing_fits_exactly))]
pub fn nothing_fits_is_answered_exactly_where_nothing_fits()
    ensures { (c : Construction) (target : ℕ) → NothingFitsExactly c target }
{}

pub fn taken_assemblies_are_laid_out()
    ensures { TakenAssembliesAreLaidOut }
{}

pub fn taken_variants_stand_alone()
    ensures { TakenVariantsStandAlone }
{}
