// The sample table under a cap and under a scale. Each function does nothing: its contract is a theorem, so that the check asks for its proof.
ghost use Rattle.std.specs.Prelude.{◌≡◌};
ghost use Rattle.face.specs.Meaning.{construction};
ghost use Rattle.layers.specs.Layers.{capped};
ghost use Rattle.layers.specs.Scaling.{scaled};
ghost use Rattle.math_table.specs.Meanings.{math_meaning};
ghost use Rattle.settings.specs.Layered.{offer_up_to, doubled_offer};
ghost use Rattle.settings.specs.Sample.{sample as sample_table, upright};

pub fn capped_at_210_glyph_40_upright_changes_in_its_limit_alone()
    ensures { capped 210 (math_meaning sample_table 0 (upright 40)) ≡ construction (offer_up_to 210) }
{}

pub fn scaled_by_2_glyph_40_upright_is_doubled()
    ensures { scaled 2 (upright 40) (math_meaning sample_table 0 (upright 40)) ≡ construction doubled_offer }
{}
