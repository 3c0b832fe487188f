ghost use Rattle.std.specs.Prelude.{◌≡◌, take};
ghost use Rattle.face.specs.declared.faults.Cause.TheVariants.{OutsideTable, CoverageFormat};
ghost use Rattle.face.specs.Meaning.{unknown, faulty, construction};
ghost use Rattle.math_table.specs.Meanings.{math_meaning};
ghost use Rattle.math_table.specs.Reading.{fault_at};
ghost use Rattle.settings.specs.Sample.{sample as sample_table, with_format, upright, offer};

// The sample table: header, MathVariants at 10, a coverage at 22, a construction at 28, its assembly at 40
// with parts at 46, 56 and 66.
pub fn sample() -> [u8; 76]
    ensures { result ≡ sample_table }
{
    *b"\
        \x00\x01\x00\x00\x00\x00\x00\x00\x00\x0A\
        \x00\x14\x00\x0C\x00\x00\x00\x01\x00\x00\x00\x12\
        \x00\x01\x00\x01\x00\x28\
        \x00\x0C\x00\x02\x00\x28\x00\x64\x00\x29\x00\xC8\
        \x00\x00\x00\x00\x00\x03\
        \x00\x32\x00\x00\x00\x28\x00\x64\x00\x00\
        \x00\x33\x00\x28\x00\x28\x00\x3C\x00\x01\
        \x00\x34\x00\x28\x00\x00\x00\x64\x00\x00"
}

pub fn glyph_40_upright_has_its_whole_construction()
    ensures { math_meaning sample_table 0 (upright 40) ≡ construction offer }
{}

pub fn glyph_41_upright_is_unknown()
    ensures { math_meaning sample_table 0 (upright 41) ≡ unknown }
{}

pub fn coverage_format_3_is_a_fault_at_22()
    ensures { math_meaning (with_format 3) 0 (upright 40) ≡ faulty (fault_at CoverageFormat (upright 40) 22) }
{}

pub fn cut_to_75_bytes_has_a_fault_at_74()
    ensures { math_meaning (take 75 sample_table) 0 (upright 40) ≡ faulty (fault_at OutsideTable (upright 40) 74) }
{}
