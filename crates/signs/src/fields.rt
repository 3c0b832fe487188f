ghost use Rattle.std.specs.Prelude.{◌≡◌};
ghost use Rattle.std.specs.Option.{option_map};
ghost use Rattle.signs.specs.Fields.{two_fields};

use text::cut;

const TAB: u8 = b'\t';

// The fields of a line that has two; none of any other.
pub(crate) fn two_fields(line: &[u8]) -> Option<(&[u8], &[u8])>
    ensures { option_map (λ p. (p.0.now, p.1.now)) result ≡ two_fields line.now }
{
    match cut(line, TAB) {
        (front, Some(back)) if cut(back, TAB).1.is_none() => Some((front, back)),
        _ => None,
    }
}
