ghost use Rattle.std.specs.Prelude.{◌≡◌, ◌==◌, position};
ghost use Rattle.std.specs.Option.{option_map};
ghost use Rattle.text.specs.Cuts.{before, after};

// Where the first separator stands.
fn position(bytes: &[u8], separator: u8) -> Option<usize>
    ensures { result ≡ position (λ byte. byte == separator) bytes.now }
{
    bytes.iter().position(|byte| *byte == separator)
}

// What stands before the first separator, all where there is none, and what stands after it.
#[tactic(auto, using(crate::proofs::Cutting::before_at, crate::proofs::Cutting::after_at))]
pub fn cut(bytes: &[u8], separator: u8) -> (&[u8], Option<&[u8]>)
    ensures front { result.0.now ≡ before separator bytes.now }
    ensures back { option_map (λ x. x.now) result.1 ≡ after separator bytes.now }
{
    match position(bytes, separator) {
        Some(i) => {
            let (_, rest) = bytes.split_at(i + 1);
            (&bytes[..i], Some(rest))
        }
        None => (bytes, None),
    }
}
