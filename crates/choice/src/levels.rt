// How far joints are stretched, found from their slacks alone.
ghost use Rattle.std.specs.Prelude.{◌≡◌, ◌+◌, ◌-◌, ◌<◌, min, MatchOption};
ghost use Rattle.choice.specs.Spreading.{Level, level as the_level, filled, highest as the_highest};

// The largest slack, 0 where there is no joint.
fn highest(slacks: &[u32]) -> u32
    ensures { result ≡ the_highest slacks.now }
{
    slacks.iter().copied().max().unwrap_or(0)
}

// What a joint takes where none takes more than `most`.
fn share(slack: u32, most: u32) -> u64
    ensures { result ≡ min slack most }
{
    u64::from(slack.min(most))
}

// What an excess leaves where each joint takes the smaller of its slack and `most`; none where it does not suffice.
fn left_over(slacks: &[u32], most: u32, excess: u64) -> Option<u64>
    ensures { MatchOption result (excess < filled most slacks.now) (λ left. left + filled most slacks.now ≡ excess) }
{
    let mut left = excess;
    for slack in slacks {
        left = left.checked_sub(share(*slack, most))?;
    }
    Some(left)
}

// The largest number, no larger than the largest slack, for which the joints' smaller of slack and number add up to
// at most the excess. It is sought by halving: 25 steps through the slacks where none is above 16,777,216.
// Any slacks and any excess have one.
#[tactic(auto, using(crate::proofs::Filling::level_stands, crate::proofs::Filling::level_from_filled, crate::proofs::Filling::level_from_unfilled))]
pub fn level(slacks: &[u32], excess: u64) -> u32
    ensures value { result ≡ the_level slacks.now excess }
    ensures rule { Level slacks.now excess result }
{
    let mut low = 0;
    let mut high = highest(slacks);
    while low < high {
        let middle = high - (high - low) / 2;
        match left_over(slacks, middle, excess) {
            Some(_) => low = middle,
            None => high = middle - 1,
        }
    }
    low
}

// The level, and the units that are still lacking when every joint is stretched as far as it says.
pub(crate) fn level_and_lacking(slacks: &[u32], excess: u64) -> (u32, u64)
    ensures level { result.0 ≡ the_level slacks.now excess }
    ensures lacking { result.1 ≡ excess - filled (the_level slacks.now excess) slacks.now }
{
    let level = level(slacks, excess);
    (level, left_over(slacks, level, excess).unwrap_or(0))
}
