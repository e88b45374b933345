//! The weights of parts.

ghost use Rattle.std.specs.Prelude.{◌≡◌, ◌*◌, ◌<◌, ◌≤◌, fold};
ghost use Rattle.tomex_cut.specs.Part.{most_part};
ghost use Rattle.tomex_samples.specs.Parts.{heavier, heaviest, weight};
ghost use Rattle.tomex_samples.specs.Stretches.{most_stretches};

/// A part by the number of its first step, its steps, and the number of stretches for which it stands.
#[derive(Clone, Copy, PartialEq, Eq)]
pub(crate) struct Share {
    pub(crate) from: u64,
    pub(crate) steps: u32,
    pub(crate) stretches: u32,
}

/// Of two parts the one that stands for more stretches by its steps; of equals the first.
fn heavier(a: Share, b: Share) -> Share
    ensures { result ≡ heavier a b }
{
    let (first, second) = (
        u64::from(a.stretches) * u64::from(b.steps),
        u64::from(b.stretches) * u64::from(a.steps),
    );
    if first < second { b } else { a }
}

/// The part with the most of a part and others.
pub(crate) fn heaviest(others: &[Share], first: Share) -> Share
    ensures { result ≡ heaviest others.now first }
{
    let mut most = first;
    for share in others {
        most = heavier(most, *share);
    }
    most
}

/// The weight of a part, if the part with the most has 1000.
pub(crate) fn weight(most: Share, share: Share) -> u32
    requires steps { (1 ≤ share.steps) × (share.steps ≤ most_part) × (most.steps ≤ most_part) }
    requires stretches { (share.stretches ≤ most_stretches) × (1 ≤ most.stretches) × (most.stretches ≤ most_stretches) }
    requires most { share.stretches * most.steps ≤ most.stretches * share.steps }
    ensures { result ≡ weight most share }
{
    let its = u64::from(share.stretches) * u64::from(most.steps);
    let all = u64::from(share.steps) * u64::from(most.stretches);
    let rounded = (2000 * its + all) / (2 * all);
    (rounded as u32).max(1)
}
