//! The round numbers of an axis.

ghost use Rattle.std.specs.Prelude.{◌≡◌, ◌<◌, ◌*◌, nat_le};
ghost use Rattle.tomex_front_views.specs.Axes.{step_of};

/// True if six steps are at least as long as the distance `far`.
fn is_enough(far: u64, step: u64) -> bool
    ensures { result ≡ nat_le far (6 * step) }
{
    u128::from(far) <= 6 * u128::from(step)
}

/// The step from tick to tick: the least of 1, 2, 5, 10, 20, 50, .. that is at least a sixth of the distance.
pub fn step_of(far: u64) -> u64
    ensures positive { 0 < result }
    ensures is { result ≡ step_of far }
{
    let mut power = 1;
    for _zeros in 0..19_u64 {
        if is_enough(far, power) {
            return power;
        }
        if is_enough(far, 2 * power) {
            return 2 * power;
        }
        if is_enough(far, 5 * power) {
            return 5 * power;
        }
        power *= 10;
    }
    power
}
