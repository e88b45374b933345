//! A law on blocks. This function does nothing: its contract is the law.

ghost use Rattle.tomex_repeats.specs.Laws.{BlocksAreTheSame, BlocksComeBack};

/// Blocks of one number are the same to the recurrence, after any histories of the steps before them: step by step they
/// have the same pool, destination and operands, and conflict with the same ones of the accesses since the fourth
/// before the block. So a run that is in states that look alike before two such blocks comes back to a state, with the
/// same instructions and conflicts ahead.
pub fn blocks_of_one_number_are_the_same()
    ensures steps { BlocksAreTheSame }
    ensures runs { BlocksComeBack }
{}
