//! Laws on drained histories, and on what the image of a part takes.
//!
//! These functions do nothing: their contracts are the laws.

ghost use Rattle.std.specs.Prelude.{◌≡◌, ℕ, List};
ghost use Rattle.tomex_config.specs.Configuration.{Configuration, IsWithinLimits};
ghost use Rattle.tomex_drained.specs.Drained.{BranchesDrain, CyclesAddUp, DrainedLooksEmpty, FactsDecideTimes};
ghost use Rattle.tomex_drained.specs.Drained.{RestIsLater};
ghost use Rattle.tomex_drained.specs.Parts.{EndAddsOneAtMost, ImageTakesBoth, IsCutOf, PartAddsItsCycles};
ghost use Rattle.tomex_drained.specs.Parts.{PrologueHasItsTimes, SameMachinesTakeTheSame, prologue_of};
ghost use Rattle.tomex_image.specs.Image.{Loaded};
ghost use Rattle.tomex_timing.specs.Search.{times_in};

/// A branch without a result leaves nothing under way if all older steps have ended when it finishes. To the next step
/// such a history looks like the empty one.
pub fn branches_drain_what_has_ended()
    ensures drained { BranchesDrain }
    ensures alike { DrainedLooksEmpty }
{}

/// After a beginning that leaves nothing under way each step has the times that it has without the beginning, later by
/// the cycles that the beginning takes; and the run takes the cycles of both.
pub fn a_drained_beginning_adds_its_cycles()
    ensures times { RestIsLater }
    ensures total { CyclesAddUp }
{}

/// Of a step the recurrence reads only its facts: pool, unit, destination, operands' registers and bytes.
pub fn facts_decide_the_times()
    ensures { FactsDecideTimes }
{}

/// On every machine the image of a part takes the cycles of a prologue, a number of the machine, and those that the
/// part takes in a run of its own. The EBREAK at the part's end, if there is one, is a step of it, and adds at most
/// one.
pub fn a_part_takes_its_own_cycles()
    ensures steps { PartAddsItsCycles }
    ensures run { ImageTakesBoth }
    ensures end { EndAddsOneAtMost }
{}

/// The prologues of all parts of all images have the same times on a machine, and on machines with the same alu and
/// bru, buses and width.
pub fn prologues_take_the_same()
    ensures times { PrologueHasItsTimes }
    ensures machines { SameMachinesTakeTheSame }
    ensures same { (config : Configuration) (i j : Loaded) (from least f l : ℕ) (file other : List ℕ)
        → IsWithinLimits config → (c : IsCutOf i from least file) → (d : IsCutOf j f l other)
        → times_in config (prologue_of c) ≡ times_in config (prologue_of d) }
{}
