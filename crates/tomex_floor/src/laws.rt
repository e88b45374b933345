//! Laws of the floor. Each function does nothing: its contract is the law.

ghost use Rattle.tomex_floor.specs.Laws.{FloorsAreNoLater, FloorIsBound, FloorsFall, FloorsAreReached};

/// On a configuration with the given latencies, or longer ones, and at most the given issue width, no step issues,
/// computes its address, starts, finishes or ends earlier than on the floor, so no run takes fewer cycles. Floors
/// of smaller latencies or a greater width are no later, and a machine with enough parts reaches the floor.
pub fn no_machine_is_faster()
    ensures steps { FloorsAreNoLater }
    ensures total { FloorIsBound }
    ensures floors { FloorsFall }
    ensures reached { FloorsAreReached }
{}
