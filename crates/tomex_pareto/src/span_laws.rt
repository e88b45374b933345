//! Laws of spans. These functions do nothing: their contracts are the laws.

ghost use Rattle.tomex_pareto.specs.SpanLaws.{AreOnFrontWithin, StayEitherWay, StayWithin};

/// A row's span is the values from the least to the limit at which no row dominates it, whether its cost is the line or
/// its cycles.
pub fn rows_stay_within_their_spans()
    ensures costs { StayWithin }
    ensures cycles { StayEitherWay }
{}

/// Of numbered rows one is on the front at exactly the values of its span, whether its cost is the line or its cycles.
pub fn rows_are_on_the_front_within_their_spans()
    ensures { AreOnFrontWithin }
{}
