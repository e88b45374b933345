//! The values at which no row dominates a given one.

ghost use Rattle.std.specs.Prelude.{◌≡◌, ℕ, ◌&&◌, ◌<◌, ◌^◌, nat_le, suc, All};
ghost use Rattle.tomex_pareto.specs.Spans.{HasRoom, end_left, first_left, holds, narrowed, need, no_values};
ghost use Rattle.tomex_pareto.specs.Spans.{settled, span, stays};

use crate::line_row::LineRow;

/// The values from `first` to the one before `end`.
#[derive(Clone, Copy, PartialEq, Eq)]
pub struct ValueSpan {
    pub first: u64,
    pub end: u64,
}

/// The rest of the row's line, and 1 more if the rival is less in the other measure. A rival that isn't greater there
/// lets the row stay if its own line is no less than this.
fn need(row: LineRow, rival: LineRow) -> u64
    requires { HasRoom row }
    ensures { result ≡ need row rival }
{
    row.rest + if rival.other < row.other { 1 } else { 0 }
}

/// The first value of a span that such a rival leaves.
fn first_left(row: LineRow, rival: LineRow, first: u64) -> u64
    requires { HasRoom row }
    ensures { result ≡ first_left row rival first }
{
    if row.times < rival.times {
        let missing = need(row, rival).saturating_sub(rival.rest);
        first.max(missing.div_ceil(rival.times - row.times))
    } else {
        first
    }
}

/// The end of a span that such a rival leaves.
fn end_left(row: LineRow, rival: LineRow, end: u64) -> u64
    requires row { HasRoom row }
    requires rival { HasRoom rival }
    ensures { result ≡ end_left row rival end }
{
    if rival.times < row.times {
        let surplus = (rival.rest + 1).saturating_sub(need(row, rival));
        end.min(surplus.div_ceil(row.times - rival.times))
    } else if row.times == rival.times && rival.rest < need(row, rival) {
        0
    } else {
        end
    }
}

/// A span without the values at which a rival dominates the row.
fn narrowed(row: LineRow, span: ValueSpan, rival: LineRow) -> ValueSpan
    requires row { HasRoom row }
    requires rival { HasRoom rival }
    ensures { result ≡ narrowed row span rival }
{
    if rival.other <= row.other {
        ValueSpan {
            first: first_left(row, rival, span.first),
            end: end_left(row, rival, span.end),
        }
    } else {
        span
    }
}

/// The values from `least` to `limit`, and no others, at which none of `rows` dominates `row`. It may be one of them.
pub fn span(least: u64, limit: u64, row: LineRow, rows: &[LineRow]) -> ValueSpan
    requires limit { suc limit < 2 ^ 64 }
    requires row { HasRoom row }
    requires rows { All HasRoom rows.now }
    ensures span { result ≡ span least limit row rows.now }
    ensures exact { (q : ℕ) → holds result q ≡ (nat_le least q && nat_le q limit && stays q rows.now row) }
{
    let mut span = ValueSpan {
        first: least,
        end: limit + 1,
    };
    for rival in rows {
        span = narrowed(row, span, *rival);
    }
    span
}

/// A span without values.
fn no_values() -> ValueSpan
    ensures { result ≡ no_values }
{
    ValueSpan { first: 0, end: 0 }
}

/// A span, or the one for all that have no values.
fn settled(span: ValueSpan) -> ValueSpan
    ensures { result ≡ settled span }
{
    if span.first < span.end {
        span
    } else {
        no_values()
    }
}

/// The same values. If there are none, both ends are 0, and the rows after those that leave none aren't looked at: of
/// many rows most are soon found to be dominated at each value.
pub fn settled_span(least: u64, limit: u64, row: LineRow, rows: &[LineRow]) -> ValueSpan
    requires limit { suc limit < 2 ^ 64 }
    requires row { HasRoom row }
    requires rows { All HasRoom rows.now }
    ensures span { result ≡ settled (span least limit row rows.now) }
    ensures exact { (q : ℕ) → holds result q ≡ (nat_le least q && nat_le q limit && stays q rows.now row) }
{
    let mut span = ValueSpan {
        first: least,
        end: limit + 1,
    };
    for rival in rows {
        if span.end <= span.first {
            return no_values();
        }
        span = narrowed(row, span, *rival);
    }
    settled(span)
}
