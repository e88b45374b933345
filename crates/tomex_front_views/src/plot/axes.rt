//! The places of costs and cycles in the picture.

ghost use Rattle.std.specs.Prelude.{◌≡◌, ◌≤◌};
ghost use Rattle.std.specs.List.{fold};
ghost use Rattle.tomex_front_views.specs.Axes.{along, axes_of, only, point_of, with_value, with_row, x_of, y_of};

use tomex_pareto::FrontRow;

/// The values of an axis.
#[derive(Clone, Copy)]
pub struct Span {
    pub least: u64,
    pub greatest: u64,
}

/// Both axes of the picture.
#[derive(Clone, Copy)]
pub struct Axes {
    pub costs: Span,
    pub cycles: Span,
}

/// A place in the picture, in points from its left and from its top.
#[derive(Clone, Copy)]
pub struct Point {
    pub x: u64,
    pub y: u64,
}

impl Span {
    /// The span of only this value.
    fn only(value: u64) -> Self
        ensures { result ≡ only value }
    {
        Self {
            least: value,
            greatest: value,
        }
    }

    /// Extends the span to include `value`.
    fn with_value(self, value: u64) -> Self
        ensures { result ≡ with_value self value }
    {
        Self {
            least: self.least.min(value),
            greatest: self.greatest.max(value),
        }
    }

    /// `value`'s position on an axis of length `far`; the middle if all values are equal.
    #[tactic(auto, unfolding(crate::specs::Axes::along))]
    fn along(self, far: u64, value: u64) -> u64
        ensures inside { result ≤ far }
        ensures along { result ≡ along self far value }
    {
        if self.greatest <= self.least {
            return far / 2;
        }
        let here = value.min(self.greatest).saturating_sub(self.least);
        let scaled = u128::from(here) * u128::from(far) / u128::from(self.greatest - self.least);
        scaled as u64
    }
}

impl Axes {
    /// Extends the axes to include a row's cost and cycles.
    fn with_row(self, row: FrontRow) -> Self
        ensures { result ≡ with_row self row }
    {
        Self {
            costs: self.costs.with_value(row.cost),
            cycles: self.cycles.with_value(row.cycles),
        }
    }

    /// The position of a cost, in points from the left.
    #[tactic(auto, unfolding(crate::specs::Axes::x_of))]
    pub fn x_of(self, cost: u64) -> u64
        ensures is { result ≡ x_of self cost }
        ensures inside { result ≤ 648 }
    {
        136 + self.costs.along(512, cost)
    }

    /// The position of cycles, in points from the top.
    #[tactic(auto, unfolding(crate::specs::Axes::y_of))]
    pub fn y_of(self, cycles: u64) -> u64
        ensures is { result ≡ y_of self cycles }
        ensures inside { result ≤ 360 }
    {
        360 - self.cycles.along(280, cycles)
    }

    /// The point of a row.
    pub fn point_of(self, row: FrontRow) -> Point
        ensures is { result ≡ point_of self row }
        ensures x { result.x ≤ 648 }
        ensures y { result.y ≤ 360 }
    {
        Point {
            x: self.x_of(row.cost),
            y: self.y_of(row.cycles),
        }
    }
}

/// Axes that are extended to include these rows.
fn with_rows(from: Axes, rows: &[FrontRow]) -> Axes
    ensures { result ≡ fold with_row from rows.now }
{
    let mut axes = from;
    for row in rows {
        axes = axes.with_row(*row);
    }
    axes
}

/// From the least to the greatest of all costs, and of all cycles.
pub fn axes_of(rows: &[FrontRow]) -> Axes
    ensures { result ≡ axes_of rows.now }
{
    let [first, rest @ ..] = rows else {
        return Axes {
            costs: Span::only(0),
            cycles: Span::only(0),
        };
    };
    let axes = Axes {
        costs: Span::only(first.cost),
        cycles: Span::only(first.cycles),
    };
    with_rows(axes, rest)
}
