//! Laws of the definitions of the front and its hull, as functions that do nothing.

ghost use Rattle.std.specs.Prelude.{◌≡◌, ◌<◌, ◌≤◌, ◌-◌, ◌*◌, ◌++◌, [], ◌∷◌, List};
ghost use Rattle.std.specs.List.{Contains};
ghost use Rattle.tomex_pareto.specs.Front.{front_of, is_on, is_undominated};
ghost use Rattle.tomex_pareto.specs.Hull.{hull_of, IsBestForSome};
ghost use Rattle.tomex_pareto.specs.Pareto.{AreNumbered, IsFront};
ghost use Rattle.tomex_pareto.specs.declared.front_row.FrontRow.{FrontRow};

/// The front of numbered configurations is the configurations that none of them dominates, by cost, then number, and no
/// other list of configurations is.
pub fn front_is_the_undominated_rows()
    ensures is { (rows : List FrontRow) → AreNumbered rows → IsFront rows (front_of rows) }
    ensures only { (rows front : List FrontRow) → AreNumbered rows → IsFront rows front
        → front ≡ front_of rows }
{}

/// Of numbered configurations one is on the front, by its number, if and only if none dominates it.
pub fn undominated_rows_are_on_the_front()
    ensures { (rows : List FrontRow) → (r : FrontRow) → AreNumbered rows → Contains rows r
        → is_on (front_of rows) r.row ≡ is_undominated rows r }
{}

/// Of two steps along the hull, the later one saves no more for 1 of cost.
pub fn rates_never_rise()
    ensures { (front : List FrontRow) → (a r b : FrontRow) → Contains (hull_of front) a → Contains (hull_of front) r
        → Contains (hull_of front) b → a.cost < r.cost → r.cost < b.cost
        → (r.cycles - b.cycles) * (r.cost - a.cost) ≤ (a.cycles - r.cycles) * (b.cost - r.cost) }
{}

/// The hull of the front of numbered configurations is those that are the best of all configurations for some cost of
/// some cycles: each of them is, and one that is left out isn't the best for any.
pub fn hull_is_the_best_for_some_worth()
    ensures all { (rows : List FrontRow) → AreNumbered rows → (r : FrontRow) → IsBestForSome rows r
        → Contains (hull_of (front_of rows)) r }
    ensures only { (rows : List FrontRow) → AreNumbered rows → (r : FrontRow)
        → Contains (hull_of (front_of rows)) r → IsBestForSome rows r }
{}

/// The first and the last row of the front of numbered configurations are on its hull.
pub fn ends_of_the_front_are_on_the_hull()
    ensures first { (rows rest : List FrontRow) → (r : FrontRow) → AreNumbered rows → front_of rows ≡ r ∷ rest
        → Contains (hull_of (front_of rows)) r }
    ensures last { (rows rest : List FrontRow) → (r : FrontRow) → AreNumbered rows → front_of rows ≡ rest ++ r ∷ []
        → Contains (hull_of (front_of rows)) r }
{}

/// Of two rows with the same cost and cycles both are on the hull or neither.
pub fn equal_rows_stay_together()
    ensures { (front : List FrontRow) → (a b : FrontRow) → Contains (hull_of front) a → Contains front b
        → a.cost ≡ b.cost → a.cycles ≡ b.cycles → Contains (hull_of front) b }
{}
