//! Laws of the page. These functions do nothing: their contracts are the laws.

ghost use Rattle.tomex_animate.specs.Laws.{BusyStationsHaveRows, EntriesAreTheHistory, LinksLeadToViews};
ghost use Rattle.tomex_animate.specs.Laws.{ViewsAreOfCycles};

/// A page shows the same history as the text of `tables`, and each station that tables show as busy has a row in a
/// view.
pub fn views_are_tables()
    ensures history { EntriesAreTheHistory }
    ensures stations { BusyStationsHaveRows }
{}

/// A page has a view of each of its cycles, and the links of a view lead to others of them.
pub fn links_lead_to_views()
    ensures views { ViewsAreOfCycles }
    ensures links { LinksLeadToViews }
{}
