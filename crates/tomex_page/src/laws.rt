//! Laws of the page. These functions do nothing: their contracts are the laws.

ghost use Rattle.tomex_page.specs.Laws.{ChoicesAreAdded, CyclesAddUp, LinkedRowsAreShown, LinksLeadToViews};
ghost use Rattle.tomex_page.specs.Laws.{OnPathIsWithin, OthersHaveNoRate, RatesAreTheHulls, SectionsAreViews};
ghost use Rattle.tomex_page.specs.Laws.{ViewsAreApart, ViewsAreOfRows};

/// The first lines of a program's stalls, up to the drain, are together with 1 all cycles of its run.
pub fn cycles_add_up()
    ensures { CyclesAddUp }
{}

/// A page has a view for each row that is shown, no two of these rows have one number, and the links of a view, of the
/// picture and of the tables lead to views.
pub fn links_lead_to_views()
    ensures sections { SectionsAreViews }
    ensures rows { ViewsAreOfRows }
    ensures links { LinksLeadToViews }
    ensures shown { LinkedRowsAreShown }
    ensures apart { ViewsAreApart }
{}

/// In the table of the front the rows on its hull have the rates that `front --hull` prints, and no other row has one.
pub fn rates_are_the_hulls()
    ensures hull { RatesAreTheHulls }
    ensures others { OthersHaveNoRate }
{}

/// Of the cycles in which instructions wait for a part or for what is no part, those that lie on the path are some or
/// all of them.
pub fn on_path_is_within_all()
    ensures { OnPathIsWithin }
{}

/// With what choices that the lists lack would bring, a page has that table and its explanation, and is otherwise the
/// page without them.
pub fn choices_are_added()
    ensures { ChoicesAreAdded }
{}
