//! The constant pieces of a page.

ghost use Rattle.std.specs.Prelude.{◌≡◌};
ghost use Rattle.tomex_page.specs.Constants.{choices_help, commands_help, page_css, page_help};

const PAGE_CSS: &str = "\
:root{--shade:#edf3fa;--dot:#a9b8c9;--bar:#7ba3d0}
@media screen and (prefers-color-scheme:dark){:root{--shade:#1c2733;--dot:#5b6b7c;--bar:#4678ad}}
.c,.l{display:grid;gap:1rem 2.5rem;align-items:start}
.w+.w{margin-top:1rem}
.c>*,section>*,.l>*{min-width:0}
.a td,.a thead th{text-align:right}
.a th:first-child{text-align:left}
.x td{white-space:normal}
svg{max-width:100%;height:auto;fill:var(--ink)}
svg rect[fill=\"#ffffff\"]{fill:none}
svg path[fill=\"#edf3fa\"]{fill:var(--shade)}
svg g[stroke=\"#dddddd\"]{stroke:var(--line)}
svg rect[stroke=\"#999999\"]{stroke:var(--soft)}
svg path[stroke=\"#1f5fa8\"]{stroke:var(--link)}
svg path[stroke=\"#a9b8c9\"]{stroke:var(--dot)}
svg g[fill=\"#1f5fa8\"]{fill:var(--link)}
svg a{fill:var(--link)}
svg circle[fill]{fill:var(--page);stroke:var(--link)}
svg a:hover circle,svg a:focus-visible circle{stroke:var(--ink);stroke-width:3}
#front tr:not(.h)>td:not(.n){color:var(--soft)}
section{padding-top:1rem;border-top:1px solid var(--line)}
section :target{scroll-margin-top:3rem}
section>p,.l{grid-column:1/-1}
.t{width:100%}
.t td,.t th{padding-top:0;padding-bottom:0}
.t td:last-child{width:45%;padding-right:0}
.t th:last-child{text-align:left}
.t i,.t b{display:block;height:.75em;background:var(--bar);print-color-adjust:exact;-webkit-print-color-adjust:\
exact}
.t b{margin-top:-.75em;background:var(--link)}
.t th[scope=rowgroup]{padding-top:.6rem;font:inherit;font-size:.85rem;color:var(--soft)}
pre{margin:.3rem 0;overflow-x:auto;font-size:.75rem;line-height:1.35}
footer{border-top:1px solid var(--line);padding-top:1rem}
@media print,(min-width:40rem){.l{grid-template-columns:repeat(auto-fit,minmax(27rem,1fr))}}
@media print,(min-width:76rem){.c{grid-template-columns:45rem 1fr}section{grid-template-columns:auto auto 1fr;\
column-gap:4rem}}
@media screen and (max-width:48rem){body{padding:.7rem .7rem 2rem}th,td{padding:.15rem .3rem}}
@media print{section:not(.h){display:none}}
@media print{section{break-inside:auto;break-before:page}.w,details{break-inside:avoid}}
";

const PAGE_HELP: &str = "\
<footer><h2>How to read this</h2>
<p>A row is a configuration, by its number. It is on the front if no other one costs as much or less and takes \
as many cycles or fewer, and is better in one of the two. Dots are rows that aren't. A row of the front is a \
step worth taking if no mix of a cheaper and a dearer one beats it: these are filled points, and have a rate in \
the table, the cycles that each unit of cost saves from the one of them before. Hollow points are the others; \
printed, they have no page of their own. A point of the picture, or a row's number, leads to the row; there, \
follow <i>next</i> once, then Enter goes on.</p>
<p>A unit option is written units@latency. Without the choices on no front row the front is the same. Rate of a \
part changed: of two rows that are a trade, cycles for each unit of cost. A price stays within A..B: with any \
value from A to B, all other prices as stated, the row is on the front.</p>
<p>A cycle in which an instruction waits counts once, for the first thing that is wanting. Before its issue: an \
older branch, the issue width, a station. In its station: an operand, its address, an older access to its bytes, \
a unit, at last a bus. Drain is the time after the last issue. Peak is how many of a part were ever in use at \
once: a part without stalls is large enough, and any number of it down to its peak costs no cycle.</p>
<p>No machine with the row's latencies and width takes fewer cycles than the floor: there, more of anything but \
width saves nothing. Else try first the part with the most cycles on the path, which stand out in its bar: for \
so long the instructions of the run's critical path had waited for it. That foretells well what one more of it \
saves; it is no bound.</p>
<p>In charts an instruction issues (I), computes its address (A), is in its unit (E), has its result on a bus \
(W), waits for a bus (-) or for anything else (=).</p>
";

const CHOICES_HELP: &str = "\
<p>Would join the front: choices that a list lacks, with which some row's machine would be on it; more units \
at the price of the most that are there. With all of them the cycles that a cost buys fall by that percentage \
at most, first at the cost beside it. From enough on no greater number changes any program's cycles on any \
row. Each list is asked alone: what several bring together, the floor alone bounds.</p>
";

const COMMANDS_HELP: &str = "\
<p>Each number is one that a command of tomex prints: front, worth, prices, choices, stalls, path, \
pipeline.</p></footer>
";

/// The style of a study's report.
#[tactic(auto, unfolding(crate::specs::Constants::page_css))]
pub fn page_css() -> &'static str
    ensures { result.now ≡ page_css }
{
    PAGE_CSS
}

/// The explanation of the page.
#[tactic(auto, unfolding(crate::specs::Constants::page_help))]
pub fn page_help() -> &'static str
    ensures { result.now ≡ page_help }
{
    PAGE_HELP
}

/// That of the choices which the lists lack.
#[tactic(auto, unfolding(crate::specs::Constants::choices_help))]
pub fn choices_help() -> &'static str
    ensures { result.now ≡ choices_help }
{
    CHOICES_HELP
}

/// Where the page's numbers are from.
#[tactic(auto, unfolding(crate::specs::Constants::commands_help))]
pub fn commands_help() -> &'static str
    ensures { result.now ≡ commands_help }
{
    COMMANDS_HELP
}
