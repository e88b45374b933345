//! The constant pieces of a page.

ghost use Rattle.std.specs.Prelude.{◌≡◌};
ghost use Rattle.tomex_animate.specs.Constants.{animate_css, animate_help, blank_css, blank_help, machine_head};

const ANIMATE_CSS: &str = "\
h2{min-width:11rem}
dl,dd{margin:0}
dt{font-weight:500}
.e{display:grid;grid-template-columns:repeat(5,1fr);grid-column:1/-1;min-height:4.6rem;border:1px solid \
var(--line);border-radius:.3rem}
.e>div{padding:.35rem .7rem}
.e>div+div{border-left:1px solid var(--line)}
.q{grid-column:1/-1}
.q h3{margin:0 0 .2rem}
.r{display:grid;grid-template-columns:repeat(16,1fr)}
.r>div{padding:.05rem .35rem;min-height:2.9rem;border-bottom:1px solid var(--line)}
.r dt{font-size:.75rem}
.f>*,.o>*{color:var(--soft)}
.f td:last-child{color:inherit}
header>p{flex:1 1 26rem;margin:0 -.4rem}
header>p>span{padding:.15rem .4rem}
.p{outline:1.5px solid var(--ink);outline-offset:-1px}
footer{display:grid;gap:1rem 2.5rem;align-items:start;padding-top:1rem;border-top:1px solid var(--line)}
footer h2{font-size:.95rem}
.i{line-height:2}
@media print,(min-width:70rem){section,footer{grid-template-columns:auto 1fr}section{column-gap:1.5rem}
.s th:nth-child(2){min-width:10rem}.s th:nth-child(3),.t th:nth-child(3){min-width:3.9rem}.t th:nth-child(6),\
.t th:nth-child(7){min-width:3.7rem}
.s th:nth-child(6),.t th:nth-child(4),.t th:nth-child(5),.t th:nth-child(8){min-width:4.75rem}.s \
th:nth-child(8){min-width:8.2rem}}
@media screen and (max-width:48rem){body{padding:.7rem .7rem 2rem}th,td{padding:.15rem .3rem}tbody td,tbody \
th{font-size:.75rem}.e{grid-template-columns:1fr;min-height:0}.e>div{display:flex;flex-wrap:wrap;gap:0 .5rem;\
min-height:2.1rem}.e>div+div{border-left:0;border-top:1px solid var(--line)}.e dt{width:6rem}\
.r{grid-template-columns:repeat(auto-fill,minmax(4rem,1fr))}}
@supports selector(:has(*)){@media screen{section,section :target{scroll-margin-top:100vh}}}
@media print{footer{break-before:page}}
";

const ANIMATE_HELP: &str = "\
<div><h2>How to read this</h2>
<p>Each view is the machine after a cycle. What has changed in the cycle is marked. Follow <i>next</i> once, \
then Enter goes on from cycle to cycle; so it does with <i>previous</i>.</p>
<p>An instruction issues to a station and stays there to its end. V is the value of an operand, Q the station \
that will have it. A is the offset of a load or store, and after its address cycle its address. Qi is the \
station whose result a register waits for. A result on a bus goes to all that wait for its station; a \
register waits for the youngest instruction issued so far that writes it.</p>
<p>What an instruction waits for is the first that is wanting: before its issue an older branch, the issue \
width, a station; before its start an operand, its address, an older access to its bytes, a unit; at last a \
bus.</p>
<p>Each cycle of the run belongs to one instruction, which works in it: its row has a frame. These instructions \
are the critical path, and their cycles add up to the total. Beside the links stand the cycles that belong to it, \
after which instruction it could go on, and what it had waited for; (order) is no wait but its turn.</p></div>
";

const BLANK_HELP: &str = "\
<div><h2>How to read this</h2>
<p>Each view is the machine after a cycle, to be filled in. Follow <i>next</i> once, then Enter goes on from \
cycle to cycle; so it does with <i>previous</i>.</p>
<p>An instruction issues to a station and stays there to its end. V is the value of an operand, Q the station \
that will have it. A is the offset of a load or store, and after its address cycle its address. Qi is the \
station whose result a register waits for. A result on a bus goes to all that wait for its station; a \
register waits for the youngest instruction issued so far that writes it.</p>
<p>What an instruction waits for is the first that is wanting: before its issue an older branch, the issue \
width, a station; before its start an operand, its address, an older access to its bytes, a unit; at last a \
bus.</p></div>
";

const BLANK_CSS: &str = "\
.s td,.t td{height:2.2rem;border:1px solid var(--line)}
.r>div{border-right:1px solid var(--line)}
";

const MACHINE_HEAD: &str = "\
<table>
<caption>The machine</caption>
<thead><tr><th scope=\"col\">Part</th><th scope=\"col\">alu</th><th scope=\"col\">mul</th><th scope=\"col\">\
div</th><th scope=\"col\">load</th><th scope=\"col\">store</th><th scope=\"col\">bru</th></tr></thead>
<tbody>
";

/// The style of a view.
#[tactic(auto, unfolding(crate::specs::Constants::animate_css))]
pub fn animate_css() -> &'static str
    ensures { result.now ≡ animate_css }
{
    ANIMATE_CSS
}

/// The explanation of a page.
#[tactic(auto, unfolding(crate::specs::Constants::animate_help))]
pub fn animate_help() -> &'static str
    ensures { result.now ≡ animate_help }
{
    ANIMATE_HELP
}

/// What the style of a view to be filled in has more.
#[tactic(auto, unfolding(crate::specs::Constants::blank_css))]
pub fn blank_css() -> &'static str
    ensures { result.now ≡ blank_css }
{
    BLANK_CSS
}

/// The explanation of a page to be filled in.
#[tactic(auto, unfolding(crate::specs::Constants::blank_help))]
pub fn blank_help() -> &'static str
    ensures { result.now ≡ blank_help }
{
    BLANK_HELP
}

/// The head of the machine's table.
#[tactic(auto, unfolding(crate::specs::Constants::machine_head))]
pub fn machine_head() -> &'static str
    ensures { result.now ≡ machine_head }
{
    MACHINE_HEAD
}
