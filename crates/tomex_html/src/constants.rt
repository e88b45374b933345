//! The constant pieces of all pages.

ghost use Rattle.std.specs.Prelude.{◌≡◌};
ghost use Rattle.tomex_html.specs.Constants.{base_css, frame_css, head_html};

const HEAD_HTML: &str = "\
<!DOCTYPE html>
<html lang=\"en\">
<head>
<meta charset=\"utf-8\"/>
<meta name=\"viewport\" content=\"width=device-width,initial-scale=1\"/>
<meta http-equiv=\"Content-Security-Policy\" content=\"default-src 'none';style-src 'unsafe-inline'\"/>
<title>";

const BASE_CSS: &str = "\
:root{color-scheme:light dark;--page:#fff;--ink:#1c2126;--soft:#59636e;--line:#d8dee4;--link:#1f5fa8;\
--new:#fff0b8;--mark:#a86a00}
@media screen and (prefers-color-scheme:dark){:root{--page:#15181c;--ink:#e3e7eb;--soft:#9ba6b1;\
--line:#333b43;--link:#82b6f2;--new:#4a3c08;--mark:#e0aa3e}}
*{box-sizing:border-box}
body{margin:0 auto;padding:1rem 1.5rem 3rem;max-width:80rem;background:var(--page);color:var(--ink);\
font:.94rem/1.5 system-ui,-apple-system,\"Segoe UI\",Roboto,\"Helvetica Neue\",Arial,sans-serif}
h1{margin:.2rem 0;font-size:1.35rem;font-weight:600;overflow-wrap:anywhere}
h2{margin:0;font-size:1.15rem;font-weight:600}
h3,caption,dt{font-size:.85rem;font-weight:600;color:var(--soft)}
p{margin:.3rem 0;max-width:46rem}
a{color:var(--link);text-underline-offset:.15em}
:focus-visible{outline:2px solid var(--link);outline-offset:2px}
table{border-collapse:collapse;font-variant-numeric:tabular-nums}
caption{padding:.2rem 0;text-align:left;white-space:nowrap}
th,td{padding:.15rem .4rem;border-bottom:1px solid var(--line);text-align:left;white-space:nowrap}
th{font-weight:500}
thead th{font-size:.85rem;color:var(--soft);border-bottom:1px solid var(--soft)}
.w{overflow-x:auto}
summary{cursor:pointer}
";

const FRAME_CSS: &str = "\
nav{display:flex;flex-wrap:wrap;gap:.4rem .5rem}
nav>*{padding:.1rem .7rem;border:1px solid var(--line);border-radius:.3rem;text-decoration:none}
nav>span{color:var(--soft)}
nav>a:hover{border-color:var(--link)}
section{display:grid;gap:.8rem 2.5rem;margin:.6rem 0 2rem;align-items:start}
section>header{display:flex;flex-wrap:wrap;gap:.5rem 2rem;align-items:center;grid-column:1/-1}
h2 small{font-weight:400;color:var(--soft)}
.n{background:var(--new);box-shadow:inset 0 -2px var(--mark)}
.n dt{color:inherit}
@media(forced-colors:active){.n{border-bottom:2px solid Highlight}}
tbody td,tbody th,dd{font-family:ui-monospace,SFMono-Regular,Menlo,Consolas,\"DejaVu Sans Mono\",monospace;\
font-size:.82rem}
@supports selector(:has(*)){@media screen{.v>section{display:none}.v>section:target,.v>section:has(:target),\
.v:not(:has(:target))>section:first-of-type{display:grid}}}
@page{size:landscape;margin:12mm}
@media print{:root{font-size:11px}body{padding:0;max-width:none}nav{display:none}section,tr,\
svg{break-inside:avoid}.n{font-weight:700}}
";

/// The start of every page, up to the text of its title.
#[tactic(auto, unfolding(crate::specs::Constants::head_html))]
pub fn head_html() -> &'static str
    ensures { result.now ≡ head_html }
{
    HEAD_HTML
}

/// The style of texts, tables and links.
#[tactic(auto, unfolding(crate::specs::Constants::base_css))]
pub fn base_css() -> &'static str
    ensures { result.now ≡ base_css }
{
    BASE_CSS
}

/// The style of views, of which one is shown at a time.
#[tactic(auto, unfolding(crate::specs::Constants::frame_css))]
pub fn frame_css() -> &'static str
    ensures { result.now ≡ frame_css }
{
    FRAME_CSS
}
