//! The constant pieces of a view.

ghost use Rattle.std.specs.Prelude.{◌≡◌};
ghost use Rattle.tomex_frames.specs.Constants.{station_head, status_head};

/// The head of the table of instructions.
const STATUS_HEAD: &str = "\
<div class=\"w\"><table class=\"s\">
<caption>Instruction status</caption>
<thead><tr><th scope=\"col\">#</th><th scope=\"col\">Instruction</th><th scope=\"col\">Station</th><th \
scope=\"col\">Issue</th><th scope=\"col\">Address</th><th scope=\"col\">Execute</th><th scope=\"col\">Write \
result</th><th scope=\"col\">In this cycle</th></tr></thead>
<tbody>
";

/// The head of the table of stations.
const STATION_HEAD: &str = "\
<div class=\"w\"><table class=\"t\">
<caption>Reservation stations</caption>
<thead><tr><th scope=\"col\">Name</th><th scope=\"col\">Busy</th><th scope=\"col\">Op</th><th scope=\"col\">\
Vj</th><th scope=\"col\">Vk</th><th scope=\"col\">Qj</th><th scope=\"col\">Qk</th><th scope=\"col\">A</th>\
</tr></thead>
<tbody>
";

/// The head of the table of instructions.
#[tactic(auto, unfolding(crate::specs::Constants::status_head))]
pub fn status_head() -> &'static str
    ensures { result.now ≡ status_head }
{
    STATUS_HEAD
}

/// The head of the table of stations.
#[tactic(auto, unfolding(crate::specs::Constants::station_head))]
pub fn station_head() -> &'static str
    ensures { result.now ≡ station_head }
{
    STATION_HEAD
}
