//! The loop around a loop.

ghost use Rattle.std.specs.Prelude.{◌≡◌};
ghost use Rattle.tomex_loop_sums.specs.Around.{around_of, around_one};

/// What a loop is in.
#[derive(Clone, Copy)]
pub enum Around {
    /// In no other loop.
    Nowhere,
    /// In the loop with this head, at each visit.
    Within(u32),
    /// Not in the same loop at each visit.
    Several,
}

/// What a loop with a single visit is in.
fn around_one(head: Option<u32>) -> Around
    ensures { result ≡ around_one head }
{
    match head {
        Some(head) => Around::Within(head),
        None => Around::Nowhere,
    }
}

/// What a loop is in, given for each of its visits the head of the loop around it, if there is one.
pub fn around_of(heads: &[Option<u32>]) -> Around
    ensures { result ≡ around_of heads.now }
{
    if heads.is_empty() {
        return Around::Nowhere;
    }
    let first = heads[0];
    for k in 1..heads.len() {
        if heads[k] != first {
            return Around::Several;
        }
    }
    around_one(first)
}
