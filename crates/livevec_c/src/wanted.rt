//! The searches of a range.
ghost use Rattle.std.specs.Prelude.{◌≡◌};
ghost use Rattle.livevec_c.specs.Wanted.{kind_sought, wanted_at};

use lv_bodies::Kind;
use lv_tree::Bound;

/// What a search of a range looks for.
#[derive(Clone, Copy)]
pub enum Wanted {
    /// The first of the least elements.
    Least,
    /// The first of the greatest elements.
    Greatest,
    /// The best run.
    Best,
    /// The least end up to which the elements add up to so much.
    Reaches(i64),
    /// The greatest start from which on the elements add up to so much.
    ReachesBack(i64),
    /// The first element within a bound.
    First(Bound),
    /// The last element within a bound.
    Last(Bound),
}

/// The search that a number names, with what it compares with; nothing if it names none.
pub fn wanted_by(number: u32, x: i64) -> Option<Wanted>
    ensures { result ≡ wanted_at number x }
{
    match number {
        0 => Some(Wanted::Least),
        1 => Some(Wanted::Greatest),
        2 => Some(Wanted::Best),
        3 => Some(Wanted::Reaches(x)),
        4 => Some(Wanted::ReachesBack(x)),
        5 => Some(Wanted::First(Bound::AtLeast(x))),
        6 => Some(Wanted::First(Bound::AtMost(x))),
        7 => Some(Wanted::Last(Bound::AtLeast(x))),
        8 => Some(Wanted::Last(Bound::AtMost(x))),
        _ => None,
    }
}

/// The kind that a search needs.
pub fn sought_by(wanted: Wanted) -> Kind
    ensures { result ≡ kind_sought wanted }
{
    match wanted {
        Wanted::Least | Wanted::First(Bound::AtMost(_)) | Wanted::Last(Bound::AtMost(_)) => {
            Kind::Least
        }
        Wanted::Greatest | Wanted::First(Bound::AtLeast(_)) | Wanted::Last(Bound::AtLeast(_)) => {
            Kind::Greatest
        }
        Wanted::Best | Wanted::Reaches(_) | Wanted::ReachesBack(_) => Kind::Best,
    }
}
