//! A vector of one kind, or of all six: by which kinds it may be asked.
ghost use Rattle.std.specs.Prelude.{◌≡◌, nat_eq};
ghost use Rattle.livevec_c.specs.Kinds.{number_of_kind};
ghost use Rattle.livevec_c.specs.Only.{is_asked_by, only_asked};

use crate::boards::kind_of;
use lv_bodies::Kind;

/// The number of a kind.
pub fn number_of(kind: Kind) -> u32
    ensures { result ≡ number_of_kind kind }
{
    match kind {
        Kind::Sum => 0,
        Kind::Least => 1,
        Kind::Greatest => 2,
        Kind::Best => 3,
        Kind::Affine => 4,
        Kind::Automaton => 5,
    }
}

// Whether two kinds are one.
fn is_same(kind: Kind, other: Kind) -> bool
    ensures { result ≡ nat_eq (number_of_kind kind) (number_of_kind other) }
{
    number_of(kind) == number_of(other)
}

/// Whether a vector that is of one kind, or of all six, may be asked by a kind, or by all six.
pub fn may_ask(only: Option<Kind>, asked: Option<Kind>) -> bool
    ensures { result ≡ is_asked_by only asked }
{
    match (only, asked) {
        (None, _) => true,
        (Some(_), None) => false,
        (Some(only), Some(kind)) => is_same(only, kind),
    }
}

/// The kinds of a new vector: all six, or the one that a number names; nothing if it names none.
pub fn only_of(six: bool, kind: u32) -> Option<Option<Kind>>
    ensures { result ≡ only_asked six kind }
{
    if six {
        return Some(None);
    }
    match kind_of(kind) {
        None => None,
        Some(kind) => Some(Some(kind)),
    }
}
