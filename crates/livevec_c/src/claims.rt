//! Answers as a caller in C recorded them, read as claims of a transcript.
ghost use Rattle.std.specs.Prelude.{◌≡◌, ◌+ℤ◌, ◌*ℤ◌, ◌^◌, pos};
ghost use Rattle.livevec_c.specs.Claims.{ClaimsAre, ClaimsInOrder, claimed_of, made_list, shown_in, whole_of};

use crate::boards::kind_of;
use crate::results::{BAD_KIND, NO_MEMORY};
use lv_bodies::{Kind, Shown};
use lv_transcript::{Claimed, are_in_order};
use std::alloc::Global;

/// The number for recorded answers that are not in the order of their edits.
pub const NOT_IN_ORDER: u32 = 115;

/// The plain values that C gives, in the layout of those that it is given. The bytes after `any` aren't read.
#[repr(C)]
#[derive(Clone, Copy)]
pub struct GivenValues {
    pub sum: u64,
    pub least: i64,
    pub greatest: i64,
    pub best_low: u64,
    pub best_high: i64,
    pub affine_a: u32,
    pub affine_b: u32,
    pub automaton: [u8; 8],
    pub any: bool,
}

/// A reduction as it was answered: by which kind, over which range, at which edit, and with which values. Only the values of that kind count.
#[repr(C)]
#[derive(Clone, Copy)]
pub struct Recorded {
    pub edit: u32,
    pub kind: u32,
    pub lo: u32,
    pub hi: u32,
    pub values: GivenValues,
}

// The number of 128 bits whose low and high half these are.
fn whole(low: u64, high: i64) -> i128
    ensures { result ≡ whole_of low high }
{
    i128::from(high) * (1 << 64) + i128::from(low)
}

// The value of a kind among plain values.
fn shown_in(kind: Kind, values: &GivenValues) -> Shown
    ensures { result ≡ shown_in kind values.now }
{
    match kind {
        Kind::Sum => Shown::Sum(values.sum),
        Kind::Least => Shown::Least(values.any.then_some(values.least)),
        Kind::Greatest => Shown::Greatest(values.any.then_some(values.greatest)),
        Kind::Best => {
            let best = whole(values.best_low, values.best_high);
            Shown::Best(values.any.then_some(best))
        }
        Kind::Affine => Shown::Affine {
            a: values.affine_a,
            b: values.affine_b,
        },
        Kind::Automaton => Shown::Automaton(values.automaton),
    }
}

// A recorded answer as a claim, if its kind is one.
fn claimed_of(answer: &Recorded) -> Option<Claimed>
    ensures { result ≡ claimed_of answer.now }
{
    match kind_of(answer.kind) {
        None => None,
        Some(kind) => Some(Claimed {
            edit: answer.edit,
            kind,
            lo: answer.lo,
            hi: answer.hi,
            value: shown_in(kind, &answer.values),
        }),
    }
}

// Recorded answers as claims, or the number for why there are none.
fn claims_of(alloc: Global, answers: &[Recorded]) -> Result<Vec<Claimed>, u32>
    ensures { ClaimsAre answers.now (made_list result) }
{
    let Ok(mut claims) = Vec::with_capacity(alloc, answers.len()) else {
        return Err(NO_MEMORY);
    };
    for answer in answers {
        let Some(claim) = claimed_of(answer) else {
            return Err(BAD_KIND);
        };
        claims.push_reserved(claim);
    }
    Ok(claims)
}

/// Recorded answers as claims, if they are in the order of their edits; else the number for why there are none.
pub fn claims_in_order(alloc: Global, answers: &[Recorded]) -> Result<Vec<Claimed>, u32>
    ensures { ClaimsInOrder answers.now (made_list result) }
{
    match claims_of(alloc, answers) {
        Err(refusal) => Err(refusal),
        Ok(claims) => {
            if are_in_order(claims.as_slice()) {
                Ok(claims)
            } else {
                Err(NOT_IN_ORDER)
            }
        }
    }
}
