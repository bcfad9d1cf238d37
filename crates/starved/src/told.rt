//! The result of a call that may run out of memory.

use lv_geometry::Refusal;

/// The result of a call.
#[derive(Clone, Copy, Debug, PartialEq, Eq)]
pub enum Told {
    /// It did not run out of memory, and its result was right.
    Answered,
    /// It was refused because memory ran out, nothing had changed, and the result of the same call was then right.
    Refused,
    /// Something else.
    Wrong,
}

/// From here on requests for memory are counted, and one of them may fail (tools/starved.c).
pub fn begin<R: Eprint>(rt: &R) {
    let _ = rt.eprintln("begin");
}

/// From here on they are no longer counted.
pub fn end<R: Eprint>(rt: &R) {
    let _ = rt.eprintln("end");
}

/// How a first call ended, if this is the right result.
pub fn first<T: Copy + PartialEq>(answer: Result<T, Refusal>, wanted: T) -> Told {
    match answer {
        Ok(value) => right(value == wanted, Told::Answered),
        Err(refusal) => right(refusal == Refusal::NoMemory, Told::Refused),
    }
}

/// How the same call ended when it was made again, depending on whether nothing had changed in between.
pub fn again<T: Copy + PartialEq>(same: bool, answer: Result<T, Refusal>, wanted: T) -> Told {
    match answer {
        Ok(value) => right(same && value == wanted, Told::Refused),
        Err(_) => Told::Wrong,
    }
}

/// This result, if everything is right.
pub fn right(is_right: bool, told: Told) -> Told {
    if is_right {
        return told;
    }
    Told::Wrong
}
