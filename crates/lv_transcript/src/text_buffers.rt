//! A transcript's text, put into bytes of the caller's.
ghost use Rattle.std.specs.Prelude.{◌≡◌, ◌↔◌, All, IsTrue, OnOk};
ghost use Rattle.lv_transcript.specs.Transcript.{AreAccepted, AreInOrder, IsSoundTranscript, IsTrueAnswer, greatest, transcript_text};
ghost use Rattle.lv_transcript.specs.PutTexts.{PutsText};

use crate::claimed::Claimed;
use crate::transcripts::write_transcript;
use lv_edits::Edit;
use std::alloc::Global;

/// Why a text was not put into a caller's bytes: nothing was.
#[derive(Clone, Copy, PartialEq, Eq)]
pub enum Unput {
    /// There was no memory for the text.
    NoMemory,
    /// There are fewer bytes than it takes, which are so many.
    Short {
        /// How many bytes the text takes.
        wanted: usize,
    },
}

/// Whether answers are in the rising order of their versions, where equal versions are allowed.
pub fn are_in_order(answers: &[Claimed]) -> bool
    ensures { IsTrue result ↔ AreInOrder answers.now }
{
    let mut last = 0;
    for answer in answers {
        if answer.edit < last {
            return false;
        }
        last = answer.edit;
    }
    true
}

/// Puts the transcript of an operation log and of answers of it at the start of some bytes, and returns how many bytes it takes. The answers
/// are in the rising order of their versions. The text is as sound as one that `write_transcript` writes.
///
/// The text is made in memory of its own first. If there is none, or if the text doesn't fit, no byte changes.
pub fn put_transcript(
    alloc: Global,
    edits: &[Edit],
    answers: &[Claimed],
    bytes: &mut [u8],
) -> Result<usize, Unput>
    requires { AreInOrder answers.now }
    ensures text { PutsText (transcript_text edits.now answers.now) bytes.old bytes.new result }
    ensures sound { AreAccepted greatest edits.now → All (IsTrueAnswer edits.now) answers.now
        → OnOk result (IsSoundTranscript (transcript_text edits.now answers.now)) }
{
    let mut text = Vec::new(alloc);
    match write_transcript(alloc, edits, answers, &mut text) {
        Ok(()) => put_text(text.as_slice(), bytes),
        Err(_) => Err(Unput::NoMemory),
    }
}

// Puts a text at the start of some bytes, if it fits.
fn put_text(text: &[u8], bytes: &mut [u8]) -> Result<usize, Unput>
    ensures { PutsText text.now bytes.old bytes.new result }
{
    let wanted = text.len();
    if bytes.len() < wanted {
        return Err(Unput::Short { wanted });
    }
    bytes[..wanted].copy_from_slice(text);
    Ok(wanted)
}
