//! Lines of entries whose answers are printed as a word, as most are. They are written piece by
//! piece, and no JSON value is made of them.
ghost use Rattle.std.specs.Prelude.{◌≡◌, ◌++◌, IfSome, IsUtf8, OnOk};
ghost use Rattle.json.specs.Print.{escape};
ghost use Rattle.json_print.specs.Plain.{PrintsAs, words_data};
ghost use Rattle.json_print.specs.Print.{line};

use itoa::Buffer;
use json_values::names::kind_title;
use run_grammar::{Answer, Kind};
use smithy_types::OutOfMemory;

/// The word that an answer is printed as. There is none where it is printed with parts of its own.
#[tactic(auto, unfolding(json_values::specs::Values::answer_data, json_values::specs::Values::hook_answer_data, json::specs::Print::escape_byte))]
pub(crate) fn word_of(answer: &Answer) -> Option<&'static str>
    ensures { IfSome result (λ w. PrintsAs answer.now w.now) }
{
    match answer {
        Answer::Pending => Some("Pending"),
        Answer::Absent => Some("Absent"),
        Answer::Hooked(reply) => match reply.did() {
            Some(_) => None,
            None => Some("Done"),
        },
        Answer::Go => Some("Go"),
        Answer::No => Some("No"),
        Answer::Started => Some("Started"),
        Answer::Ready => Some("Ready"),
        Answer::NotStreaming => Some("NotStreaming"),
        Answer::Abandoned => Some("Abandoned"),
        Answer::Parked => Some("Parked"),
        _ => None,
    }
}

/// Writes the line of a number, a kind of question and a word.
#[tactic(auto, using(crate::proofs::PlainLines::words_lines))]
pub(crate) fn write_words(
    number: u64,
    kind: Kind,
    word: &str,
    out: &mut Vec<u8>,
) -> Result<(), OutOfMemory>
    requires { escape word.now ≡ word.now }
    ensures text { OnOk result (out.new.items ≡ out.old.items
        ++ line (words_data number kind word.now)) }
    ensures characters { IsUtf8 (line (words_data number kind word.now)) }
{
    let title = kind_title(kind).as_bytes();
    let word = word.as_bytes();
    let mut buffer = Buffer::new();
    out.push(b'[')?;
    out.extend_from_slice(buffer.format(number).as_bytes())?;
    out.extend_from_slice(b",\"")?;
    out.extend_from_slice(title)?;
    out.extend_from_slice(b"\",\"")?;
    out.extend_from_slice(word)?;
    out.extend_from_slice(b"\"]\n")?;
    Ok(())
}
