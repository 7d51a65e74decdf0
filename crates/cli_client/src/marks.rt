//! A print in which lines tell moments.
ghost use Rattle.std.specs.Prelude.{◌≡◌, ◌++◌, ◌∷◌, IfOk, OnOk, IfSome};
ghost use Rattle.json_forms.specs.JsonData.{data_of};
ghost use Rattle.cli_client.specs.Marked.{IsMarked, line_of, moment_data};

use json_forms::{Json, Row};
use smithy_types::OutOfMemory;
use std::alloc::Global;

// The moments that are still to be told, and the one that was told last.
#[derive(Drop)]
struct Moments<'m> {
    left: &'m [u64],
    last: Option<u64>,
}

impl<'m> Moments<'m> {
    // The moment that is told before this line: that of its entry, if it isn't the last one.
    fn before(&mut self, line: &[u8]) -> Option<u64> {
        if !is_entry(line) {
            return None;
        }
        let (first, left) = self.left.split_first()?;
        self.left = left;
        if self.last == Some(*first) {
            return None;
        }
        self.last = Some(*first);
        self.last
    }
}

// Whether this is the line of an entry, which begins with its number.
fn is_entry(line: &[u8]) -> bool {
    match line {
        [b'[', digit, ..] => b'0' <= *digit && *digit <= b'9',
        _ => false,
    }
}

/// The print with a line before each entry whose moment is another than that of the entry before
/// it. There is a moment for each entry, in their order.
pub fn with_moments(alloc: Global, print: &[u8], moments: &[u64]) -> Result<Vec<u8>, OutOfMemory>
    ensures { IfOk result (λ text. IsMarked print.now text.items) }
{
    let mut moments = Moments {
        left: moments,
        last: None,
    };
    let mut out = Vec::with_capacity(alloc, print.len())?;
    let mut rest = print;
    while let Some((line, behind)) = first_line(rest) {
        write_line(alloc, moments.before(line), line, &mut out)?;
        rest = behind;
    }
    out.extend_from_slice(rest)?;
    Ok(out)
}

// The first line, without its end, and what is behind it. None where no line ends.
fn first_line(text: &[u8]) -> Option<(&[u8], &[u8])>
    ensures { IfSome result (λ p. text.now ≡ p.0.now ++ 10 ∷ p.1.now) }
{
    let end = text.iter().position(|byte| *byte == b'\n')?;
    Some((&text[..end], &text[end + 1..]))
}

// Writes a line, behind the one that tells its moment.
fn write_line(
    alloc: Global,
    moment: Option<u64>,
    line: &[u8],
    out: &mut Vec<u8>,
) -> Result<(), OutOfMemory>
    ensures { OnOk result (out.new.items ≡ out.old.items ++ line_of moment line.now) }
{
    if let Some(moment) = moment {
        print_moment(alloc, moment)?.write_line(alloc, out)?;
    }
    out.extend_from_slice(line)?;
    out.push(b'\n')?;
    Ok(())
}

// A moment.
#[tactic(auto, unfolding(crate::specs::Marked::moment_data))]
fn print_moment(alloc: Global, moment: u64) -> Result<Json, OutOfMemory>
    ensures { IfOk result (λ j. data_of j ≡ moment_data moment) }
{
    Json::pair(alloc, Json::text(alloc, "at")?, Json::number(moment))
}
