//! The lines of a whole text, and the first that has not the form.
ghost use Rattle.std.specs.Prelude.{◌≡◌, ◌↔◌, ◌+◌, ◌<◌, ◌^◌, [], IfErr, IfOk, IsTrue, length};
ghost use Rattle.save_codec.specs.meaning.SavedTexts.{AreLines, IsTextOfLines, ends_text, kind_may_follow, lines_text};
ghost use Rattle.save_codec.specs.machine.LineParts.{lines_in};
ghost use Rattle.save_codec.specs.machine.ResumeAnswers.{IsStop, IsFormRefusal};
ghost use Rattle.save_codec.specs.declared.refusals.StateRefusal.TheVariants.{Syntax};

use crate::cursor::Cursor;
use crate::heads::read_head;
use crate::lines::Kind;
use crate::parts::LineParts;
use crate::refusals::StateRefusal;
use std::alloc::Global;

fn is_end(before: Option<Kind>) -> bool
    ensures { result ≡ ends_text before }
{
    matches!(before, Some(Kind::End))
}

fn follows(before: Option<Kind>, kind: Kind) -> bool
    ensures { result ≡ kind_may_follow before kind }
{
    match (before, kind) {
        (None, Kind::Clock)
        | (Some(Kind::Clock), Kind::Last)
        | (Some(Kind::Last), Kind::Position)
        | (Some(Kind::Position | Kind::Row), Kind::Row | Kind::Due | Kind::End)
        | (Some(Kind::Due), Kind::Due | Kind::End) => true,
        _ => false,
    }
}

// No line of the form stands after so many.
fn stops_behind(count: u64) -> StateRefusal
    requires { count < 2 ^ 63 }
    ensures { result ≡ Syntax (count + 1) }
{
    StateRefusal::Syntax { line: count + 1 }
}

fn is_empty(text: &[u8]) -> bool
    ensures { IsTrue result ↔ (text.now ≡ []) }
{
    text.is_empty()
}

// Bytes that stand in memory are fewer than 2^63.
fn are_few(text: &[u8])
    ensures { length text.now < 2 ^ 63 }
{
    let _count = text.len();
}

// What the lines of the text say after the bytes of the signature and of the policy.
pub(crate) fn read_lines(alloc: Global, text: &[u8]) -> Result<LineParts, StateRefusal>
    ensures ok { IfOk result (λ parts. AreLines (lines_in parts) × (text.now ≡ lines_text (lines_in parts))) }
    ensures few { IfOk result (λ parts. length (lines_in parts) < 2 ^ 63) }
    ensures err { IfErr result (IsStop text.now) }
{
    are_few(text);
    let mut cursor = Cursor { rest: text };
    let mut written = Vec::new(alloc);
    let mut parts = LineParts::nothing(alloc);
    let mut before = None;
    let mut count = 0;
    while !is_end(before) {
        let Some(line) = cursor.line(alloc, &mut written)? else {
            return Err(stops_behind(count));
        };
        let kind = line.kind();
        if !follows(before, kind) {
            return Err(stops_behind(count));
        }
        parts.put(line)?;
        before = Some(kind);
        count += 1;
    }
    if !is_empty(cursor.rest) {
        return Err(stops_behind(count));
    }
    Ok(parts)
}

// A text that has the form: the bytes of the signature and of the policy, and what the lines say.
#[derive(Drop)]
pub(crate) struct StateText<'a> {
    pub signature: &'a [u8],
    pub policy: &'a [u8],
    pub parts: LineParts,
}

// A text by its parts, or the first line that has not the form.
pub(crate) fn read_text(alloc: Global, bytes: &[u8]) -> Result<StateText<'_>, StateRefusal>
    ensures ok { IfOk result (λ text.
        IsTextOfLines bytes.now text.signature.now text.policy.now (lines_in text.parts)) }
    ensures few { IfOk result (λ text. length (lines_in text.parts) < 2 ^ 63) }
    ensures err { IfErr result (IsFormRefusal bytes.now) }
{
    let Some(head) = read_head(bytes) else {
        return Err(StateRefusal::Syntax { line: 0 });
    };
    let parts = read_lines(alloc, head.text)?;
    Ok(StateText {
        signature: head.signature,
        policy: head.policy,
        parts,
    })
}
