//! Reading a script.

ghost use Rattle.std.specs.Prelude.{◌≡◌, ◌≤◌, MatchResult, ◌⊎◌, length, Ok, Err};
ghost use Rattle.std.specs.Io.BufRead.{strip_last};
ghost use Rattle.ss_script.specs.declared.fault.ScriptFault.TheVariants.{NoMemory as no_memory};
ghost use Rattle.ss_script.specs.Script.{line_of, script_of};

use crate::call::read_call;
use crate::fault::{ScriptFault, ScriptKind};
use crate::line::{Line, Lines};
use crate::pieces::Pieces;
use crate::{LINES, SCRIPT_BYTES};
use std::alloc::Global;

/// Reads a script of so many clients, 8 at most. The first bad line is reported, by its first field at fault from left to right,
/// and then no line is read. Line 100,001 is bad whatever it holds; what follows the last LF is a line only if it is not empty.
pub fn read_script(alloc: Global, text: &[u8], clients: u8) -> Result<Lines, ScriptFault>
    requires bytes { length text.now ≤ SCRIPT_BYTES }
    requires clients { clients ≤ 8 }
    ensures { MatchResult result (λ lines. script_of clients text.now ≡ Ok lines) (λ fault. (fault ≡ no_memory) ⊎ (script_of clients text.now ≡ Err fault)) }
{
    let mut lines = Vec::new(alloc);
    let mut number = 0;
    let mut rest = Pieces::new(without_last_lf(text), b'\n');
    while let Some(text) = rest.next() {
        number += 1;
        if let Some(line) = read_line(alloc, number, text, clients)? {
            lines.push(line)?;
        }
    }
    Ok(Lines::from(lines))
}

// The text without the LF that ends it, after which there is no line.
fn without_last_lf(text: &[u8]) -> &[u8]
    ensures { result.now ≡ strip_last 10 text.now }
{
    match text.split_last() {
        Some((b'\n', lines)) => lines,
        _ => text,
    }
}

// Reads what the line of this number asks for, if it holds a call.
#[tactic(auto, unfolding(crate::specs::Script::line_of))]
fn read_line(
    alloc: Global,
    number: u32,
    text: &[u8],
    clients: u8,
) -> Result<Option<Line>, ScriptFault>
    requires { clients ≤ 8 }
    ensures { MatchResult result (λ line. line_of clients number text.now ≡ Ok line) (λ fault. (fault ≡ no_memory) ⊎ (line_of clients number text.now ≡ Err fault)) }
{
    if LINES < number {
        let kind = ScriptKind::TooManyLines;
        return Err(ScriptFault::Bad { line: number, kind });
    }
    if text.is_empty() || text[0] == b'#' {
        return Ok(None);
    }
    match read_call(alloc, text, clients) {
        Ok((client, call)) => Ok(Some(Line {
            client,
            line: number,
            call,
        })),
        Err(fault) => Err(fault.at(number)),
    }
}
