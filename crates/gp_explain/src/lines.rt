//! The lines of a text.

ghost use Rattle.std.specs.Prelude.{◌≡◌, IfOk};
ghost use Rattle.gp_explain.specs.ExplainedLines.{text_lines};

use gp_base::{NoMemory, Sequence, Text};
use std::alloc::Global;

/// The lines of an explained query, without their line feeds. Running out of memory is the only error.
pub fn explained_lines(alloc: Global, text: &[u8]) -> Result<Sequence<Text>, NoMemory>
    ensures { IfOk result (λ lines. lines ≡ text_lines text.now) }
{
    let mut lines = Sequence::new(alloc);
    let mut line = Vec::new(alloc);
    for byte in text {
        if *byte == b'\n' {
            lines.push(Text::from_bytes(alloc, &line)?)?;
            line.clear();
            continue;
        }
        line.push(*byte)?;
    }
    Ok(lines)
}
