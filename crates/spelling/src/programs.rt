// Spelling a held program.
ghost use Rattle.std.specs.Prelude.{◌≤◌, take, IfOk, MatchResult};
ghost use Rattle.syntax.specs.Held.{script_held};
ghost use Rattle.reading.specs.Grammar.{TextOf};
ghost use Rattle.spelling.specs.Spelling.{spelling, ReadsBack};
ghost use Rattle.spelling.specs.Buffers.{Appended, Unfit, Spelled};

use super::rows::{put_declarations, put_rows};
use letters::TEXT_BYTES;
use lists::{Places, blank};
use refusals::{Reason, Refusal};
use syntax::Program;

// Whether a spelling of `count` bytes may be in a buffer of `room` bytes, or why not.
fn fit(count: usize, room: usize) -> Result<(), Reason>
    ensures { MatchResult result (λ _. (count ≤ 1048576) × (count ≤ room)) (λ reason. Unfit count room reason) }
{
    if count > TEXT_BYTES {
        Err(Reason::TextTooLong)
    } else if count > room {
        Err(Reason::NoRoom)
    } else {
        Ok(())
    }
}

// Writes the spelling of a held program from the front of a buffer, and answers how many bytes it has.
fn put_program(program: &Program, text: &mut [u8]) -> usize
    ensures { Appended text.old 0 (spelling (script_held program.now)) text.new result }
{
    let mut out = Places::new(text);
    put_declarations(&mut out, program.declarations);
    put_rows(&mut out, program);
    out.used
}

// Writes the spelling of a held program into a buffer, with zeros behind it, and answers how many bytes it has. A spelling above
// 1,048,576 bytes (8, place 0), and else one longer than the buffer (7, place 0), is refused, and leaves zeros only. What is written reads
// back: it is a text of the program's script.
pub fn spell(program: &Program, text: &mut [u8]) -> Result<usize, Refusal>
    ensures spelled { Spelled (script_held program.now) text.old result text.new }
    ensures reads_back { IfOk result (λ n. TextOf (take n text.new) (script_held program.now)) }
{
    let count = put_program(program, text);
    if let Err(reason) = fit(count, text.len()) {
        blank(text, 0, 0);
        return Err(Refusal::new(reason, 0));
    }
    blank(text, count, 0);
    Ok(count)
}

// The spelling of a well-formed script is a text of that script, if it is not too long for a text.
pub fn spelling_reads_back()
    ensures { ReadsBack }
{}
