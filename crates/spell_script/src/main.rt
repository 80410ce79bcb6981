// Reads a script from standard input and prints it in the standard layout. A script that is refused prints one line, `refused N at P`.
#![tactic(auto)]

use letters::TEXT_BYTES;
use reading::read;
use spelling::spell;
use std::io::{Read, Write};
use syntax::{Declaration, Node, Program, Row};
use workspace::Workspace;

// Prints the script that three lists hold, spelled in at most so many bytes.
fn spell_lists<'a>(
    rt: &HostRuntime,
    bytes: usize,
    declarations: &'a [Declaration],
    rows: &'a [Row],
    nodes: &'a [Node],
) -> anyhow::Result<()> {
    let mut program = Program::empty();
    if let Err(refusal) = program.hold(declarations, rows, nodes) {
        println!(rt; "{refusal}")?;
        return Ok(());
    }
    let mut text = vec![in rt.alloc(); 0u8; bytes]?;
    match spell(&program, &mut text) {
        Ok(length) => rt.stdout().write_all(&text[..length])?,
        Err(refusal) => println!(rt; "{refusal}")?,
    }
    Ok(())
}

fn run(rt: &HostRuntime) -> anyhow::Result<()> {
    let mut text = Vec::new(rt.alloc());
    // one byte more than a script may have is enough to refuse it
    rt.stdin()
        .take(TEXT_BYTES as u64 + 1)
        .read_to_end(&mut text)?;
    let mut lists = Workspace::for_text(rt.alloc(), text.len())?;
    match read(
        &text,
        &mut lists.declarations,
        &mut lists.rows,
        &mut lists.nodes,
    ) {
        Ok(used) => {
            // a token is spelled as it stood, and one byte follows it
            let bytes = text.len().saturating_mul(2).min(TEXT_BYTES);
            spell_lists(
                rt,
                bytes,
                &lists.declarations[..used.declarations],
                &lists.rows[..used.rows],
                &lists.nodes[..used.nodes],
            )?;
        }
        Err(refusal) => println!(rt; "{refusal}")?,
    }
    Ok(())
}

fn main(rt: HostRuntime) -> anyhow::Result<()> {
    run(&rt)
}
