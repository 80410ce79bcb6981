// Takes the time of calls on a script from standard input: the least of some rounds of `read` and of `hold`, in nanoseconds, with the bytes of the
// text and the rows of the script. A script that is refused prints one line, `refused N at P`.
#![tactic(auto)]

use letters::TEXT_BYTES;
use reading::read;
use refusals::Refusal;
use std::io::Read;
use std::time::{Duration, Instant};
use syntax::Program;
use workspace::Workspace;

const ROUNDS: u32 = 200;

// The least time that a call takes in some rounds.
fn least_time<F: FnMut() -> Result<(), Refusal>>(
    rt: &HostRuntime,
    mut call: F,
) -> anyhow::Result<Duration>
    requires { F.IsAlwaysCallable call }
{
    let mut least = Duration::MAX;
    'rounds: for _ in 0..ROUNDS {
        let start = Instant::now(rt)?;
        if let Err(refusal) = call() {
            println!(rt; "{refusal}")?;
        }
        least = least.min(start.elapsed(rt)?);
    }
    Ok(least)
}

fn run(rt: &HostRuntime) -> anyhow::Result<()> {
    // taken in as spell_script does it: a library's call for both would hold standard input, which no library here does
    let mut text = Vec::new(rt.alloc());
    rt.stdin()
        .take(TEXT_BYTES as u64 + 1)
        .read_to_end(&mut text)?;
    let Workspace {
        mut declarations,
        mut rows,
        mut nodes,
    } = Workspace::for_text(rt.alloc(), text.len())?;
    match read(&text, &mut declarations, &mut rows, &mut nodes) {
        Ok(used) => {
            let reading = least_time(rt, || {
                read(&text, &mut declarations, &mut rows, &mut nodes).map(|_| ())
            })?;
            println!(rt;
                "read {} bytes {} s {} ns",
                text.len(),
                reading.as_secs(),
                reading.subsec_nanos()
            )?;
            let (d, r, n) = (used.declarations, used.rows, used.nodes);
            if d <= declarations.len() && r <= rows.len() && n <= nodes.len() {
                let (declarations, rows, nodes) = (&declarations[..d], &rows[..r], &nodes[..n]);
                let holding = least_time(rt, || {
                    Program::empty().hold(declarations, rows, nodes)
                })?;
                println!(rt;
                    "hold {} rows {} s {} ns",
                    r,
                    holding.as_secs(),
                    holding.subsec_nanos()
                )?;
            }
        }
        Err(refusal) => println!(rt; "{refusal}")?,
    }
    Ok(())
}

fn main(rt: HostRuntime) -> anyhow::Result<()> {
    run(&rt)
}
