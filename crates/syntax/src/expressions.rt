// Expressions in a list of nodes.
ghost use Rattle.std.specs.Prelude.{◌≡◌, ℕ, ◌+◌, ◌<◌, ◌≤◌, length, drop, None, MatchOption};
ghost use Rattle.syntax.specs.Decoder.{expression_of, Spans};

use super::form::{GREATEST, Node};

// The place behind the expression that begins at `at`, if one does that is at most `depth` deep and names only the first `count` variables.
// `nodes` and `count` stay two parameters: a struct of both saves an argument and makes each clause longer, as `all.now.nodes.now`.
pub fn expression_end(nodes: &[Node], at: usize, depth: u8, count: usize) -> Option<usize>
    ensures { MatchOption result (expression_of count depth (drop at nodes.now) ≡ None) (λ q. Spans count depth nodes.now at q) }
{
    match *nodes.get(at)? {
        Node::Numeral(n) if n <= GREATEST => Some(at + 1),
        Node::Variable(v) if (v as usize) < count => Some(at + 1),
        Node::Apply(_) if depth > 0 => {
            let middle = expression_end(nodes, at + 1, depth - 1, count)?;
            expression_end(nodes, middle, depth - 1, count)
        }
        _ => None,
    }
}
