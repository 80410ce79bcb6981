// Lists with room for a script, for programs that have memory to take.
#![tactic(auto)]

ghost use Rattle.std.specs.Prelude.{◌≡◌, ◌/◌, length, IfOk};

use std::alloc::{AllocError, Global};
use syntax::{Declaration, Node, Row, VARIABLES};

// The three lists of a script.
#[derive(Drop)]
pub struct Workspace {
    pub declarations: Vec<Declaration>,
    pub rows: Vec<Row>,
    pub nodes: Vec<Node>,
}

impl Workspace {
    // Lists with room for every script of so many bytes: the shortest statement of one row has 5 bytes, and an expression has fewer
    // nodes than half the bytes of its statement.
    pub fn for_text(heap: Global, bytes: usize) -> Result<Workspace, AllocError>
        ensures declarations { IfOk result (λ w. length w.declarations.items ≡ 256) }
        ensures rows { IfOk result (λ w. length w.rows.items ≡ bytes / 5) }
        ensures nodes { IfOk result (λ w. length w.nodes.items ≡ bytes / 2) }
    {
        Ok(Workspace {
            declarations: vec![in heap; Declaration::default(); VARIABLES]?,
            rows: vec![in heap; Row::default(); bytes / 5]?,
            nodes: vec![in heap; Node::default(); bytes / 2]?,
        })
    }
}

#[cfg(test)]
mod tests {
    use super::*;
    use std::test::Fail;

    #[test]
    fn lists_for_a_text(rt: HostRuntime) -> Result<(), Fail> {
        let lists = Workspace::for_text(rt.alloc(), 31)?;
        assert_eq!(rt; lists.declarations.len(), 256);
        assert_eq!(rt; lists.rows.len(), 6);
        assert_eq!(rt; lists.nodes.len(), 15);
        Ok(())
    }
}
