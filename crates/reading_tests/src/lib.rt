// Tests of reading a script into lists that are too short or hold something else.
#![tactic(auto)]

use reading::{Used, read};
use refusals::Refusal;
use syntax::{Declaration, Node, Row};

// one declaration, two rows, three nodes
const TEXT: &[u8] = b"var x : 3; x := (x + 1); skip;";

// the same, but for an expression that is missing at 21
const FAULTY: &[u8] = b"var x : 3; x := (x + ); skip;";

// What reading into lists of so many places, at most 4, answers, and whether the first place of each list is blank then. The lists
// hold something else before.
fn read_into(text: &[u8], d: usize, r: usize, n: usize) -> (Result<Used, Refusal>, bool) {
    let mut declarations = [Declaration::default(); 4];
    declarations[0].level = 9;
    let mut rows = [Row::EndIf; 4];
    let mut nodes = [Node::Variable(9); 4];
    let told = read(
        text,
        &mut declarations[..d.min(4)],
        &mut rows[..r.min(4)],
        &mut nodes[..n.min(4)],
    );
    let blank = declarations[0] == Declaration::default()
        && rows[0] == Row::default()
        && nodes[0] == Node::default();
    (told, blank)
}

#[cfg(test)]
mod tests {
    use super::*;
    use refusals::Reason;

    const NO_ROOM: Result<Used, Refusal> = Err(Refusal {
        reason: Reason::NoRoom,
        place: 0,
    });

    const UNEXPECTED: Result<Used, Refusal> = Err(Refusal {
        reason: Reason::Unexpected,
        place: 21,
    });

    #[test]
    fn reads_into_lists_with_just_room(rt: HostRuntime) {
        let used = Used {
            declarations: 1,
            rows: 2,
            nodes: 3,
        };
        assert_eq!(rt; read_into(TEXT, 1, 2, 3), (Ok(used), false));
    }

    #[test]
    fn refuses_lists_short_by_one(rt: HostRuntime) {
        assert_eq!(rt; read_into(TEXT, 1, 1, 3), (NO_ROOM, true));
        assert_eq!(rt; read_into(TEXT, 1, 2, 2), (NO_ROOM, true));
        let (declarations_short, _) = read_into(TEXT, 0, 2, 3);
        assert_eq!(rt; declarations_short, NO_ROOM);
    }

    #[test]
    fn tells_want_of_room_last(rt: HostRuntime) {
        let (told, _) = read_into(FAULTY, 0, 0, 0);
        assert_eq!(rt; told, UNEXPECTED);
        assert_eq!(rt; read_into(FAULTY, 4, 4, 4), (UNEXPECTED, true));
    }
}
