// Tests of holding lists as a program. The script that they vary is
//
//     var x : 3;
//     var y : 0;
//     while (0 < x) do
//         if (x = 1) then y := declassify(x); else skip; end;
//         x := (x - 1);
//     end;
//     write 0 y;
#![tactic(auto)]

use refusals::{Reason, Refusal};
use syntax::{Declaration, Name, Node, Program, Row};
use values::Operator;

// A variable with a name of two bytes.
fn declaration(first: u8, second: u8, level: u32) -> Declaration {
    let name = Name {
        length: 2,
        bytes: [first, second, 0, 0, 0, 0, 0, 0, 0, 0, 0, 0, 0, 0, 0],
    };
    Declaration { name, level }
}

fn declarations() -> [Declaration; 2] {
    [declaration(b'x', b'_', 3), declaration(b'y', b'1', 0)]
}

fn rows() -> [Row; 9] {
    [
        Row::While {
            condition: 0,
            end_row: 7,
        },
        Row::If {
            condition: 3,
            else_row: 3,
        },
        Row::Release {
            variable: 1,
            value: 6,
        },
        Row::Else { end_row: 5 },
        Row::Skip,
        Row::EndIf,
        Row::Assign {
            variable: 0,
            value: 7,
        },
        Row::EndWhile { while_row: 0 },
        Row::Write {
            level: 0,
            value: 10,
        },
    ]
}

fn nodes() -> [Node; 11] {
    [
        Node::Apply(Operator::Less),
        Node::Numeral(0),
        Node::Variable(0),
        Node::Apply(Operator::Equal),
        Node::Variable(0),
        Node::Numeral(1),
        Node::Variable(0),
        Node::Apply(Operator::Subtract),
        Node::Variable(0),
        Node::Numeral(1),
        Node::Variable(1),
    ]
}

// The answer where these lists are given to be held.
fn outcome<'a>(
    declarations: &'a [Declaration],
    rows: &'a [Row],
    nodes: &'a [Node],
) -> Result<(), Refusal> {
    let mut program = Program::empty();
    program.hold(declarations, rows, nodes)
}

// The refusal of lists that are no form.
fn refused() -> Result<(), Refusal> {
    Err(Refusal::new(Reason::NotAForm, 0))
}

// The outcome with one row, one node or one declaration replaced.
fn with_row(at: usize, row: Row) -> Result<(), Refusal> {
    let mut changed = rows();
    if let Some(place) = changed.get_mut(at) {
        *place = row;
    }
    outcome(&declarations(), &changed, &nodes())
}

fn with_node(at: usize, node: Node) -> Result<(), Refusal> {
    let mut changed = nodes();
    if let Some(place) = changed.get_mut(at) {
        *place = node;
    }
    outcome(&declarations(), &rows(), &changed)
}

fn with_declaration(changed: Declaration) -> Result<(), Refusal> {
    outcome(&[declaration(b'x', b'_', 3), changed], &rows(), &nodes())
}

// The variables `_aa`, `_ab` and so on.
fn many() -> [Declaration; 257] {
    let mut all = [Declaration::default(); 257];
    'each: for (i, declaration) in all.iter_mut().enumerate() {
        declaration.name.length = 3;
        declaration.name.bytes[0] = b'_';
        declaration.name.bytes[1] = b'a' + (i / 16) as u8;
        declaration.name.bytes[2] = b'a' + (i % 16) as u8;
    }
    all
}

// The next of a sequence of numbers without much order.
fn next(number: u32) -> u32 {
    number.wrapping_mul(1664525).wrapping_add(1013904223)
}

fn random_row(number: u32) -> Row {
    let place = (number >> 8) as usize % 12;
    let target = (number >> 16) as usize % 12;
    match number >> 29 {
        0 => Row::If {
            condition: place,
            else_row: target,
        },
        1 => Row::Else { end_row: target },
        2 => Row::EndIf,
        3 => Row::While {
            condition: place,
            end_row: target,
        },
        4 => Row::EndWhile { while_row: target },
        5 => Row::Assign {
            variable: ((number >> 16) & 0x03) as u8,
            value: place,
        },
        _ => Row::Skip,
    }
}

fn random_node(number: u32) -> Node {
    match number >> 30 {
        0 => Node::Apply(Operator::Add),
        1 => Node::Numeral(number >> 1),
        _ => Node::Variable(((number >> 8) & 0x03) as u8),
    }
}

// Fills a list with what is made of such numbers.
fn fill<T: Copy, F: Fn(u32) -> T>(list: &mut [T], from: u32, make: F)
    requires { F.IsAlwaysCallable make }
{
    let mut number = from;
    'each: for item in list.iter_mut() {
        number = next(number);
        *item = make(number);
    }
}

// Random rows. The last opens a while that nothing closes, so that they are no form.
fn random_rows(from: u32) -> [Row; 9] {
    let mut garbage = rows();
    fill(&mut garbage, from, random_row);
    garbage[8] = Row::While {
        condition: 0,
        end_row: 8,
    };
    garbage
}

fn random_nodes(from: u32) -> [Node; 11] {
    let mut garbage = nodes();
    fill(&mut garbage, from, random_node);
    garbage
}

fn with_random(from: u32) -> Result<(), Refusal> {
    outcome(&declarations(), &random_rows(from), &random_nodes(from))
}

#[cfg(test)]
mod tests {
    use super::*;

    #[test]
    fn holds_forms(rt: HostRuntime) {
        assert_eq!(rt; outcome(&declarations(), &rows(), &nodes()), Ok(()));
        assert_eq!(rt; outcome(&[], &[], &[]), Ok(()));
        assert_eq!(rt; outcome(&[], &[Row::default()], &[]), Ok(()));
    }

    #[test]
    fn refuses_random_lists(rt: HostRuntime) {
        'each: for from in 0..1000u32 {
            assert_eq!(rt; with_random(from), refused());
        }
    }

    #[test]
    fn refuses_wrong_targets(rt: HostRuntime) {
        assert_eq!(rt;
            with_row(
                0,
                Row::While {
                    condition: 0,
                    end_row: 6,
                },
            ),
            refused()
        );
        assert_eq!(rt;
            with_row(
                1,
                Row::If {
                    condition: 3,
                    else_row: 5,
                },
            ),
            refused()
        );
        assert_eq!(rt; with_row(3, Row::Else { end_row: 4 }), refused());
        assert_eq!(rt; with_row(7, Row::EndWhile { while_row: 1 }), refused());
        assert_eq!(rt;
            with_row(
                0,
                Row::While {
                    condition: 0,
                    end_row: usize::MAX,
                },
            ),
            refused()
        );
    }

    #[test]
    fn refuses_open_and_stray_rows(rt: HostRuntime) {
        assert_eq!(rt; with_row(0, Row::Skip), refused());
        assert_eq!(rt; with_row(7, Row::Skip), refused());
        assert_eq!(rt; with_row(4, Row::EndIf), refused());
        assert_eq!(rt; with_row(5, Row::EndWhile { while_row: 0 }), refused());
    }

    #[test]
    fn refuses_places_past_the_end(rt: HostRuntime) {
        assert_eq!(rt;
            with_row(
                8,
                Row::Write {
                    level: 0,
                    value: 11,
                },
            ),
            refused()
        );
        assert_eq!(rt;
            with_row(
                8,
                Row::Write {
                    level: 0,
                    value: usize::MAX,
                },
            ),
            refused()
        );
        assert_eq!(rt;
            with_row(
                6,
                Row::Assign {
                    variable: 2,
                    value: 7,
                },
            ),
            refused()
        );
        assert_eq!(rt; with_node(10, Node::Variable(2)), refused());
        assert_eq!(rt; with_node(10, Node::Apply(Operator::Add)), refused());
    }

    #[test]
    fn refuses_other_node_counts(rt: HostRuntime) {
        let all = nodes();
        assert_eq!(rt; outcome(&declarations(), &rows(), &all[0..10]), refused());
        assert_eq!(rt; outcome(&declarations(), &[], &all[0..1]), refused());
        assert_eq!(rt; with_node(2, Node::Apply(Operator::Or)), refused());
        assert_eq!(rt; with_node(0, Node::Numeral(0)), refused());
    }

    #[test]
    fn refuses_large_numbers(rt: HostRuntime) {
        assert_eq!(rt; with_node(1, Node::Numeral(2147483647)), Ok(()));
        assert_eq!(rt; with_node(1, Node::Numeral(2147483648)), refused());
        assert_eq!(rt; with_row(4, Row::Stop { number: 2147483647 }), Ok(()));
        assert_eq!(rt; with_row(4, Row::Stop { number: 2147483648 }), refused());
        assert_eq!(rt;
            with_row(
                8,
                Row::Write {
                    level: 2147483648,
                    value: 10,
                },
            ),
            refused()
        );
    }

    #[test]
    fn refuses_bad_names(rt: HostRuntime) {
        assert_eq!(rt; with_declaration(declaration(b'y', 0, 0)), refused());
        assert_eq!(rt; with_declaration(declaration(b'1', b'y', 0)), refused());
        assert_eq!(rt; with_declaration(declaration(b'i', b'f', 0)), refused());
        assert_eq!(rt; with_declaration(declaration(b'x', b'_', 0)), refused());
        assert_eq!(rt;
            with_declaration(declaration(b'y', b'2', 2147483648)),
            refused()
        );
        assert_eq!(rt; with_declaration(Declaration::default()), refused());
    }

    #[test]
    fn refuses_unpadded_names(rt: HostRuntime) {
        let mut changed = declaration(b'y', b'1', 0);
        changed.name.bytes[14] = b'z';
        assert_eq!(rt; with_declaration(changed), refused());
        changed.name.length = 15;
        assert_eq!(rt; with_declaration(changed), refused());
        changed.name.length = 16;
        assert_eq!(rt; with_declaration(changed), refused());
    }

    #[test]
    fn counts_declarations(rt: HostRuntime) {
        let all = many();
        assert_eq!(rt; outcome(&all[0..256], &[], &[]), Ok(()));
        assert_eq!(rt; outcome(&all, &[], &[]), refused());
    }

    #[test]
    fn keeps_the_program_held_before(rt: HostRuntime) {
        let declared = declarations();
        let before = rows();
        let expressions = nodes();
        let mut held = Program::empty();
        assert!(rt; held.hold(&declared, &before, &expressions).is_ok());
        assert!(rt; held.hold(&declared, &before, &[]).is_err());
        assert_eq!(rt; held.rows().len(), 9);
        assert_eq!(rt; held.nodes().len(), 11);
        assert_eq!(rt; held.declarations().len(), 2);
    }
}
