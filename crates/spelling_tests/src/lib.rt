// Tests of spelling a program. The first script has every kind of row:
//
//     var x : 3;
//     var y1 : 0;
//     while (0 < x) do
//         if (x = 1) then y1 := declassify(x); else skip; end;
//         x := (x max (x - 1));
//     end;
//     write 0 y1;
//     stop 2147483647;
#![tactic(auto)]

use refusals::{Reason, Refusal};
use spelling::spell;
use syntax::{Declaration, Name, Node, Program, Row};
use values::Operator;

const TEXT: &[u8] =
    b"var x : 3 ;\nvar y1 : 0 ;\nwhile ( 0 < x ) do\nif ( x = 1 ) then\ny1 := declassify ( x ) ;\nelse\nskip ;\nend ;\nx := ( x max ( x - 1 ) ) ;\nend ;\nwrite 0 y1 ;\nstop 2147483647 ;\n";

fn declarations() -> [Declaration; 2] {
    let x = Name {
        length: 1,
        bytes: [b'x', 0, 0, 0, 0, 0, 0, 0, 0, 0, 0, 0, 0, 0, 0],
    };
    let y = Name {
        length: 2,
        bytes: [b'y', b'1', 0, 0, 0, 0, 0, 0, 0, 0, 0, 0, 0, 0, 0],
    };
    [
        Declaration { name: x, level: 3 },
        Declaration { name: y, level: 0 },
    ]
}

// The tests of syntax write these lists out too: a sample in a crate of its own would be read apart from what is expected of it.
fn rows() -> [Row; 10] {
    [
        Row::While {
            condition: 0,
            end_row: 7,
        },
        Row::If {
            condition: 3,
            else_row: 3,
        },
        Row::Release {
            variable: 1,
            value: 6,
        },
        Row::Else { end_row: 5 },
        Row::Skip,
        Row::EndIf,
        Row::Assign {
            variable: 0,
            value: 7,
        },
        Row::EndWhile { while_row: 0 },
        Row::Write {
            level: 0,
            value: 12,
        },
        Row::Stop { number: 2147483647 },
    ]
}

fn nodes() -> [Node; 13] {
    [
        Node::Apply(Operator::Less),
        Node::Numeral(0),
        Node::Variable(0),
        Node::Apply(Operator::Equal),
        Node::Variable(0),
        Node::Numeral(1),
        Node::Variable(0),
        Node::Apply(Operator::Maximum),
        Node::Variable(0),
        Node::Apply(Operator::Subtract),
        Node::Variable(0),
        Node::Numeral(1),
        Node::Variable(1),
    ]
}

#[cfg(test)]
mod tests {
    use super::*;

    #[test]
    fn every_row_is_spelled(rt: HostRuntime) {
        let (declarations, rows, nodes) = (declarations(), rows(), nodes());
        let mut program = Program::empty();
        assert!(rt; program.hold(&declarations, &rows, &nodes).is_ok());
        let mut text = [1u8; 169];
        assert_eq!(rt; spell(&program, &mut text), Ok(TEXT.len()));
        assert_eq!(rt; &text[..], TEXT);
    }

    #[test]
    fn zeros_stand_behind(rt: HostRuntime) {
        let declarations = declarations();
        let mut program = Program::empty();
        assert!(rt; program.hold(&declarations, &[], &[]).is_ok());
        let mut text = [1u8; 27];
        assert_eq!(rt; spell(&program, &mut text), Ok(25));
        assert_eq!(rt; &text, b"var x : 3 ;\nvar y1 : 0 ;\n\0\0");
    }

    #[test]
    fn a_short_buffer_is_refused(rt: HostRuntime) {
        let declarations = declarations();
        let mut program = Program::empty();
        assert!(rt; program.hold(&declarations, &[], &[]).is_ok());
        let mut text = [1u8; 24];
        assert_eq!(rt;
            spell(&program, &mut text),
            Err(Refusal::new(Reason::NoRoom, 0))
        );
        assert_eq!(rt; text, [0; 24]);
    }

    // `skip ;` and a line feed are 7 bytes, so this many rows make 1048572 bytes, and one more makes too many.
    #[test]
    fn a_long_text_is_refused(rt: HostRuntime) {
        let rows = [Row::Skip; 149797];
        let mut program = Program::empty();
        assert!(rt; program.hold(&[], &rows[0..149796], &[]).is_ok());
        assert_eq!(rt;
            spell(&program, &mut []),
            Err(Refusal::new(Reason::NoRoom, 0))
        );
        assert!(rt; program.hold(&[], &rows, &[]).is_ok());
        assert_eq!(rt;
            spell(&program, &mut []),
            Err(Refusal::new(Reason::TextTooLong, 0))
        );
    }
}
