// The banks on a few examples.
use super::*;
use std::test::Fail;

#[test]
fn negative_number_in_bytes(rt: HostRuntime) -> Result<(), Fail> {
    let mut bank = ByteBank::new(vec![in rt.alloc(); 7; 11]?);
    assert_eq!(rt; bank.count(), 2);
    assert!(rt; bank.write(1, -2));
    assert_eq!(rt; bank.read(1), Some(-2));
    assert_eq!(rt;
        bank.cells(),
        [7, 7, 7, 7, 255, 255, 255, 254, 7, 7, 7].as_slice()
    );
    Ok(())
}

#[test]
fn no_such_register(rt: HostRuntime) {
    let mut bytes = [1, 2, 3, 4, 5, 6, 7];
    let mut bank = LentByteBank::new(&mut bytes);
    assert_eq!(rt; bank.read(1), None);
    assert!(rt; !bank.write(1, 9));
    assert_eq!(rt; bytes, [1, 2, 3, 4, 5, 6, 7]);
}

#[test]
fn first_registers_reset(rt: HostRuntime) {
    let mut numbers = [7, -8, 9];
    let mut bank = LentNumberBank::new(&mut numbers);
    reset(&mut bank, 2);
    assert_eq!(rt; bank.read(1), Some(0));
    reset(&mut bank, 0);
    assert_eq!(rt; numbers, [0, 0, 9]);
}

#[test]
fn numbers_given_back(rt: HostRuntime) -> Result<(), Fail> {
    let mut bank = NumberBank::new(vec![in rt.alloc(); 3, 4]?);
    assert!(rt; bank.write(1, -4));
    reset(&mut bank, 1);
    assert_eq!(rt; bank.into_cells().as_slice(), [0, -4].as_slice());
    Ok(())
}
