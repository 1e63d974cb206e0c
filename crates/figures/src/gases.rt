// The figures through the code of the gases and sources.
use gas::{Gas, TableFault};
use hexagonal::HexagonalGas;
use lattice::Grid;
use square::SquareGas;
use std::test::Fail;
use twist::{Register, Turned, TwistSource};

#[test]
fn hexagonal_collisions(rt: HostRuntime) {
    let gas = HexagonalGas::new();
    let cases: [(bool, u8, u8); 8] = [
        (false, 9, 18),
        (true, 9, 36),
        (false, 85, 106),
        (true, 85, 106),
        (false, 65, 34),
        (true, 34, 65),
        (false, 127, 127),
        (true, 128, 128),
    ];
    for (twist, state, outcome) in cases {
        assert_eq!(rt; gas.collide(twist, state), outcome);
    }
}

#[test]
fn north_east_wraps(rt: HostRuntime) -> Result<(), Fail> {
    let Ok(grid) = Grid::new(4, 2) else {
        return Err(Fail::new("4 by 2 is a grid"));
    };
    let gas = HexagonalGas::new();
    assert_eq!(rt; gas.neighbour(grid, 1, 7), 0);
    assert_eq!(rt; gas.neighbour(grid, 1, 8), 8);
    assert_eq!(rt; gas.neighbour(grid, 7, 3), 3);
    Ok(())
}

#[test]
fn entries_are_judged(rt: HostRuntime) {
    let mut gas = SquareGas::new();
    let identity: [u8; 33] = [
        0, 1, 2, 3, 4, 5, 6, 7, 8, 9, 10, 11, 12, 13, 14, 15, 0, 1, 2, 3, 4, 5, 6, 7, 8, 9, 10, 11,
        12, 13, 14, 15, 0,
    ];
    assert_eq!(rt; gas.load(&identity[0..31]), Err(TableFault::Unsound(31)));
    assert_eq!(rt; gas.load(&identity), Err(TableFault::Unsound(32)));
    assert_eq!(rt; gas.collide(false, 5), 10);
    assert_eq!(rt; gas.load(&identity[0..32]), Ok(()));
    assert_eq!(rt; gas.collide(false, 5), 5);
    let mut lost = identity;
    lost[16 + 3] = 5;
    assert_eq!(rt; gas.load(&lost[0..32]), Err(TableFault::Unsound(19)));
    gas.house();
    assert_eq!(rt; gas.collide(true, 10), 5);
}

#[test]
fn register_shifts(rt: HostRuntime) {
    let mut source = Register::new();
    assert!(rt; source.ask(0, 0, 0));
    assert_eq!(rt; source.tell_mark(), 0xE270);
    assert!(rt; source.set_mark(0).is_err());
    assert_eq!(rt; source.tell_mark(), 0xE270);
    let mut turned = Turned {
        lower: Turned { lower: source },
    };
    assert_eq!(rt; turned.kind(), 2);
    assert!(rt; !turned.ask(1, 0, 0));
    assert_eq!(rt; turned.tell_mark(), 0x7138);
}
