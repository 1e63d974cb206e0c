// Calls of a run on small grids: what they refuse, in which order, and what they leave.
use book::Account;
use faults::{CallFault, JobFault};
use hexagonal::HexagonalGas;
use run::Run;
use square::SquareGas;
use twist::Parity;

const BAD_WIDTH: CallFault = CallFault::Job(JobFault::Width(0));

const BAD_HEIGHT: CallFault = CallFault::Job(JobFault::Height(0));

const BAD_AREA: CallFault = CallFault::Job(JobFault::Area(0));

/// A fault's number, layer, record and offset.
fn numbers(fault: CallFault) -> [usize; 4] {
    [
        usize::from(fault.number()),
        usize::from(fault.layer()),
        fault.record(),
        fault.offset(),
    ]
}

#[test]
fn faults_tell_their_places(rt: HostRuntime) {
    let cases: [(CallFault, [usize; 4]); 9] = [
        (BAD_WIDTH, [9, 2, 0, 2]),
        (BAD_HEIGHT, [9, 2, 0, 4]),
        (BAD_AREA, [9, 2, 0, 2]),
        (CallFault::ShortMap, [15, 3, 1, 0]),
        (CallFault::ShortField, [15, 3, 2, 0]),
        (CallFault::ShortSpare, [15, 3, 3, 0]),
        (CallFault::MapByte(5), [16, 3, 1, 5]),
        (CallFault::FieldByte(6), [16, 3, 2, 6]),
        (CallFault::Argument(3), [17, 3, 0, 3]),
    ];
    for (fault, told) in cases {
        assert_eq!(rt; numbers(fault), told);
    }
}

#[test]
fn blank_refused_in_order(rt: HostRuntime) {
    let cases: [(u32, u32, usize, usize, CallFault); 9] = [
        (1, 3, 0, 0, BAD_WIDTH),
        (257, 2, 0, 0, BAD_WIDTH),
        (2, 0, 0, 0, BAD_HEIGHT),
        (2, 3, 0, 0, BAD_HEIGHT),
        (256, 258, 0, 0, BAD_HEIGHT),
        (256, 66, 0, 0, BAD_AREA),
        (2, 2, 3, 3, CallFault::ShortMap),
        (2, 2, 4, 3, CallFault::ShortField),
        (3, 2, 5, 4, CallFault::ShortMap),
    ];
    for (width, height, map_length, field_length, fault) in cases {
        let mut run = Run::new(SquareGas::new(), Parity);
        let mut map = [7u8; 5];
        let mut field = [9u8; 5];
        let map_lent = &mut map[0..map_length.min(5)];
        let field_lent = &mut field[0..field_length.min(5)];
        assert_eq!(rt; run.blank(width, height, map_lent, field_lent), Err(fault));
        assert_eq!(rt; map, [7; 5]);
        assert_eq!(rt; field, [9; 5]);
    }
}

#[test]
fn blank_leaves_bytes_beyond_the_grid(rt: HostRuntime) {
    let mut run = Run::new(SquareGas::new(), Parity);
    let mut map = [200u8; 6];
    let mut field = [201u8; 6];
    assert_eq!(rt; run.blank(2, 2, &mut map, &mut field), Ok(()));
    assert_eq!(rt; map, [0, 0, 0, 0, 200, 200]);
    assert_eq!(rt; field, [0, 0, 0, 0, 201, 201]);
    let mut spare = [202u8; 6];
    field[0] = 1;
    assert_eq!(rt; run.advance(1, &map, &mut field, &mut spare), Ok(1));
    assert_eq!(rt; field, [0, 1, 0, 0, 201, 201]);
    assert_eq!(rt; spare, [1, 0, 0, 0, 202, 202]);
}

#[test]
fn paint_refused_in_order(rt: HostRuntime) {
    let cases: [(u32, u32, u32, u8, usize, CallFault); 6] = [
        (2, 2, 17, 17, 3, CallFault::ShortMap),
        (2, 2, 17, 17, 4, CallFault::MapByte(2)),
        (0, 0, 0, 255, 4, CallFault::MapByte(2)),
        (2, 2, 17, 16, 4, CallFault::Argument(1)),
        (1, 2, 17, 16, 4, CallFault::Argument(2)),
        (1, 1, 17, 16, 4, CallFault::Argument(3)),
    ];
    for (column, row, kind, byte, length, fault) in cases {
        let run = Run::new(SquareGas::new(), Parity);
        let mut map = [0, 1, byte, byte];
        let lent = &mut map[0..length.min(4)];
        assert_eq!(rt; run.paint(column, row, kind, lent), Err(fault));
        assert_eq!(rt; map, [0, 1, byte, byte]);
    }
    let run = Run::new(SquareGas::new(), Parity);
    let mut map = [0, 1, 2, 3, 99];
    assert_eq!(rt; run.paint(1, 1, 16, &mut map), Ok(()));
    assert_eq!(rt; map, [0, 1, 2, 16, 99]);
}

#[test]
fn fan_and_account_refused(rt: HostRuntime) {
    let mut run = Run::new(SquareGas::new(), Parity);
    let nothing = Account {
        along: 0,
        across: 0,
    };
    assert_eq!(rt; run.fan(999), Ok(()));
    assert_eq!(rt; run.fan(1000), Err(CallFault::Argument(1)));
    assert_eq!(rt; run.account(0), Err(CallFault::Argument(1)));
    assert_eq!(rt; run.account(1), Ok(nothing));
    assert_eq!(rt; run.account(16), Ok(nothing));
    assert_eq!(rt; run.account(17), Err(CallFault::Argument(1)));
}

#[test]
fn advance_refused_in_order(rt: HostRuntime) {
    let cases: [(u32, [u8; 2], [usize; 3], CallFault); 9] = [
        (0, [17, 16], [3, 3, 3], CallFault::ShortMap),
        (0, [17, 16], [4, 3, 3], CallFault::ShortField),
        (0, [17, 16], [4, 4, 3], CallFault::ShortSpare),
        (0, [17, 16], [4, 4, 4], CallFault::MapByte(1)),
        (0, [16, 16], [4, 4, 4], CallFault::FieldByte(2)),
        (1, [16, 255], [4, 4, 4], CallFault::FieldByte(2)),
        (0, [16, 15], [4, 4, 4], CallFault::Argument(1)),
        (65_536, [16, 15], [4, 4, 4], CallFault::Argument(1)),
        (u32::MAX, [16, 15], [4, 4, 4], CallFault::Argument(1)),
    ];
    for (k, [wall, state], [map_length, field_length, spare_length], fault) in cases {
        let mut run = Run::new(SquareGas::new(), Parity);
        let map = [0, wall, wall, wall];
        let mut field = [1, 2, state, state];
        let mut spare = [77u8; 4];
        let map_lent = &map[0..map_length.min(4)];
        let field_lent = &mut field[0..field_length.min(4)];
        let spare_lent = &mut spare[0..spare_length.min(4)];
        assert_eq!(rt;
            run.advance(k, map_lent, field_lent, spare_lent),
            Err(fault)
        );
        assert_eq!(rt; field, [1, 2, state, state]);
        assert_eq!(rt; spare, [77; 4]);
    }
}

#[test]
fn hexagonal_states_have_seven_channels(rt: HostRuntime) {
    let mut run = Run::new(HexagonalGas::new(), Parity);
    let map = [0u8; 4];
    let mut field = [127, 128, 0, 0];
    let mut spare = [0u8; 4];
    assert_eq!(rt;
        run.advance(1, &map, &mut field, &mut spare),
        Err(CallFault::FieldByte(1))
    );
    field[1] = 127;
    assert_eq!(rt; run.advance(1, &map, &mut field, &mut spare), Ok(1));
}

/// One particle goes east to a plate in column 2, comes back round the loop, and meets it from behind.
#[test]
fn plate_takes_up_both_sides(rt: HostRuntime) {
    let cases: [(u32, i64, [u8; 8]); 5] = [
        (2, 0, [0, 0, 1, 0, 0, 0, 0, 0]),
        (3, 2, [0, 4, 0, 0, 0, 0, 0, 0]),
        (5, 2, [0, 0, 0, 4, 0, 0, 0, 0]),
        (6, 2, [0, 0, 4, 0, 0, 0, 0, 0]),
        (7, 0, [0, 0, 0, 1, 0, 0, 0, 0]),
    ];
    for (k, along, left) in cases {
        let mut run = Run::new(SquareGas::new(), Parity);
        let mut map = [0u8; 8];
        let mut field = [0u8; 8];
        let mut spare = [0u8; 8];
        assert_eq!(rt; run.blank(4, 2, &mut map, &mut field), Ok(()));
        assert_eq!(rt; run.paint(2, 0, 5, &mut map), Ok(()));
        assert_eq!(rt; run.paint(2, 1, 5, &mut map), Ok(()));
        field[0] = 1;
        assert_eq!(rt; run.advance(k, &map, &mut field, &mut spare), Ok(k));
        assert_eq!(rt; run.account(5), Ok(Account { along, across: 0 }));
        assert_eq!(rt; field, left);
    }
}

/// One particle goes to and fro between a fan in cell 0 and a wall in cell 1; where the fan does not act, it passes.
#[test]
fn fan_acts_by_its_period(rt: HostRuntime) {
    let cases: [(u32, u32, i64, i64, [u8; 4]); 6] = [
        (0, 1, 0, 0, [0, 4, 0, 0]),
        (2, 1, 2, 0, [0, 1, 0, 0]),
        (2, 2, 2, 2, [4, 0, 0, 0]),
        (2, 3, 4, 2, [0, 1, 0, 0]),
        (3, 3, 2, 2, [0, 4, 0, 0]),
        (3, 4, 2, 0, [1, 0, 0, 0]),
    ];
    for (period, k, fan, wall, left) in cases {
        let mut run = Run::new(SquareGas::new(), Parity);
        let map = [16, 1, 0, 0];
        let mut field = [4, 0, 0, 0];
        let mut spare = [0u8; 4];
        assert_eq!(rt; run.fan(period), Ok(()));
        assert_eq!(rt; run.advance(k, &map, &mut field, &mut spare), Ok(k));
        assert_eq!(rt;
            run.account(16),
            Ok(Account {
                along: fan,
                across: 0,
            })
        );
        assert_eq!(rt;
            run.account(1),
            Ok(Account {
                along: wall,
                across: 0,
            })
        );
        assert_eq!(rt; field, left);
    }
}

/// Two steps one after the other are two steps at once.
#[test]
fn steps_add_up(rt: HostRuntime) {
    let map = [3, 0, 0, 0];
    let mut field = [6, 9, 5, 10];
    let mut spare = [0u8; 4];
    let mut run = Run::new(SquareGas::new(), Parity);
    assert_eq!(rt; run.advance(1, &map, &mut field, &mut spare), Ok(1));
    assert_eq!(rt;
        run.account(3),
        Ok(Account {
            along: -2,
            across: 2,
        })
    );
    assert_eq!(rt;
        run.advance(65_535, &map, &mut field, &mut spare),
        Ok(65_536)
    );
    let mut again = [6, 9, 5, 10];
    let mut other = Run::new(SquareGas::new(), Parity);
    assert_eq!(rt;
        other.advance(65_535, &map, &mut again, &mut spare),
        Ok(65_535)
    );
    assert_eq!(rt; other.advance(1, &map, &mut again, &mut spare), Ok(65_536));
    assert_eq!(rt; again, field);
    assert_eq!(rt; other.account(3), run.account(3));
}
