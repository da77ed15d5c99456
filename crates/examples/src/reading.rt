// Items of a record's body, read one after the other.
use observer::Mode;
use records::{Body, RecordFault, read_each, read_modes};
use std::test::Fail;

#[test]
fn items_are_read_up_to_the_first_at_fault(rt: HostRuntime) -> Result<(), Fail> {
    let heap = rt.alloc();
    let halves = read_each(heap, &[2u8, 6, 8], |n| -> Result<u8, RecordFault> {
        Ok(n / 2)
    });
    assert!(rt; halves.is_ok_and(|halves| halves.as_slice() == [1, 3, 4].as_slice()));
    let modes = read_modes(
        heap,
        Body {
            place: 7,
            bytes: &[0, 3],
        },
    );
    assert!(rt; modes.is_ok_and(|modes| modes.as_slice() == [Mode::Zero, Mode::Three].as_slice()));
    let beyond = read_modes(
        heap,
        Body {
            place: 7,
            bytes: &[0, 4],
        },
    );
    assert!(rt;
        beyond.is_err_and(|fault| matches!(fault, RecordFault::Field(field) if field.place == 7))
    );
    Ok(())
}
