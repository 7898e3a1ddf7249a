//! Tests of `stream_job::lookups`.
use std::test::Fail;
use stream_job::lookups::{in_order, note};

#[test]
fn amounts_at_their_places(rt: HostRuntime) -> Result<(), Fail> {
    let wanted = in_order(rt.alloc(), &[9, 2, 4, 2])?;
    assert!(rt; wanted.len() == 4);
    assert_eq!(rt; (wanted[0].row, wanted[0].place), (2, 1));
    assert_eq!(rt; (wanted[3].row, wanted[3].place), (9, 0));
    let mut amounts = [None, None, None, None];
    let found = note(&wanted, 0, &[10, 11, 12], &mut amounts);
    assert!(rt; found == 2);
    let more = note(&wanted[2..], 3, &[13, -14, 15], &mut amounts);
    assert_eq!(rt; more, 1);
    assert_eq!(rt; amounts, [None, Some(12), Some(-14), Some(12)]);
    Ok(())
}
