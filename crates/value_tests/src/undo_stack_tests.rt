use std::test::Fail;
use undo_stack::Undo;

// The depth 2 lets the first of four values go.
#[test]
fn undo_goes_back_as_far_as_the_depth_and_redo_forward_again(rt: HostRuntime) -> Result<(), Fail> {
    let mut value = Undo::new(rt.alloc(), 1u32, 2)?;
    value.change(2);
    value.change(3);
    value.change(4);
    assert!(rt; value.undo());
    assert!(rt; value.undo());
    assert!(rt; !value.undo());
    assert!(rt; value.past() == 0 && value.future() == 2);
    assert!(rt; value.redo());
    assert_eq!(rt; *value.now(), 3);
    value.change(5);
    assert!(rt; !value.redo());
    assert_eq!(rt; value.into_now(), 5);
    Ok(())
}
