use dev_core::Roomy;
use std::test::Fail;

#[test]
fn a_list_grows_into_its_room(rt: HostRuntime) -> Result<(), Fail> {
    let mut list = Roomy::new(rt.alloc());
    list.make_room(2)?;
    list.add(7u32);
    list.add(9);
    assert_eq!(rt; list.as_slice(), [7, 9].as_slice());
    Ok(())
}
