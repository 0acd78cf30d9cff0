use module_order::{Order, OrderFault, Slot};
use std::test::Fail;

fn slot(module: u8, instance: u8) -> Slot {
    Slot { module, instance }
}

// Whether the order is the fixed slots and then these.
fn is_listed(order: &Order, behind: &[(u8, u8)]) -> bool {
    if order.len() != behind.len() + 3 {
        return false;
    }
    for i in 0..order.len() {
        if i < 3 && order.at(i).module as usize != i {
            return false;
        }
        if i >= 3 && order.at(i) != slot(behind[i - 3].0, behind[i - 3].1) {
            return false;
        }
    }
    true
}

#[test]
fn the_start_order_has_each_module_once(rt: HostRuntime) -> Result<(), Fail> {
    let order = Order::start(rt.alloc())?;
    assert!(rt; is_listed(&order, &[(3, 0), (4, 0), (5, 0), (6, 0), (7, 0)]));
    assert_eq!(rt; order.place(slot(5, 0)), Some(5));
    assert_eq!(rt; order.place(slot(5, 1)), None);
    Ok(())
}

// Moves the slot where that is allowed.
fn try_move(order: &mut Order, slot: Slot, place: usize) -> Result<(), OrderFault> {
    order.may_move(slot, place)?;
    order.move_to(slot, place);
    Ok(())
}

#[test]
fn an_inserted_slot_is_moved_and_removed(rt: HostRuntime) -> Result<(), Fail> {
    let alloc = rt.alloc();
    let mut order = Order::start(alloc)?;
    let added = slot(5, 1);
    assert!(rt; order.may_insert(added, 6).is_ok());
    order.insert(alloc, added, 6)?;
    let inserted = order.copy(alloc)?;
    assert_eq!(rt; try_move(&mut order, added, 3), Ok(()));
    assert!(rt; is_listed(&order, &[(5, 1), (3, 0), (4, 0), (5, 0), (6, 0), (7, 0)]));
    assert_eq!(rt; try_move(&mut order, slot(3, 0), 8), Ok(()));
    assert!(rt; is_listed(&order, &[(5, 1), (4, 0), (5, 0), (6, 0), (7, 0), (3, 0)]));
    assert!(rt; order.may_remove(added).is_ok());
    order.remove(added);
    assert!(rt; is_listed(&order, &[(4, 0), (5, 0), (6, 0), (7, 0), (3, 0)]));
    assert!(rt; is_listed(&inserted, &[(3, 0), (4, 0), (5, 0), (5, 1), (6, 0), (7, 0)]));
    Ok(())
}
