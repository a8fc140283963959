//! A list, call by call.

use bgp_wire::{List, TryCopy};
use std::test::*;

#[test]
fn a_list_is_its_vector(rt: HostRuntime) -> Result<(), Fail> {
    let mut list = List::from_vec(vec![in rt.alloc(); 1u8, 2]?);
    list.push(3)?;
    assert!(rt; list.len() == 3);
    assert!(rt; !list.is_empty());
    assert!(rt; list.as_slice() == [1, 2, 3].as_slice());
    list.insert(1, 9)?;
    assert!(rt; list.as_slice() == [1, 9, 2, 3].as_slice());
    let copy = list.copy(rt.alloc())?;
    assert!(rt; copy == list);
    assert!(rt; copy.into_vec().as_slice() == [1, 9, 2, 3].as_slice());
    assert!(rt; List::<u32>::new(rt.alloc()).copy(rt.alloc())?.is_empty());
    assert!(rt; 7u32.try_copy(rt.alloc())? == 7);
    Ok(())
}
