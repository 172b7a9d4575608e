use jpa_work::undo::UndoList;
use std::test::Fail;

#[test]
fn undoes_what_was_not_kept(rt: HostRuntime) -> Result<(), Fail> {
    let mut list = UndoList::new(rt.alloc());
    list.push(1u8)?;
    list.push(2)?;
    list.keep();
    assert_eq!(rt; list.len(), 2);
    if list.len() > 0 {
        list.set(0, 7)?;
    }
    list.push(3)?;
    assert_eq!(rt; list.as_slice(), [7u8, 2, 3].as_slice());
    list.undo();
    assert_eq!(rt; list.as_slice(), [1u8, 2].as_slice());
    Ok(())
}

#[test]
fn keeps_what_was_put(rt: HostRuntime) -> Result<(), Fail> {
    let mut list = UndoList::new(rt.alloc());
    list.push(1u8)?;
    list.push(2)?;
    list.keep();
    assert_eq!(rt; list.len(), 2);
    list.set(0, 7)?;
    let old = list.put(1, 8);
    assert_eq!(rt; old, 2);
    list.undo();
    assert_eq!(rt; list.as_slice(), [7u8, 8].as_slice());
    Ok(())
}
