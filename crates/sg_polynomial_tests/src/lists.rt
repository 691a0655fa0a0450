use sg_num::Row;

#[test]
fn pushes(rt: HostRuntime) {
    let mut row = Row::new(rt.alloc());
    assert!(rt; row.is_empty());
    assert!(rt; row.push(1u8).is_ok());
    assert_eq!(rt; row.len(), 1);
    assert_eq!(rt; *row.get(0), 1);
}

#[test]
fn moves_items(rt: HostRuntime) {
    let mut row = Row::new(rt.alloc());
    let mut more = Row::new(rt.alloc());
    assert!(rt; row.push(1u8).is_ok() && more.push(3u8).is_ok());
    assert!(rt; row.append(&mut more).is_ok() && more.is_empty());
    assert_eq!(rt; row.len(), 2);
    assert!(rt; row.insert(1, 2).is_ok());
    assert_eq!(rt; row.as_slice(), [1, 2, 3].as_slice());
    assert_eq!(rt; row.pop(), Some(3));
    assert_eq!(rt; row.len(), 2);
    row.set(0, 7);
    let mut sum = 0u8;
    for item in row.into_vec() {
        sum = sum.wrapping_add(item);
    }
    assert_eq!(rt; sum, 9);
}
