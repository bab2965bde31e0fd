// A region of ten words and its blocks, worked by hand.
use crate::Region;
use std::test::Fail;

#[test]
fn carves_ten_words(rt: HostRuntime) -> Result<(), Fail> {
    let mut region = Region::take(rt.alloc(), 10)?;
    assert_eq!(rt; region.left(), 10);
    let four = region.carve(4).expect(&rt, "ten are left");
    let six = region.carve(6).expect(&rt, "six are left");
    assert_eq!(rt; region.left(), 0);
    assert!(rt; region.carve(1).is_none());
    assert!(rt; region.carve(0).is_some());
    region.set(&four, 3, 7);
    region.fill(&six, -2);
    assert_eq!(rt; region.get(&four, 3), 7);
    assert_eq!(rt; region.words(&four), [0, 0, 0, 7].as_slice());
    assert_eq!(rt; region.words(&six), [-2; 6].as_slice());
    let words = region.words_mut(&four);
    words[0] = 5;
    assert_eq!(rt; region.words(&four), [5, 0, 0, 7].as_slice());
    assert_eq!(rt; region.words(&six), [-2; 6].as_slice());
    Ok(())
}

#[test]
fn copies_between_blocks(rt: HostRuntime) -> Result<(), Fail> {
    let mut region = Region::take(rt.alloc(), 5)?;
    let first = region.carve(2).expect(&rt, "five are left");
    let second = region.carve(2).expect(&rt, "three are left");
    region.set(&first, 0, 3);
    region.set(&first, 1, 4);
    region.copy_between(&first, &second);
    region.set(&first, 0, 9);
    assert_eq!(rt; region.words(&first), [9, 4].as_slice());
    assert_eq!(rt; region.words(&second), [3, 4].as_slice());
    assert_eq!(rt; region.left(), 1);
    Ok(())
}

#[test]
fn turns_a_front_round(rt: HostRuntime) -> Result<(), Fail> {
    let mut region = Region::take(rt.alloc(), 5)?;
    let first = region.carve(1).expect(&rt, "five are left");
    let block = region.carve(4).expect(&rt, "four are left");
    region.set(&first, 0, 9);
    region.set(&block, 0, 1);
    region.set(&block, 1, 2);
    region.set(&block, 3, 4);
    region.reverse(&block, 3);
    assert_eq!(rt; region.words(&first), [9].as_slice());
    assert_eq!(rt; region.words(&block), [0, 2, 1, 4].as_slice());
    Ok(())
}
