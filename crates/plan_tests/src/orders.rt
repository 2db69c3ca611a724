// An order of a list of rows, without a plan around it.
use bus::bus::Bus;
use frames::row::Row;
use ordering::orders::find_order;
use plan::closed::Standing;
use std::test::Fail;
use timing::everywhere::Frames;

const PATIENT: Row = Row {
    sender: 1,
    fill: 8,
    period: 10_000_000,
    deadline: 10_000_000,
    set: 1,
};

// The last place goes to the first frame that is in time there. A clone is the same order, and stands as the same.
#[test]
fn an_order_and_its_clone(rt: HostRuntime) -> Result<(), Fail> {
    let bank = Bus::new(2_000, 500)?;
    let rows = [PATIENT; 2];
    let frames = Frames {
        bank: &bank,
        rows: &rows,
    };
    let order = find_order(&frames).map_err(|_conflict| Fail::new("there is an order"))?;
    assert_eq!(rt; order.numbers.as_slice(), [1, 0].as_slice());
    assert_eq!(rt; order.examinations, 2);
    // Nothing of it is allocated, so it is proved that the clone is there.
    let again = order.clone().unwrap();
    assert_eq!(rt; again.numbers.as_slice(), order.numbers.as_slice());
    assert_eq!(rt; again.examinations, order.examinations);
    let standing = Standing::Ordered(order);
    let Standing::Ordered(stands) = standing.clone().unwrap() else {
        return Err(Fail::new("not an order"));
    };
    assert_eq!(rt; stands.numbers.as_slice(), again.numbers.as_slice());
    Ok(())
}

// A copy is the same order, and stands as the same; what it was copied from stays as it was.
#[test]
fn an_order_and_its_copy(rt: HostRuntime) -> Result<(), Fail> {
    let bank = Bus::new(2_000, 500)?;
    let rows = [PATIENT; 2];
    let frames = Frames {
        bank: &bank,
        rows: &rows,
    };
    let order = find_order(&frames).map_err(|_conflict| Fail::new("there is an order"))?;
    let copy = order;
    assert_eq!(rt; copy.numbers.as_slice(), [1, 0].as_slice());
    assert_eq!(rt; copy.examinations, 2);
    assert_eq!(rt; order.numbers.as_slice(), [1, 0].as_slice());
    assert_eq!(rt; order.examinations, 2);
    let standing = Standing::Ordered(order);
    let again = standing;
    let Standing::Ordered(copied) = again else {
        return Err(Fail::new("not an order"));
    };
    let Standing::Ordered(stands) = standing else {
        return Err(Fail::new("no order any more"));
    };
    assert_eq!(rt; copied.numbers.as_slice(), [1, 0].as_slice());
    assert_eq!(rt; stands.numbers.as_slice(), [1, 0].as_slice());
    Ok(())
}
