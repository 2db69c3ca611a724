// Questions to banks: which have an answer, and which have none.
use crate::asking::about;
use domains::domain::Domain;
use domains::pair::Pair;
use domains::place::Place;
use frames::frame::Frame;
use frames::row::Row;
use gateway::gateway::Gateway;
use kinds::look::look;
use radio::radio::Radio;
use relief::relief;
use std::test::Fail;
use streams::stream::Stream;

fn row(fill: u8) -> Row {
    Row {
        sender: 1,
        fill,
        period: 10_000_000,
        deadline: 10_000_000,
        set: 15,
    }
}

fn stream(cost: u64) -> Stream {
    Stream {
        cost,
        period: 10_000_000,
    }
}

// A frame of payload 8 below one of payload 64, in a gateway, a link and two numbers past them.
#[test]
fn numbers_of_a_bank(rt: HostRuntime) -> Result<(), Fail> {
    let gateway = Gateway::new(20_000, 100)?;
    let radio = Radio::new(50_000)?;
    let bank = Pair::new(gateway, radio);
    let rows = [row(64), row(8)];
    let places = [Place::Above, Place::Absent];
    let question = about(&rows, &places, 1);
    let frame = Frame::try_from(rows[1])?;
    assert_eq!(rt; bank.count(), 2);
    assert_eq!(rt; bank.answer(0, &question), Some(47_200), "gateway");
    assert_eq!(rt; bank.answer(1, &question), Some(4_200_000), "radio");
    assert_eq!(rt; bank.answer(2, &question), None, "outside the bank");
    assert_eq!(rt; bank.cost(0, &frame), 20_800);
    assert_eq!(rt; bank.cost(1, &frame), 700_000);
    assert_eq!(rt; bank.cost(2, &frame), 0);
    Ok(())
}

// One frame above and one below, as streams of a gateway. A copy and a clone show the same, and so does what they are of.
#[test]
fn streams_and_their_copy(rt: HostRuntime) -> Result<(), Fail> {
    let gateway = Gateway::new(20_000, 100)?;
    let rows = [row(64), row(8), row(8)];
    let places = [Place::Above, Place::Absent, Place::Below];
    let Some(streams) = look(&gateway, &about(&rows, &places, 1)) else {
        return Err(Fail::new("nothing is seen"));
    };
    let copy = streams;
    let again = streams.clone().unwrap();
    for seen in [streams, copy, again] {
        let view = seen.view();
        assert_eq!(rt; view.own, stream(20_800));
        assert_eq!(rt; view.above.as_slice(), [stream(26_400)].as_slice());
        assert_eq!(rt; view.below, [stream(20_800)].as_slice());
    }
    Ok(())
}

#[test]
fn more_than_four(rt: HostRuntime) -> Result<(), Fail> {
    let link = Radio::new(50_000)?;
    let three = Pair::new(Pair::new(link, link), link);
    let six = Pair::new(three, three);
    let frame = Frame::try_from(row(8))?;
    assert_eq!(rt; six.count(), 4);
    assert_eq!(rt; six.cost(3, &frame), 700_000);
    assert_eq!(rt; six.cost(4, &frame), 0);
    assert_eq!(rt; six.answer(3, &about(&[row(8)], &[], 0)), Some(700_000));
    assert_eq!(rt; six.answer(4, &about(&[row(8)], &[], 0)), None);
    Ok(())
}

#[test]
fn no_answer(rt: HostRuntime) -> Result<(), Fail> {
    let radio = Radio::new(10_000)?;
    let many = [row(1); 96];
    let more = [row(1); 97];
    assert_eq!(rt;
        radio.answer(0, &about(&many, &[], 95)),
        Some(70_000),
        "96 rows"
    );
    assert_eq!(rt; radio.answer(0, &about(&more, &[], 0)), None, "97 rows");
    assert_eq!(rt;
        radio.answer(0, &about(&many, &[], 96)),
        None,
        "not in the list"
    );
    let rows = [row(1), row(0)];
    assert_eq!(rt;
        radio.answer(0, &about(&rows, &[], 1)),
        None,
        "its own row is unlawful"
    );
    assert_eq!(rt;
        radio.answer(0, &about(&rows, &[Place::Absent, Place::Above], 0)),
        None,
        "an unlawful row above"
    );
    assert_eq!(rt;
        radio.answer(0, &about(&rows, &[Place::Absent, Place::Below], 0)),
        None,
        "an unlawful row below"
    );
    assert_eq!(rt;
        radio.answer(0, &about(&rows, &[Place::Absent, Place::Absent], 0)),
        Some(70_000),
        "it is not told of"
    );
    Ok(())
}

#[test]
fn gain_without_a_frame(rt: HostRuntime) -> Result<(), Fail> {
    let gateway = Gateway::new(20_000, 100)?;
    let rows = [row(64), row(8)];
    let mut places = [Place::Absent; 96];
    places[0] = Place::Above;
    assert_eq!(rt; relief(&gateway, 0, &rows, places, 1, 0), Some(26_400));
    assert_eq!(rt;
        relief(&gateway, 0, &rows, places, 1, 96),
        Some(0),
        "not in the table"
    );
    assert_eq!(rt;
        relief(&gateway, 1, &rows, places, 1, 0),
        None,
        "outside the bank"
    );
    Ok(())
}
