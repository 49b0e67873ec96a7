//! Units counted and laid out, and the room of the lists beside a region.

use m5_region::bench::Bench;
use m5_region::queue::Ready;
use m5_region::region::Region;
use m5_region::value::Value;
use std::test::*;

#[test]
fn three_fields_leave_one_of_five_units(rt: HostRuntime) -> Result<(), Fail> {
    let mut region = Region::make(rt.alloc(), 5).ok().ok_or("no room")?;
    let three = region.add(&[Value::Null, Value::Bool(true), Value::Int(-1)]);
    let three = three.ok_or("no units")?;
    assert_eq!(rt; region.units_left(), 1);
    assert!(rt; region.add(&[Value::Null]).is_none());
    assert!(rt; region.add_text(b"").is_some());
    assert_eq!(rt; region.units_left(), 0);
    assert_eq!(rt; region.count(), 2);
    assert_eq!(rt; three.0, 0);
    assert_eq!(rt; region.fields(three), 3);
    assert_eq!(rt; region.field(three, 2), Value::Int(-1));
    Ok(())
}

#[test]
fn a_text_of_nine_bytes_takes_three_units(rt: HostRuntime) -> Result<(), Fail> {
    let mut region = Region::make(rt.alloc(), 5).ok().ok_or("no room")?;
    let first = region.add_text(b"nine byte").ok_or("no units")?;
    assert_eq!(rt; region.units_left(), 2);
    assert!(rt; region.add_text(b"eight by").is_some());
    assert_eq!(rt; region.units_left(), 0);
    region.cut(1);
    assert_eq!(rt; region.units_left(), 2);
    assert_eq!(rt; region.text(first), b"nine byte".as_slice());
    Ok(())
}

#[test]
fn a_text_and_an_array_as_units(rt: HostRuntime) -> Result<(), Fail> {
    let mut region = Region::make(rt.alloc(), 5).ok().ok_or("no room")?;
    assert!(rt; region.add_text(b"ab").is_some());
    assert!(rt; region.add(&[Value::Int(5)]).is_some());
    assert_eq!(rt; region.kinds(), [6, 7, 5, 2].as_slice());
    assert_eq!(rt;
        region.content(),
        b"\0\0\0\0\0\0\0\x02ab\0\0\0\0\0\0\0\0\0\0\0\0\0\x01\0\0\0\0\0\0\0\x05".as_slice()
    );
    Ok(())
}

#[test]
fn an_array_is_filled_and_texts_are_joined(rt: HostRuntime) -> Result<(), Fail> {
    let mut region = Region::make(rt.alloc(), 9).ok().ok_or("no room")?;
    let text = region.add_text(b"ab").ok_or("no units")?;
    let twice = region.add_joined(text, text).ok_or("no units")?;
    assert_eq!(rt; region.text(twice), b"abab".as_slice());
    let pair = region.add_nulls(2).ok_or("no units")?;
    region.fill(pair, 1, Value::Text(twice));
    assert_eq!(rt; region.kinds(), [6, 7, 6, 7, 5, 0, 3].as_slice());
    assert!(rt; region.add_nulls(2).is_none());
    Ok(())
}

#[test]
fn a_full_queue_takes_no_thread(rt: HostRuntime) -> Result<(), Fail> {
    let mut bench = Bench::make(rt.alloc(), 1_048_640, 7).ok().ok_or("no room")?;
    let thread = Ready {
        code: Value::Null,
        argument: Value::Int(1),
    };
    for _ in 0..4096 {
        assert!(rt; bench.threads.push(thread));
        assert!(rt; bench.cells.push(Value::Null));
    }
    assert!(rt; !bench.threads.push(thread));
    assert!(rt; !bench.threads.push_front(thread));
    assert!(rt; !bench.cells.push(Value::Null));
    assert!(rt; bench.threads.pop().is_some());
    assert!(rt;
        bench.threads.push_front(Ready {
            code: Value::Null,
            argument: Value::Int(2)
        })
    );
    assert_eq!(rt;
        bench.threads.pop().map(|t| t.argument),
        Some(Value::Int(2))
    );
    assert!(rt; bench.cells.set(4095, Value::Int(3)));
    assert!(rt; !bench.cells.set(4096, Value::Int(3)));
    assert_eq!(rt; bench.cells.get(4095), Some(Value::Int(3)));
    Ok(())
}
