//! Worked values and damaged ones, against bytes that were written by hand.
use super::*;
use mvcc_key::{Key, Timestamp};
use std::alloc::Global;
use std::process::Abort;
use std::test::Fail;

/// This many nanoseconds of wall time.
fn at(wall: u64) -> Result<Timestamp, Fail> {
    Ok(Timestamp::new(wall, 0).ok_or("a timestamp in range")?)
}

/// The value of a version at four seconds is these bytes, and these bytes are the value.
fn check(rt: &impl Abort, alloc: Global, value: ValueRef<'_>, bytes: &[u8]) -> Result<(), Fail> {
    let ts = at(4_000_000_000)?;
    assert_eq!(rt;
        encode(alloc, value.body, value.local, ts)?.as_slice(),
        bytes
    );
    assert_eq!(rt;
        encoded_len(value.body, value.local, ts),
        bytes.len() as u64
    );
    assert!(rt; decode(bytes, ts) == Ok(value), "{bytes:?}");
    assert_eq!(rt; is_deletion_value(bytes), is_deletion(&value));
    if decode(bytes, ts).is_ok() {
        assert!(rt; read(bytes, ts) == value);
    }
    Ok(())
}

#[test]
fn worked_values(rt: HostRuntime) -> Result<(), Fail> {
    let plain = [
        (Body::Deletion, b"".as_slice()),
        (Body::Bytes(b"abc"), b"\x00\x00\x00\x00\x03abc"),
        (Body::Bytes(b""), b"\x00\x00\x00\x00\x03"),
        (Body::Int(0), b"\x00\x00\x00\x00\x01\x00"),
        (Body::Int(-1), b"\x00\x00\x00\x00\x01\x01"),
        (Body::Int(5), b"\x00\x00\x00\x00\x01\x0a"),
        (Body::Int(100), b"\x00\x00\x00\x00\x01\xc8\x01"),
        (
            Body::Int(i64::MAX),
            b"\x00\x00\x00\x00\x01\xfe\xff\xff\xff\xff\xff\xff\xff\xff\x01",
        ),
        (
            Body::Int(i64::MIN),
            b"\x00\x00\x00\x00\x01\xff\xff\xff\xff\xff\xff\xff\xff\xff\x01",
        ),
    ];
    for (body, bytes) in plain {
        let local = Timestamp::NONE;
        check(&rt, rt.alloc(), ValueRef { local, body }, bytes)?;
    }
    let with_local = [
        (
            Body::Bytes(b"de"),
            b"\x00\x00\x00\x0c\x7f\x00\x00\x00\x00\x77\x35\x94\x00\x00\x00\x00\x00\x00\x00\x00\x00\x03de".as_slice(),
        ),
        (
            Body::Deletion,
            b"\x00\x00\x00\x0c\x7f\x00\x00\x00\x00\x77\x35\x94\x00\x00\x00\x00\x00",
        ),
    ];
    for (body, bytes) in with_local {
        let local = at(2_000_000_000)?;
        check(&rt, rt.alloc(), ValueRef { local, body }, bytes)?;
    }
    Ok(())
}

#[test]
fn lengths_of_values(rt: HostRuntime) {
    let rows = [
        (true, 0, true),
        (true, 5, false),
        (true, 16, false),
        (true, 17, true),
        (true, 18, false),
        (false, 0, false),
        (false, 4, false),
        (false, 5, true),
        (false, u32::MAX, true),
    ];
    for (deletion, len, one) in rows {
        assert_eq!(rt; is_value_len(deletion, len), one);
    }
}

#[test]
fn local_timestamps_that_are_left_out(rt: HostRuntime) -> Result<(), Fail> {
    let ts = at(2_000_000_000)?;
    for local in [Timestamp::NONE, ts, at(3_000_000_000)?] {
        let bytes = encode(rt.alloc(), Body::Int(5), local, ts)?;
        assert_eq!(rt; bytes.as_slice(), b"\x00\x00\x00\x00\x01\x0a".as_slice());
        assert_eq!(rt; encoded_len(Body::Int(5), local, ts), 6);
    }
    Ok(())
}

#[test]
fn damaged_values(rt: HostRuntime) -> Result<(), Fail> {
    let rows = [
        // Too few bytes for anything.
        (b"\x00".as_slice(), ValueFault::Short),
        (b"\x00\x00\x00\x0c", ValueFault::Short),
        // A header, which is judged by its beginning, then by its length, then by its timestamp.
        (b"\x00\x00\x00\x00\x7f", ValueFault::Header),
        (
            b"\x01\x00\x00\x0c\x7f\x00\x00\x00\x00\x77\x35\x94\x00\x00\x00\x00\x00",
            ValueFault::Header,
        ),
        (b"\x00\x00\x00\x0c\x7f", ValueFault::Short),
        (
            b"\x00\x00\x00\x0c\x7f\x00\x00\x00\x00\x77\x35\x94\x00\x00\x00\x00",
            ValueFault::Short,
        ),
        // No timestamp, one that is the version's, one above it, and parts out of their ranges.
        (
            b"\x00\x00\x00\x0c\x7f\x00\x00\x00\x00\x00\x00\x00\x00\x00\x00\x00\x00",
            ValueFault::LocalRange,
        ),
        (
            b"\x00\x00\x00\x0c\x7f\x00\x00\x00\x00\xee\x6b\x28\x00\x00\x00\x00\x00",
            ValueFault::LocalRange,
        ),
        (
            b"\x00\x00\x00\x0c\x7f\x00\x00\x00\x00\xee\x6b\x28\x00\x00\x00\x00\x01",
            ValueFault::LocalRange,
        ),
        (
            b"\x00\x00\x00\x0c\x7f\x80\x00\x00\x00\x00\x00\x00\x00\x00\x00\x00\x00",
            ValueFault::LocalRange,
        ),
        (
            b"\x00\x00\x00\x0c\x7f\x00\x00\x00\x00\x77\x35\x94\x00\x80\x00\x00\x00",
            ValueFault::LocalRange,
        ),
        // A bad timestamp before a bad plain value, and bad plain values behind a good one.
        (
            b"\x00\x00\x00\x0c\x7f\x00\x00\x00\x00\x00\x00\x00\x00\x00\x00\x00\x00\x01",
            ValueFault::LocalRange,
        ),
        (
            b"\x00\x00\x00\x0c\x7f\x00\x00\x00\x00\x77\x35\x94\x00\x00\x00\x00\x00\x01\x02\x03\x04",
            ValueFault::Short,
        ),
        (
            b"\x00\x00\x00\x0c\x7f\x00\x00\x00\x00\x77\x35\x94\x00\x00\x00\x00\x00\x00\x00\x00\x0c\x7f",
            ValueFault::Checksum,
        ),
        (
            b"\x00\x00\x00\x0c\x7f\x00\x00\x00\x00\x77\x35\x94\x00\x00\x00\x00\x00\x00\x00\x00\x00\x7f",
            ValueFault::Tag,
        ),
        // The checksum before the tag, and the tag before the data.
        (b"\x01\x00\x00\x00\x03abc", ValueFault::Checksum),
        (b"\x00\x00\x00\x01\x02", ValueFault::Checksum),
        (b"\x00\x00\x00\x0c\x03", ValueFault::Checksum),
        (b"\x00\x00\x00\x00\x02\x80", ValueFault::Tag),
        // No group, an open end, a longer form of 0 and of 5, a byte more, 2^64, and eleven groups.
        (b"\x00\x00\x00\x00\x01", ValueFault::IntForm),
        (b"\x00\x00\x00\x00\x01\x80", ValueFault::IntForm),
        (b"\x00\x00\x00\x00\x01\x80\x00", ValueFault::IntForm),
        (b"\x00\x00\x00\x00\x01\x8a\x00", ValueFault::IntForm),
        (b"\x00\x00\x00\x00\x01\x0a\x0a", ValueFault::IntForm),
        (
            b"\x00\x00\x00\x00\x01\x80\x80\x80\x80\x80\x80\x80\x80\x80\x02",
            ValueFault::IntForm,
        ),
        (
            b"\x00\x00\x00\x00\x01\x80\x80\x80\x80\x80\x80\x80\x80\x80\x80\x01",
            ValueFault::IntForm,
        ),
    ];
    let ts = at(4_000_000_000)?;
    for (bytes, fault) in rows {
        assert!(rt; decode(bytes, ts) == Err(fault), "{bytes:?}");
    }
    assert_eq!(rt;
        ValueFault::Tag.to_string(rt.alloc())?.as_str(),
        "the value's tag is unknown"
    );
    Ok(())
}

#[test]
fn kinds_of_values(rt: HostRuntime) -> Result<(), Fail> {
    let rows = [
        (Body::Deletion, true, None),
        (Body::Bytes(b"7"), false, None),
        (Body::Int(7), false, Some(7)),
    ];
    for (body, deletion, number) in rows {
        let local = Timestamp::NONE;
        let value = ValueRef { local, body };
        assert_eq!(rt; is_deletion(&value), deletion);
        assert_eq!(rt; as_int(&value), number);
    }
    for value in [PlainValue::Bytes(b"abc"), PlainValue::Int(-7)] {
        let found = Found {
            key: Key::copy(rt.alloc(), b"k")?,
            value: OwnedValue::copy(rt.alloc(), value)?,
            ts: Timestamp::NONE,
        };
        assert!(rt; found.value.as_plain() == value);
        assert!(rt;
            !is_deletion(&ValueRef {
                local: Timestamp::NONE,
                body: Body::from(value)
            })
        );
    }
    Ok(())
}

#[test]
fn plain_values_lie_behind_headers(rt: HostRuntime) {
    let rows = [
        (b"".as_slice(), b"".as_slice()),
        (b"\0\0\0\0\x03abc", b"\0\0\0\0\x03abc"),
        (
            b"\0\0\0\x0c\x7f\0\0\0\0\x77\x35\x94\0\0\0\0\0\0\0\0\0\x03de",
            b"\0\0\0\0\x03de",
        ),
        (b"\0\0\0\x0c\x7f\0\0\0\0\x77\x35\x94\0\0\0\0\0", b""),
    ];
    for (bytes, plain) in rows {
        assert_eq!(rt; plain_value(bytes), plain);
    }
}

#[test]
fn local_timestamps_that_are_kept(rt: HostRuntime) -> Result<(), Fail> {
    for (local, kept) in [(0, 0), (3, 3), (4, 0), (5, 0)] {
        assert_eq!(rt; kept_local(at(local)?, at(4)?), at(kept)?, "{local}");
    }
    has_bytes(Body::Int(i64::MIN));
    Ok(())
}
