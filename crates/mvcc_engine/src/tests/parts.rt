//! Flushes and compactions, and reads across parts.
use super::*;

/// How many names each of the first three parts of an engine holds.
fn keys_of_parts(engine: &Engine) -> Result<[u64; 3], OutOfMemory> {
    let shapes = engine.layout()?;
    let mut keys = [0; 3];
    for (count, shape) in keys.iter_mut().zip(shapes.iter()) {
        *count = shape.keys;
    }
    Ok(keys)
}

/// What each command leaves in the parts, and what is read of them.
#[test]
fn parts_come_and_go(rt: HostRuntime) -> Result<(), Fail> {
    let put = |wall, value| Call::Write(Writer::At(wall), b"a", Write::Put(value));
    let calls = [
        (put(1, ABC), Answer::Done),
        (Call::Flush, Answer::Done),
        (Call::Flush, Answer::Done),
        (put(2, X), Answer::Done),
        (
            Call::Write(Writer::At(1), b"b", Write::Delete),
            Answer::WasThere(false),
        ),
        (Call::Flush, Answer::Done),
        (Call::Compact(2), Answer::Done),
        (Call::Get(b"a", 1), Answer::Shown(ABC, 1)),
        (Call::Compact(1), Answer::Done),
        (put(2, DE), Answer::Refused(Why::TooOld(2))),
        (Call::Get(b"a", 0), Answer::Nothing),
        (Call::Get(b"a", 1), Answer::Shown(ABC, 1)),
        (Call::Get(b"a", 9), Answer::Shown(X, 2)),
        (Call::Get(b"b", 9), Answer::Nothing),
        (Call::Get(b"aa", 9), Answer::Nothing),
    ];
    for (made, keys) in [
        (1, [1, 0, 0]),
        (3, [0, 1, 0]),
        (4, [1, 1, 0]),
        (5, [2, 1, 0]),
        (6, [0, 2, 1]),
        (8, [0, 2, 1]),
        (15, [0, 3, 0]),
    ] {
        let calls = calls.get(..made).unwrap_or(&[]);
        let (wrong, engine) = course(rt.alloc(), LARGEST, calls)?;
        assert_eq!(rt; wrong, None);
        assert_eq!(rt; keys_of_parts(&engine)?, keys);
    }
    Ok(())
}
