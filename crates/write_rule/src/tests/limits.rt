//! The first tests of a write, and the limit of an intent's record.
use super::*;

/// What the first tests may tell: the length of what is too long.
#[derive(Clone, Copy, Debug, PartialEq)]
enum Early {
    Empty,
    KeyOf(u64),
    ValueOf(u64),
    NoTime,
    Nothing,
}

fn early_fault(planned: &Planned) -> Early {
    match planned {
        Err(WriteFault::EmptyKey) => Early::Empty,
        Err(WriteFault::KeyTooLong(length)) => Early::KeyOf(*length),
        Err(WriteFault::ValueTooLong(length)) => Early::ValueOf(*length),
        Err(WriteFault::BadTimestamp) => Early::NoTime,
        _ => Early::Nothing,
    }
}

/// What the first tests of a put tell, by the lengths of the key and of the value, and the wall time. The key has another's
/// intent.
fn put_of(alloc: Global, key_len: usize, value_len: usize, wall: u64) -> Result<Early, Fail> {
    let foreign = Laid {
        id: 2,
        ..own_at(7, &[], (1, ABC))
    };
    let items = key_of(alloc, (Some(foreign), NO_ITEMS))?;
    let key = vec![in alloc; b'k'; key_len]?;
    let value = vec![in alloc; b'v'; value_len]?;
    let kind = WriteKind::Put(PlainValue::Bytes(&value));
    let writer = Writer::At(wall);
    let planned = plan_by(alloc, &key, &items, writer, kind, Timestamp::NONE)?;
    Ok(early_fault(&planned))
}

#[test]
fn the_first_of_several_refusals_is_told(rt: HostRuntime) -> Result<(), Fail> {
    let rows = [
        (0, 1_048_577, 0, Early::Empty),
        (4097, 1_048_577, 0, Early::KeyOf(4097)),
        (4096, 1_048_577, 0, Early::ValueOf(1_048_577)),
        (4096, 1_048_576, 0, Early::NoTime),
        (4096, 1_048_576, 1, Early::Nothing),
        (1, 0, 1, Early::Nothing),
    ];
    for (key_len, value_len, wall, want) in rows {
        let told = put_of(rt.alloc(), key_len, value_len, wall)?;
        assert_eq!(rt; told, want, "{key_len} {value_len} {wall}");
    }
    Ok(())
}

/// A plain value that has so many bytes, with those before its data.
fn plain_of(alloc: Global, length: usize) -> Result<Vec<u8>, Fail> {
    let mut value = vec![in alloc; b'v'; length]?;
    for (byte, first) in value.iter_mut().zip(b"\0\0\0\0\x03") {
        *byte = *first;
    }
    Ok(value)
}

/// The record of an own intent with 15 earlier entries of this plain value, at the sequences 0 to 14, and one of this length,
/// at 15.
fn long_record(alloc: Global, entry: &[u8], last: u32) -> Result<Vec<u8>, Fail> {
    let mut head = record_of(alloc, &own_at(7, &[], (15, ABC)))?;
    head.truncate(37);
    head.extend_from_slice(&last.to_be_bytes())?;
    head.extend_from_slice(&15_u32.to_be_bytes())?;
    for sequence in 0..15_u32 {
        head.extend_from_slice(&sequence.to_be_bytes())?;
        head.extend_from_slice(&len_of(entry).to_be_bytes())?;
        head.extend_from_slice(entry)?;
    }
    Ok(head)
}

/// The length of the record that is too long, where a deletion comes behind an own intent of 15 entries with a mebibyte of
/// data and one whose plain value has so many bytes.
fn too_long(alloc: Global, last: usize) -> Result<Option<u64>, Fail> {
    let value = plain_of(alloc, last)?;
    let entry = plain_of(alloc, 1_048_581)?;
    let head = long_record(alloc, &entry, len_of(&value))?;
    let intent = ListedIntent::read(Bytes::from_vec(head), Bytes::from_vec(value));
    if intent.is_none() {
        return Err("no intent has these bytes".into());
    }
    let items = ListedItems::new(alloc, Key::copy(alloc, b"k")?, intent);
    match plan_by(
        alloc,
        b"k",
        &items,
        txn(16),
        WriteKind::Delete,
        Timestamp::NONE,
    )? {
        Ok(_) => Ok(None),
        Err(WriteFault::IntentTooLong(length)) => Ok(Some(length)),
        Err(_) => Err("another refusal".into()),
    }
}

#[test]
fn a_record_has_up_to_16_mebibytes(rt: HostRuntime) -> Result<(), Fail> {
    assert_eq!(rt; too_long(rt.alloc(), 1_048_328)?, None);
    assert_eq!(rt; too_long(rt.alloc(), 1_048_329)?, Some(16_777_217));
    Ok(())
}
