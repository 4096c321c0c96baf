use super::*;
use std::io;
use std::io::{ErrorKind, Read, Write};
use std::test::Fail;

#[test]
fn a_source_gives_pieces_and_fails_where_listed(rt: HostRuntime) -> Result<(), Fail> {
    let bytes = Vec::from_slice(rt.alloc(), b"one two three")?;
    let failing = vec![in rt.alloc(); 1u64, 3, 9]?;
    let mut source = MemSource::new(bytes, 5, failing);
    let mut buffer = [0u8; 8];
    // the room of a read, its outcome, and the bytes that it gives
    let reads: [(usize, Result<usize, Failed>, &str); 8] = [
        (8, Ok(5), "one t"),
        (8, Err(Failed), ""),
        (0, Ok(0), ""),
        (3, Ok(3), "wo "),
        (1, Err(Failed), ""),
        (8, Ok(5), "three"),
        (8, Ok(0), ""),
        (0, Ok(0), ""),
    ];
    for (room, wanted, bytes) in reads {
        assert_eq!(rt;
            source.read(&mut buffer[..room.min(8)]),
            wanted,
            "room for {room}"
        );
        assert!(rt; buffer.starts_with(bytes.as_bytes()), "room for {room}");
    }
    Ok(())
}

#[test]
fn a_sink_takes_pieces_and_fails_where_listed_or_full(rt: HostRuntime) -> Result<(), Fail> {
    let failing = vec![in rt.alloc(); 1u64]?;
    let mut sink = MemSink::new(rt.alloc(), 7, 3, failing)?;
    let writes: [(&str, Result<usize, Failed>); 7] = [
        ("one two", Ok(3)),
        ("two", Err(Failed)),
        ("", Ok(0)),
        ("two three", Ok(3)),
        ("three", Ok(1)),
        ("four", Err(Failed)),
        ("", Ok(0)),
    ];
    for (piece, wanted) in writes {
        assert_eq!(rt; sink.write(piece.as_bytes()), wanted, "{piece}");
    }
    assert_eq!(rt; sink.bytes(), b"onetwot".as_slice());
    Ok(())
}

#[test]
fn a_piece_is_written_whole_or_from_its_beginning(rt: HostRuntime) -> Result<(), Fail> {
    let piece = b"one two three".as_slice();
    // the room, the most that one write takes, the call that fails, and what is held then
    let cases: [(usize, usize, u64, Result<(), Failed>, &str); 5] = [
        (13, 4, 9, Ok(()), "one two three"),
        (13, 13, 1, Ok(()), "one two three"),
        (7, 3, 9, Err(Failed), "one two"),
        (13, 3, 2, Err(Failed), "one tw"),
        (13, 0, 9, Err(Failed), ""),
    ];
    for (room, most, fault, wanted, held) in cases {
        let failing = vec![in rt.alloc(); fault]?;
        let mut sink = MemSink::new(rt.alloc(), room, most, failing)?;
        assert_eq!(rt;
            write_all(&mut sink, piece),
            wanted,
            "{room}, {most}, {fault}"
        );
        assert_eq!(rt; sink.bytes(), held.as_bytes(), "{room}, {most}, {fault}");
    }
    Ok(())
}

#[test]
fn sure_ends_never_fail(rt: HostRuntime) -> Result<(), Fail> {
    let mut source = SureSource::new(Vec::from_slice(rt.alloc(), b"abcde")?, 3);
    let mut buffer = [0u8; 4];
    for wanted in ["abc", "de", ""] {
        assert_eq!(rt; source.read(&mut buffer), Ok(wanted.len()));
        assert!(rt; buffer.starts_with(wanted.as_bytes()));
    }
    let mut sink = SureSink::new();
    assert_eq!(rt; sink.write(b"abcde"), Ok(5));
    assert_eq!(rt; write_all(&mut sink, b"abcde"), Ok(()));
    Ok(())
}

/// Gives a byte, is interrupted, gives a byte, fails, gives a byte, and so on.
#[derive(Drop)]
struct FaultyReader {
    calls: u8,
}

impl Read for FaultyReader {
    fn read(&mut self, into: &mut [u8]) -> io::Result<usize> {
        let call = self.calls;
        self.calls = call.wrapping_add(1);
        if call % 4 == 1 {
            return Err(io::Error::from(ErrorKind::Interrupted));
        }
        if call % 4 == 3 {
            return Err(io::Error::from(ErrorKind::BrokenPipe));
        }
        match into.first_mut() {
            Some(byte) => {
                *byte = b'a';
                Ok(1)
            }
            None => Ok(0),
        }
    }
}

#[test]
fn a_reader_gives_its_bytes_and_its_faults(rt: HostRuntime) -> Result<(), Fail> {
    let mut buffer = [0u8; 4];
    let mut source = ReaderSource::new(b"abcde".as_slice());
    for wanted in ["abcd", "e", ""] {
        assert_eq!(rt; source.read(&mut buffer), Ok(wanted.len()));
        assert!(rt; buffer.starts_with(wanted.as_bytes()));
    }
    let mut faulty = ReaderSource::new(FaultyReader { calls: 0 });
    for wanted in [Ok(1), Ok(1), Err(Failed), Ok(1), Ok(1), Err(Failed)] {
        assert_eq!(rt; faulty.read(&mut buffer), wanted);
    }
    Ok(())
}

/// Takes two bytes a write. Its second write and its second flush are interrupted, its fifth write fails, its sixth takes
/// nothing, and its fifth flush fails.
#[derive(Drop)]
struct FaultyWriter {
    writes: u8,
    flushes: u8,
}

impl Write for FaultyWriter {
    fn write(&mut self, piece: &[u8]) -> io::Result<usize> {
        let call = self.writes;
        self.writes = call.wrapping_add(1);
        match call {
            1 => Err(io::Error::from(ErrorKind::Interrupted)),
            4 => Err(io::Error::from(ErrorKind::BrokenPipe)),
            5 => Ok(0),
            _ => Ok(piece.len().min(2)),
        }
    }

    fn flush(&mut self) -> io::Result<()> {
        let call = self.flushes;
        self.flushes = call.wrapping_add(1);
        match call {
            1 => Err(io::Error::from(ErrorKind::Interrupted)),
            4 => Err(io::Error::from(ErrorKind::BrokenPipe)),
            _ => Ok(()),
        }
    }
}

#[test]
fn a_writer_takes_pieces_and_tells_its_faults(rt: HostRuntime) -> Result<(), Fail> {
    let mut held = Vec::new(rt.alloc());
    let mut sink = WriterSink::new(&mut held);
    assert_eq!(rt; write_all(&mut sink, b"abc"), Ok(()));
    assert_eq!(rt; sink.write(b"de"), Ok(2));
    assert_eq!(rt; held.as_slice(), b"abcde".as_slice());

    let mut faulty = WriterSink::new(FaultyWriter {
        writes: 0,
        flushes: 0,
    });
    let wanted = [
        Ok(2),
        Ok(2),
        Ok(2),
        Err(Failed),
        Err(Failed),
        Err(Failed),
        Ok(2),
    ];
    for outcome in wanted {
        assert_eq!(rt; faulty.write(b"abc"), outcome);
    }
    Ok(())
}
