use crate::forms::text;
use std::alloc::Global;

/// Whether the bytes are a text that writes these.
fn writes(alloc: Global, written: &[u8], bytes: &[u8]) -> bool {
    match text(alloc, written) {
        Ok(read) => read.as_slice() == bytes,
        Err(_) => false,
    }
}

#[test]
fn escapes_are_read(rt: HostRuntime) {
    let cases: [(&[u8], &[u8]); 9] = [
        (b"", b""),
        (b"!~", b"!~"),
        (b"\\\\", b"\\"),
        (b"\\\\\\\\", b"\\\\"),
        (b"\\x00\\x5c", b"\0\\"),
        (b"\\xaf\\xFA\\xAf", b"\xaf\xfa\xaf"),
        (b"\\x09\\x0a\\x20", b"\t\n "),
        (b"a\\\\x41", b"a\\x41"),
        (b"\\x41b\\x5cx41", b"Ab\\x41"),
    ];
    for (written, bytes) in cases {
        assert!(rt; writes(rt.alloc(), written, bytes), "{written:?}");
    }
}
