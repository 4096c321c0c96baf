use super::*;
use mvcc_key::OutOfMemory;
use script_words::LineFault;
use std::alloc::Global;
use std::test::Fail;

/// Lines of each command, with what may be left out and without it, in any order, and with blanks around words.
const COMMANDS: &str =
    "txn_begin t=A ts=1|txn_begin t=A ts=1 limit=2.5,3 id=urn:uuid:01234567-89ab-cdef-ABCD-ef0123456789|txn_step t=A|txn_step n=2147483647 t=A|txn_advance t=A ts=2|txn_restart t=A|txn_restart t=A ts=0|txn_refresh t=A|txn_ignore_seqs t=A seqs=3-2|txn_ignore_seqs t=A seqs=4294967295-0,1-1,1-1,1-1,1-1|txn_remove t=A|put k=\\\\ v= ts=1|put k=a int=-1 t=A|\tput \t v==x\tts=000001.500000000,00000002  k=\\x61 \t|del k=a ts=0|del t=A k=a|cput k=a v=x ts=1|cput k=a int=1 t=A cond=\\x00|cput k=a v=x ts=1 cond_int=-9223372036854775808|initput k=a v=x t=A|initput k=a int=0 ts=1|increment k=a ts=1|increment k=a t=A inc=-0|put k=a v=x t=A local=1|del local=0 k=a ts=1|cput k=a v=x ts=2 local=1.5,3|initput k=a v=x local=1 t=A|increment k=a ts=1 local=1|resolve t=A k=a status=committed|resolve status=ABORTED ts=1 k= t=A|resolve t=A k=a status=PENDING ts=0|resolve_range t=A k=a end=b status=aborted|resolve_range max=9223372036854775807 t=A k=b end=a status=COMMITTED ts=1|resolve_range t=A k= end= status=pending max=0|get k=a ts=1|age now=0|stats|flush|compact keep=1|layout";

/// Lines without a reading: names twice, wanting and unknown, flags for values, other commands.
const BAD_WORDS: &str =
    "put k=a k=b ts=1 v=x|put k=a ts=1 ts=1 v=x|put k=a ts=1 v=x v=x|put ts=1 v=x|put k=a v=x|put k=a ts=1|put k=a ts=1 v=x int=1|get k=a ts=1 v=x|del k=a|age now=1 now=2|compact keep=1 keep=1|compact|put k ts=1 v=x|get k=a ts|get k=a ts=1 k|get k=a ts=1 =|age now|stats now|flush x|layout keep=1|Put k=a ts=1 v=x|putt k=a ts=1 v=x|k=a put|=";

/// Writes without a reading: both or neither of `t` and `ts`, of `v` and `int`, both conditions, and words of other commands.
const BAD_WRITES: &str =
    "put k=a v=x|put k=a v=x t=A ts=1|put k=a t=A|put k=a t=A v=x int=1|put t=A t=B k=a v=x|put k=a ts=1 v=x cond=x|put k=a ts=1 v=x local=1 local=1|put k=a ts=1 v=x local|put k=a ts=1 v=x local=|del k=a t=A ts=1|del t=A k=a local=-1|get t=A k=a|get k=a ts=1 local=1|get k=a ts=1 inconsistent=1|cput k=a v=x|cput k=a v=x t=A ts=1|cput k=a ts=1|cput k=a ts=1 v=x int=1|cput k=a ts=1 v=x cond=x cond_int=1|cput k=a ts=1 v=x local=x|cput ts=1 v=x|initput k=a v=x|initput k=a v=x t=A ts=1|initput k=a t=A|initput k=a t=A v=x int=1|initput k=a ts=1 v=x cond=x|initput k=a ts=1 v=x local=1.|increment k=a|increment k=a t=A ts=1|increment ts=1|increment k=a ts=1 v=x|increment k=a ts=1 local=1,2147483648|put t= k=a v=x|put t=a.b k=a v=x|put k=a ts=1 int=|put k=a ts=1 int=1x|cput k=a ts=1 v=x cond=\\|cput k=a ts=1 v=x cond_int=+1|initput k=a t=a+b v=x|increment k=a ts=1 inc=9223372036854775808|increment k=a ts=1 inc=-9223372036854775809|increment k=a ts=1 inc=00000000000000000001";

/// Changes of transactions without a reading: words that are wanting or of others, and names, counts, ids, ranges and times that are none.
const BAD_CHANGES: &str =
    "txn_begin t=A|txn_begin ts=1|txn_begin t=A ts=1 n=1|txn_begin t=A ts=1 limit=-1|txn_begin t=A ts=1 limit=|txn_begin t=A ts=1,2147483648|txn_begin t=\"A\" ts=1|txn_begin t=aaaaaaaaaaaaaaaaaaaaaaaaaaaaaaaaaaaaaaaaaaaaaaaaaaaaaaaaaaaaaaaaa ts=1|txn_begin t=A ts=1 id=|txn_begin t=A ts=1 id=1|txn_begin t=A ts=1 id=0123456789abcdefabcdef012345678g|txn_begin t=A ts=1 id={0123456789abcdefabcdef0123456789}|txn_begin t=A ts=1 id=URN:UUID:01234567-89ab-cdef-abcd-ef0123456789|txn_step|txn_step t=A n|txn_step t=A n=2147483648|txn_step t=A n=-1|txn_step t=A n=00000000000000000001|txn_advance t=A|txn_advance t=A ts=1.|txn_restart|txn_restart t=A ts=|txn_refresh|txn_refresh t=A ts=1|txn_ignore_seqs t=A|txn_ignore_seqs t=A seqs=|txn_ignore_seqs t=A seqs=1|txn_ignore_seqs t=A seqs=1-2,|txn_ignore_seqs t=A seqs=1-2-3|txn_ignore_seqs t=A seqs=0-4294967296|txn_remove|txn_remove t=A t=A|txn_remove t=A\u{e4}|txn t=A";

/// Resolutions without a reading: a bad status, a `max` without a number, and words that are wanting, twice or of others.
const BAD_RESOLUTIONS: &str =
    "resolve t=A k=a|resolve t=A k=a status|resolve t=A k=a status=|resolve t=A k=a status=done|resolve t=A k=a status=Committed|resolve t=A k=a status=committedx|resolve t=A k=a status=abort|resolve t=A k=a status=pending status=pending|resolve k=a status=committed|resolve t=A status=committed|resolve t= k=a status=committed|resolve t=A k=\\x status=committed|resolve t=A k=a status=committed ts|resolve t=A k=a status=committed ts=|resolve t=A k=a end=b status=committed|resolve t=A k=a status=committed max=1|resolve t=A k=a status=committed local=1|resolve_range t=A k=a end=b|resolve_range t=A k=a end=b status=over|resolve_range t=A k=a status=aborted|resolve_range t=A end=b status=aborted|resolve_range k=a end=b status=aborted|resolve_range t=A k=a end=\\ status=aborted|resolve_range t=A k=a end=b status=aborted max|resolve_range t=A k=a end=b status=aborted max=|resolve_range t=A k=a end=b status=aborted max=-1|resolve_range t=A k=a end=b status=aborted max=9223372036854775808|resolve_range t=A k=a end=b status=aborted max=00000000000000000001|resolve_range t=A k=a end=b status=aborted max=1 max=1|resolve_range t=A k=a end=b status=aborted ts=1,2147483648|resolve_range t=A k=a end=b status=aborted v=x|resolve-range t=A k=a end=b status=aborted|Resolve t=A k=a status=aborted";

/// Values out of their forms, each bad escape among them.
const BAD_VALUES: &str =
    "get k=\\ ts=1|get k=a\\ ts=1|get k=\\\\\\ ts=1|get k=\\x ts=1|get k=\\x4 ts=1|get k=\\xg0 ts=1|get k=\\x0g ts=1|get k=\\x\\0 ts=1|get k=\\x4\\ ts=1|get k=\\X41 ts=1|get k=\\n ts=1|get k=a ts=|get k=a ts=1.|get k=a ts=1.0000000000|get k=a ts=1,|get k=a ts=1,2147483648|get k=a ts=+1|get k=a ts=9223372036.854775808|age now=5,0|compact keep=0|compact keep=9223372036854775808|compact keep=00000000000000000001";

/// Other bytes than spaces and tabs where words are to part, and bytes that are not printed.
const BAD_BYTES: &str =
    "get k=a\rts=1|get k=a ts=1\r|get\rk=a ts=1|get k=a\u{b}ts=1|get k=a\0 ts=1|stats\r|\rstats|get k=\u{7f} ts=1|get k=\u{80} ts=1|get k=\u{1f} ts=1";

/// Command lines without a reading.
const BAD_OPTIONS: &str =
    "|RUN|run run|run --stat|run --|run -- --stats|run --fast 1|run --fast=1|run --count-max=1 1|run --count-max=000000000000000000001|run --count-max=9223372036854775808|run --count-max=0|run --count-max=|run --count-max=+1|run --count-max|run --count-max --stats|run --count-max 1 --count-max=2|run --stats --stats|run --stats=|run --stats=x";

/// Whether the line has a reading, as a command.
fn is_command(alloc: Global, line: &[u8]) -> bool {
    match parse_line(alloc, line) {
        Ok(read) => !read.is_blank(),
        Err(_) => false,
    }
}

/// What the words of a command line that stand between spaces say.
fn said(alloc: Global, line: &str) -> Result<Option<(bool, u64)>, OutOfMemory> {
    let mut words = Vec::new(alloc);
    for word in line.split_whitespace() {
        words.push(String::from_str(alloc, word)?)?;
    }
    let options = read_command_line(alloc, &words)?;
    Ok(options.map(|options| (options.stats(), options.count_max())))
}

#[test]
fn lines_without_a_reading_are_bad(rt: HostRuntime) {
    for lines in [
        BAD_WORDS,
        BAD_WRITES,
        BAD_CHANGES,
        BAD_RESOLUTIONS,
        BAD_VALUES,
        BAD_BYTES,
    ] {
        for line in lines.split('|') {
            let read = parse_line(rt.alloc(), line.as_bytes());
            assert!(rt; matches!(read, Err(LineFault::BadLine)), "{line:?}");
        }
    }
}

#[test]
fn lines_are_read(rt: HostRuntime) {
    for line in COMMANDS.split('|') {
        assert!(rt; is_command(rt.alloc(), line.as_bytes()), "{line:?}");
    }
    for line in " |\t \t|# put|\t#|".split('|') {
        let read = parse_line(rt.alloc(), line.as_bytes());
        assert!(rt; matches!(read, Ok(Line::Blank)), "{line:?}");
    }
}

#[test]
fn options_are_read(rt: HostRuntime) -> Result<(), Fail> {
    const MOST: u64 = 9_223_372_036_854_775_807;
    for (line, wanted) in [
        ("run", (false, MOST)),
        ("run --stats", (true, MOST)),
        ("run --count-max 100", (false, 100)),
        ("run --stats --count-max=100", (true, 100)),
        ("run --count-max 1 --stats", (true, 1)),
        ("run --count-max=09223372036854775807", (false, MOST)),
        ("run --count-max 00000000000000000001", (false, 1)),
    ] {
        assert_eq!(rt; said(rt.alloc(), line)?, Some(wanted), "{line}");
    }
    for line in BAD_OPTIONS.split('|') {
        assert_eq!(rt; said(rt.alloc(), line)?, None, "{line}");
    }
    let mut words = Vec::new(rt.alloc());
    words.push(String::from_str(rt.alloc(), "run")?)?;
    words.push(String::from_str(rt.alloc(), "")?)?;
    assert!(rt; read_command_line(rt.alloc(), &words)?.is_none());
    Ok(())
}
