ghost use Rattle.std.specs.Prelude.{◌≤◌};

use super::*;
use io_edge::{MemSink, MemSource, SureSink, SureSource};
use std::alloc::{AllocError, Global};
use std::process::Abort;
use std::test::Fail;
use std::thread::Threads;

const PUT_AND_GET: &[u8] = b"put k=a ts=1 v=abc\nget k=a ts=1\n";

/// The words of a command line, as they stand between spaces.
fn words(alloc: Global, line: &str) -> Result<Vec<String>, AllocError> {
    let mut words = Vec::new(alloc);
    for word in line.split_whitespace() {
        words.push(String::from_str(alloc, word)?)?;
    }
    Ok(words)
}

/// A source that gives the script in pieces, and of which the reads with these numbers fail.
fn source(
    alloc: Global,
    script: &[u8],
    piece: usize,
    failing: &[u64],
) -> Result<MemSource, AllocError>
    requires { 1 ≤ piece }
{
    let script = Vec::from_slice(alloc, script)?;
    let failing = Vec::from_slice(alloc, failing)?;
    Ok(MemSource::new(script, piece, failing))
}

/// The script with copies of a byte behind it, up to this many bytes.
fn padded(alloc: Global, script: &[u8], byte: u8, size: usize) -> Result<Vec<u8>, AllocError> {
    let mut padded = Vec::from_slice(alloc, script)?;
    padded.resize(size, byte)?;
    Ok(padded)
}

/// Asserts that a run of the script, whose bytes come and go in pieces of this size, writes these answers. Where an allocation is
/// refused the run is not `Done`, and a beginning of them is written.
fn assert_answers<R: Abort + Threads + Sync>(
    rt: &R,
    alloc: Global,
    line: &str,
    script: &[u8],
    piece: usize,
    answers: &[u8],
) -> Result<(), Fail>
    requires { 1 ≤ piece }
{
    let words = words(alloc, line)?;
    let mut source = source(alloc, script, piece, &[])?;
    let mut sink = MemSink::new(alloc, 5_000, piece, Vec::new(alloc))?;
    let status = run(rt, alloc, &words, &mut source, &mut sink);
    assert!(rt; answers.starts_with(sink.bytes()));
    assert!(rt; status == Status::Done);
    assert_eq!(rt; sink.bytes(), answers);
    Ok(())
}

#[test]
fn scripts_get_their_answers(rt: HostRuntime) -> Result<(), Fail> {
    let cases: [(&[u8], &[u8]); 14] = [
        (b"", b""),
        (
            PUT_AND_GET,
            b"ok\nget: \"a\" -> /BYTES/abc @1.000000000,0\n",
        ),
        (
            b"put k=a ts=1 v=abc\nput k=a ts=1 v=x\n",
            b"ok\nerror: TooOld existing=1.000000000,0\n",
        ),
        (b"put k=a\n", b"error: BadLine line=1\n"),
        (
            b"put k=b ts=7 v=new\nput k=b ts=9 v=newer\nget k=b ts=8\nget k=b ts=6\nget k=c ts=9",
            b"ok\nok\nget: \"b\" -> /BYTES/new @7.000000000,0\nget: \"b\" -> <no data>\nget: \"c\" -> <no data>\n",
        ),
        (
            b"put k=m ts=0000000000000000000000003,00 v=x\nput k=a ts=2 v=y\nput k=z ts=1 v=z\nget k=m ts=9223372036",
            b"ok\nok\nok\nget: \"m\" -> /BYTES/x @3.000000000,0\n",
        ),
        (
            b"\n \t \n# put k=a\n  put \t k=a  v=abc\tts=1\r\nget ts=1,5 k=\\x61\r",
            b"ok\nget: \"a\" -> /BYTES/abc @1.000000000,0\n",
        ),
        (
            b"put k=a ts=9223372037 v=x\nput k=a ts=9223372036.854775808 v=x\nput k=a ts=9223372036.854775807,2147483647 v=x=y\nget k=a ts=9223372036.854775807,2147483647",
            b"error: BadLine line=1\nerror: BadLine line=2\nok\nget: \"a\" -> /BYTES/x=y @9223372036.854775807,2147483647\n",
        ),
        (
            b"put k=a ts=1 v=x y\nput k=a ts=1 v=x\r\r\nput k=a ts=1 v=x int=1\nput k=a ts=1\nput k=a k=b ts=1 v=x\nget k ts=1\nget k=a ts=1 k\nputt\n=\n",
            b"error: BadLine line=1\nerror: BadLine line=2\nerror: BadLine line=3\nerror: BadLine line=4\nerror: BadLine line=5\nerror: BadLine line=6\nerror: BadLine line=7\nerror: BadLine line=8\nerror: BadLine line=9\n",
        ),
        (
            b"get k=a ts=\nget k=a ts=1.\nget k=a ts=1.0000000000\nget k=a ts=1,\nget k=a ts=1,2147483648\nget k=a ts=+1\nget k=\\ ts=1\nget k=\\x0 ts=1\nget k=\\x0g ts=1\nget k=\x7f ts=1\nget k= ts=0",
            b"error: BadLine line=1\nerror: BadLine line=2\nerror: BadLine line=3\nerror: BadLine line=4\nerror: BadLine line=5\nerror: BadLine line=6\nerror: BadLine line=7\nerror: BadLine line=8\nerror: BadLine line=9\nerror: BadLine line=10\nget: \"\" -> <no data>\n",
        ),
        (
            b"put v=\\xff\\x4A~! k=\"\\\\\\x20 ts=0.5\nget k=\\x22\\x5c\\x20 ts=0.500000000,1",
            b"ok\nget: \"\\x22\\\\\\x20\" -> /BYTES/\\xffJ~! @0.500000000,0\n",
        ),
        (
            b"put k= ts=0 v=x\nput k=a ts=0 v=x\nput k=a ts=0,1 v=\nget k=a ts=1",
            b"error: EmptyKey\nerror: BadTimestamp\nok\nget: \"a\" -> /BYTES/ @0.000000000,1\n",
        ),
        (
            b"put k=a ts=1 v=abc\nflush\nflush\nput k=a ts=2 v=x\ndel k=b ts=1\nlayout\nflush\ncompact keep=2\nlayout\ncompact keep=1\nlayout\n",
            b"ok\nok\nok\nok\ndel: found=false\npart 0: mem keys=2 clears=0 ranges=no\npart 1: run keys=1 clears=0 ranges=no\nok\nok\npart 0: mem keys=0 clears=0 ranges=no\npart 1: run keys=2 clears=0 ranges=no\npart 2: run keys=1 clears=0 ranges=no\nok\npart 0: mem keys=0 clears=0 ranges=no\npart 1: run keys=3 clears=0 ranges=no\n",
        ),
        (
            b"compact keep=0\ncompact\nflush x\nlayout keep=1\ncompact keep=1 keep=1\ncompact keep\ncompact keep=9223372036854775808\ncompact keep=00000000000000000001\nlayout\tx\ncompact keep=9223372036854775807\n",
            b"error: BadLine line=1\nerror: BadLine line=2\nerror: BadLine line=3\nerror: BadLine line=4\nerror: BadLine line=5\nerror: BadLine line=6\nerror: BadLine line=7\nerror: BadLine line=8\nerror: BadLine line=9\nok\n",
        ),
    ];
    for piece in [1, 7, 100_000] {
        for (script, answers) in cases {
            assert_answers(&rt, rt.alloc(), "run", script, piece, answers)?;
        }
    }
    Ok(())
}

#[test]
fn a_key_has_at_most_4096_bytes(rt: HostRuntime) -> Result<(), Fail> {
    let words = words(rt.alloc(), "run")?;
    let start = b"put ts=1 v=x k=";
    for (length, answer) in [
        (4096, b"ok\n".as_slice()),
        (4097, b"error: KeyTooLong length=4097\n".as_slice()),
    ] {
        let script = padded(rt.alloc(), start, b'a', start.len() + length)?;
        let mut source = source(rt.alloc(), &script, 1_000, &[])?;
        let mut sink = MemSink::new(rt.alloc(), 1_000, 100, Vec::new(rt.alloc()))?;
        let status = run(&rt, rt.alloc(), &words, &mut source, &mut sink);
        assert!(rt; status == Status::Done);
        assert_eq!(rt; sink.bytes(), answer);
    }
    Ok(())
}

#[test]
fn other_words_are_a_usage_error(rt: HostRuntime) -> Result<(), Fail> {
    for line in ["", "run --fast", "RUN", "run run"] {
        let words = words(rt.alloc(), line)?;
        let mut source = source(rt.alloc(), PUT_AND_GET, 5, &[])?;
        let mut sink = MemSink::new(rt.alloc(), 1_000, 5, Vec::new(rt.alloc()))?;
        let status = run(&rt, rt.alloc(), &words, &mut source, &mut sink);
        assert!(rt; status == Status::Usage);
        assert!(rt; status.number() == 2);
        assert_eq!(rt; sink.bytes(), [].as_slice());
    }
    Ok(())
}

#[test]
fn a_fault_ends_the_run(rt: HostRuntime) -> Result<(), Fail> {
    let words = words(rt.alloc(), "run")?;

    let mut failing = source(rt.alloc(), PUT_AND_GET, 5, &[0])?;
    let mut sink = MemSink::new(rt.alloc(), 1_000, 5, Vec::new(rt.alloc()))?;
    let status = run(&rt, rt.alloc(), &words, &mut failing, &mut sink);
    assert!(rt; status == Status::ReadFault);
    assert!(rt; status.number() == 3);
    assert_eq!(rt; sink.bytes(), [].as_slice());

    let mut whole = source(rt.alloc(), PUT_AND_GET, 5, &[])?;
    let mut full = MemSink::new(rt.alloc(), 4, 5, Vec::new(rt.alloc()))?;
    let status = run(&rt, rt.alloc(), &words, &mut whole, &mut full);
    assert!(rt; status == Status::WriteFault);
    assert!(rt; status.number() == 4);
    assert_eq!(rt; full.bytes(), b"ok\ng".as_slice());
    Ok(())
}

#[test]
fn a_script_that_is_too_long_gets_the_answers_of_its_whole_lines(
    rt: HostRuntime,
) -> Result<(), Fail> {
    let words = words(rt.alloc(), "run")?;
    let spaces = padded(rt.alloc(), b"", b' ', 1_048_577)?;
    let mut sink = MemSink::new(rt.alloc(), 1_000, 100, Vec::new(rt.alloc()))?;
    let mut blank = source(rt.alloc(), &spaces, 100_000, &[])?;
    let status = run(&rt, rt.alloc(), &words, &mut blank, &mut sink);
    assert!(rt; status == Status::ScriptTooLong);
    assert!(rt; status.number() == 5);
    assert_eq!(rt; sink.bytes(), [].as_slice());

    let lines = padded(rt.alloc(), PUT_AND_GET, b' ', 1_048_577)?;
    let mut long = source(rt.alloc(), &lines, 100_000, &[])?;
    let status = run(&rt, rt.alloc(), &words, &mut long, &mut sink);
    assert!(rt; status == Status::ScriptTooLong);
    assert_eq!(rt;
        sink.bytes(),
        b"ok\nget: \"a\" -> /BYTES/abc @1.000000000,0\n".as_slice()
    );
    Ok(())
}

#[test]
fn ends_that_never_fail_are_done(rt: HostRuntime) -> Result<(), Fail> {
    let words = words(rt.alloc(), "run")?;
    let mut source = SureSource::new(Vec::from_slice(rt.alloc(), PUT_AND_GET)?, 3);
    let mut sink = SureSink::new();
    let status = run(&rt, rt.alloc(), &words, &mut source, &mut sink);
    assert!(rt; status == Status::Done);
    assert!(rt; status.number() == 0);
    Ok(())
}

#[test]
fn statistics_are_a_recount(rt: HostRuntime) -> Result<(), Fail> {
    let cases: [(&str, &[u8], &[u8]); 7] = [
        (
            "run",
            b"put k=a ts=1 v=abc\nget k=a ts=1\nstats",
            b"ok\nget: \"a\" -> /BYTES/abc @1.000000000,0\nstats: key_count=1 key_bytes=14 val_count=1 val_bytes=8 live_count=1 live_bytes=22 intent_count=0 intent_bytes=0 intent_age=0 gc_bytes_age=0 range_key_count=0 range_key_bytes=0 range_val_count=0 range_val_bytes=0 last_update_nanos=1000000000\n",
        ),
        (
            "run",
            b"put k=a ts=1 v=abc\ndel k=a ts=3\nage now=10\nstats\nget k=a ts=4",
            b"ok\ndel: found=true\nok\nstats: key_count=1 key_bytes=26 val_count=2 val_bytes=8 live_count=0 live_bytes=0 intent_count=0 intent_bytes=0 intent_age=0 gc_bytes_age=238 range_key_count=0 range_key_bytes=0 range_val_count=0 range_val_bytes=0 last_update_nanos=10000000000\nget: \"a\" -> <no data>\n",
        ),
        (
            "run",
            b"put k=a ts=1 v=abc\nput k=a ts=1 v=x\nstats now\nstats",
            b"ok\nerror: TooOld existing=1.000000000,0\nerror: BadLine line=3\nstats: key_count=1 key_bytes=14 val_count=1 val_bytes=8 live_count=1 live_bytes=22 intent_count=0 intent_bytes=0 intent_age=0 gc_bytes_age=0 range_key_count=0 range_key_bytes=0 range_val_count=0 range_val_bytes=0 last_update_nanos=1000000000\n",
        ),
        (
            "run",
            b"put k=a ts=0.9 v=abc\nput k=a ts=1.9 v=abc\nage now=2\nstats",
            b"ok\nok\nok\nstats: key_count=1 key_bytes=26 val_count=2 val_bytes=16 live_count=1 live_bytes=22 intent_count=0 intent_bytes=0 intent_age=0 gc_bytes_age=20 range_key_count=0 range_key_bytes=0 range_val_count=0 range_val_bytes=0 last_update_nanos=2000000000\n",
        ),
        (
            "run --stats --count-max=100",
            b"put k=a ts=1 v=abc\ndel k=a ts=3\n# none\nage now=5\nage now=6\nage now=4",
            b"ok\nstats: key_count=1 key_bytes=14 val_count=1 val_bytes=8 live_count=1 live_bytes=22 intent_count=0 intent_bytes=0 intent_age=0 gc_bytes_age=0 range_key_count=0 range_key_bytes=0 range_val_count=0 range_val_bytes=0 last_update_nanos=1000000000\ndel: found=true\nstats: key_count=1 key_bytes=26 val_count=2 val_bytes=8 live_count=0 live_bytes=0 intent_count=0 intent_bytes=0 intent_age=0 gc_bytes_age=0 range_key_count=0 range_key_bytes=0 range_val_count=0 range_val_bytes=0 last_update_nanos=3000000000\nok\nstats: key_count=1 key_bytes=26 val_count=2 val_bytes=8 live_count=0 live_bytes=0 intent_count=0 intent_bytes=0 intent_age=0 gc_bytes_age=68 range_key_count=0 range_key_bytes=0 range_val_count=0 range_val_bytes=0 last_update_nanos=5000000000\nerror: CountOverflow field=gc_bytes_age\nstats: key_count=1 key_bytes=26 val_count=2 val_bytes=8 live_count=0 live_bytes=0 intent_count=0 intent_bytes=0 intent_age=0 gc_bytes_age=68 range_key_count=0 range_key_bytes=0 range_val_count=0 range_val_bytes=0 last_update_nanos=5000000000\nerror: MomentTooEarly latest=5000000000\nstats: key_count=1 key_bytes=26 val_count=2 val_bytes=8 live_count=0 live_bytes=0 intent_count=0 intent_bytes=0 intent_age=0 gc_bytes_age=68 range_key_count=0 range_key_bytes=0 range_val_count=0 range_val_bytes=0 last_update_nanos=5000000000\n",
        ),
        (
            "run --stats",
            b"put k=a ts=1 v=abc\nflush\nlayout\n",
            b"ok\nstats: key_count=1 key_bytes=14 val_count=1 val_bytes=8 live_count=1 live_bytes=22 intent_count=0 intent_bytes=0 intent_age=0 gc_bytes_age=0 range_key_count=0 range_key_bytes=0 range_val_count=0 range_val_bytes=0 last_update_nanos=1000000000\nok\nstats: key_count=1 key_bytes=14 val_count=1 val_bytes=8 live_count=1 live_bytes=22 intent_count=0 intent_bytes=0 intent_age=0 gc_bytes_age=0 range_key_count=0 range_key_bytes=0 range_val_count=0 range_val_bytes=0 last_update_nanos=1000000000\npart 0: mem keys=0 clears=0 ranges=no\npart 1: run keys=1 clears=0 ranges=no\nstats: key_count=1 key_bytes=14 val_count=1 val_bytes=8 live_count=1 live_bytes=22 intent_count=0 intent_bytes=0 intent_age=0 gc_bytes_age=0 range_key_count=0 range_key_bytes=0 range_val_count=0 range_val_bytes=0 last_update_nanos=1000000000\n",
        ),
        (
            "run --count-max 13 --stats",
            b"put k=a ts=1 v=abc\ndel k= ts=1\nage now=5,0",
            b"error: CountOverflow field=key_bytes\nstats: key_count=0 key_bytes=0 val_count=0 val_bytes=0 live_count=0 live_bytes=0 intent_count=0 intent_bytes=0 intent_age=0 gc_bytes_age=0 range_key_count=0 range_key_bytes=0 range_val_count=0 range_val_bytes=0 last_update_nanos=0\nerror: EmptyKey\nstats: key_count=0 key_bytes=0 val_count=0 val_bytes=0 live_count=0 live_bytes=0 intent_count=0 intent_bytes=0 intent_age=0 gc_bytes_age=0 range_key_count=0 range_key_bytes=0 range_val_count=0 range_val_bytes=0 last_update_nanos=0\nerror: BadLine line=3\nstats: key_count=0 key_bytes=0 val_count=0 val_bytes=0 live_count=0 live_bytes=0 intent_count=0 intent_bytes=0 intent_age=0 gc_bytes_age=0 range_key_count=0 range_key_bytes=0 range_val_count=0 range_val_bytes=0 last_update_nanos=0\n",
        ),
    ];
    for (line, script, answers) in cases {
        assert_answers(&rt, rt.alloc(), line, script, 100, answers)?;
    }
    Ok(())
}

#[test]
fn transactions_write_intents(rt: HostRuntime) -> Result<(), Fail> {
    let cases: [(&str, &[u8], &[u8]); 11] = [
        (
            "run",
            b"txn_begin t=A ts=2\nput t=A k=a v=abc\nstats\nput t=A k=a v=abc\nstats\nput t=A k=a v=x\ntxn_step t=A n=2\nput t=A k=a v=de\ntxn_begin t=B ts=2 id=00000000-0000-0000-0000-000000000001\ntxn_step t=B\nput t=B k=a v=de\nput k=a ts=9 v=z\n",
            b"txn: \"A\" id=00000000-0000-0000-0000-000000000001 epoch=0 seq=0 read=2.000000000,0 write=2.000000000,0 limit=0.000000000,0 ignored=none\nok\nstats: key_count=1 key_bytes=14 val_count=1 val_bytes=53 live_count=1 live_bytes=67 intent_count=1 intent_bytes=20 intent_age=0 gc_bytes_age=0 range_key_count=0 range_key_bytes=0 range_val_count=0 range_val_bytes=0 last_update_nanos=2000000000\nok\nstats: key_count=1 key_bytes=14 val_count=1 val_bytes=53 live_count=1 live_bytes=67 intent_count=1 intent_bytes=20 intent_age=0 gc_bytes_age=0 range_key_count=0 range_key_bytes=0 range_val_count=0 range_val_bytes=0 last_update_nanos=2000000000\nerror: ReplayMismatch stored=/BYTES/abc\ntxn: \"A\" id=00000000-0000-0000-0000-000000000001 epoch=0 seq=2 read=2.000000000,0 write=2.000000000,0 limit=0.000000000,0 ignored=none\nok\ntxn: \"B\" id=00000000-0000-0000-0000-000000000001 epoch=0 seq=0 read=2.000000000,0 write=2.000000000,0 limit=0.000000000,0 ignored=none\ntxn: \"B\" id=00000000-0000-0000-0000-000000000001 epoch=0 seq=1 read=2.000000000,0 write=2.000000000,0 limit=0.000000000,0 ignored=none\nerror: ReplayMissing sequence=1\nerror: Conflict \"a\"/00000000-0000-0000-0000-000000000001@2.000000000,0\n",
        ),
        (
            "run",
            b"txn_begin t=A ts=2\nput t=A k=a v=abc\nstats\ntxn_step t=A\nput t=A k=a v=de\nstats\n",
            b"txn: \"A\" id=00000000-0000-0000-0000-000000000001 epoch=0 seq=0 read=2.000000000,0 write=2.000000000,0 limit=0.000000000,0 ignored=none\nok\nstats: key_count=1 key_bytes=14 val_count=1 val_bytes=53 live_count=1 live_bytes=67 intent_count=1 intent_bytes=20 intent_age=0 gc_bytes_age=0 range_key_count=0 range_key_bytes=0 range_val_count=0 range_val_bytes=0 last_update_nanos=2000000000\ntxn: \"A\" id=00000000-0000-0000-0000-000000000001 epoch=0 seq=1 read=2.000000000,0 write=2.000000000,0 limit=0.000000000,0 ignored=none\nok\nstats: key_count=1 key_bytes=14 val_count=1 val_bytes=68 live_count=1 live_bytes=82 intent_count=1 intent_bytes=19 intent_age=0 gc_bytes_age=0 range_key_count=0 range_key_bytes=0 range_val_count=0 range_val_bytes=0 last_update_nanos=2000000000\n",
        ),
        (
            "run",
            b"increment k=a ts=1 inc=9223372036854775807\nincrement k=a ts=2 inc=1\ntxn_begin t=A ts=3\nincrement t=A k=b inc=5\nincrement t=A k=b inc=5\nput t=A k=b v=x\nstats\n",
            b"increment: 9223372036854775807\nerror: IntegerOverflow old=9223372036854775807 by=1\ntxn: \"A\" id=00000000-0000-0000-0000-000000000001 epoch=0 seq=0 read=3.000000000,0 write=3.000000000,0 limit=0.000000000,0 ignored=none\nincrement: 5\nincrement: 5\nerror: ReplayMismatch stored=/INT/5\nstats: key_count=2 key_bytes=28 val_count=2 val_bytes=66 live_count=2 live_bytes=94 intent_count=1 intent_bytes=18 intent_age=0 gc_bytes_age=0 range_key_count=0 range_key_bytes=0 range_val_count=0 range_val_bytes=0 last_update_nanos=3000000000\n",
        ),
        (
            "run",
            b"cput k=a ts=1 v=abc\ncput k=a ts=2 v=x\ncput k=a ts=2 v=x cond=abc\ninitput k=a ts=3 v=x\ninitput k=a ts=4 v=y\nincrement k=a ts=4\nstats\n",
            b"ok\nerror: ConditionFailed actual=/BYTES/abc\nok\nok\nerror: ConditionFailed actual=/BYTES/x\nerror: NotInteger actual=/BYTES/x\nstats: key_count=1 key_bytes=38 val_count=3 val_bytes=20 live_count=1 live_bytes=20 intent_count=0 intent_bytes=0 intent_age=0 gc_bytes_age=20 range_key_count=0 range_key_bytes=0 range_val_count=0 range_val_bytes=0 last_update_nanos=3000000000\n",
        ),
        (
            "run",
            b"put k=a\nput k= ts=1 v=x\nput k=a ts=0 v=x\nput t=Q k=a v=x\ntxn_begin t=A ts=1\ntxn_begin t=A ts=1\ntxn_step t=A n=2147483647\ntxn_step t=A\n",
            b"error: BadLine line=1\nerror: EmptyKey\nerror: BadTimestamp\nerror: NoTxn\ntxn: \"A\" id=00000000-0000-0000-0000-000000000001 epoch=0 seq=0 read=1.000000000,0 write=1.000000000,0 limit=0.000000000,0 ignored=none\nerror: TxnExists\ntxn: \"A\" id=00000000-0000-0000-0000-000000000001 epoch=0 seq=2147483647 read=1.000000000,0 write=1.000000000,0 limit=0.000000000,0 ignored=none\nerror: SequenceLimit sequence=2147483647\n",
        ),
        (
            "run",
            b"txn_begin t=A ts=1\nput t=A k=a v=x\ntxn_remove t=A\ntxn_step t=A\ntxn_begin t=A ts=2\nput t=A k=a v=y\ntxn_begin t=B ts=3 limit=4 id=ffffffff-ffff-ffff-ffff-ffffffffffff\ntxn_begin t=C ts=0\ntxn_remove t=A\ntxn_remove t=A\n",
            b"txn: \"A\" id=00000000-0000-0000-0000-000000000001 epoch=0 seq=0 read=1.000000000,0 write=1.000000000,0 limit=0.000000000,0 ignored=none\nok\nok\nerror: NoTxn\ntxn: \"A\" id=00000000-0000-0000-0000-000000000002 epoch=0 seq=0 read=2.000000000,0 write=2.000000000,0 limit=0.000000000,0 ignored=none\nerror: Conflict \"a\"/00000000-0000-0000-0000-000000000001@1.000000000,0\ntxn: \"B\" id=ffffffff-ffff-ffff-ffff-ffffffffffff epoch=0 seq=0 read=3.000000000,0 write=3.000000000,0 limit=4.000000000,0 ignored=none\ntxn: \"C\" id=00000000-0000-0000-0000-000000000004 epoch=0 seq=0 read=0.000000000,0 write=0.000000000,0 limit=0.000000000,0 ignored=none\nok\nerror: NoTxn\n",
        ),
        (
            "run",
            b"txn_begin t=a-B_1 ts=5 limit=6,7\ntxn_step t=a-B_1 n=3\ntxn_advance t=a-B_1 ts=8\ntxn_advance t=a-B_1 ts=7\ntxn_ignore_seqs t=a-B_1 seqs=0-1,3-9\ntxn_ignore_seqs t=a-B_1 seqs=1-2,2-3\ntxn_refresh t=a-B_1\ntxn_restart t=a-B_1\ntxn_restart t=a-B_1 ts=9\ntxn_step t=a-B_1 n=0\n",
            b"txn: \"a-B_1\" id=00000000-0000-0000-0000-000000000001 epoch=0 seq=0 read=5.000000000,0 write=5.000000000,0 limit=6.000000000,7 ignored=none\ntxn: \"a-B_1\" id=00000000-0000-0000-0000-000000000001 epoch=0 seq=3 read=5.000000000,0 write=5.000000000,0 limit=6.000000000,7 ignored=none\ntxn: \"a-B_1\" id=00000000-0000-0000-0000-000000000001 epoch=0 seq=3 read=5.000000000,0 write=8.000000000,0 limit=6.000000000,7 ignored=none\ntxn: \"a-B_1\" id=00000000-0000-0000-0000-000000000001 epoch=0 seq=3 read=5.000000000,0 write=8.000000000,0 limit=6.000000000,7 ignored=none\ntxn: \"a-B_1\" id=00000000-0000-0000-0000-000000000001 epoch=0 seq=3 read=5.000000000,0 write=8.000000000,0 limit=6.000000000,7 ignored=0-1,3-9\nerror: BadRanges\ntxn: \"a-B_1\" id=00000000-0000-0000-0000-000000000001 epoch=0 seq=3 read=8.000000000,0 write=8.000000000,0 limit=6.000000000,7 ignored=0-1,3-9\ntxn: \"a-B_1\" id=00000000-0000-0000-0000-000000000001 epoch=1 seq=0 read=8.000000000,0 write=8.000000000,0 limit=6.000000000,7 ignored=none\ntxn: \"a-B_1\" id=00000000-0000-0000-0000-000000000001 epoch=2 seq=0 read=9.000000000,0 write=9.000000000,0 limit=6.000000000,7 ignored=none\ntxn: \"a-B_1\" id=00000000-0000-0000-0000-000000000001 epoch=2 seq=0 read=9.000000000,0 write=9.000000000,0 limit=6.000000000,7 ignored=none\n",
        ),
        (
            "run",
            b"put k=a ts=1 int=7\ntxn_begin t=A ts=2\ndel t=A k=a\ndel t=A k=a\ntxn_step t=A\nincrement t=A k=a\ntxn_step t=A\ncput t=A k=a int=-2 cond_int=1\ninitput t=A k=a int=-2\ninitput t=A k=a int=3\nget k=a ts=1\nget k=a ts=3\nput k=a ts=1 v=x\n",
            b"ok\ntxn: \"A\" id=00000000-0000-0000-0000-000000000001 epoch=0 seq=0 read=2.000000000,0 write=2.000000000,0 limit=0.000000000,0 ignored=none\ndel: found=true\ndel: found=true\ntxn: \"A\" id=00000000-0000-0000-0000-000000000001 epoch=0 seq=1 read=2.000000000,0 write=2.000000000,0 limit=0.000000000,0 ignored=none\nincrement: 1\ntxn: \"A\" id=00000000-0000-0000-0000-000000000001 epoch=0 seq=2 read=2.000000000,0 write=2.000000000,0 limit=0.000000000,0 ignored=none\nok\nok\nerror: ReplayMismatch stored=/INT/-2\nget: \"a\" -> /INT/7 @1.000000000,0\nerror: Conflict \"a\"/00000000-0000-0000-0000-000000000001@2.000000000,0\nerror: Conflict \"a\"/00000000-0000-0000-0000-000000000001@2.000000000,0\n",
        ),
        (
            "run",
            b"put t=A k= v=x\ndel t=A k=a\ncput t=A k=a v=x\ninitput t=A k=a v=x\nincrement t=A k=a\ntxn_step t=A n=2147483647\ntxn_advance t=A ts=1\ntxn_restart t=A\ntxn_refresh t=A\ntxn_ignore_seqs t=A seqs=2-1\ntxn_remove t=A\nput t=A ts=1 k=a v=x\nput k=a v=x\nput k=a ts=1 v=x int=1\nput t=A k=a\ncput k=a ts=1 v=x cond=y cond_int=1\ntxn_step t=A n=2147483648\ntxn_begin t=. ts=1\ntxn_begin t=A ts=1 id=1\ntxn_ignore_seqs t=A seqs=1\nincrement k=a ts=1 inc=9223372036854775808\n",
            b"error: NoTxn\nerror: NoTxn\nerror: NoTxn\nerror: NoTxn\nerror: NoTxn\nerror: NoTxn\nerror: NoTxn\nerror: NoTxn\nerror: NoTxn\nerror: NoTxn\nerror: NoTxn\nerror: BadLine line=12\nerror: BadLine line=13\nerror: BadLine line=14\nerror: BadLine line=15\nerror: BadLine line=16\nerror: BadLine line=17\nerror: BadLine line=18\nerror: BadLine line=19\nerror: BadLine line=20\nerror: BadLine line=21\n",
        ),
        (
            "run",
            b"txn_begin t=A ts=1 id=00000000000000000000000000000002\ntxn_begin t=A ts=1\ntxn_begin t=B ts=2\nput t=A k=a v=x\nput t=B k=a v=x\ntxn_step t=B\nput t=B k=a v=y\nput t=A k=a v=x\nput t=A k=a v=y\n",
            b"txn: \"A\" id=00000000-0000-0000-0000-000000000002 epoch=0 seq=0 read=1.000000000,0 write=1.000000000,0 limit=0.000000000,0 ignored=none\nerror: TxnExists\ntxn: \"B\" id=00000000-0000-0000-0000-000000000002 epoch=0 seq=0 read=2.000000000,0 write=2.000000000,0 limit=0.000000000,0 ignored=none\nok\nok\ntxn: \"B\" id=00000000-0000-0000-0000-000000000002 epoch=0 seq=1 read=2.000000000,0 write=2.000000000,0 limit=0.000000000,0 ignored=none\nok\nok\nerror: ReplayMismatch stored=/BYTES/x\n",
        ),
        (
            "run --stats --count-max=67",
            b"txn_begin t=A ts=1\nput t=A k=a v=abc\nput t=A k=a v=abc\nput t=A k=a v=x\n",
            b"txn: \"A\" id=00000000-0000-0000-0000-000000000001 epoch=0 seq=0 read=1.000000000,0 write=1.000000000,0 limit=0.000000000,0 ignored=none\nstats: key_count=0 key_bytes=0 val_count=0 val_bytes=0 live_count=0 live_bytes=0 intent_count=0 intent_bytes=0 intent_age=0 gc_bytes_age=0 range_key_count=0 range_key_bytes=0 range_val_count=0 range_val_bytes=0 last_update_nanos=0\nok\nstats: key_count=1 key_bytes=14 val_count=1 val_bytes=53 live_count=1 live_bytes=67 intent_count=1 intent_bytes=20 intent_age=0 gc_bytes_age=0 range_key_count=0 range_key_bytes=0 range_val_count=0 range_val_bytes=0 last_update_nanos=1000000000\nok\nstats: key_count=1 key_bytes=14 val_count=1 val_bytes=53 live_count=1 live_bytes=67 intent_count=1 intent_bytes=20 intent_age=0 gc_bytes_age=0 range_key_count=0 range_key_bytes=0 range_val_count=0 range_val_bytes=0 last_update_nanos=1000000000\nerror: ReplayMismatch stored=/BYTES/abc\nstats: key_count=1 key_bytes=14 val_count=1 val_bytes=53 live_count=1 live_bytes=67 intent_count=1 intent_bytes=20 intent_age=0 gc_bytes_age=0 range_key_count=0 range_key_bytes=0 range_val_count=0 range_val_bytes=0 last_update_nanos=1000000000\n",
        ),
    ];
    for (line, script, answers) in cases {
        assert_answers(&rt, rt.alloc(), line, script, 100, answers)?;
    }
    Ok(())
}

#[test]
fn resolutions_settle_intents(rt: HostRuntime) -> Result<(), Fail> {
    let cases: [(&str, &[u8], &[u8]); 8] = [
        (
            "run",
            b"txn_begin t=A ts=2\nput t=A k=a v=abc\ntxn_step t=A\nput t=A k=a v=de\nresolve t=A k=a status=committed ts=1\nresolve t=A k=a status=committed ts=4\nstats\nget k=a ts=4\nget k=a ts=3\nresolve t=A k=a status=committed ts=4\n",
            b"txn: \"A\" id=00000000-0000-0000-0000-000000000001 epoch=0 seq=0 read=2.000000000,0 write=2.000000000,0 limit=0.000000000,0 ignored=none\nok\ntxn: \"A\" id=00000000-0000-0000-0000-000000000001 epoch=0 seq=1 read=2.000000000,0 write=2.000000000,0 limit=0.000000000,0 ignored=none\nok\nerror: CommitBelowIntent ts=2.000000000,0\nresolve: found=true\nstats: key_count=1 key_bytes=14 val_count=1 val_bytes=24 live_count=1 live_bytes=38 intent_count=0 intent_bytes=0 intent_age=0 gc_bytes_age=0 range_key_count=0 range_key_bytes=0 range_val_count=0 range_val_bytes=0 last_update_nanos=4000000000\nget: \"a\" -> /BYTES/de @4.000000000,0\nget: \"a\" -> <no data>\nresolve: found=false\n",
        ),
        (
            "run",
            b"txn_begin t=A ts=2\nput t=A k=a v=abc\ntxn_step t=A\nput t=A k=a v=de\ntxn_ignore_seqs t=A seqs=1-1\nresolve t=A k=a status=pending ts=2\nstats\ntxn_ignore_seqs t=A seqs=0-1\nresolve t=A k=a status=pending ts=2\nstats\ntxn_ignore_seqs t=A seqs=3-2\n",
            b"txn: \"A\" id=00000000-0000-0000-0000-000000000001 epoch=0 seq=0 read=2.000000000,0 write=2.000000000,0 limit=0.000000000,0 ignored=none\nok\ntxn: \"A\" id=00000000-0000-0000-0000-000000000001 epoch=0 seq=1 read=2.000000000,0 write=2.000000000,0 limit=0.000000000,0 ignored=none\nok\ntxn: \"A\" id=00000000-0000-0000-0000-000000000001 epoch=0 seq=1 read=2.000000000,0 write=2.000000000,0 limit=0.000000000,0 ignored=1-1\nresolve: found=true\nstats: key_count=1 key_bytes=14 val_count=1 val_bytes=53 live_count=1 live_bytes=67 intent_count=1 intent_bytes=20 intent_age=0 gc_bytes_age=0 range_key_count=0 range_key_bytes=0 range_val_count=0 range_val_bytes=0 last_update_nanos=2000000000\ntxn: \"A\" id=00000000-0000-0000-0000-000000000001 epoch=0 seq=1 read=2.000000000,0 write=2.000000000,0 limit=0.000000000,0 ignored=0-1\nresolve: found=true\nstats: key_count=0 key_bytes=0 val_count=0 val_bytes=0 live_count=0 live_bytes=0 intent_count=0 intent_bytes=0 intent_age=0 gc_bytes_age=0 range_key_count=0 range_key_bytes=0 range_val_count=0 range_val_bytes=0 last_update_nanos=2000000000\nerror: BadRanges\n",
        ),
        (
            "run",
            b"put k=a ts=5 v=abc local=2\nstats\n",
            b"ok\nstats: key_count=1 key_bytes=14 val_count=1 val_bytes=25 live_count=1 live_bytes=39 intent_count=0 intent_bytes=0 intent_age=0 gc_bytes_age=0 range_key_count=0 range_key_bytes=0 range_val_count=0 range_val_bytes=0 last_update_nanos=5000000000\n",
        ),
        (
            "run",
            b"put k=a ts=5 v=abc local=5\nstats\n",
            b"ok\nstats: key_count=1 key_bytes=14 val_count=1 val_bytes=8 live_count=1 live_bytes=22 intent_count=0 intent_bytes=0 intent_age=0 gc_bytes_age=0 range_key_count=0 range_key_bytes=0 range_val_count=0 range_val_bytes=0 last_update_nanos=5000000000\n",
        ),
        (
            "run --stats --count-max=100",
            b"put k=a ts=1 v=abc\ntxn_begin t=A ts=2\nput t=A k=a v=abc\nresolve t=A k=a status=committed ts=10\n",
            b"ok\nstats: key_count=1 key_bytes=14 val_count=1 val_bytes=8 live_count=1 live_bytes=22 intent_count=0 intent_bytes=0 intent_age=0 gc_bytes_age=0 range_key_count=0 range_key_bytes=0 range_val_count=0 range_val_bytes=0 last_update_nanos=1000000000\ntxn: \"A\" id=00000000-0000-0000-0000-000000000001 epoch=0 seq=0 read=2.000000000,0 write=2.000000000,0 limit=0.000000000,0 ignored=none\nstats: key_count=1 key_bytes=14 val_count=1 val_bytes=8 live_count=1 live_bytes=22 intent_count=0 intent_bytes=0 intent_age=0 gc_bytes_age=0 range_key_count=0 range_key_bytes=0 range_val_count=0 range_val_bytes=0 last_update_nanos=1000000000\nok\nstats: key_count=1 key_bytes=26 val_count=2 val_bytes=61 live_count=1 live_bytes=67 intent_count=1 intent_bytes=20 intent_age=0 gc_bytes_age=0 range_key_count=0 range_key_bytes=0 range_val_count=0 range_val_bytes=0 last_update_nanos=2000000000\nresolve: found=true\nstats: key_count=1 key_bytes=26 val_count=2 val_bytes=33 live_count=1 live_bytes=39 intent_count=0 intent_bytes=0 intent_age=0 gc_bytes_age=0 range_key_count=0 range_key_bytes=0 range_val_count=0 range_val_bytes=0 last_update_nanos=10000000000\n",
        ),
        (
            "run",
            b"txn_begin t=A ts=2\nput t=A k=a v=abc\ntxn_restart t=A\nput t=A k=a v=de\ntxn_begin t=B ts=2 id=00000000-0000-0000-0000-000000000001\nresolve t=B k=a status=committed\nstats\nget k=a ts=9\n",
            b"txn: \"A\" id=00000000-0000-0000-0000-000000000001 epoch=0 seq=0 read=2.000000000,0 write=2.000000000,0 limit=0.000000000,0 ignored=none\nok\ntxn: \"A\" id=00000000-0000-0000-0000-000000000001 epoch=1 seq=0 read=2.000000000,0 write=2.000000000,0 limit=0.000000000,0 ignored=none\nok\ntxn: \"B\" id=00000000-0000-0000-0000-000000000001 epoch=0 seq=0 read=2.000000000,0 write=2.000000000,0 limit=0.000000000,0 ignored=none\nresolve: found=true\nstats: key_count=0 key_bytes=0 val_count=0 val_bytes=0 live_count=0 live_bytes=0 intent_count=0 intent_bytes=0 intent_age=0 gc_bytes_age=0 range_key_count=0 range_key_bytes=0 range_val_count=0 range_val_bytes=0 last_update_nanos=2000000000\nget: \"a\" -> <no data>\n",
        ),
        (
            "run",
            b"resolve t=A k=a status=committed\nresolve_range t=A k=b end=a status=aborted\ntxn_begin t=A ts=2\nresolve t=A k= status=aborted\nput k=a ts=1 v=x\nput t=A k=a v=y\ntxn_begin t=B ts=3\nresolve t=B k=a status=aborted\nresolve t=A k=a status=done\nresolve t=A k=a status=ABORTED\nget k=a ts=9\nstats\n",
            b"error: NoTxn\nerror: NoTxn\ntxn: \"A\" id=00000000-0000-0000-0000-000000000001 epoch=0 seq=0 read=2.000000000,0 write=2.000000000,0 limit=0.000000000,0 ignored=none\nresolve: found=false\nok\nok\ntxn: \"B\" id=00000000-0000-0000-0000-000000000002 epoch=0 seq=0 read=3.000000000,0 write=3.000000000,0 limit=0.000000000,0 ignored=none\nresolve: found=false\nerror: BadLine line=9\nresolve: found=true\nget: \"a\" -> /BYTES/x @1.000000000,0\nstats: key_count=1 key_bytes=14 val_count=1 val_bytes=6 live_count=1 live_bytes=20 intent_count=0 intent_bytes=0 intent_age=0 gc_bytes_age=0 range_key_count=0 range_key_bytes=0 range_val_count=0 range_val_bytes=0 last_update_nanos=2000000000\n",
        ),
        (
            "run",
            b"txn_begin t=A ts=2\nput t=A k=a v=abc\nresolve t=A k=a status=pending ts=5\nget k=a ts=4\nget k=a ts=5\nstats\nresolve t=A k=a status=pending ts=3\nresolve t=A k=a status=committed\ntxn_advance t=A ts=5\nresolve t=A k=a status=committed\nget k=a ts=5\n",
            b"txn: \"A\" id=00000000-0000-0000-0000-000000000001 epoch=0 seq=0 read=2.000000000,0 write=2.000000000,0 limit=0.000000000,0 ignored=none\nok\nresolve: found=true\nget: \"a\" -> <no data>\nerror: Conflict \"a\"/00000000-0000-0000-0000-000000000001@5.000000000,0\nstats: key_count=1 key_bytes=14 val_count=1 val_bytes=70 live_count=1 live_bytes=84 intent_count=1 intent_bytes=37 intent_age=0 gc_bytes_age=0 range_key_count=0 range_key_bytes=0 range_val_count=0 range_val_bytes=0 last_update_nanos=5000000000\nresolve: found=true\nerror: CommitBelowIntent ts=5.000000000,0\ntxn: \"A\" id=00000000-0000-0000-0000-000000000001 epoch=0 seq=0 read=2.000000000,0 write=5.000000000,0 limit=0.000000000,0 ignored=none\nresolve: found=true\nget: \"a\" -> /BYTES/abc @5.000000000,0\n",
        ),
    ];
    for (line, script, answers) in cases {
        assert_answers(&rt, rt.alloc(), line, script, 100, answers)?;
    }
    Ok(())
}

#[test]
fn a_span_is_resolved_up_to_the_most(rt: HostRuntime) -> Result<(), Fail> {
    let cases: [(&str, &[u8], &[u8]); 2] = [
        (
            "run",
            b"txn_begin t=A ts=2\nput t=A k=a v=abc\nput t=A k=c v=abc\nresolve_range t=A k=a end=z status=aborted max=1\nstats\n",
            b"txn: \"A\" id=00000000-0000-0000-0000-000000000001 epoch=0 seq=0 read=2.000000000,0 write=2.000000000,0 limit=0.000000000,0 ignored=none\nok\nok\nresolve_range: resolved=1\nresume: \"c\"-\"z\"\nstats: key_count=1 key_bytes=14 val_count=1 val_bytes=53 live_count=1 live_bytes=67 intent_count=1 intent_bytes=20 intent_age=0 gc_bytes_age=0 range_key_count=0 range_key_bytes=0 range_val_count=0 range_val_bytes=0 last_update_nanos=2000000000\n",
        ),
        (
            "run",
            b"txn_begin t=A ts=2\nput t=A k=a v=x\nput t=A k=b v=y\ntxn_begin t=B ts=3\nput t=B k=aa v=z\nresolve_range t=A k=b end=b status=committed\nresolve_range t=A k=a end=c status=committed max=0\nresolve_range t=A k=a end=c status=committed ts=1\nresolve_range t=A k=a end=c status=committed max=2\nget k=b ts=2\nget k=aa ts=3\nresolve_range t=A k=a end=c status=committed\n",
            b"txn: \"A\" id=00000000-0000-0000-0000-000000000001 epoch=0 seq=0 read=2.000000000,0 write=2.000000000,0 limit=0.000000000,0 ignored=none\nok\nok\ntxn: \"B\" id=00000000-0000-0000-0000-000000000002 epoch=0 seq=0 read=3.000000000,0 write=3.000000000,0 limit=0.000000000,0 ignored=none\nok\nerror: BadSpan\nresolve_range: resolved=0\nresume: \"a\"-\"c\"\nerror: CommitBelowIntent ts=2.000000000,0\nresolve_range: resolved=2\nget: \"b\" -> /BYTES/y @2.000000000,0\nerror: Conflict \"aa\"/00000000-0000-0000-0000-000000000002@3.000000000,0\nresolve_range: resolved=0\n",
        ),
    ];
    for (line, script, answers) in cases {
        assert_answers(&rt, rt.alloc(), line, script, 100, answers)?;
    }
    Ok(())
}
