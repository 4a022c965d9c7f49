// What reading a file answers: the line that stops it, and why.
use std::alloc::{AllocError, Global};
use std::test::Fail;
use text::settings_file::reader::read;

// What the file comes to, in words.
fn answer_in_words(heap: Global, bytes: &[u8]) -> Result<String, AllocError> {
    match read(heap, bytes) {
        Ok(_) => String::from_str(heap, "accepted"),
        Err(fault) => format!(in heap; "{fault}"),
    }
}

#[test]
fn blanks_line_ends_and_comments(rt: HostRuntime) -> Result<(), Fail> {
    for bytes in [
        b"" as &[u8],
        b"\n\r\n # nothing\n",
        b"scale 256",
        b"\tscale\t+256 # one\r\nlead 00000000000000000000007\r\n",
        b"clock -0#tight",
        b"paths 8192 0 0 1 -2 63",
    ] {
        let words = answer_in_words(rt.alloc(), bytes)?;
        assert!(rt; words.as_str() == "accepted");
    }
    Ok(())
}

#[test]
fn lines_that_are_no_setting(rt: HostRuntime) -> Result<(), Fail> {
    for (bytes, expected) in [
        (b"scael 1" as &[u8], "1: there is no setting 'scael'"),
        (b"\nscale", "2: a number is missing: scale f"),
        (b"scale 1 2", "1: '2' is too much: scale f"),
        (b"scale -1", "1: '-1' is not a whole number from 0 to 65535"),
        (
            b"scale 65536",
            "1: '65536' is not a whole number from 0 to 65535",
        ),
        (b"clock_bypass 2", "1: '2' is not 0 or 1"),
        (
            b"paths 1 2",
            "1: a number is missing: paths re im delay re im delay ..",
        ),
        (b"\nlead 1\n\xff", "3: the line is not UTF-8 text"),
    ] {
        let words = answer_in_words(rt.alloc(), bytes)?;
        assert!(rt; words.as_str() == expected);
    }
    Ok(())
}

#[test]
fn the_first_line_stops_the_file(rt: HostRuntime) -> Result<(), Fail> {
    for (bytes, expected) in [
        (
            b"lead 1\nscale 0\nscael" as &[u8],
            "2: refused 1: the scale factor must be 1 to 32767",
        ),
        (b"scael\nscale 0", "1: there is no setting 'scael'"),
        (b"paths", "1: refused 3: there must be 1 to 10 paths"),
        (
            b"receive_gain 128 0 0",
            "1: refused 13: the index of a receive gain must be 0 to 127",
        ),
    ] {
        let words = answer_in_words(rt.alloc(), bytes)?;
        assert!(rt; words.as_str() == expected);
    }
    Ok(())
}
