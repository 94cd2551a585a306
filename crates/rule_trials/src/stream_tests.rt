use crate::streams::{Breaking, Clogging};
use ctm_ports::{Piece, Sink, Source, StdSink, StdSource, Wrote};

#[test]
fn an_error_of_a_reader_is_a_fault_and_its_bytes_pass_whole(rt: HostRuntime) {
    let mut room = [0; 2];
    let mut breaking = StdSource::new(Breaking { calls: 0 });
    for want in [Piece::Got(1), Piece::Failed, Piece::End] {
        assert_eq!(rt; breaking.read(&mut room), want);
    }
    let mut whole = StdSource::new(b"abc".as_slice());
    for (piece, bytes) in [
        (Piece::Got(2), b"ab".as_slice()),
        (Piece::Got(1), b"c".as_slice()),
        (Piece::End, b"".as_slice()),
    ] {
        assert_eq!(rt; whole.read(&mut room), piece);
        assert!(rt; room.starts_with(bytes));
    }
}

#[test]
fn an_error_of_a_writer_and_a_write_of_nothing_are_faults(rt: HostRuntime) {
    let mut writer = Clogging {
        calls: 0,
        got: None,
    };
    let mut sink = StdSink::new(&mut writer);
    for want in [Wrote::Took(1), Wrote::Failed, Wrote::Failed] {
        assert_eq!(rt; sink.write(b"abcde"), want);
    }
    assert_eq!(rt; writer.got, Some(b'a'));
}
