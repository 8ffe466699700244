//! The disk and the streams, of which no clause says what they hold.

use fux_port::{DiskShelf, Shelf, Sink, StdSink};

fn reads(host: &HostRuntime, name: &str) -> bool {
    let mut buf = [0u8; 8];
    DiskShelf::new(host).read_at(name, 0, &mut buf).is_ok()
}

fn writes_nothing(mut sink: StdSink<'_>) -> bool {
    matches!(sink.write(b""), Ok(0))
}

#[test]
fn the_disk_and_the_streams_answer(rt: HostRuntime) {
    assert!(rt; !reads(&rt, "/") && !reads(&rt, "/no such file"));
    assert!(rt; writes_nothing(StdSink::out(&rt)) && writes_nothing(StdSink::err(&rt)));
}
