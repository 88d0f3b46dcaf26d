// Reading and writing the lines of a file.
use sgml_esis::{Line, read_lines, write_lines};
use sgml_io::{FileStore, MemorySink, fetch};
use std::time::Instant;

fn bytes_of(rt: &HostRuntime, file: &str) -> Option<Vec<u8>> {
    let alloc = rt.alloc();
    let mut store = FileStore::new(alloc, rt);
    match fetch(alloc, &mut store, file.as_bytes(), 1_000_000_000) {
        Ok(found) => found,
        Err(_) => None,
    }
}

pub fn measure(rt: &HostRuntime, file: &str) {
    let Some(bytes) = bytes_of(rt, file) else {
        return;
    };
    let Ok(start) = Instant::now(rt) else {
        return;
    };
    let Ok(lines) = read_lines(rt.alloc(), &bytes) else {
        return;
    };
    let Ok(time) = start.elapsed(rt) else {
        return;
    };
    let _ = println!(rt;
        "{} bytes read as {} lines: {:?}",
        bytes.len(),
        lines.len(),
        time
    );
    measure_writing(rt, &lines, bytes.len());
}

// The sink has room for all of them.
fn measure_writing(rt: &HostRuntime, lines: &[Line], room: usize) {
    if let Ok(mut sink) = MemorySink::new(rt.alloc(), room, Vec::new(rt.alloc())) {
        measure_written(rt, lines, &mut sink);
    }
}

fn measure_written(rt: &HostRuntime, lines: &[Line], sink: &mut MemorySink) {
    let Ok(start) = Instant::now(rt) else {
        return;
    };
    if write_lines(lines, sink).is_err() {
        return;
    }
    let Ok(time) = start.elapsed(rt) else {
        return;
    };
    let _ = println!(rt; "written: {:?}", time);
}
