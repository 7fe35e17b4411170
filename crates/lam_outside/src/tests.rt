use super::*;
use std::alloc::Global;
use std::io::{self, ErrorKind, Write};
use std::str;
use std::test::Fail;

// The contents as text, or the word of any other answer.
fn answer<F: Files>(alloc: Global, files: &mut F, name: &str, most: u64) -> Result<String, Fail> {
    match files.take(alloc, name, most) {
        Ok(Taken::Whole(bytes)) => Ok(String::from_str(alloc, str::from_utf8(bytes.items())?)?),
        Ok(Taken::TooLong) => Ok(String::from_str(alloc, "too long")?),
        Err(fault) => Ok(format!(in alloc; "{fault}")?),
    }
}

#[test]
fn files_in_memory_fail_at_their_calls_and_at_absent_names(rt: HostRuntime) -> Result<(), Fail> {
    let mut files = MemoryFiles::new(rt.alloc());
    files.add("job", b"old")?;
    files.add("job", b"limit")?;
    files.fail(3)?;
    let calls = [
        ("job", 5, "limit"),
        ("job", 4, "too long"),
        ("job", 5, "Failed"),
        ("report", 5, "Failed"),
        ("job", u64::MAX, "limit"),
    ];
    for (name, most, want) in calls {
        let got = answer(rt.alloc(), &mut files, name, most)?;
        assert_eq!(rt; got.as_str(), want, "{name} of at most {most}");
    }
    Ok(())
}

#[test]
fn sinks_in_memory_keep_a_prefix_at_a_fault(rt: HostRuntime) -> Result<(), Fail> {
    let text = b"laminate analysis 1\ncost 10\nrules kept\nratio 1 1 5.555\nratio 1 2 5.555\nend\n";
    let rows = [
        (100, 100, 0, Ok(()), 75),
        (75, 5, 0, Ok(()), 75),
        (10, 3, 0, Err(WriteFault::TookNone), 10),
        (100, 3, 2, Err(WriteFault::Failed), 3),
        (100, 100, 1, Err(WriteFault::Failed), 0),
        (100, 100, 2, Err(WriteFault::Failed), 64),
    ];
    for (room, step, failing, want, size) in rows {
        let mut sink = MemorySink::new(rt.alloc(), room, step)?;
        sink.fail(failing)?;
        assert_eq!(rt; put_text(&mut sink, text), want, "room {room}, step {step}");
        assert!(rt; size <= text.len());
        assert_eq!(rt; sink.written(), &text[..size], "room {room}, step {step}");
    }
    Ok(())
}

#[test]
fn host_files_are_read_as_far_as_asked(rt: HostRuntime) -> Result<(), Fail> {
    let alloc = rt.alloc();
    let mut files = HostFiles::new(rt.clone()?);
    let rows = [
        ("/proc/sys/kernel/ostype", 6, "Linux\n"),
        ("/proc/sys/kernel/ostype", 5, "too long"),
        ("/dev/null", 0, ""),
        ("/dev/zero", 10_000, "too long"),
        ("/dev/null/none", 5, "Failed"),
        ("/dev", 5, "Failed"),
    ];
    for (name, most, want) in rows {
        let got = answer(alloc, &mut files, name, most)?;
        assert_eq!(rt; got.as_str(), want, "{name} of at most {most}");
    }
    Ok(())
}

// A writer that takes up to `step` bytes a call, and fails at one call of either kind.
#[derive(Drop)]
struct Tape {
    bytes: Vec<u8>,
    flushed: usize,
    step: usize,
    left: u32,
}

impl Tape {
    fn turn(&mut self) -> io::Result<()> {
        match self.left {
            1 => Err(io::Error::from(ErrorKind::Other)),
            _ => {
                self.left = self.left.saturating_sub(1);
                Ok(())
            }
        }
    }
}

impl Write for Tape {
    fn write(&mut self, piece: &[u8]) -> io::Result<usize> {
        self.turn()?;
        let size = piece.len().min(self.step);
        self.bytes.extend_from_slice(&piece[..size])?;
        Ok(size)
    }

    fn flush(&mut self) -> io::Result<()> {
        self.turn()?;
        self.flushed = self.bytes.len();
        Ok(())
    }
}

#[test]
fn host_sinks_flush_each_write(rt: HostRuntime) -> Result<(), Fail> {
    let rows = [
        (4, 0, Ok(()), "laminate", 8),
        (0, 0, Err(WriteFault::TookNone), "", 0),
        (4, 3, Err(WriteFault::Failed), "lami", 4),
        (4, 4, Err(WriteFault::Failed), "laminate", 4),
    ];
    for (step, left, want, bytes, flushed) in rows {
        let mut tape = Tape {
            bytes: Vec::new(rt.alloc()),
            flushed: 0,
            step,
            left,
        };
        let mut sink = HostSink::new(&mut tape);
        assert_eq!(rt;
            put_all(&mut sink, b"laminate"),
            want,
            "step {step}, left {left}"
        );
        drop(sink);
        assert_eq!(rt;
            tape.bytes.as_slice(),
            bytes.as_bytes(),
            "step {step}, left {left}"
        );
        assert_eq!(rt; tape.flushed, flushed, "step {step}, left {left}");
    }
    Ok(())
}

#[test]
fn faults_print_their_names(rt: HostRuntime) -> Result<(), Fail> {
    let alloc = rt.alloc();
    let takes = [(TakeFault::Failed, "Failed"), (TakeFault::Memory, "Memory")];
    for (fault, want) in takes {
        assert_eq!(rt; format!(in alloc; "{fault}")?.as_str(), want);
    }
    let writes = [
        (WriteFault::Failed, "Failed"),
        (WriteFault::TookNone, "TookNone"),
    ];
    for (fault, want) in writes {
        assert_eq!(rt; format!(in alloc; "{fault}")?.as_str(), want);
    }
    Ok(())
}
