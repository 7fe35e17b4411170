//! What samples write.

use super::*;

#[test]
fn a_sample_is_designed_and_its_report_accepted(rt: HostRuntime) -> Result<(), Fail> {
    let alloc = rt.alloc();
    let rows = [
        (
            "sample 1",
            Status::Done,
            "sample 1 least 104 nodes 136 accepted\n",
        ),
        (
            "sample 1 --nodes 1",
            Status::Open,
            "sample 1 open budget nodes 1 accepted\n",
        ),
    ];
    for (line, due, text) in rows {
        let mut files = MemoryFiles::new(alloc);
        let mut sink = MemorySink::new(alloc, 100, 100)?;
        let status = run_line(alloc, line, &mut files, &mut sink)?;
        assert_eq!(rt; sink.written(), text.as_bytes(), "{line}");
        assert_eq!(rt; status, due);
    }
    Ok(())
}
