// A line that is read.
use mono_machine::List;
use mono_text::Reader;
use std::alloc::Global;

fn is_one_line(alloc: Global, reader: &mut Reader<'_>) -> bool {
    let mut spare = List::new(alloc);
    matches!(reader.line(alloc, &mut spare), Ok(Some(_))) && reader.is_empty()
}

#[test]
fn a_line_is_read(rt: HostRuntime) {
    let mut reader = Reader::new(b"turn; wake 0; pending\n".as_slice());
    assert!(rt; is_one_line(rt.alloc(), &mut reader));
}
