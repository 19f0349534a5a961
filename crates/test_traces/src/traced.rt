use cc_types::Checked;
use ccpp_edge::Bytes;
use ccpp_source::read_source;
use effect_journal::{read_journal, write_header};
use std::alloc::Global;
use std::test::Fail;
use trace_check::{Verdict, trace};

/// What is found of a journal of these lines, for a program whose `main` takes these ints.
pub(crate) fn traced(
    alloc: Global,
    source: &str,
    ints: &[i64],
    lines: &str,
) -> Result<Verdict, Fail> {
    match read_source(alloc, source.as_bytes()) {
        Ok(checked) => traced_in(alloc, &checked, ints, lines),
        Err(_) => Err(Fail::new("no program")),
    }
}

fn traced_in(alloc: Global, checked: &Checked, ints: &[i64], lines: &str) -> Result<Verdict, Fail> {
    if ints.len() != checked.main_parameters() as usize {
        return Err(Fail::new("another number of ints"));
    }
    let mut text = Bytes::new(alloc);
    write_header(alloc, &mut text)?;
    text.extend_from_slice(lines.as_bytes())?;
    let entries = read_journal(alloc, text.as_slice())?;
    Ok(trace(alloc, checked, ints, entries.as_slice())?)
}
