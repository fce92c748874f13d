// Lines of standard input and output.
use std::alloc::Global;
use std::io;
use std::io::{BufRead, Read, Write};

/// The next line of the input, without its line feed. None at the end. Of a line that has more than `most` bytes the
/// first `most + 1` are given, and the others skipped, so that no more is kept of it.
pub fn next_line<B: BufRead>(
    alloc: Global,
    reader: &mut B,
    most: u32,
) -> io::Result<Option<Vec<u8>>> {
    let mut line = Vec::new(alloc);
    let mut front = reader.by_ref().take(u64::from(most) + 1);
    if front.read_until(b'\n', &mut line)? == 0 {
        return Ok(None);
    }
    if line.last() == Some(&b'\n') {
        line.pop();
    } else {
        reader.skip_until(b'\n')?;
    }
    Ok(Some(line))
}

/// The lines before the line `requests`, or before the end. None if they have more than `most` bytes; the rest isn't
/// read then.
pub fn read_frame<B: BufRead>(
    alloc: Global,
    reader: &mut B,
    most: u32,
) -> io::Result<Option<Vec<u8>>> {
    let mut frame = Vec::new(alloc);
    for _ in 0..u64::MAX {
        let Some(line) = next_line(alloc, reader, most)? else {
            break;
        };
        if line.as_slice() == b"requests".as_slice() {
            break;
        }
        if line.len() >= (most as usize).saturating_sub(frame.len()) {
            return Ok(None);
        }
        frame.extend_from_slice(line.as_slice())?;
        frame.push(b'\n')?;
    }
    Ok(Some(frame))
}

/// Prints a line, at once.
pub fn print_line(rt: &HostRuntime, text: &[u8]) -> io::Result<()> {
    let mut out = io::writer(rt);
    out.write_all(text)?;
    out.write_all(b"\n")?;
    out.flush()
}
