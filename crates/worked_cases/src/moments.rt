//! The number of lines of a trace that are read before each line of an output is out.

/// A line of an output: the number of lines of the trace that are read before it is out, and its
/// end in the output.
#[derive(Clone, Copy)]
pub struct Told {
    pub lines: usize,
    pub end: usize,
}

/// Returns the part of an output that is out after `lines` lines of the trace are read.
pub fn out_after<'a>(told: &[Told], lines: usize, output: &'a [u8]) -> &'a [u8] {
    let mut end = 0usize;
    for line in told {
        if line.lines <= lines {
            end = end.max(line.end);
        }
    }
    output.get(..end).unwrap_or(output)
}

/// Returns the number of bytes of the first lines of a text.
pub fn front_len(text: &[u8], lines: usize) -> usize {
    let mut left = lines;
    for (place, byte) in text.iter().enumerate() {
        if left == 0 {
            return place;
        }
        left = left.saturating_sub(usize::from(*byte == b'\n'));
    }
    text.len()
}

/// Returns the number of lines of a text. A last line without a newline counts.
pub fn line_count(text: &[u8]) -> usize {
    let mut count = 0usize;
    let mut before = b'\n';
    for byte in text {
        count = count.saturating_add(usize::from(before == b'\n'));
        before = *byte;
    }
    count
}
