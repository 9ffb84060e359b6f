//! Spaces and tabs, which are ignored around fields and names.

ghost use Rattle.std.specs.Prelude.{◌≡◌};
ghost use Rattle.mltl_base.specs.Blanks.{is_blank as is_space_or_tab, is_blank_line as is_all_blank};

/// Returns true if the byte is a space or a tab.
pub fn is_blank(byte: u8) -> bool
    ensures { result ≡ is_space_or_tab byte }
{
    byte == b' ' || byte == b'\t'
}

/// Returns true if the line has nothing but blanks.
pub fn is_blank_line(line: &[u8]) -> bool
    ensures { result ≡ is_all_blank line.now }
{
    line.iter().all(|byte| is_blank(*byte))
}
