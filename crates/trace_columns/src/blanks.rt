//! Spaces and tabs, which are ignored around fields and names.

ghost use Rattle.std.specs.Prelude.{◌≡◌, ◌≤◌, length};
ghost use Rattle.std.specs.List.{prefix_len, suffix_len};
ghost use Rattle.mltl_base.specs.Blanks.{is_blank as is_space_or_tab};
ghost use Rattle.trace_columns.specs.Blanks.{trimmed as without_blanks};

use mltl_base::blanks::is_blank;

fn blanks_at_front(bytes: &[u8]) -> usize
    ensures longest { result ≡ prefix_len is_space_or_tab bytes.now }
    ensures inside { result ≤ length bytes.now }
{
    bytes.iter().take_while(|byte| is_blank(**byte)).count()
}

fn blanks_at_end(bytes: &[u8]) -> usize
    ensures longest { result ≡ suffix_len is_space_or_tab bytes.now }
    ensures inside { result ≤ length bytes.now }
{
    bytes
        .iter()
        .rev()
        .take_while(|byte| is_blank(**byte))
        .count()
}

/// Returns the bytes without the blanks around them.
#[tactic(auto, unfolding(crate::specs::Blanks::trimmed))]
pub fn trimmed(bytes: &[u8]) -> &[u8]
    ensures { result.now ≡ without_blanks bytes.now }
{
    let rest = &bytes[blanks_at_front(bytes)..];
    &rest[..rest.len() - blanks_at_end(rest)]
}
