//! Numbers among the arguments of a command line.

ghost use Rattle.std.specs.Prelude.{◌≡◌, ◌≤◌, IfSome};
ghost use Rattle.tool_words.specs.Reading.{word_value};

/// The numbers that an option takes.
#[derive(Clone, Copy)]
pub(crate) struct Numbers {
    /// The most digits, with leading zeros.
    pub digits: usize,
    pub least: u64,
    pub greatest: u64,
}

impl Numbers {
    /// Returns the number that a text spells in plain decimal digits, or `None` if it spells no
    /// number that the option takes.
    pub fn read(self, text: &str) -> Option<u64>
        ensures read { result ≡ word_value self.digits self.least self.greatest text.now }
        ensures within { IfSome result (λ n. (self.least ≤ n) × (n ≤ self.greatest)) }
    {
        // `parse` takes a leading plus, which isn't allowed here
        if text.starts_with('+') {
            return None;
        }
        if text.len() > self.digits {
            return None;
        }
        match text.parse::<u64>() {
            Ok(n) if self.least <= n && n <= self.greatest => Some(n),
            _ => None,
        }
    }
}
