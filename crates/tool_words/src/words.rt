//! The arguments of a command line.

ghost use Rattle.std.specs.Prelude.{◌≡◌, ◌==◌, ◌<◌, [], ◌∷◌, ◌++◌, length, slice_get, map, Some, OnOk, OnErr};
ghost use Rattle.std.specs.List.{list_all};
ghost use Rattle.std.specs.Str.{is_utf8};
ghost use Rattle.tool_words.specs.Texts.{are_texts, text_of};

use std::alloc::{AllocError, Global};
use std::convert::AsStr;
use std::marker::Model;

/// The arguments after a program's own name, which contracts see as the list of their bytes. An
/// argument needn't be UTF-8.
#[derive(Drop)]
pub struct Words {
    alloc: Global,
    words: Vec<WordBytes>,
}

impl Model for Words {
    ghost use Rattle.std.specs.Prelude.{List, ℕ, map};

    ghost Value = { List (List ℕ) };

    ghost view = { λ w. map (λ word. word.bytes.items) w.words.items };
}

impl Words {
    /// Makes an empty list of arguments. It doesn't allocate.
    pub fn new(alloc: Global) -> Words
        ensures { result ≡ [] }
    {
        Words {
            alloc,
            words: Vec::new(alloc),
        }
    }

    /// Appends a word. If out of memory, nothing changes.
    pub fn push(&mut self, word: &str) -> Result<(), AllocError>
        ensures pushed { OnOk result (self.new ≡ self.old ++ word.now ∷ []) }
        ensures kept { OnErr result (self.new ≡ self.old) }
    {
        self.push_bytes(word.as_bytes())
    }

    /// Appends a word by its bytes. If out of memory, nothing changes.
    pub fn push_bytes(&mut self, word: &[u8]) -> Result<(), AllocError>
        ensures pushed { OnOk result (self.new ≡ self.old ++ word.now ∷ []) }
        ensures kept { OnErr result (self.new ≡ self.old) }
    {
        let bytes = word.to_vec(self.alloc)?;
        self.words.push(WordBytes { bytes })?;
        Ok(())
    }

    /// Returns the number of words.
    pub fn len(&self) -> usize
        ensures { result ≡ length self.now }
    {
        self.words.len()
    }

    /// Returns true if there are no words.
    pub fn is_empty(&self) -> bool
        ensures { result ≡ (length self.now == 0) }
    {
        self.words.is_empty()
    }

    /// Returns word `i`, counted from 0, as a text, or the empty text if the word isn't UTF-8.
    pub fn get(&self, i: usize) -> &str
        requires { i < length self.now }
        ensures { slice_get (map text_of self.now) i ≡ Some result.now }
    {
        self.words[i].as_str()
    }

    /// Returns true if all words are UTF-8.
    pub fn are_texts(&self) -> bool
        ensures { result ≡ are_texts self.now }
    {
        are_utf8(&self.words)
    }

    /// Returns the words. `get` returns each as a text.
    pub(crate) fn as_slice(&self) -> &[WordBytes]
        ensures { map (λ word. text_of word.bytes.items) result.now ≡ map text_of self.now }
    {
        self.words.as_slice()
    }
}

/// The bytes of a word.
#[derive(Drop)]
pub(crate) struct WordBytes {
    bytes: Vec<u8>,
}

impl WordBytes {
    /// Returns true if the bytes are UTF-8.
    fn is_text(&self) -> bool
        ensures { result ≡ is_utf8 self.now.bytes.items }
    {
        str::from_utf8(&self.bytes).is_ok()
    }
}

fn are_utf8(words: &[WordBytes]) -> bool
    ensures { result ≡ list_all (λ word. is_utf8 word.bytes.items) words.now }
{
    words.iter().all(|word| word.is_text())
}

impl AsStr for WordBytes {
    ghost use Rattle.tool_words.specs.Texts.{text_of};

    ghost text = { λ word. text_of word.bytes.items };

    fn as_str(&self) -> &str {
        match str::from_utf8(&self.bytes) {
            Ok(text) => text,
            Err(_) => "",
        }
    }
}
