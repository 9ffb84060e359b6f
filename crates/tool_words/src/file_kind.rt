//! Kinds of the file of a run.

/// The kind of the file of a run: a specification, or a program.
#[derive(Clone, Copy, Debug)]
pub enum FileKind {
    Spec,
    Program,
}
