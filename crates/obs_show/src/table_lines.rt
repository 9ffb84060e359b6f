//! Lines of fields as comma-separated values.

ghost use Rattle.std.specs.Prelude.{◌≡◌, [], ◌∷◌, ◌++◌, List, ℕ, decimal, IfOk, OnOk};
ghost use Rattle.csv.specs.Records.{fields_of, partial_of};
ghost use Rattle.csv.specs.Writing.{default_writer, row_text};
ghost use Rattle.obs_show.specs.TableText.{HasText, field_of, figure_fields, shown_fields};
ghost use Rattle.obs_show.specs.Table.{columns};

use crate::table_fields::{Figures, Shown};
use csv::{ByteRecord, Writer};
use itoa::{Buffer, Integer};
use std::alloc::{AllocError, Global};

/// Appends a number to the fields of a row, or an empty field for `None`.
fn push_number<I: Integer>(row: &mut ByteRecord, number: Option<I>) -> Result<(), AllocError>
    requires { partial_of row.old ≡ [] }
    ensures fields { OnOk result
        (fields_of row.new ≡ fields_of row.old ++ field_of I.text number ∷ []) }
    ensures partial { OnOk result (partial_of row.new ≡ []) }
{
    match number {
        Some(number) => row.push_field(Buffer::new().format(number).as_bytes()),
        None => row.push_field(b""),
    }
}

/// Fills a row with the fields of a line.
fn fill(
    row: &mut ByteRecord,
    engine: &str,
    number: usize,
    shown: Shown,
    figures: Figures,
) -> Result<(), AllocError>
    ensures { OnOk result (fields_of row.new
        ≡ engine.now ∷ decimal number ∷ shown_fields shown ++ figure_fields figures) }
{
    row.clear();
    row.push_field(engine.as_bytes())?;
    push_number(row, Some(number))?;
    row.push_field(shown.name.as_bytes())?;
    push_number(row, shown.left)?;
    push_number(row, shown.right)?;
    push_number(row, shown.low)?;
    push_number(row, shown.high)?;
    push_number(row, figures.best)?;
    push_number(row, figures.worst)?;
    push_number(row, figures.size)
}

/// The lines of a table, written in memory.
#[derive(Drop)]
pub(crate) struct Lines {
    writer: Writer<Vec<u8>>,
    /// The fields of the last line. The next line uses their memory again.
    row: ByteRecord,
}

impl Lines {
    /// Creates a table without lines.
    pub(crate) fn new(alloc: Global) -> Lines
        ensures { HasText result [] }
    {
        Lines {
            writer: Writer::from_writer(Vec::new(alloc)),
            row: ByteRecord::new(alloc),
        }
    }

    /// Writes the names of the columns.
    pub(crate) fn head(&mut self) -> Result<(), AllocError>
        ensures { (text : List ℕ) → HasText self.old text
            → OnOk result (HasText self.new (text ++ row_text default_writer columns)) }
    {
        let names: [&[u8]; 10] = [
            b"engine",
            b"number",
            b"operation",
            b"left",
            b"right",
            b"low",
            b"high",
            b"best",
            b"worst",
            b"size",
        ];
        self.writer.write_fields(&names).map_err(|_| AllocError)
    }

    /// Writes the line of an instruction.
    pub(crate) fn put(
        &mut self,
        engine: &str,
        number: usize,
        shown: Shown,
        figures: Figures,
    ) -> Result<(), AllocError>
        ensures { (text : List ℕ) → HasText self.old text
            → OnOk result (HasText self.new (text ++ row_text default_writer
            (engine.now ∷ decimal number ∷ shown_fields shown ++ figure_fields figures))) }
    {
        fill(&mut self.row, engine, number, shown, figures)?;
        self.writer
            .write_byte_record(&self.row)
            .map_err(|_| AllocError)
    }

    /// Returns the text of the lines.
    pub(crate) fn into_text(self) -> Result<Vec<u8>, AllocError>
        ensures { (text : List ℕ) → HasText self text → IfOk result (λ bytes. bytes.items ≡ text) }
    {
        self.writer.into_inner().map_err(|_| AllocError)
    }
}
