//! The columns of signals.

ghost use Rattle.std.specs.Prelude.{◌≡◌, ◌≢◌, ◌≤◌, ◌<◌, ◌^◌, [], ℕ, option_map, List as Items, true, false, All, length, map, IfOk, IfErr, Ok, Err};
ghost use Rattle.mltl_base.specs.declared.limits.TheConstants.{MAX_LINE_BYTES};
ghost use Rattle.csv.specs.Machine.{next_record};
ghost use Rattle.csv.specs.Reading.{default_config, strip_bom};
ghost use Rattle.csv.specs.Records.{fields_of};
ghost use Rattle.csv.specs.declared.parser.State.TheVariants as state;
ghost use Rattle.obs_verify.specs.Bound.{AreDifferent};
ghost use Rattle.trace_columns.specs.Header.{AreDifferentNames, begins_header, bound_to, columns_in_order, columns_of, first_record as csv_record, header_meaning, names_of, of_width};
ghost use Rattle.trace_columns.specs.Places.{AreColumnPlaces};

use crate::header_fault::HeaderFault;
use crate::named::Named;
use crate::names::Places;
use csv::{ByteRecord, ReaderBuilder};
use mltl_base::limits::MAX_SIGNALS;
use mltl_base::{Columns, List, Signal};
use obs_verify::{Checked, rebind};
use std::alloc::{AllocError, Global};

/// The number of columns, and the columns of names.
#[derive(Drop)]
struct NamedColumns {
    width: u32,
    places: Places,
}

/// Returns the first record of a text, if it has one.
fn first_record(alloc: Global, text: &[u8]) -> Result<Option<ByteRecord>, HeaderFault>
    ensures fields { IfOk result (λ found. option_map fields_of found ≡ option_map (λ read. read.0)
        (next_record default_config state.StartRecord [] [] (strip_bom text.now))) }
    ensures memory { IfErr result (λ fault. fault ≡ HeaderFault.Memory) }
{
    let mut reader = ReaderBuilder::new()
        .has_headers(false)
        .from_reader(alloc, text);
    let mut fields = ByteRecord::new(alloc);
    match reader.read_byte_record(&mut fields) {
        Ok(true) => Ok(Some(fields)),
        Ok(false) => Ok(None),
        Err(_) => Err(HeaderFault::Memory),
    }
}

/// Returns the first record of a text, or a record without fields if it has none.
fn record_or_none(alloc: Global, text: &[u8]) -> Result<ByteRecord, HeaderFault>
    requires { length text.now < MAX_LINE_BYTES }
    ensures fields { IfOk result (λ r. fields_of r ≡ csv_record text.now) }
    ensures narrow { IfOk result (λ r. length (fields_of r) ≤ MAX_SIGNALS) }
    ensures memory { IfErr result (λ fault. fault ≡ HeaderFault.Memory) }
{
    match first_record(alloc, text)? {
        Some(fields) => Ok(fields),
        None => Ok(ByteRecord::new(alloc)),
    }
}

fn read_header(alloc: Global, line: &[u8]) -> Result<NamedColumns, HeaderFault>
    requires { length line.now < MAX_LINE_BYTES }
    ensures begins { IfOk result (λ named. begins_header line.now ≡ true) }
    ensures width { IfOk result (λ named. named.width ≡ length (names_of line.now)) }
    ensures narrow { IfOk result (λ named. named.width ≤ MAX_SIGNALS) }
    ensures places { IfOk result (λ named. AreColumnPlaces (names_of line.now) named.places) }
    ensures fault { IfErr result (λ fault. fault ≢ HeaderFault.Memory
        → (fault ≡ HeaderFault.NoHeader) × (begins_header line.now ≡ false)) }
{
    match line {
        [b'#', text @ ..] => {
            let fields = record_or_none(alloc, text)?;
            let width = fields.len() as u32;
            let places = Places::of(alloc, &fields)?;
            Ok(NamedColumns { width, places })
        }
        _ => Err(HeaderFault::NoHeader),
    }
}

/// Returns the columns of signals, by their names.
fn find_columns<T: Named>(
    alloc: Global,
    named: &NamedColumns,
    signals: &[T],
) -> Result<Columns, HeaderFault>
    ensures columns { IfOk result (λ columns. (names : Items (Items ℕ)) →
        AreColumnPlaces names named.now.places → of_width named.now.width
        (columns_of names (map T.name_of signals.now)) ≡ Ok columns) }
    ensures fault { IfErr result (λ fault. fault ≢ HeaderFault.Memory
        → (names : Items (Items ℕ)) → AreColumnPlaces names named.now.places
        → columns_of names (map T.name_of signals.now) ≡ Err fault) }
{
    let mut of_signal = List::room_for(alloc, signals.len())?;
    for signal in signals {
        let name = signal.name();
        of_signal.push_reserved(named.places.find(name)?);
    }
    Ok(Columns {
        width: named.width,
        of_signal: List::of(of_signal),
    })
}

/// Returns the columns of signals by the names of a header, which follow `#` as one record of CSV.
/// Spaces and tabs around a name are ignored.
///
/// Errors: `NoHeader` if the line doesn't begin with `#`; for the first signal whose name doesn't
/// occur exactly once, `Missing` or `Twice`; `Memory` when out of memory.
pub fn header(alloc: Global, line: &[u8], signals: &List<Signal>) -> Result<Columns, HeaderFault>
    requires { length line.now < MAX_LINE_BYTES }
    ensures columns { IfOk result (λ columns.
        header_meaning (map (λ s. s.name) signals.now) line.now ≡ Ok columns) }
    ensures fault { IfErr result (λ fault. fault ≢ HeaderFault.Memory
        → header_meaning (map (λ s. s.name) signals.now) line.now ≡ Err fault) }
    ensures narrow { IfOk result (λ columns. columns.width ≤ MAX_SIGNALS) }
    ensures one_each { IfOk result (λ columns. length columns.of_signal ≡ length signals.now) }
    ensures below { IfOk result (λ columns.
        All (λ column. column < columns.width) columns.of_signal) }
    ensures different { IfOk result (λ columns.
        AreDifferentNames (map (λ s. s.name) signals.now) → AreDifferent columns.of_signal) }
{
    let named = read_header(alloc, line)?;
    find_columns(alloc, &named, signals.as_slice())
}

/// Returns the columns of a program's stored signals in order, with the errors of [`header`].
pub fn header_of(alloc: Global, line: &[u8], checked: &Checked) -> Result<Columns, HeaderFault>
    requires version { checked.now.version ≡ 2 }
    requires short { length line.now < MAX_LINE_BYTES }
    ensures columns { IfOk result (λ columns.
        header_meaning (map (λ s. s.name) checked.now.signals) line.now ≡ Ok columns) }
    ensures fault { IfErr result (λ fault. fault ≢ HeaderFault.Memory
        → header_meaning (map (λ s. s.name) checked.now.signals) line.now ≡ Err fault) }
    ensures narrow { IfOk result (λ columns. columns.width ≤ MAX_SIGNALS) }
    ensures one_each { IfOk result (λ columns.
        length columns.of_signal ≡ length checked.now.signals) }
    ensures below { IfOk result (λ columns.
        All (λ column. column < columns.width) columns.of_signal) }
    ensures different { IfOk result (λ columns. AreDifferent columns.of_signal) }
{
    let named = read_header(alloc, line)?;
    find_columns(alloc, &named, checked.program().signals.as_slice())
}

/// Moves a program's stored signals to the columns that a header names.
///
/// Errors: as in [`header_of`]; the program is dropped then.
pub fn bind_to_header(alloc: Global, checked: Checked, line: &[u8]) -> Result<Checked, HeaderFault>
    requires version { checked.version ≡ 2 }
    requires short { length line.now < MAX_LINE_BYTES }
    ensures bound { IfOk result (λ program. bound_to checked line.now ≡ Ok program) }
    ensures fault { IfErr result (λ fault. fault ≢ HeaderFault.Memory
        → bound_to checked line.now ≡ Err fault) }
{
    let columns = header_of(alloc, line, &checked)?;
    Ok(rebind(checked, &columns))
}

/// Returns the columns if there is no header: signal k has column k.
pub fn in_order(alloc: Global, signals: &List<Signal>) -> Result<Columns, AllocError>
    requires { length signals.now < 2 ^ 32 }
    ensures { IfOk result (λ columns. columns ≡ columns_in_order (length signals.now)) }
{
    let width = signals.len() as u32;
    let mut of_signal = List::new(alloc);
    for column in 0..width {
        of_signal.push(column)?;
    }
    Ok(Columns { width, of_signal })
}
