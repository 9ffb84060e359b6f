//! The messages of both programs.

ghost use Rattle.std.specs.Prelude.{◌≡◌, ◌+◌, ◌≤◌, ◌++◌, length, decimal};
ghost use Rattle.arrayvec.specs.ArrayVec.{array_vec_len};
ghost use Rattle.c2po_compile.specs.FaultTexts.{header_fault_of, spec_line_text, refusal_text};
ghost use Rattle.c2po_compile.specs.HeaderTexts.{header_fault_text, missing_text, twice_text};
ghost use Rattle.tool_words.specs.Messages.{message, usage, tool_name, trace_text, place_name, status_text};

use crate::Status;
use arrayvec::ArrayVec;
use c2po_compile::{HeaderWhy, Refusal};
use mltl_base::Name;
use mltl_base::text::{add, add_number};
use tool_io::Place;
use trace_feed::TraceWhy;

/// A program of the product.
#[derive(Clone, Copy)]
pub enum Tool {
    C2po,
    R2u2,
}

/// The bytes of a message.
type Text = ArrayVec<u8, 192>;

/// Returns the message of a status, with its newline: nothing for success, the usage line for help
/// and for invalid arguments, and else the program's name and the fault.
pub fn message_of(tool: Tool, status: &Status) -> ArrayVec<u8, 192>
    ensures { result.items ≡ message tool status.now }
{
    let mut text = ArrayVec::new();
    match status {
        Status::Done => {}
        Status::Helped | Status::Usage => add(&mut text, usage_of(tool).as_bytes()),
        _ => {
            add(&mut text, name_of_tool(tool).as_bytes());
            add(&mut text, b": ");
            add_status(&mut text, status);
            add(&mut text, b"\n");
        }
    }
    text
}

fn usage_of(tool: Tool) -> &'static str
    ensures text { result.now ≡ usage tool }
    ensures short { length result.now ≤ 192 }
{
    match tool {
        Tool::C2po => {
            "usage: c2po [--header FILE] [-o FILE] [--table] [--simplify] SPEC | c2po --upgrade [-o FILE] PROGRAM | c2po --show [-o FILE] PROGRAM\n"
        }
        Tool::R2u2 => {
            "usage: r2u2 [--source] [--runs] [--timed] [--mission-time N] FILE [TRACE] | r2u2 --demo SEED,ROWS\n"
        }
    }
}

fn name_of_tool(tool: Tool) -> &'static str
    ensures text { result.now ≡ tool_name tool }
    ensures short { length result.now ≡ 4 }
{
    match tool {
        Tool::C2po => "c2po",
        Tool::R2u2 => "r2u2",
    }
}

fn add_status(text: &mut Text, status: &Status)
    requires { array_vec_len text.old ≤ 6 }
    ensures items { text.new.items ≡ text.old.items ++ status_text status.now }
    ensures len { array_vec_len text.new ≤ 191 }
{
    match status {
        Status::Done | Status::Helped | Status::Usage => {}
        Status::Refused(line, why) => add_refusal(text, *line, *why),
        Status::BadProgram(fault) => {
            add(text, b"program: ");
            add(text, &fault.text());
        }
        Status::BadHeader(why) => {
            add(text, b"header: ");
            add_header(text, why);
        }
        Status::BadTrace(line, why) => {
            add(text, b"trace line ");
            add_number(text, *line);
            add(text, b": ");
            add_trace(text, why);
        }
        Status::TooLong => add(text, b"trace longer than the mission time"),
        Status::Memory => add(text, b"out of memory"),
        Status::TextTooLong(place) => {
            add(text, name_of_place(*place).as_bytes());
            add(text, b" too long");
        }
        Status::OpenFault(place) => add_place(text, b"cannot open ", *place),
        Status::ReadFault(place) => add_place(text, b"cannot read ", *place),
        Status::WriteFault(place) => add_place(text, b"cannot write ", *place),
    }
}

fn add_place(text: &mut Text, what: &[u8], place: Place)
    requires { array_vec_len text.old + length what.now ≤ 160 }
    ensures items { text.new.items ≡ text.old.items ++ (what.now ++ place_name place) }
    ensures len { array_vec_len text.new ≤ array_vec_len text.old + length what.now + 13 }
{
    add(text, what);
    add(text, name_of_place(place).as_bytes());
}

fn name_of_place(place: Place) -> &'static str
    ensures text { result.now ≡ place_name place }
    ensures short { length result.now ≤ 13 }
{
    match place {
        Place::Spec => "specification",
        Place::Header => "header",
        Place::Program => "program",
        Place::Trace => "trace",
        Place::Out => "output",
        Place::Err => "error output",
    }
}

fn add_refusal(text: &mut Text, line: u32, why: Refusal)
    requires { array_vec_len text.old ≤ 6 }
    ensures items { text.new.items ≡ text.old.items ++ (spec_line_text line ++ refusal_text why) }
    ensures len { array_vec_len text.new ≤ 191 }
{
    add_line(text, line);
    add(text, why.text().as_bytes());
}

fn add_line(text: &mut Text, line: u32)
    requires { array_vec_len text.old ≤ 6 }
    ensures items { text.new.items ≡ text.old.items ++ spec_line_text line }
    ensures len { array_vec_len text.new ≤ 60 }
{
    if line == 0 {
        return;
    }
    add(text, b"line ");
    add_number(text, u64::from(line));
    add(text, b": ");
}

fn add_header(text: &mut Text, why: &HeaderWhy)
    requires { array_vec_len text.old ≤ 100 }
    ensures items { text.new.items ≡ text.old.items ++ header_fault_text (header_fault_of why.now) }
    ensures len { array_vec_len text.new ≤ 191 }
{
    match why {
        HeaderWhy::NoHeader => add(text, b"no header"),
        HeaderWhy::Missing(name) => add_missing(text, name),
        HeaderWhy::Twice(name) => add_twice(text, name),
    }
}

fn add_missing(text: &mut Text, name: &Name)
    requires { array_vec_len text.old ≤ 100 }
    ensures items { text.new.items ≡ text.old.items ++ missing_text name.now }
    ensures len { array_vec_len text.new ≤ 191 }
{
    add(text, b"name ");
    add(text, name.bytes());
    add(text, b" missing");
}

fn add_twice(text: &mut Text, name: &Name)
    requires { array_vec_len text.old ≤ 100 }
    ensures items { text.new.items ≡ text.old.items ++ twice_text name.now }
    ensures len { array_vec_len text.new ≤ 191 }
{
    add(text, b"name ");
    add(text, name.bytes());
    add(text, b" twice");
}

fn add_column(text: &mut Text, what: &[u8], column: u32)
    requires { array_vec_len text.old + length what.now ≤ 150 }
    ensures items { text.new.items ≡ text.old.items ++ (what.now ++ decimal (column + 1)) }
    ensures len { array_vec_len text.new ≤ 170 }
{
    add(text, what);
    add_number(text, u64::from(column) + 1);
}

fn add_trace(text: &mut Text, why: &TraceWhy)
    requires { array_vec_len text.old ≤ 100 }
    ensures items { text.new.items ≡ text.old.items ++ trace_text why.now }
    ensures len { array_vec_len text.new ≤ 191 }
{
    match why {
        TraceWhy::Width => add(text, b"too few fields"),
        TraceWhy::NotWhole(column) => add_column(text, b"not a whole number in column ", *column),
        TraceWhy::OutOfRange(column) => add_column(text, b"out of range in column ", *column),
        TraceWhy::LongLine => add(text, b"line too long"),
        TraceWhy::Missing(name) => add_missing(text, name),
        TraceWhy::Twice(name) => add_twice(text, name),
        TraceWhy::Stamp => add(text, b"bad time stamp"),
        TraceWhy::Order => add(text, b"times not rising"),
    }
}
