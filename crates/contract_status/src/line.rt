//! The lines of reports.

ghost use Rattle.std.specs.Prelude.{◌≡◌, ◌+◌, ◌^◌, ◌<◌, ◌≤◌, ◌∷◌, ◌++◌, codes, drop, length};
ghost use Rattle.mltl_base.specs.declared.limits.TheConstants.{TIME_END};
ghost use Rattle.arrayvec.specs.ArrayVec.{array_vec_len};
ghost use Rattle.mltl_base.specs.Lines.{line, word_text};
ghost use Rattle.mltl_base.specs.Programs.{output_names};

use arrayvec::ArrayVec;
use itoa::write_digits;
use mltl_base::text::add;
use mltl_base::{Report, Word};
use obs_verify::Checked;

/// Returns the line of a report: the name of its output, its time and its word, with a newline.
pub fn line_of(report: &Report, checked: &Checked) -> ArrayVec<u8, 128>
    requires exists { report.now.out < length checked.now.outs }
    requires early { report.now.time < TIME_END }
    ensures line { result.items ≡ line (output_names checked.now) report.now }
    ensures short { array_vec_len result ≤ 88 }
{
    let mut room = [0; 128];
    let start = write_line(&mut room, report, checked);
    let mut text = ArrayVec::new();
    add(&mut text, &room[start..]);
    text
}

/// Writes the line of a report at the end of the room, and returns its start. A line has at most 88
/// bytes: a name, a time of at most 13 digits, a word and three signs. It is written from its last
/// byte on, so that no digit is moved.
#[inline(always)]
pub fn write_line(room: &mut [u8; 128], report: &Report, checked: &Checked) -> usize
    requires exists { report.now.out < length checked.now.outs }
    requires early { report.now.time < TIME_END }
    ensures line { drop result room.new ≡ line (output_names checked.now) report.now }
    ensures within { result ≤ 128 }
    ensures short { 40 ≤ result }
{
    let word = write_word(room, report.word);
    let comma = write_byte(room, word, b',');
    let time = write_digits(report.time, room, comma);
    let colon = write_byte(room, time, b':');
    let out = checked.program().outs.get(report.out as usize);
    write_bytes(room, colon, out.name().bytes())
}

/// Writes a word and a newline at the end of the room, and returns the start of the word. The words
/// of formulas have one byte.
#[inline(always)]
fn write_word(room: &mut [u8; 128], word: Word) -> usize
    ensures written { drop result room.new ≡ word_text word ++ codes "\n" }
    ensures within { result ≤ 128 }
    ensures short { 119 ≤ result }
{
    let end = write_byte(room, 128, b'\n');
    match word {
        Word::T => write_byte(room, end, b'T'),
        Word::F => write_byte(room, end, b'F'),
        _ => write_bytes(room, end, word.text().as_bytes()),
    }
}

/// Writes a byte just before `end`, and returns its place.
#[inline(always)]
fn write_byte(room: &mut [u8; 128], end: usize, byte: u8) -> usize
    requires some { 0 < end }
    requires within { end ≤ 128 }
    ensures start { result + 1 ≡ end }
    ensures written { drop result room.new ≡ byte ∷ drop end room.old }
{
    let start = end - 1;
    room[start] = byte;
    start
}

/// Writes bytes just before `end`, and returns their start.
#[inline(always)]
fn write_bytes(room: &mut [u8; 128], end: usize, bytes: &[u8]) -> usize
    requires fits { length bytes.now ≤ end }
    requires within { end ≤ 128 }
    ensures start { result + length bytes.now ≡ end }
    ensures written { drop result room.new ≡ bytes.now ++ drop end room.old }
{
    let start = end - bytes.len();
    room[start..end].copy_from_slice(bytes);
    start
}
