// What a program prints of an operation that writes bytes: the lines of an acceptance, or the line of a refusal.
// specs/Lines.antt has the text; the check program prints it.
#![tactic(auto)]

ghost use Rattle.std.specs.Prelude.{◌+◌, ◌*◌, ◌≤◌, length, take};
ghost use Rattle.files.specs.Counts.{IsPrefixLen};
ghost use Rattle.answer_text.specs.Lines.{PutAccepted, AnswerLines};

// The lines of an acceptance: how many bytes were written, and these.
fn put_accepted(text: &mut [u8], bytes: &[u8]) -> usize
    ensures prefix_len { IsPrefixLen result text.new }
    ensures put_accepted { PutAccepted text.old bytes.now text.new result }
{
    let mut end = files::put_number(text, 0, b"accepted ", bytes.len() as u64);
    end = files::put_text(text, end, b"\n");
    end = files::put_hex(text, end, bytes);
    files::put_text(text, end, b"\n")
}

// What is to be printed of an answer and the bytes that it tells of, at the start of text, which has room for it.
pub fn put_answer(text: &mut [u8], number: u8, file: u8, place: usize, bytes: &[u8]) -> usize
    requires { (79 ≤ length text.old) × (length bytes.now * 2 + 31 ≤ length text.old) }
    ensures prefix_len { IsPrefixLen result text.new }
    ensures answer_lines { AnswerLines number file place bytes.now (take result text.new) }
{
    if number != 0 {
        return files::put_refused(text, number, file, place);
    }
    put_accepted(text, bytes)
}
